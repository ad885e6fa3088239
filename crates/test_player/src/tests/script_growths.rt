//! Scripts read with each growth refused in turn.

use refusing::Refusing;
use ring_script::{Script, ScriptFault};
use std::alloc::Allocator;
use std::process::Abort;
use std::test::Fail;

const SCRIPT: &[u8] =
    b"{\"capacity\":1,\"modulus\":3,\"width\":1,\"items\":[1,0,1,1,0],\"takes\":1,\"close\":false,\"schedule\":\"P8C10PCPCPCPC\",\"oracle\":\"01101\"}";

// The script has what its bytes say.
fn expect_whole<A: Allocator>(rt: &impl Abort, script: &Script<A>) {
    assert!(rt; script.items() == [1, 0, 1, 1, 0].as_slice());
    assert!(rt; script.len() == 26);
    assert!(rt; script.oracle() == [false, true, true, false, true].as_slice());
}

#[test]
fn each_growth_of_a_script_may_be_refused(rt: HostRuntime) -> Result<(), Fail> {
    let mut refused: u64 = 0;
    let mut done_without: u64 = 0;
    for allocations in 0..40 {
        let alloc = Refusing::after(rt.alloc(), allocations);
        let script = Script::read_in(&alloc, rt.alloc(), SCRIPT);
        if !alloc.has_refused() {
            assert!(rt; script.is_ok());
            break;
        }
        match script {
            Err(fault) => {
                assert!(rt; fault == ScriptFault::OutOfMemory);
                refused = refused.saturating_add(1);
            }
            // a vector whose larger growth was refused may make do with a smaller one
            Ok(script) => {
                expect_whole(&rt, &script);
                done_without = done_without.saturating_add(1);
            }
        }
    }
    // the first growths of the items, of the schedule's runs and of the answers
    assert!(rt; 3 <= refused);
    assert!(rt; refused.saturating_add(done_without) < 40);
    Ok(())
}

static NO_GROWTH: [(&[u8], ScriptFault); 3] = [
    (b"{", ScriptFault::NotJson),
    (b"[]", ScriptFault::NotObject),
    (b"{\"note\":1}", ScriptFault::UnknownField),
];

#[test]
fn a_fault_before_any_growth_needs_no_memory(rt: HostRuntime) {
    let alloc = Refusing::after(rt.alloc(), 0);
    for (bytes, fault) in NO_GROWTH.iter() {
        let made = Script::read_in(&alloc, rt.alloc(), bytes).err();
        assert!(rt; made == Some(*fault));
    }
    assert!(rt; !alloc.has_refused());
}
