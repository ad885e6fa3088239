//! The accesses of a call, whichever side makes it: one step, and all of them.
ghost use Rattle.std.specs.Prelude.{◌≡◌, ◌+◌, ◌<◌, List};
ghost use Rattle.bits_core.specs.Made.{Made};
ghost use Rattle.ring_seats.specs.Steppers.{IsAskedOnce};
ghost use Rattle.ring_ends.specs.Machines.{MachineAt, MachineBusy, MachineEnded, MachineReady, MachineStepped, MachineWent};

use crate::machines::SideMachine;
use bits_core::Oracle;
use ring_seats::{Flickering, Stepper};

// One step of the call under way.
fn advance<'a, M: SideMachine, O: Oracle>(
    stepper: &mut Stepper<'a, Flickering>,
    machine: &mut M,
    oracle: &mut O,
)
    requires at { (calls : M.kind.Calls) × (made : List Made) ×
        MachineAt M.kind stepper.old (M.state machine.old) calls made }
    ensures stepped { MachineStepped M.kind stepper.old (M.state machine.old) stepper.new (M.state machine.new)
        (O.answers oracle.old) (O.answers oracle.new) }
    ensures oracle { IsAskedOnce O.answers oracle.old oracle.new }
{
    M::laws();
    match machine.next() {
        None => {}
        Some(access) => match stepper.step(access, oracle) {
            None => {}
            Some(answer) => machine.feed(answer),
        },
    }
}

// How many events of the call under way the list has after one more step.
fn steps_behind<M: SideMachine>(steps: u64, machine: &M) -> u64
    requires stands { (calls : M.kind.Calls) × (made : List Made) × M.kind.Stands (M.state machine.now) calls made }
    requires few { steps < 10000 }
    ensures rests { M.kind.Rests (M.state machine.now) → result ≡ 0 }
    ensures goes { (c : M.kind.Call) → M.kind.Busy (M.state machine.now) c → result ≡ steps + 1 }
{
    M::laws();
    if machine.next().is_none() {
        0
    } else {
        steps + 1
    }
}

// One step of the call under way, and how many events of it the list then has.
pub(crate) fn step<'a, M: SideMachine, O: Oracle>(
    stepper: &mut Stepper<'a, Flickering>,
    machine: &mut M,
    steps: &mut u64,
    oracle: &mut O,
)
    requires at { (calls : M.kind.Calls) × (made : List Made) ×
        MachineAt M.kind stepper.old (M.state machine.old) calls made }
    requires few { steps.old < 10000 }
    ensures stepped { MachineStepped M.kind stepper.old (M.state machine.old) stepper.new (M.state machine.new)
        (O.answers oracle.old) (O.answers oracle.new) }
    ensures oracle { IsAskedOnce O.answers oracle.old oracle.new }
    ensures none { M.kind.Rests (M.state machine.new) → steps.new ≡ 0 }
    ensures more { (c : M.kind.Call) → M.kind.Busy (M.state machine.new) c → steps.new ≡ steps.old + 1 }
{
    M::laws();
    advance(stepper, machine, oracle);
    *steps = steps_behind(*steps, machine);
}

// The rest of a scan of the call under way, if there is one.
#[inline(always)]
fn finish_scan<'a, M: SideMachine, O: Oracle>(
    stepper: &mut Stepper<'a, Flickering>,
    machine: &mut M,
    oracle: &mut O,
)
    requires { MachineBusy M.kind stepper.old (M.state machine.old) }
    ensures { MachineWent M.kind stepper.old (M.state machine.old) stepper.new (M.state machine.new)
        (O.answers oracle.old) (O.answers oracle.new) }
{
    M::laws();
    let Some(mut scan) = machine.scan() else {
        return;
    };
    let ring = stepper.words();
    'reads: loop {
        let access = M::scan_next(&scan);
        let answer = stepper.make(&ring, access, oracle);
        if answer {
            machine.end_scan(scan);
            return;
        }
        M::scan_zero(&mut scan);
    }
}

// The rest of the word of the call under way, if one is being written or read.
#[inline(always)]
fn finish_word<'a, M: SideMachine, O: Oracle>(
    stepper: &mut Stepper<'a, Flickering>,
    machine: &mut M,
    oracle: &mut O,
)
    requires { MachineBusy M.kind stepper.old (M.state machine.old) }
    ensures { MachineWent M.kind stepper.old (M.state machine.old) stepper.new (M.state machine.new)
        (O.answers oracle.old) (O.answers oracle.new) }
{
    M::laws();
    let Some(mut word) = machine.word() else {
        return;
    };
    let ring = stepper.words();
    'digits: loop {
        let last = M::is_last(&word);
        let access = M::word_next(&word);
        let answer = stepper.make(&ring, access, oracle);
        if last {
            machine.end_word(word, answer);
            return;
        }
        M::word_feed(&mut word, answer);
    }
}

// The rest of the count of the call under way, if it is being written.
#[inline(always)]
fn write_count<'a, M: SideMachine, O: Oracle>(
    stepper: &mut Stepper<'a, Flickering>,
    machine: &mut M,
    oracle: &mut O,
)
    requires { MachineBusy M.kind stepper.old (M.state machine.old) }
    ensures { MachineWent M.kind stepper.old (M.state machine.old) stepper.new (M.state machine.new)
        (O.answers oracle.old) (O.answers oracle.new) }
{
    M::laws();
    let ring = stepper.words();
    'writes: while machine.is_counting() {
        let Some(access) = machine.next() else {
            return;
        };
        let answer = stepper.make(&ring, access, oracle);
        machine.feed_count(answer);
    }
}

// The accesses of the call under way, to its end.
#[inline(always)]
pub(crate) fn finish<'a, M: SideMachine, O: Oracle>(
    stepper: &mut Stepper<'a, Flickering>,
    machine: &mut M,
    oracle: &mut O,
)
    requires { (calls : M.kind.Calls) × MachineReady M.kind stepper.old (M.state machine.old) calls }
    ensures { MachineEnded M.kind stepper.old (M.state machine.old) stepper.new (M.state machine.new)
        (O.answers oracle.old) (O.answers oracle.new) }
{
    M::laws();
    'accesses: loop {
        finish_scan(stepper, machine, oracle);
        finish_word(stepper, machine, oracle);
        write_count(stepper, machine, oracle);
        let Some(access) = machine.next() else {
            return;
        };
        let ring = stepper.words();
        let answer = stepper.make(&ring, access, oracle);
        machine.feed(answer);
    }
}
