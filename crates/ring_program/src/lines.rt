//! The lines of the texts.
ghost use Rattle.std.specs.Prelude.{◌≡◌, ◌++◌, OnOk, IfErr, string_bytes};
ghost use Rattle.std.specs.List.{flat_map};
ghost use Rattle.ring_program.specs.Texts.{count_line, list_line, number_text, told_line};

use crate::faults::AppFault;
use itoa::Buffer;
use std::alloc::Allocator;

// A space and a number.
fn push_number<A: Allocator>(text: &mut String<A>, number: u64) -> Result<(), AppFault>
    ensures ok { OnOk result (string_bytes text.new ≡ string_bytes text.old ++ number_text number) }
    ensures err { IfErr result (λ e. e ≡ AppFault.OutOfMemory) }
{
    let mut buffer = Buffer::new();
    text.push_str(" ")?;
    Ok(text.push_str(buffer.format(number))?)
}

// A line of a word and a number.
#[tactic(auto, using(crate::proofs::TextLemmas::behind, std::proofs::Common::codes))]
pub fn push_count<A: Allocator>(
    text: &mut String<A>,
    word: &str,
    count: u64,
) -> Result<(), AppFault>
    ensures ok { OnOk result (string_bytes text.new ≡ string_bytes text.old ++ count_line word.now count) }
    ensures err { IfErr result (λ e. e ≡ AppFault.OutOfMemory) }
{
    text.push_str(word)?;
    push_number(text, count)?;
    Ok(text.push_str("\n")?)
}

// Numbers, one after the other.
fn push_numbers<A: Allocator>(text: &mut String<A>, numbers: &[u64]) -> Result<(), AppFault>
    ensures ok { OnOk result (string_bytes text.new ≡ string_bytes text.old ++ flat_map number_text numbers.now) }
    ensures err { IfErr result (λ e. e ≡ AppFault.OutOfMemory) }
{
    for number in numbers {
        push_number(text, *number)?;
    }
    Ok(())
}

// A line of a word and the items of a list.
#[tactic(auto, using(crate::proofs::TextLemmas::behind, std::proofs::Common::codes))]
pub fn push_list<A: Allocator>(
    text: &mut String<A>,
    word: &str,
    items: &[u64],
) -> Result<(), AppFault>
    ensures ok { OnOk result (string_bytes text.new ≡ string_bytes text.old ++ list_line word.now items.now) }
    ensures err { IfErr result (λ e. e ≡ AppFault.OutOfMemory) }
{
    text.push_str(word)?;
    push_numbers(text, items)?;
    Ok(text.push_str("\n")?)
}

// The line that says whether a take returned Closed.
pub fn told_words(told: bool) -> &'static str
    ensures { result.now ≡ told_line told }
{
    if told { "told yes\n" } else { "told no\n" }
}
