//! The audit of recorded calls, line by line.
ghost use Rattle.std.specs.Prelude.{◌≡◌, ◌∷◌, ◌↔◌, [], IfSome, IsNone, IsTrue, List, None, false, length};
ghost use Rattle.queue_calls.specs.Hearings.{FollowsLines};
ghost use Rattle.call_lines.specs.Lines.{AllowsQueue};
ghost use Rattle.queue_calls.specs.Recordings as recordings;
ghost use Rattle.queue_calls.specs.Recordings.{line};
ghost use Rattle.lists.specs.Rings.{ring_items};
ghost use Rattle.call_lines.specs.declared.lines.Word.TheVariants.{Queue};
ghost use Rattle.queue_calls_c.specs.Heard.{FitsSlots, HasHeardLines, HaveSameRoom, HearsLines, ReportsOn, found_as, heard_by, offered_room, taken_room};

use crate::found::{HeardFound, found_of};
use crate::hearings::{WordLine, hear_lines};
use crate::states::{Audit, keep_state, state_of};
use queue_calls::{CallsReport, Hearing, Lent, Slots, Word, allows};
use std::mem;

// Whether an audit uses no more slots than it has.
fn fits(audit: &Audit<'_>) -> bool
    ensures { IsTrue result ↔ FitsSlots audit.now }
{
    audit.offered_first <= audit.offered.len()
        && audit.offered_used <= audit.offered.len()
        && audit.taken_first <= audit.taken.len()
        && audit.taken_used <= audit.taken.len()
}

// The hearing that continues an audit, whose slots it takes. `None` if the audit uses more slots than there are: then nothing is
// taken, and the audit is unchanged.
fn resume<'a>(audit: &mut Audit<'a>) -> Option<Hearing<Lent<'a>>>
    ensures goes_on { IfSome result (λ h. (lines : List recordings.Line) →
        FollowsLines (λ o. o) (λ t. t) (heard_by audit.old) false lines →
        FollowsLines ring_items ring_items h false lines) }
    ensures rooms { IfSome result (λ h. (offered_room h ≡ length audit.old.offered.now) ×
        (taken_room h ≡ length audit.old.taken.now) × (h.witness.limit ≡ audit.old.limit)) }
    ensures fit { IfSome result (λ h. FitsSlots audit.old × (h.fault ≡ None)) }
    ensures none { IsNone result → ¬ FitsSlots audit.old × (audit.new ≡ audit.old) }
    ensures line { audit.new.line ≡ audit.old.line }
{
    if !fits(audit) {
        return None;
    }
    let state = state_of(audit);
    let offered = Slots::resume(
        mem::take(&mut audit.offered),
        audit.offered_first,
        audit.offered_used,
    )?;
    let taken = Slots::resume(
        mem::take(&mut audit.taken),
        audit.taken_first,
        audit.taken_used,
    )?;
    Some(Hearing::resume(state, offered, taken))
}

// Keeps a hearing in an audit.
fn keep<'a>(audit: &mut Audit<'a>, hearing: Hearing<Lent<'a>>)
    ensures follows { (lines : List recordings.Line) → FollowsLines ring_items ring_items hearing.entry false lines →
        FollowsLines (λ o. o) (λ t. t) (heard_by audit.new) false lines }
    ensures fit { FitsSlots audit.new }
    ensures rooms { (length audit.new.offered.now ≡ offered_room hearing.entry) ×
        (length audit.new.taken.now ≡ taken_room hearing.entry) }
    ensures limit { hearing.entry.fault ≡ None → audit.new.limit ≡ hearing.entry.witness.limit }
    ensures line { audit.new.line ≡ audit.old.line }
{
    let (state, offered, taken) = hearing.keep();
    keep_state(audit, state);
    let (slots, first, used) = offered.keep();
    audit.offered = slots;
    audit.offered_first = first;
    audit.offered_used = used;
    let (slots, first, used) = taken.keep();
    audit.taken = slots;
    audit.taken_first = first;
    audit.taken_used = used;
}

/// Starts an audit of a queue with these numbers, as they are in the first line of a recording: none, for an unbounded queue;
/// its capacity; or two that its capacity lies between. Returns whether they may come there; if not, nothing changes.
#[unsafe(no_mangle)]
pub extern "C" fn ring_audit_begin(audit: &mut Audit<'_>, numbers: &[u64]) -> bool
    ensures begun { IsTrue result → HasHeardLines audit.new (line Queue numbers.now ∷ []) }
    ensures limit { IsTrue result → audit.new.limit ≡ length audit.old.taken.now }
    ensures rooms { HaveSameRoom audit.old audit.new }
    ensures refused { result ≡ false → ¬ AllowsQueue numbers.now × (audit.new ≡ audit.old) }
{
    if !allows(Word::Queue, numbers) {
        return false;
    }
    let limit = audit.taken.len();
    let offered = Slots::new(mem::take(&mut audit.offered));
    let taken = Slots::new(mem::take(&mut audit.taken));
    let mut hearing = Hearing::<Lent<'_>>::new(offered, taken, limit);
    hearing.begins(numbers);
    keep(audit, hearing);
    audit.line = 1;
    true
}

/// Hears lines after those already heard, for as long as they are lawful. It returns how many it heard, and in `found` the finding on the
/// next one, with the text of its cause. A line at fault is not kept: other lines may be heard instead.
#[unsafe(no_mangle)]
pub extern "C" fn ring_audit_hear(
    audit: &mut Audit<'_>,
    lines: &[WordLine],
    numbers: &[u64],
    words: &mut [u8],
    found: &mut HeardFound,
) -> usize
    ensures heard { HearsLines audit.old lines.now numbers.now words.old result audit.new words.new found.new }
    ensures rooms { HaveSameRoom audit.old audit.new }
    ensures no_state { (found.new.verdict ≡ 6) ↔ ¬ FitsSlots audit.old }
    ensures refused { ¬ FitsSlots audit.old → (result ≡ 0) × (audit.new ≡ audit.old) × (words.new ≡ words.old) ×
        (found.new ≡ found_as 6 0 0 0) }
{
    let Some(mut hearing) = resume(audit) else {
        *found = HeardFound {
            line: 0,
            against: 0,
            words: 0,
            verdict: 6,
        };
        return 0;
    };
    let (heard, line, said) = hear_lines(&mut hearing, audit.line, lines, numbers);
    keep(audit, hearing);
    audit.line = line;
    *found = found_of(said, words);
    heard
}

/// Writes the report on the lines that were heard. Returns whether there is one: not for a state that this library did not leave.
#[unsafe(no_mangle)]
pub extern "C" fn ring_audit_report(audit: &mut Audit<'_>, report: &mut CallsReport) -> bool
    ensures reports { ReportsOn audit.old result audit.new report.new }
    ensures told { IsTrue result ↔ FitsSlots audit.old }
    ensures rooms { HaveSameRoom audit.old audit.new }
    ensures refused { result ≡ false → (audit.new ≡ audit.old) × (report.new ≡ report.old) }
{
    let Some(hearing) = resume(audit) else {
        return false;
    };
    *report = hearing.report();
    keep(audit, hearing);
    true
}
