//! The judge of a register's whole history.
ghost use Rattle.std.specs.Prelude.{◌≡◌, ◌+◌, ◌++◌, ◌∷◌, [], IfErr, IfOk, IsTrue, List, Some, ◌↔◌, length, reverse};
ghost use Rattle.register_calls.specs.Audits.{AuditsRegister};
ghost use Rattle.register_calls.specs.Classes.{HasClass};
ghost use Rattle.register_calls.specs.declared.events.Class.{Class};
ghost use Rattle.register_calls.specs.declared.events.Register.{Register};
ghost use Rattle.register_calls.specs.declared.events.RegisterEvent.{RegisterEvent};
ghost use Rattle.queue_calls_c.specs.Registers.{AreLost, HasHeardEvents, IsJudgedHistory, IsJudgement, IsLostAt, IsRefusedAt, RefusesEventLine, StandFor, line_event, refusal_of, refused_line};

use crate::registers::{EventLine, READERS, line_event, register_of};
use lists::{Fifo, Slots};
use register_calls::{Class, ReaderState, RegisterAuditor, RegisterFault};

// For each class the first line at which a history lacks it; 0 if it has the class.
#[derive(Clone, Copy, PartialEq, Eq, Debug)]
pub struct LostClasses {
    pub safe: u64,
    pub regular: u64,
    pub by_reader: u64,
    pub atomic: u64,
}

// The finding on a history whose events came in turn.
#[derive(Clone, Copy, PartialEq, Eq, Debug)]
pub struct JudgedHistory {
    // its strongest class, if it is safe
    pub class: Option<Class>,
    pub lost: LostClasses,
}

// Why a history is not judged: the line that is refused.
#[derive(Clone, Copy, PartialEq, Eq, Debug)]
pub enum JudgeFault {
    // its event is out of turn
    OutOfTurn(u64),
    // it may not be there
    BadLine(u64),
    // the slots for writes are too few
    TooFewSlots(u64),
}

// The line at which a class is lost, with one more event, on this line: after it the history has the class or not.
fn lost_at(known: u64, has: bool, line: u64) -> u64
    ensures { (class : Class) (r : Register) (before : List RegisterEvent) (e : RegisterEvent) →
        length before + 2 ≡ line → (IsTrue has ↔ HasClass class r (e ∷ reverse before)) →
        IsLostAt class r before known → IsLostAt class r (before ++ e ∷ []) result }
{
    if has {
        return known;
    }
    if known == 0 {
        return line;
    }
    known
}

impl LostClasses {
    // No class is lost before any event.
    fn none() -> LostClasses
        ensures { result ≡ record { safe = 0; regular = 0; by_reader = 0; atomic = 0 } }
    {
        LostClasses {
            safe: 0,
            regular: 0,
            by_reader: 0,
            atomic: 0,
        }
    }

    // The same after the last event that an auditor has heard, on this line.
    fn after<W: Fifo<u64>, R: Fifo<ReaderState>>(
        self,
        auditor: &RegisterAuditor<W, R>,
        line: u64,
    ) -> LostClasses
        ensures { (before : List RegisterEvent) (e : RegisterEvent) → length before + 2 ≡ line →
            AuditsRegister W.items R.items auditor.now (e ∷ reverse before) →
            AreLost auditor.now.register before self → AreLost auditor.now.register (before ++ e ∷ []) result }
    {
        let is_safe = auditor.has(Class::Safe);
        let is_regular = auditor.has(Class::Regular);
        let is_by_reader = auditor.has(Class::AtomicByReader);
        let is_atomic = auditor.has(Class::Atomic);
        let safe = lost_at(self.safe, is_safe, line);
        let regular = lost_at(self.regular, is_regular, line);
        let by_reader = lost_at(self.by_reader, is_by_reader, line);
        let atomic = lost_at(self.atomic, is_atomic, line);
        LostClasses {
            safe,
            regular,
            by_reader,
            atomic,
        }
    }
}

// The refusal of an event that an auditor refuses, on this line. (No history has as many writes as a usize counts.)
fn refusal_of(fault: RegisterFault, line: u64) -> JudgeFault
    ensures { result ≡ refusal_of fault line }
{
    match fault {
        RegisterFault::NoValue => JudgeFault::BadLine(line),
        RegisterFault::OutOfTurn => JudgeFault::OutOfTurn(line),
        RegisterFault::TooMany => JudgeFault::TooFewSlots(line),
        RegisterFault::OutOfMemory => JudgeFault::TooFewSlots(line),
    }
}

// Hears the event of one more line, and returns the lines at which the history lacks classes then.
fn hear_line<W: Fifo<u64>, R: Fifo<ReaderState>>(
    auditor: &mut RegisterAuditor<W, R>,
    lost: LostClasses,
    number: u64,
    line: &EventLine,
) -> Result<LostClasses, JudgeFault>
    ensures register { auditor.new.register ≡ auditor.old.register }
    ensures rooms { (W.room auditor.new.window ≡ W.room auditor.old.window) ×
        (R.room auditor.new.readers ≡ R.room auditor.old.readers) }
    ensures heard { IfOk result (λ now. (before : List RegisterEvent) →
        HasHeardEvents W.items R.items auditor.old lost before → length before + 2 ≡ number →
        (e : RegisterEvent) × (line_event line.now ≡ Some e) ×
        HasHeardEvents W.items R.items auditor.new now (before ++ e ∷ [])) }
    ensures refused { IfErr result (λ refusal. (before : List RegisterEvent) →
        HasHeardEvents W.items R.items auditor.old lost before → length before + 2 ≡ number →
        R.room auditor.old.readers ≡ 64 → (refused_line refusal ≡ number) ×
        RefusesEventLine (W.room auditor.old.window) refusal auditor.old.register (reverse before) line.now) }
{
    let Some(event) = line_event(line) else {
        return Err(JudgeFault::BadLine(number));
    };
    match auditor.feed(event) {
        Ok(_) => {
            let now = lost.after(auditor, number);
            Ok(now)
        }
        Err(fault) => Err(refusal_of(fault, number)),
    }
}

// Hears the events of all lines after the first one, and returns the finding on their history.
fn hear_lines<W: Fifo<u64>, R: Fifo<ReaderState>>(
    auditor: &mut RegisterAuditor<W, R>,
    lines: &[EventLine],
) -> Result<JudgedHistory, JudgeFault>
    requires none_heard { AuditsRegister W.items R.items auditor.old [] }
    requires readers { R.room auditor.old.readers ≡ 64 }
    ensures judged { IfOk result (λ judged. (events : List RegisterEvent) × StandFor lines.now events ×
        IsJudgedHistory auditor.old.register events judged) }
    ensures refused { IfErr result (λ refusal. IsRefusedAt (W.room auditor.old.window) auditor.old.register lines.now
        refusal) }
{
    let mut lost = LostClasses::none();
    for (place, line) in lines.iter().enumerate() {
        match hear_line(auditor, lost, place as u64 + 2, line) {
            Ok(now) => lost = now,
            Err(refusal) => return Err(refusal),
        }
    }
    Ok(JudgedHistory {
        class: auditor.class(),
        lost,
    })
}

// The states of readers that have not read yet.
fn fresh_readers() -> [ReaderState; READERS]
    ensures { length result ≡ 64 }
{
    [ReaderState::new(); READERS]
}

// Judges the history of a register in slots for its writes.
pub fn judge(
    numbers: &[u64],
    lines: &[EventLine],
    window: &mut [u64],
) -> Result<JudgedHistory, JudgeFault>
    ensures { IsJudgement numbers.now lines.now (length window.old) result }
{
    let Some(register) = register_of(numbers) else {
        return Err(JudgeFault::BadLine(1));
    };
    let mut readers = fresh_readers();
    let writes = Slots::new(window);
    let states = Slots::new(&mut readers);
    match RegisterAuditor::with(writes, states, register) {
        Ok(mut auditor) => hear_lines(&mut auditor, lines),
        Err(_) => Err(JudgeFault::TooFewSlots(1)),
    }
}
