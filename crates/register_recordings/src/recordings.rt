//! The text of a recorded register, read in pieces, and the finding.
ghost use Rattle.std.specs.Prelude.{◌≡◌, ◌++◌, ◌∷◌, [], ◌+◌, ◌≤◌, ◌↔◌, ℕ, List, None, IsTrue, OnOk, IfOk, IfErr, IfSome, length, reverse, true};
ghost use Rattle.line_parts.specs.LineEnds.{HasNoFeed};
ghost use Rattle.register_calls.specs.Histories.{IsWellFormed, WritesValue};
ghost use Rattle.register_calls.specs.Witnesses.{RemembersRegister};
ghost use Rattle.register_calls.specs.declared.events.RegisterEvent.{RegisterEvent};
ghost use Rattle.register_calls.specs.declared.events.RegisterEvent.TheVariants.{ReadEnds};
ghost use Rattle.register_lines.specs.Lines.{AllowsNumbers};
ghost use Rattle.register_lines.specs.declared.lines.RegisterLine.{RegisterLine};
ghost use Rattle.register_lines.specs.declared.lines.TheConstants.{LINE_LIMIT};
ghost use Rattle.register_recordings.specs.Misses.{AreMisses, IsMissOf};
ghost use Rattle.register_recordings.specs.Recordings.{FallsShort, IsRegisterFinding, IsRegisterFound, IsRegisterRecording, IsShortfall, RefusesRegisterText, lacks_operations, recorded_event, recorded_register};
ghost use Rattle.register_recordings.specs.Reading.{ContinuesRegister, HasJudged, HasReadEvents, HasReadRegister, ReadsLineEvent, RefusesFirstLine, RefusesRegisterLine};

use crate::faults::RegisterTextFault;
use crate::findings::{Misses, RegisterFinding, RegisterMiss};
use line_parts::split_line;
use lists::{Fifo, Store};
use register_calls::{
    Chain, Class, ReaderState, Register, RegisterEvent, RegisterFault, RegisterWitness,
};
use register_lines::{LINE_LIMIT, RegisterLine, read_register_line};
use std::alloc::AllocError;

// How many bytes of a bad line are kept at most, after those that were kept of it before.
const SHOWN: usize = 128;

// The lines that have ended.
#[derive(Drop)]
struct JudgedLines<W: Fifo<u64>, R: Fifo<ReaderState>, P: Fifo<usize>, C: Fifo<Chain>> {
    // how many there are
    count: u64,
    // whether the first one says that later operations are missing
    is_cut: bool,
    // what was read of those after the first one, up to the first that is out of turn
    witness: RegisterWitness<W, R, P, C>,
    misses: Misses,
    out_of_turn: Option<u64>,
}

// The register that a first line gives.
fn recorded_register(line: RegisterLine) -> Option<Register>
    ensures { result ≡ recorded_register line }
{
    match line {
        RegisterLine::Register(first) | RegisterLine::Cut(first) => Some(Register {
            first,
            values: None,
        }),
        RegisterLine::Valued(first, values) | RegisterLine::CutValued(first, values) => {
            Some(Register {
                first,
                values: Some(values),
            })
        }
        _ => None,
    }
}

// Whether a first line says that the operations after the last line are missing.
fn lacks_operations(line: RegisterLine) -> bool
    ensures { result ≡ lacks_operations line }
{
    match line {
        RegisterLine::Cut(_) | RegisterLine::CutValued(_, _) => true,
        _ => false,
    }
}

// The event that a further line records. The readers, from 1 in the text, are numbered from 0 in a history.
fn recorded_event(line: RegisterLine) -> Option<RegisterEvent>
    ensures { result ≡ recorded_event line }
{
    match line {
        RegisterLine::Write(value) => Some(RegisterEvent::WriteBegins(value)),
        RegisterLine::Wrote => Some(RegisterEvent::WriteEnds),
        RegisterLine::Read(reader) => Some(RegisterEvent::ReadBegins(
            reader.saturating_sub(1) as usize,
        )),
        RegisterLine::Got(reader, value) => Some(RegisterEvent::ReadEnds(
            reader.saturating_sub(1) as usize,
            value,
        )),
        _ => None,
    }
}

// Whether what an event writes, if it writes, is a value of the register.
fn writes_value(register: Register, event: RegisterEvent) -> bool
    ensures { IsTrue result ↔ WritesValue register event }
{
    match event {
        RegisterEvent::WriteBegins(value) => register.has_value(value),
        _ => true,
    }
}

impl<W: Fifo<u64>, R: Fifo<ReaderState>, P: Fifo<usize>, C: Fifo<Chain>> JudgedLines<W, R, P, C> {
    // Reads one more line, without its line feed.
    fn read(&mut self, bytes: &[u8]) -> Result<(), RegisterTextFault>
        ensures read { OnOk result ((before : List RegisterLine) → HasJudged W.items R.items P.items C.items self.old before →
            (l : RegisterLine) × ContinuesRegister before bytes.now l ×
            HasJudged W.items R.items P.items C.items self.new (before ++ l ∷ [])) }
        ensures refused { IfErr result (λ e. (before : List RegisterLine) →
            HasJudged W.items R.items P.items C.items self.old before → RefusesRegisterLine e before bytes.now) }
    {
        let Some(count) = self.count.checked_add(1) else {
            return Err(RegisterTextFault::TooLong);
        };
        let Some(line) = read_register_line(bytes) else {
            return Err(RegisterTextFault::BadLine(count));
        };
        if count == 1 {
            return self.begin(line);
        }
        let Some(event) = recorded_event(line) else {
            return Err(RegisterTextFault::BadLine(count));
        };
        self.hear(count, event)
    }

    // Reads the first line.
    fn begin(&mut self, line: RegisterLine) -> Result<(), RegisterTextFault>
        requires { AllowsNumbers line }
        ensures read { OnOk result (HasJudged W.items R.items P.items C.items self.new (line ∷ [])) }
        ensures refused { IfErr result (λ e. RefusesFirstLine e line) }
    {
        let Some(register) = recorded_register(line) else {
            return Err(RegisterTextFault::BadLine(1));
        };
        self.witness.restart(register)?;
        self.count = 1;
        self.is_cut = lacks_operations(line);
        self.misses = Misses::none();
        self.out_of_turn = None;
        Ok(())
    }

    // Reads the event of a further line, which has this number. After an event that is out of turn no history is
    // judged, but a write must still be of a value of the register.
    fn hear(&mut self, count: u64, event: RegisterEvent) -> Result<(), RegisterTextFault>
        ensures { ReadsLineEvent W.items R.items P.items C.items self.old count event result self.new }
    {
        match self.out_of_turn {
            Some(_) => {}
            None => return self.judge(count, event),
        }
        if !writes_value(self.witness.register(), event) {
            return Err(RegisterTextFault::BadLine(count));
        }
        self.count = count;
        Ok(())
    }

    // Reads the event of a further line, if each event before it came in turn.
    fn judge(&mut self, count: u64, event: RegisterEvent) -> Result<(), RegisterTextFault>
        requires { self.old.out_of_turn ≡ None }
        ensures { ReadsLineEvent W.items R.items P.items C.items self.old count event result self.new }
    {
        self.note(count, event);
        match self.witness.feed(event) {
            Ok(_) => {
                self.count = count;
                Ok(())
            }
            Err(fault) => match fault {
                RegisterFault::NoValue => Err(RegisterTextFault::BadLine(count)),
                RegisterFault::OutOfTurn => {
                    self.out_of_turn = Some(count);
                    self.count = count;
                    Ok(())
                }
                RegisterFault::TooMany => Err(RegisterTextFault::TooLong),
                RegisterFault::OutOfMemory => Err(RegisterTextFault::OutOfMemory),
            },
        }
    }

    // Records the classes that the history would lack with this event, on this line.
    fn note(&mut self, line: u64, event: RegisterEvent)
        ensures misses { (before : List RegisterEvent) → length before + 2 ≡ line →
            RemembersRegister W.items R.items P.items C.items self.old.witness (reverse before) →
            IsWellFormed self.old.witness.auditor.register (event ∷ reverse before) →
            AreMisses self.old.witness.auditor.register before self.old.misses →
            AreMisses self.old.witness.auditor.register (before ++ event ∷ []) self.new.misses }
        ensures kept { self.new ≡ record self.old { misses = self.new.misses } }
    {
        let RegisterEvent::ReadEnds(reader, value) = event else {
            return;
        };
        if self.witness.keeps_classes(reader, value) {
            return;
        }
        self.misses = self.misses_with(line, reader, value);
    }

    // The misses with the end of a read, on this line, if those before it are known.
    fn misses_with(&self, line: u64, reader: usize, value: u64) -> Misses
        ensures { (before : List RegisterEvent) → length before + 2 ≡ line →
            RemembersRegister W.items R.items P.items C.items self.now.witness (reverse before) →
            IsWellFormed self.now.witness.auditor.register (ReadEnds reader value ∷ reverse before) →
            AreMisses self.now.witness.auditor.register before self.now.misses →
            AreMisses self.now.witness.auditor.register (before ++ ReadEnds reader value ∷ []) result }
    {
        let safe = self.miss_with(Class::Safe, self.misses.safe, line, reader, value);
        let regular = self.miss_with(Class::Regular, self.misses.regular, line, reader, value);
        let by_reader = self.miss_with(
            Class::AtomicByReader,
            self.misses.by_reader,
            line,
            reader,
            value,
        );
        let atomic = self.miss_with(Class::Atomic, self.misses.atomic, line, reader, value);
        Misses {
            safe,
            regular,
            by_reader,
            atomic,
        }
    }

    // The miss of a class with the end of a read, on this line, if that before it is known.
    fn miss_with(
        &self,
        class: Class,
        known: Option<RegisterMiss>,
        line: u64,
        reader: usize,
        value: u64,
    ) -> Option<RegisterMiss>
        ensures { (before : List RegisterEvent) → length before + 2 ≡ line →
            RemembersRegister W.items R.items P.items C.items self.now.witness (reverse before) →
            IsWellFormed self.now.witness.auditor.register (ReadEnds reader value ∷ reverse before) →
            IsMissOf class self.now.witness.auditor.register before known →
            IsMissOf class self.now.witness.auditor.register (before ++ ReadEnds reader value ∷ []) result }
    {
        match known {
            Some(miss) => Some(miss),
            None => {
                if self.witness.has_with(class, reader, value) {
                    return None;
                }
                let reason = self.witness.reason(class, reader, value);
                Some(RegisterMiss {
                    line,
                    reader,
                    value,
                    reason,
                })
            }
        }
    }

    // The finding on the lines, if an event is out of turn or their history lacks the class.
    fn shortfall(&self, class: Class) -> Option<RegisterFinding>
        ensures { (events : List RegisterEvent) →
            HasReadEvents W.items R.items P.items C.items self.now self.now.out_of_turn events →
            FallsShort class self.now.witness.auditor.register events result }
    {
        match self.out_of_turn {
            Some(line) => Some(RegisterFinding::OutOfTurn { line }),
            None => {
                if self.witness.has(class) {
                    return None;
                }
                Some(RegisterFinding::Judged {
                    class: self.witness.class(),
                    misses: self.misses,
                    report: self.witness.report(),
                })
            }
        }
    }

    // The finding on the lines.
    fn finding(&self) -> RegisterFinding
        ensures { (events : List RegisterEvent) → HasReadEvents W.items R.items P.items C.items self.now self.now.out_of_turn events →
            IsRegisterFound self.now.witness.auditor.register events result }
    {
        match self.out_of_turn {
            Some(line) => RegisterFinding::OutOfTurn { line },
            None => RegisterFinding::Judged {
                class: self.witness.class(),
                misses: self.misses,
                report: self.witness.report(),
            },
        }
    }
}

/// A recording of a register, as far as it has been read.
///
/// The text comes in pieces, cut anywhere, and is not kept: the memory is that of a [`RegisterWitness`], and of one line.
#[derive(Drop)]
pub struct RegisterRecording<
    W: Fifo<u64>,
    R: Fifo<ReaderState>,
    P: Fifo<usize>,
    C: Fifo<Chain>,
    B: Store<u8>,
> {
    lines: JudgedLines<W, R, P, C>,
    // the bytes of a line that has not ended
    cut: B,
    // whether there was no room for a bad line, so that it cannot be shown
    is_lost: bool,
}

impl<
    W: Fifo<u64>,
    R: Fifo<ReaderState>,
    P: Fifo<usize>,
    C: Fifo<Chain>,
    B: Store<u8>,
> RegisterRecording<W, R, P, C, B> {
    /// A recording of which nothing has been read, with these lists to read it into. Their contents are removed.
    ///
    /// It is an error if the list of writes or that of places has no room for one number.
    pub fn within(
        window: W,
        readers: R,
        places: P,
        own: C,
        low: C,
        own_low: C,
        bytes: B,
    ) -> Result<RegisterRecording<W, R, P, C, B>, AllocError>
        ensures { IfOk result (λ recording. HasReadRegister W.items R.items P.items C.items B.items recording []) }
    {
        let register = Register {
            first: 0,
            values: None,
        };
        let witness = RegisterWitness::with(window, readers, places, own, low, own_low, register)?;
        let mut cut = bytes;
        cut.clear();
        Ok(RegisterRecording {
            lines: JudgedLines {
                count: 0,
                is_cut: false,
                witness,
                misses: Misses::none(),
                out_of_turn: None,
            },
            cut,
            is_lost: false,
        })
    }

    /// Reads the next piece of the text.
    ///
    /// `BadLine` at the first line that is not in the format, that writes a number that is not a value of the register,
    /// or that is a first line and not the first; at its end, or before its end if it grew longer than any line is.
    /// `TooLong` after 2^64 - 1 lines; `OutOfMemory` if a growth was refused, or if a list in slots is too short. A
    /// recording that returned one of these is of no further use.
    pub fn read(&mut self, piece: &[u8]) -> Result<(), RegisterTextFault>
        ensures read { OnOk result ((bytes : List ℕ) → HasReadRegister W.items R.items P.items C.items B.items self.old bytes →
            HasReadRegister W.items R.items P.items C.items B.items self.new (bytes ++ piece.now)) }
        ensures refused { IfErr result (λ e. (bytes more : List ℕ) →
            HasReadRegister W.items R.items P.items C.items B.items self.old bytes →
            RefusesRegisterText e (bytes ++ (piece.now ++ more))) }
    {
        let mut rest = piece;
        while let Some((end, more)) = split_line(rest) {
            self.read_end(end)?;
            rest = more;
        }
        self.keep(rest)
    }

    // It is an error if these bytes make the line that has not ended longer than any line is.
    fn stays_short(&self, bytes: &[u8]) -> Result<(), RegisterTextFault>
        requires { HasNoFeed bytes.now }
        ensures short { OnOk result (length (B.items self.now.cut) + length bytes.now ≤ LINE_LIMIT) }
        ensures refused { IfErr result (λ e. (text more : List ℕ) →
            HasReadRegister W.items R.items P.items C.items B.items self.now text →
            RefusesRegisterText e (text ++ (bytes.now ++ more))) }
    {
        let length = self.cut.as_slice().len().saturating_add(bytes.len());
        if length <= LINE_LIMIT {
            return Ok(());
        }
        match self.lines.count.checked_add(1) {
            Some(line) => Err(RegisterTextFault::BadLine(line)),
            None => Err(RegisterTextFault::TooLong),
        }
    }

    // Keeps the first bytes of a bad line, to be shown, if there is room.
    fn show(&mut self, bytes: &[u8]) {
        let front = &bytes[..bytes.len().min(SHOWN)];
        self.is_lost = self.cut.extend_from_slice(front).is_err();
    }

    // Keeps the bytes of a line that has not ended, if a line may be that long.
    fn keep(&mut self, bytes: &[u8]) -> Result<(), RegisterTextFault>
        requires { HasNoFeed bytes.now }
        ensures read { OnOk result ((text : List ℕ) → HasReadRegister W.items R.items P.items C.items B.items self.old text →
            HasReadRegister W.items R.items P.items C.items B.items self.new (text ++ bytes.now)) }
        ensures refused { IfErr result (λ e. (text more : List ℕ) →
            HasReadRegister W.items R.items P.items C.items B.items self.old text →
            RefusesRegisterText e (text ++ (bytes.now ++ more))) }
    {
        match self.stays_short(bytes) {
            Ok(()) => {}
            Err(fault) => {
                self.show(bytes);
                return Err(fault);
            }
        }
        self.cut.extend_from_slice(bytes)?;
        Ok(())
    }

    // Reads the end of a line, without its line feed.
    fn read_end(&mut self, end: &[u8]) -> Result<(), RegisterTextFault>
        requires { HasNoFeed end.now }
        ensures read { OnOk result ((bytes : List ℕ) → HasReadRegister W.items R.items P.items C.items B.items self.old bytes →
            HasReadRegister W.items R.items P.items C.items B.items self.new (bytes ++ end.now ++ 10 ∷ [])) }
        ensures refused { IfErr result (λ e. (bytes more : List ℕ) →
            HasReadRegister W.items R.items P.items C.items B.items self.old bytes →
            RefusesRegisterText e (bytes ++ (end.now ++ 10 ∷ more))) }
    {
        match self.stays_short(end) {
            Ok(()) => {}
            Err(fault) => {
                self.show(end);
                return Err(fault);
            }
        }
        if self.cut.is_empty() {
            return match self.lines.read(end) {
                Ok(()) => Ok(()),
                Err(fault) => {
                    self.show(end);
                    Err(fault)
                }
            };
        }
        self.cut.extend_from_slice(end)?;
        match self.lines.read(self.cut.as_slice()) {
            Ok(()) => {}
            Err(fault) => return Err(fault),
        }
        self.cut.clear();
        Ok(())
    }

    /// The bytes of the line that has not ended; after a `BadLine` the first of those of the bad line, or `None` if there was no room for
    /// them.
    pub fn line(&self) -> Option<&[u8]>
        ensures kept { IfSome result (λ line. line.now ≡ B.items self.now.cut) }
        ensures lost { (result ≡ None) ↔ (self.now.is_lost ≡ true) }
    {
        if self.is_lost {
            return None;
        }
        Some(self.cut.as_slice())
    }

    /// Whether its first line says that the operations after the last line are missing. It is `false` for a text of which no line
    /// has ended.
    pub fn is_cut(&self) -> bool
        ensures { (bytes : List ℕ) → HasReadRegister W.items R.items P.items C.items B.items self.now bytes →
            (front rest : List ℕ) → bytes ≡ front ++ rest → (r : _) →
            (events : List RegisterEvent) (is : IsRegisterRecording front r events) → result ≡ is.is_cut }
    {
        self.lines.is_cut
    }

    /// The finding on the lines that have ended, if their history lacks the class or an event of it is out of turn. `None` if there are
    /// no such lines, or if they have the class.
    pub fn shortfall(&self, class: Class) -> Option<RegisterFinding>
        ensures { (bytes : List ℕ) → HasReadRegister W.items R.items P.items C.items B.items self.now bytes →
            (ended : List ℕ) × (rest : List ℕ) × (bytes ≡ ended ++ rest) × HasNoFeed rest × IsShortfall class ended
            result }
    {
        if self.lines.count == 0 {
            return None;
        }
        self.lines.shortfall(class)
    }

    /// The finding, if the text ends here: `BadLine` if its last line has not ended, or if there is none. No memory is taken.
    pub fn finding(&self) -> Result<RegisterFinding, RegisterTextFault>
        ensures found { IfOk result (λ finding. (bytes : List ℕ) →
            HasReadRegister W.items R.items P.items C.items B.items self.now bytes → IsRegisterFinding bytes finding) }
        ensures refused { IfErr result (λ e. (bytes : List ℕ) →
            HasReadRegister W.items R.items P.items C.items B.items self.now bytes → RefusesRegisterText e bytes) }
    {
        if !self.cut.is_empty() || self.lines.count == 0 {
            return match self.lines.count.checked_add(1) {
                Some(line) => Err(RegisterTextFault::BadLine(line)),
                None => Err(RegisterTextFault::TooLong),
            };
        }
        Ok(self.lines.finding())
    }
}
