//! Lines are cut out of the pieces of an input, judged and taken as their bytes come.
ghost use Rattle.std.specs.Prelude.{None, IsTrue, ◌↔◌, ◌≡◌, ℕ, ◌+◌, ◌<◌, ◌≤◌, false, true, [], ◌∷◌, ◌++◌, List};
ghost use Rattle.std.specs.Prelude.{length, IfErr, IfOk, IfSome, OnOk};
ghost use Rattle.osb_lines.specs.Faults.{HasNoFault};
ghost use Rattle.osb_lines.specs.Lines.{ended_lines, lines};
ghost use Rattle.osb_lines.specs.Reading.{most_read, taken_length, with_line, HasRead, HasReadAs, HasTakenNext};
ghost use Rattle.osb_lines.specs.Reading.{IsLast, Refuses, RefusesAt};
ghost use Rattle.osb_lines.specs.Schedule.{said_fault};
ghost use Rattle.osb_lines.specs.Sink.{IsLineFault};

use crate::limits::MOST_LINES;
use crate::sink::Sink;
use memchr::memchr;
use osb_language::{LONGEST_LINE, LineFault, ScheduleFault};
use std::marker::Model;

// The line under construction, and what has taken the lines before it.
#[derive(Drop)]
pub struct LineReader<S: Sink> {
    line: [u8; LONGEST_LINE],
    len: usize,
    ended: u32,
    sink: S,
}

impl<S: Sink> Model for LineReader<S> {
    ghost use Rattle.std.specs.Prelude.{◌+◌, ◌<◌, ◌≤◌, take};
    ghost use Rattle.osb_language.specs.Limits.{longest_line};
    ghost use Rattle.osb_lines.specs.Limits.{most_lines};
    ghost use Rattle.osb_lines.specs.Reading.{Reading};

    ghost Value = { Reading S };

    ghost view = { λ s. record { held = take s.len s.line; ended = s.ended; sink = s.sink } };

    ghost invariant = { λ s. (s.len ≤ longest_line) × (s.ended ≤ most_lines) × (0 < s.len → s.ended < most_lines)
        × (S.happened s.sink ≤ s.ended) };
}

impl<S: Sink> LineReader<S> {
    // A reader that has taken nothing, and gives its lines to a sink that hasn't either.
    pub fn new(sink: S) -> LineReader<S>
        requires nothing { S.has_taken [] sink }
        requires none { S.happened sink ≡ 0 }
        ensures nothing { HasRead S.has_taken [] result }
    {
        LineReader {
            line: [0; LONGEST_LINE],
            len: 0,
            ended: 0,
            sink,
        }
    }

    fn refusal(&self, fault: LineFault) -> ScheduleFault
        requires few { self.now.ended ≤ MOST_LINES }
        ensures line { result ≡ ScheduleFault.At (self.now.ended + 1) fault }
    {
        ScheduleFault::At {
            line: self.ended + 1,
            fault,
        }
    }

    fn held(&self) -> &[u8]
        ensures held { result.now ≡ self.now.held }
    {
        &self.line[..self.len]
    }

    fn holds(&self) -> bool
        ensures holds { IsTrue result ↔ (0 < length self.now.held) }
        ensures within { IsTrue result → self.now.ended < MOST_LINES }
    {
        !self.line[..self.len].is_empty()
    }

    // Whether as many lines have ended as a schedule may have.
    fn is_full(&self) -> bool
        ensures full { IsTrue result → self.now.ended ≡ MOST_LINES }
        ensures room { result ≡ false → self.now.ended < MOST_LINES }
    {
        self.ended == MOST_LINES
    }

    // Whether the line under construction may have this part too.
    fn fits(&self, part: &[u8]) -> bool
        ensures fits { IsTrue result ↔ (length self.now.held + length part.now ≤ LONGEST_LINE) }
    {
        self.held().len().saturating_add(part.len()) <= LONGEST_LINE
    }

    // Takes the line that is held.
    fn take_held(&mut self) -> Result<(), ScheduleFault>
        requires room { self.old.ended < MOST_LINES }
        ensures good { (earlier : List (List ℕ)) → S.has_taken earlier self.old.sink
            → self.old.ended ≡ length earlier → OnOk result ((said_fault earlier self.old.held ≡ None)
            × S.has_taken (earlier ++ self.old.held ∷ []) self.new.sink) }
        ensures next { OnOk result ((self.new.held ≡ []) × (self.new.ended ≡ self.old.ended + 1)) }
        ensures refused { (earlier : List (List ℕ)) → S.has_taken earlier self.old.sink
            → IfErr result (IsLineFault (self.old.ended + 1) (said_fault earlier self.old.held)) }
    {
        self.sink.take_line(self.ended + 1, &self.line[..self.len])?;
        self.len = 0;
        self.ended += 1;
        Ok(())
    }

    // Takes a line that lies in one piece, where it stands. None is held.
    fn take_in_place(&mut self, line: &[u8]) -> Result<(), ScheduleFault>
        requires room { self.old.ended < MOST_LINES }
        requires none { self.old.held ≡ [] }
        ensures good { (earlier : List (List ℕ)) → S.has_taken earlier self.old.sink
            → self.old.ended ≡ length earlier → OnOk result ((said_fault earlier line.now ≡ None)
            × S.has_taken (earlier ++ line.now ∷ []) self.new.sink) }
        ensures next { OnOk result ((self.new.held ≡ []) × (self.new.ended ≡ self.old.ended + 1)) }
        ensures refused { (earlier : List (List ℕ)) → S.has_taken earlier self.old.sink
            → IfErr result (IsLineFault (self.old.ended + 1) (said_fault earlier line.now)) }
    {
        self.sink.take_line(self.ended + 1, line)?;
        self.ended += 1;
        Ok(())
    }

    // Judges whether the line under construction may have this part: it is not too late, and
    // doesn't get too long.
    fn judge_part(&self, part: &[u8]) -> Result<(), ScheduleFault>
        requires unended { ended_lines part.now ≡ 0 }
        ensures room { OnOk result ((self.now.ended < MOST_LINES)
            × (length self.now.held + length part.now ≤ LONGEST_LINE)) }
        ensures refused { (bytes more : List ℕ) → HasRead S.has_taken bytes self.now → 0 < length (part.now ++ more)
            → IfErr result (RefusesAt self.now.ended (bytes ++ part.now ++ more) false) }
    {
        if self.is_full() {
            return Err(self.refusal(LineFault::TooManyLines));
        }
        if !self.fits(part) {
            return Err(self.refusal(LineFault::LineTooLong));
        }
        Ok(())
    }

    // Holds a part of a line after what is held of it.
    fn append(&mut self, part: &[u8])
        requires few { self.old.ended < MOST_LINES }
        requires room { length self.old.held + length part.now ≤ LONGEST_LINE }
        ensures held { self.new ≡ with_line self.old (self.old.held ++ part.now) }
    {
        let end = self.len + part.len();
        self.line[self.len..end].copy_from_slice(part);
        self.len = end;
    }

    // Takes a part of a line that may go on after it.
    fn take_part(&mut self, part: &[u8]) -> Result<(), ScheduleFault>
        requires unended { ended_lines part.now ≡ 0 }
        ensures good { (bytes : List ℕ) (ended : List (List ℕ)) → HasReadAs S.has_taken bytes self.old ended
            → OnOk result (HasReadAs S.has_taken (bytes ++ part.now) self.new ended) }
        ensures refused { (bytes : List ℕ) → HasRead S.has_taken bytes self.old
            → IfErr result (RefusesAt self.old.ended (bytes ++ part.now) false) }
        ensures moves { OnOk result (most_read self.old + length part.now ≤ most_read self.new) }
    {
        if part.is_empty() {
            return Ok(());
        }
        self.judge_part(part)?;
        self.append(part);
        Ok(())
    }

    // Takes the last part of a line and its line feed. A line that lies in one piece is judged where
    // it stands.
    fn end_line(&mut self, part: &[u8]) -> Result<(), ScheduleFault>
        requires unended { ended_lines part.now ≡ 0 }
        ensures good { (bytes : List ℕ) (ended : List (List ℕ)) → HasReadAs S.has_taken bytes self.old ended
            → OnOk result ((line : List ℕ)
            × HasReadAs S.has_taken (bytes ++ part.now ++ 10 ∷ []) self.new (ended ++ line ∷ [])) }
        ensures refused { (bytes more : List ℕ) → HasRead S.has_taken bytes self.old
            → IfErr result (RefusesAt self.old.ended (bytes ++ part.now ++ 10 ∷ more) false) }
        ensures moves { OnOk result (most_read self.old + length part.now < most_read self.new) }
    {
        self.judge_part(part)?;
        if self.len == 0 {
            return self.take_in_place(part);
        }
        self.append(part);
        self.take_held()
    }

    /// Takes a piece of the input up to its first line feed, and gives how many bytes these are; or the whole
    /// piece, and gives none, where it has no line feed. A line is judged where that is due: at its line feed,
    /// at its 513th byte, and at any byte after the last line that a schedule may have (this project's choice).
    ///
    /// # Errors
    ///
    /// [`ScheduleFault::At`] with the first faulty line. [`ScheduleFault::Memory`] where the sink found none.
    pub fn take_next(&mut self, piece: &[u8]) -> Result<Option<usize>, ScheduleFault>
        ensures good { (bytes : List ℕ) (ended : List (List ℕ)) → HasReadAs S.has_taken bytes self.old ended
            → IfOk result (HasTakenNext S.has_taken bytes piece.now ended self.new) }
        ensures refused { (bytes : List ℕ) → HasRead S.has_taken bytes self.old
            → IfErr result (RefusesAt self.old.ended (bytes ++ piece.now) false) }
        ensures moves { IfOk result (λ taken.
            most_read self.old + taken_length piece.now taken ≤ most_read self.new) }
        ensures within { IfOk result (λ taken. IfSome taken (λ count. (0 < count) × (count ≤ length piece.now))) }
    {
        match memchr(b'\n', piece) {
            Some(feed) => {
                self.end_line(&piece[..feed])?;
                Ok(Some(feed + 1))
            }
            None => {
                self.take_part(piece)?;
                Ok(None)
            }
        }
    }

    // Takes the next piece of the input, line by line.
    pub fn take_piece(&mut self, piece: &[u8]) -> Result<(), ScheduleFault>
        ensures good { (bytes : List ℕ) → HasRead S.has_taken bytes self.old
            → OnOk result (HasRead S.has_taken (bytes ++ piece.now) self.new) }
        ensures refused { (bytes : List ℕ) → HasRead S.has_taken bytes self.old
            → IfErr result (Refuses (bytes ++ piece.now) false) }
        ensures moves { OnOk result (most_read self.old + length piece.now ≤ most_read self.new) }
    {
        let mut rest = piece;
        while let Some(count) = self.take_next(rest)? {
            rest = &rest[count..];
        }
        Ok(())
    }

    /// Takes a last line that no line feed ends, and says whether there was one. Call this once, at the end of the
    /// input: nothing is said of a piece that is taken after it.
    ///
    /// # Errors
    ///
    /// [`ScheduleFault::At`] where that line has a fault. [`ScheduleFault::Memory`] where the sink found none.
    pub fn take_last(&mut self) -> Result<bool, ScheduleFault>
        ensures good { (bytes : List ℕ) (ended : List (List ℕ)) → HasReadAs S.has_taken bytes self.old ended
            → IfOk result (λ held. IsLast bytes ended held × HasNoFault bytes true
            × S.has_taken (lines bytes) self.new.sink) }
        ensures refused { (bytes : List ℕ) → HasRead S.has_taken bytes self.old
            → IfErr result (RefusesAt self.old.ended bytes true) }
    {
        if !self.holds() {
            return Ok(false);
        }
        self.take_held()?;
        Ok(true)
    }

    /// What takes the lines.
    pub fn sink(&self) -> &S
        ensures sink { result.now ≡ self.now.sink }
    {
        &self.sink
    }

    /// What has taken the lines.
    pub fn into_sink(self) -> S
        ensures sink { result ≡ self.sink }
    {
        self.sink
    }

    // Judges a last line that no line feed ends, and gives the sink that has taken all of them.
    pub fn end(mut self) -> Result<S, ScheduleFault>
        ensures good { (bytes : List ℕ) → HasRead S.has_taken bytes self
            → IfOk result (λ sink. HasNoFault bytes true × S.has_taken (lines bytes) sink) }
        ensures refused { (bytes : List ℕ) → HasRead S.has_taken bytes self
            → IfErr result (Refuses bytes true) }
    {
        self.take_last()?;
        Ok(self.into_sink())
    }
}
