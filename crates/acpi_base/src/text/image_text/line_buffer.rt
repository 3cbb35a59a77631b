//! Reading a text that comes in pieces. Of the text only the incomplete last line is kept.

ghost use Rattle.std.specs.Prelude.{◌≡◌, ◌+◌, ◌<◌, ◌≢◌, ◌⊎◌, ◌++◌, ℕ, [], length, slice_index, Ok, Err, OnOk, IfOk, IfErr};
ghost use Rattle.acpi_base.specs.Memory.{IsImage};
ghost use Rattle.acpi_base.specs.Text.ImageText.{Reading, on_ok, start, read_line, read_lines, ended_lines, last_line};
ghost use Rattle.acpi_base.specs.Text.TextMachine.{run, EndsAs, IsGoing, Stopped, initial_state, text_result};
ghost use Rattle.acpi_base.specs.Text.Lines.{Refuses, judged, told};
ghost use Rattle.acpi_base.specs.Text.Rows.{HasReadRows, IsPlacedRow};
ghost use Rattle.acpi_base.specs.Text.TextMemory.{IsPlacedData, HasPlacedData};
ghost use Rattle.acpi_base.specs.Text.LineBuffers.{IsLineBuffer, buffer_state, byte_count};

use super::MAX_TEXT;
use super::byte_search::first_index;
use super::line_parser::{LineParser, MAX_LINE};
use crate::image::Image;
use crate::text::TextFault;
use std::alloc::Global;

/// What has been read, and the incomplete last line. Reading goes on after a line that gives an address twice:
/// `take_and_judge` and `first_fault` report it.
#[derive(Drop)]
pub struct LineBuffer {
    parser: LineParser,
    line: Vec<u8>,
    /// Reused for the bytes of each line.
    bytes: Vec<u8>,
}

impl LineBuffer {
    /// Nothing read. Takes no memory.
    pub fn new(alloc: Global) -> LineBuffer
        ensures valid { IsLineBuffer result }
        ensures state { buffer_state result ≡ initial_state }
        ensures parser { judged result.parser ≡ Ok start }
        ensures line { result.line.items ≡ [] }
        ensures count { byte_count result ≡ 0 }
    {
        LineBuffer {
            parser: LineParser::new(alloc),
            line: Vec::new(alloc),
            bytes: Vec::new(alloc),
        }
    }

    /// Reads the line that this ends.
    fn end_line(&mut self, part: &[u8]) -> Result<(), TextFault>
        requires { IsLineBuffer self.old }
        ensures valid { OnOk result (IsLineBuffer self.new) }
        ensures ok { OnOk result
            (on_ok (judged self.old.parser) (λ r. read_line r (self.old.line.items ++ part.now) 1)
            ≡ judged self.new.parser) }
        ensures line { OnOk result (self.new.line.items ≡ []) }
        ensures count { OnOk result
            (byte_count self.new ≡ byte_count self.old + length part.now + 1) }
        ensures err { IfErr result (λ fault. Refuses
            (on_ok (judged self.old.parser) (λ r. read_line r (self.old.line.items ++ part.now) 1))
            (told self.new.parser.image fault)) }
        ensures memory { self.old.line.items ≡ [] → IfErr result
            (λ fault. told self.new.parser.image fault ≡ TextFault.Memory
            → IsPlacedData (judged self.old.parser) part.now 1) }
    {
        if self.line.is_empty() {
            return self.parser.read_line(part, 1, &mut self.bytes);
        }
        if part.len() > MAX_LINE - self.line.len() {
            return Err(TextFault::TooLong);
        }
        self.line.extend_from_slice(part)?;
        self.parser.read_line(&self.line, 1, &mut self.bytes)?;
        self.line.clear();
        Ok(())
    }

    /// Keeps a part of a line that has not ended.
    fn keep(&mut self, part: &[u8]) -> Result<(), TextFault>
        requires valid { IsLineBuffer self.old }
        requires free { (k : ℕ) → k < length part.now → slice_index part.now k ≢ 10 }
        ensures valid { OnOk result (IsLineBuffer self.new) }
        ensures parser { self.new.parser ≡ self.old.parser }
        ensures ok { OnOk result (run (buffer_state self.old) part.now ≡ buffer_state self.new) }
        ensures count { OnOk result (byte_count self.new ≡ byte_count self.old + length part.now) }
        ensures err { IfErr result (λ fault. (told self.new.parser.image fault ≡ TextFault.Memory)
            ⊎ (run (buffer_state self.old) part.now
            ≡ Stopped (told self.new.parser.image fault))) }
    {
        let most = MAX_LINE.min(MAX_TEXT - self.parser.through() as usize);
        if part.len() > most - self.line.len() {
            return Err(TextFault::TooLong);
        }
        self.line.extend_from_slice(part)?;
        Ok(())
    }

    /// Reads rows that the text begins with, unless a part of a line was kept, and returns how many bytes they are.
    fn end_rows(&mut self, text: &[u8]) -> Result<usize, TextFault>
        requires { IsLineBuffer self.old }
        ensures valid { OnOk result (IsLineBuffer self.new) }
        ensures ok { IfOk result
            (HasReadRows (judged self.old.parser) (judged self.new.parser) text.now) }
        ensures whole { IfOk result (λ taken. 0 < taken → self.old.line.items ≡ []) }
        ensures line { self.new.line ≡ self.old.line }
        ensures none { result ≡ Ok 0 → self.new ≡ self.old }
        ensures count { IfOk result
            (λ taken. self.new.parser.through ≡ self.old.parser.through + taken) }
        ensures err { IfErr result (λ fault. (told self.new.parser.image fault ≡ TextFault.Memory)
            ⊎ (judged self.old.parser ≡ Err (told self.new.parser.image fault))) }
        ensures memory { IfErr result (λ fault. told self.new.parser.image fault ≡ TextFault.Memory
            → IsPlacedRow (judged self.old.parser) text.now) }
    {
        if !self.line.is_empty() {
            return Ok(0);
        }
        self.parser.read_rows(text)
    }

    /// Reads the lines that end in the piece, and returns what comes after its last LF. If no part of a line was kept
    /// before, memory is needed for data alone.
    pub fn end_lines<'a>(&mut self, piece: &'a [u8]) -> Result<&'a [u8], TextFault>
        requires { IsLineBuffer self.old }
        ensures valid { OnOk result (IsLineBuffer self.new) }
        ensures ok { IfOk result (λ rest.
            run (buffer_state self.new) rest.now ≡ run (buffer_state self.old) piece.now) }
        ensures free { IfOk result (λ rest.
            (k : ℕ) → k < length rest.now → slice_index rest.now k ≢ 10) }
        ensures count { IfOk result (λ rest.
            byte_count self.new + length rest.now ≡ byte_count self.old + length piece.now) }
        ensures whole { self.old.line.items ≡ [] → IfOk result (λ rest.
            (rest.now ≡ last_line piece.now)
            × (on_ok (judged self.old.parser) (λ r. read_lines r (ended_lines piece.now))
            ≡ judged self.new.parser)) }
        ensures err { IfErr result (λ fault. (told self.new.parser.image fault ≡ TextFault.Memory)
            ⊎ (run (buffer_state self.old) piece.now
            ≡ Stopped (told self.new.parser.image fault))) }
        ensures memory { self.old.line.items ≡ [] → IfErr result
            (λ fault. told self.new.parser.image fault ≡ TextFault.Memory
            → HasPlacedData (judged self.old.parser) piece.now) }
    {
        let mut rest = piece;
        'lines: loop {
            let taken = match self.end_rows(rest) {
                Ok(taken) => taken,
                Err(fault) => return Err(fault),
            };
            if taken > 0 {
                rest = &rest[taken..];
                continue;
            }
            let (line, after) = rest.split_at(first_index(rest, b'\n'));
            if after.is_empty() {
                return Ok(rest);
            }
            if let Err(fault) = self.end_line(line) {
                return Err(fault);
            }
            rest = &after[1..];
        }
    }

    /// Reads the next piece of the text.
    pub fn take(&mut self, piece: &[u8]) -> Result<(), TextFault>
        requires { IsLineBuffer self.old }
        ensures valid { OnOk result (IsLineBuffer self.new) }
        ensures ok { OnOk result (run (buffer_state self.old) piece.now ≡ buffer_state self.new) }
        ensures count { OnOk result (byte_count self.new ≡ byte_count self.old + length piece.now) }
        ensures err { IfErr result (λ fault. (told self.new.parser.image fault ≡ TextFault.Memory)
            ⊎ (run (buffer_state self.old) piece.now
            ≡ Stopped (told self.new.parser.image fault))) }
    {
        match self.end_lines(piece) {
            Ok(rest) => self.keep(rest),
            Err(fault) => Err(fault),
        }
    }

    /// The first fault of the text, given the one that reading has met: an address may have come twice before that.
    /// Needs no memory.
    pub fn first_fault(self, fault: TextFault) -> TextFault
        ensures { result ≡ told self.parser.image fault }
    {
        self.parser.first_fault(fault)
    }

    /// Reads the next piece of the text, and refuses at once an address that came twice.
    pub fn take_and_judge(&mut self, piece: &[u8]) -> Result<(), TextFault>
        requires { IsLineBuffer self.old }
        ensures valid { OnOk result (IsLineBuffer self.new) }
        ensures ok { OnOk result (run (buffer_state self.old) piece.now ≡ buffer_state self.new) }
        ensures going { OnOk result (IsGoing (buffer_state self.new)) }
        ensures err { IfErr result (λ fault. (fault ≡ TextFault.Memory)
            ⊎ (run (buffer_state self.old) piece.now ≡ Stopped fault)) }
    {
        let taken = self.take(piece);
        self.parser.refuse_twice()?;
        taken
    }

    /// Reads the last line, since the text ends, and lays out the image. The line is passed, and none was kept.
    pub fn finish_with(self, last: &[u8]) -> Result<Image, TextFault>
        requires { IsLineBuffer self }
        ensures ok { IfOk result (λ image. (r : Reading)
            × (on_ok (judged self.parser) (λ r. read_line r last.now 0) ≡ Ok r) × (r.image ≡ image)) }
        ensures err { IfErr result
            (Refuses (on_ok (judged self.parser) (λ r. read_line r last.now 0))) }
        ensures memory { IfErr result (λ fault. fault ≡ TextFault.Memory
            → IsPlacedData (judged self.parser) last.now 0
            ⊎ ((r : Reading)
            × (on_ok (judged self.parser) (λ r. read_line r last.now 0) ≡ Ok r))) }
        ensures image { IfOk result IsImage }
    {
        let LineBuffer {
            parser,
            mut bytes,
            ..
        } = self;
        parser.finish(last, &mut bytes)
    }

    /// Reads the last line, since the text ends, and lays out the image.
    pub fn finish(self) -> Result<Image, TextFault>
        requires { IsLineBuffer self }
        ensures ok { IfOk result (EndsAs (buffer_state self)) }
        ensures err { IfErr result (Refuses (text_result (buffer_state self))) }
        ensures image { IfOk result IsImage }
    {
        let LineBuffer {
            parser,
            line,
            mut bytes,
        } = self;
        parser.finish(&line, &mut bytes)
    }
}
