//! Images read from image text: lines of hex digits that say which bytes are at which addresses.

mod byte_search;
mod digit;
pub(crate) mod line;
mod line_buffer;
mod line_parser;
mod row;

ghost use Rattle.std.specs.Prelude.{◌≡◌, ◌≤◌, ◌+◌, ◌⊎◌, ℕ, List, length, OnOk, IfOk, IfErr, MatchResult};
ghost use Rattle.std.specs.Io.KnownBytes.{Consumes, IsAtEnd};
ghost use Rattle.acpi_base.specs.Memory.{IsImage};
ghost use Rattle.acpi_base.specs.Text.ImageText.{IsRefused, IsText, max_text};
ghost use Rattle.acpi_base.specs.Text.TextMachine.{ReaderState, Stopped, EndsAs, IsGoing, initial_state, text_result, run};
ghost use Rattle.acpi_base.specs.Text.TextMemory.{MayRunOut};
ghost use Rattle.acpi_base.specs.Text.TextReading.{IsRefusal, CountsRead};

use crate::image::Image;
use crate::tally::Tally;
use crate::text::TextFault;
use line_buffer::LineBuffer;
use std::alloc::Global;
use std::io::Read;
use std::marker::Model;

/// The most bytes of a text.
const MAX_TEXT: usize = 67_108_864;

/// How many bytes one read asks for.
const PIECE: usize = 32_768;

/// An image text that comes in pieces, which may end anywhere. Of the text only the incomplete last line is kept.
///
/// A line is judged when its LF comes or the text ends; `TooLong` is returned at the first byte too many. The text is
/// refused with the fault of its first line that has one. Lines count from 1. In one line the faults have this order:
/// 1. `TooLong`: the line has more than 65,536 bytes, its LF not counted, or the text through its LF more than
///    67,108,864.
/// 2. `BadLine`: the line is neither an address, nor data, nor blank.
/// 3. `NoAddress`: it is data, and no line before it gave an address.
/// 4. `PastEnd`: its data passes the address 2^64 - 1, even if the data before it ends there.
/// 5. `Twice`: an address of its data has a byte already; the lowest such address.
///
/// `Memory`: out of memory for the line or the image. Until the text is refused, it can be returned instead of any
/// other result. A refused text stays refused with the same fault.
///
/// Each `feed` goes over the list of the image's pieces so far, to see whether an address came twice, and copies and
/// sorts it if they did not come in the order of their addresses. If there are many of them, `parse_image` and
/// `read_image`, which look only once, take less time.
#[derive(Drop)]
pub struct ImageText {
    buffer: LineBuffer,
    stopped: Option<TextFault>,
}

impl Model for ImageText {
    ghost use Rattle.acpi_base.specs.Text.TextMachine.{ReaderState};
    ghost use Rattle.acpi_base.specs.Text.StateCode.{state_code};

    ghost Value = { ReaderState };

    ghost coded = { state_code };

    ghost use Rattle.acpi_base.specs.Text.LineBuffers.{reader_state, IsReader};

    ghost view = { λ text. reader_state text.stopped text.buffer };

    ghost invariant = { λ text. IsReader text.stopped text.buffer };
}

impl ImageText {
    /// The empty text. Takes no memory.
    pub fn new(alloc: Global) -> ImageText
        ensures { result ≡ initial_state }
    {
        ImageText {
            buffer: LineBuffer::new(alloc),
            stopped: None,
        }
    }

    /// Reads the next piece of the text. Refuses as above, with the first fault in the text so far. A line that has not
    /// ended has no fault but `TooLong`. After a refusal it takes no memory.
    pub fn feed(&mut self, piece: &[u8]) -> Result<(), TextFault>
        ensures ok { OnOk result (self.new ≡ run self.old piece.now) }
        ensures going { OnOk result (IsGoing self.new) }
        ensures err { IfErr result
            (λ fault. (self.new ≡ Stopped fault)
            × ((fault ≡ TextFault.Memory) ⊎ (run self.old piece.now ≡ Stopped fault))) }
        ensures stays { (fault : TextFault) → self.old ≡ Stopped fault
            → (result ≡ Err fault) × (self.new ≡ self.old) }
    {
        if let Some(fault) = self.stopped {
            return Err(fault);
        }
        let taken = self.buffer.take_and_judge(piece);
        if let Err(fault) = taken {
            self.stopped = Some(fault);
        }
        taken
    }

    /// Ends the text: judges its last line as far as it has come, and returns the image of its data. After a refusal it
    /// takes no memory.
    pub fn finish(self) -> Result<Image, TextFault>
        ensures ok { IfOk result (EndsAs self) }
        ensures err { IfErr result (λ fault. (fault ≡ TextFault.Memory)
            ⊎ (text_result self ≡ Err fault)) }
        ensures stays { (fault : TextFault) → self ≡ Stopped fault → result ≡ Err fault }
        ensures image { IfOk result IsImage }
    {
        match self.stopped {
            Some(fault) => Err(fault),
            None => self.buffer.finish(),
        }
    }
}

/// Reads a text, and returns the image of its data. A read of no bytes is the end. Refuses as `ImageText` does, and
/// with `Read` if a read failed, and neither the complete lines nor the lengths so far have a fault.
///
/// It stops at the first fault, except that a text that gives an address twice may be read on past that line, at most
/// to its end. If a read fails there, that is counted, but the text is refused with `Twice`. With any other result than
/// `Twice` and `Read` no read failed. At most 67,108,865 bytes are read, so a reader that never ends is refused.
/// Whatever is returned, what was read is gone from the reader.
pub fn read_image<R: Read>(alloc: Global, reader: &mut Tally<R>) -> Result<Image, TextFault>
    ensures text { (text : List ℕ)
        × Consumes (R.remaining reader.old.inner) (R.remaining reader.new.inner) text
        × (length text ≤ max_text + 1)
        × MatchResult result
        (λ image. IsAtEnd (R.remaining reader.new.inner) × IsText text image)
        (IsRefusal text (R.remaining reader.new.inner)) }
    ensures image { IfOk result IsImage }
    ensures count { MatchResult result (λ _. reader.new.failures ≡ reader.old.failures)
        (CountsRead reader.old.failures reader.new.failures) }
{
    let mut buffer = LineBuffer::new(alloc);
    let mut piece = [0; PIECE];
    let mut total = 0;
    'pieces: loop {
        // One byte more than a text may have shows that it is too long.
        let room = (MAX_TEXT + 1 - total).min(PIECE);
        let Ok(count) = reader.read(&mut piece[..room]) else {
            return Err(buffer.first_fault(TextFault::Read));
        };
        if count == 0 {
            return buffer.finish();
        }
        if let Err(fault) = buffer.take(&piece[..count]) {
            return Err(buffer.first_fault(fault));
        }
        total += count;
    }
}

/// The image of a complete text. Refuses as `ImageText` does.
///
/// It copies no part of the text but its data. So it returns `Memory` only at a line of data that has an address and
/// does not pass the last one, if no line before it has a fault; or at the end of a text without a fault, when the
/// image is laid out.
pub fn parse_image(alloc: Global, text: &[u8]) -> Result<Image, TextFault>
    ensures ok { IfOk result (IsText text.now) }
    ensures err { IfErr result (λ fault. (fault ≡ TextFault.Memory) ⊎ IsRefused text.now fault) }
    ensures memory { IfErr result (λ fault. fault ≡ TextFault.Memory → MayRunOut text.now) }
    ensures image { IfOk result IsImage }
{
    let mut buffer = LineBuffer::new(alloc);
    match buffer.end_lines(text) {
        Ok(last) => buffer.finish_with(last),
        Err(fault) => Err(buffer.first_fault(fault)),
    }
}
