//! Reading a text line by line.

ghost use Rattle.std.specs.Prelude.{◌≡◌, ◌≤◌, ◌<◌, ◌+◌, ◌⊎◌, ℕ, List, length, Ok, IsOk, OnOk, OnErr, IfOk, IfErr};
ghost use Rattle.acpi_base.specs.Memory.{IsImage};
ghost use Rattle.acpi_base.specs.Text.ImageText.{Reading, on_ok, start, max_text, data_fault, put_data, take_line, read_line};
ghost use Rattle.acpi_base.specs.Text.Lines.{Refuses, line_with, reading_with, judged, told};
ghost use Rattle.acpi_base.specs.Text.Rows.{HasReadRows, IsPlacedRow};
ghost use Rattle.acpi_base.specs.Text.TextMemory.{HasRoom, IsPlacedData};

use super::MAX_TEXT;
use super::line::{Form, parse_line};
use super::row::{ROW, parse_rows};
use crate::image::draft::DraftImage;
use crate::image::{Image, ImageFault};
use crate::text::TextFault;
use std::alloc::Global;

/// The most bytes of a line, with its CR and without its LF.
pub const MAX_LINE: usize = 65_536;

/// How many rows are read at once.
const ROWS: usize = 32;

/// The address after the last one.
const END: u128 = 1 << 64;

/// Parses one line after another: what was read so far, and the data. Reading goes on after a line that gives an
/// address twice.
#[derive(Drop)]
pub struct LineParser {
    /// How many lines were read.
    lines: u64,
    /// How many bytes were read, including each line's LF.
    through: u64,
    /// The address of the next data: 2^64 if data has reached the last address.
    next: Option<u128>,
    /// The data so far.
    image: DraftImage,
}

/// Why the bytes of a line cannot be added.
fn data_fault(line: u64, fault: ImageFault) -> TextFault
    ensures { result ≡ data_fault line fault }
{
    match fault {
        ImageFault::PastEnd => TextFault::PastEnd { line },
        ImageFault::Twice { address } => TextFault::Twice { address },
        ImageFault::Memory => TextFault::Memory,
    }
}

impl LineParser {
    /// Nothing read. Takes no memory.
    pub fn new(alloc: Global) -> LineParser
        ensures start { judged result ≡ Ok start }
        ensures lines { result.lines ≡ 0 }
        ensures through { result.through ≡ 0 }
    {
        LineParser {
            lines: 0,
            through: 0,
            next: None,
            image: DraftImage::new(alloc),
        }
    }

    /// Adds the bytes of the line that was read last at the next address.
    fn put_data(&mut self, bytes: &[u8]) -> Result<(), TextFault>
        requires { 0 < length bytes.now }
        ensures ok { OnOk result
            (on_ok (judged self.old) (λ r. put_data r self.old.lines bytes.now r.next)
            ≡ judged self.new) }
        ensures err { IfErr result (λ fault. Refuses
            (on_ok (judged self.old) (λ r. put_data r self.old.lines bytes.now r.next))
            (told self.new.image fault)) }
        ensures memory { IfErr result (λ fault. fault ≡ TextFault.Memory
            → HasRoom self.old.next (length bytes.now)) }
        ensures same { OnErr result (self.new.image ≡ self.old.image) }
        ensures lines { self.new.lines ≡ self.old.lines }
        ensures through { self.new.through ≡ self.old.through }
    {
        let line = self.lines;
        let Some(next) = self.next else {
            return Err(TextFault::NoAddress { line });
        };
        if next > u64::MAX as u128 {
            return Err(TextFault::PastEnd { line });
        }
        let address = next as u64;
        match self.image.add(address, bytes) {
            Ok(()) => {
                self.next = Some(address as u128 + bytes.len() as u128);
                Ok(())
            }
            Err(fault) => Err(data_fault(line, fault)),
        }
    }

    /// Applies the line that was read last: sets the next address, or adds its data.
    fn take_line(&mut self, form: Form, bytes: &[u8]) -> Result<(), TextFault>
        requires { form ≡ Form.Data → 0 < length bytes.now }
        ensures ok { OnOk result
            (on_ok (judged self.old) (λ r. take_line r self.old.lines (line_with form bytes.now))
            ≡ judged self.new) }
        ensures err { IfErr result (λ fault. Refuses
            (on_ok (judged self.old) (λ r. take_line r self.old.lines (line_with form bytes.now)))
            (told self.new.image fault)) }
        ensures memory { IfErr result (λ fault. fault ≡ TextFault.Memory
            → (form ≡ Form.Data) × HasRoom self.old.next (length bytes.now)) }
        ensures same { OnErr result (self.new.image ≡ self.old.image) }
        ensures lines { self.new.lines ≡ self.old.lines }
        ensures through { self.new.through ≡ self.old.through }
    {
        match form {
            Form::Blank => Ok(()),
            Form::Address(address) => {
                self.next = Some(address as u128);
                Ok(())
            }
            Form::Data => self.put_data(bytes),
            Form::Bad => Err(TextFault::BadLine { line: self.lines }),
        }
    }

    /// Why the line that was read last is refused: memory ran out for its data, of so many bytes.
    fn memory_fault(&self, count: usize) -> TextFault
        ensures refused { (bytes : List ℕ) → length bytes ≡ count → Refuses
            (on_ok (judged self.now) (λ r. put_data r self.now.lines bytes r.next))
            (told self.now.image result) }
        ensures memory { result ≡ TextFault.Memory → HasRoom self.now.next count }
    {
        let line = self.lines;
        let Some(next) = self.next else {
            return TextFault::NoAddress { line };
        };
        if next > END - count as u128 {
            return TextFault::PastEnd { line };
        }
        TextFault::Memory
    }

    /// Reads the next line: `ending` is 1 if an LF ends it, and 0 if the text does. The vector is reused for its bytes.
    #[tactic(auto, unfolding(crate::specs::Text::ImageText::read_line), using(crate::proofs::Texts::LineParsing::data_some))]
    pub fn read_line(
        &mut self,
        line: &[u8],
        ending: u64,
        bytes: &mut Vec<u8>,
    ) -> Result<(), TextFault>
        requires lines { self.old.lines ≤ self.old.through }
        requires through { self.old.through ≤ max_text }
        requires ending { ending ≤ 1 }
        ensures ok { OnOk result
            (on_ok (judged self.old) (λ r. read_line r line.now ending) ≡ judged self.new) }
        ensures err { IfErr result (λ fault. Refuses
            (on_ok (judged self.old) (λ r. read_line r line.now ending))
            (told self.new.image fault)) }
        ensures memory { IfErr result (λ fault. told self.new.image fault ≡ TextFault.Memory
            → IsPlacedData (judged self.old) line.now ending) }
        ensures same { OnErr result (self.new.image ≡ self.old.image) }
        ensures lines { OnOk result (self.new.lines ≡ self.old.lines + 1) }
        ensures through { OnOk result
            (self.new.through ≡ self.old.through + length line.now + ending) }
        ensures short { OnOk result (self.new.through ≤ max_text) }
    {
        if line.len() > MAX_LINE {
            return Err(TextFault::TooLong);
        }
        let through = self.through + line.len() as u64 + ending;
        if through > MAX_TEXT as u64 {
            return Err(TextFault::TooLong);
        }
        self.lines += 1;
        self.through = through;
        match parse_line(line, bytes) {
            Ok(form) => self.take_line(form, bytes),
            Err(error) => Err(self.memory_fault(error.count)),
        }
    }

    /// Reads rows that the text begins with, adds their bytes at once, and returns how many bytes of the text they are; 0
    /// if it begins with something else, or if one of them may have a fault other than `Twice`.
    pub fn read_rows(&mut self, text: &[u8]) -> Result<usize, TextFault>
        requires lines { self.old.lines ≤ self.old.through }
        requires through { self.old.through ≤ max_text }
        ensures ok { IfOk result (HasReadRows (judged self.old) (judged self.new) text.now) }
        ensures none { result ≡ Ok 0 → self.new ≡ self.old }
        ensures lines { OnOk result (self.new.lines ≤ self.new.through) }
        ensures through { IfOk result (λ count. self.new.through ≡ self.old.through + count) }
        ensures short { OnOk result (self.new.through ≤ max_text) }
        ensures err { IfErr result (λ fault. (told self.new.image fault ≡ TextFault.Memory)
            ⊎ (judged self.old ≡ Err (told self.new.image fault))) }
        ensures memory { IfErr result (λ fault. told self.new.image fault ≡ TextFault.Memory
            → IsPlacedRow (judged self.old) text.now) }
    {
        let Some(next) = self.next else {
            return Ok(0);
        };
        // Two bytes show it of nearly all other lines.
        if text.len() < ROW || text[ROW / 2 - 1] != b' ' || text[ROW - 1] != b'\n' {
            return Ok(0);
        }
        let mut bytes = [0; 16 * ROWS];
        let count = parse_rows(text, &mut bytes);
        let through = self.through + (ROW * count) as u64;
        if count == 0 || through > MAX_TEXT as u64 || next > END - 16 * count as u128 {
            return Ok(0);
        }
        match self.image.add(next as u64, &bytes[..16 * count]) {
            Ok(()) => {
                self.lines += count as u64;
                self.through = through;
                self.next = Some(next + 16 * count as u128);
                Ok(ROW * count)
            }
            Err(_) => Err(TextFault::Memory),
        }
    }

    /// How many bytes were read, each line's LF among them.
    pub fn through(&self) -> u64
        ensures { result ≡ self.now.through }
    {
        self.through
    }

    /// Refuses `Twice` if an address came twice so far, with the first such address.
    pub fn refuse_twice(&self) -> Result<(), TextFault>
        ensures ok { OnOk result (IsOk (judged self.now)) }
        ensures err { IfErr result (Refuses (judged self.now)) }
    {
        match self.image.first_twice_so_far()? {
            Some(address) => Err(TextFault::Twice { address }),
            None => Ok(()),
        }
    }

    /// The first fault of the text, given the one that reading has met: an address may have come twice before that.
    /// Needs no memory.
    pub fn first_fault(self, fault: TextFault) -> TextFault
        ensures { result ≡ told self.image fault }
    {
        match self.image.first_twice() {
            Some(address) => TextFault::Twice { address },
            None => fault,
        }
    }

    /// The image of the data.
    fn lay_out(self) -> Result<Image, TextFault>
        ensures ok { IfOk result (λ image. judged self ≡ Ok (reading_with self image)) }
        ensures err { IfErr result (Refuses (judged self)) }
        ensures memory { IfErr result (λ fault. fault ≡ TextFault.Memory
            → (r : Reading) × (judged self ≡ Ok r)) }
        ensures image { IfOk result IsImage }
    {
        let lines = self.lines;
        match self.image.finish() {
            Ok(image) => Ok(image),
            Err(fault) => Err(data_fault(lines, fault)),
        }
    }

    /// Reads the last line, since the text ends, and lays out the image. The vector is used for the line's bytes.
    pub fn finish(self, last: &[u8], bytes: &mut Vec<u8>) -> Result<Image, TextFault>
        requires lines { self.lines ≤ self.through }
        requires through { self.through ≤ max_text }
        ensures ok { IfOk result (λ image. (r : Reading)
            × (on_ok (judged self) (λ r. read_line r last.now 0) ≡ Ok r) × (r.image ≡ image)) }
        ensures err { IfErr result
            (Refuses (on_ok (judged self) (λ r. read_line r last.now 0))) }
        ensures memory { IfErr result (λ fault. fault ≡ TextFault.Memory
            → IsPlacedData (judged self) last.now 0
            ⊎ ((r : Reading) × (on_ok (judged self) (λ r. read_line r last.now 0) ≡ Ok r))) }
        ensures image { IfOk result IsImage }
    {
        let mut parser = self;
        if let Err(fault) = parser.read_line(last, 0, bytes) {
            return Err(parser.first_fault(fault));
        }
        parser.lay_out()
    }
}
