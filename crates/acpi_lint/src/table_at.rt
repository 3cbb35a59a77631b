//! What is at an address that a slot lists: the fault of the table there, and which table it is (ACPI 6.5, 5.2.6).

ghost use Rattle.std.specs.Prelude.{◌≡◌, ◌↔◌, ◌⊎◌, IsTrue, Some, true, length};
ghost use Rattle.acpi_base.specs.Facs.{facs_signature};
ghost use Rattle.acpi_base.specs.Image.Runs.{AreBytesFrom};
ghost use Rattle.acpi_lint.specs.Rules.Slots.{dsdt_signature};
ghost use Rattle.acpi_base.specs.Memory.{bytes_at};
ghost use Rattle.acpi_base.specs.Signature.{has_signature};
ghost use Rattle.acpi_base.specs.Tables.{TableFault};
ghost use Rattle.acpi_base.specs.declared.code.Code.{Code};
ghost use Rattle.acpi_lint.specs.Slots.{IsTableAt, HasSought};

use crate::further_table::FurtherTable;
use crate::header_advice::odd_field;
use acpi_base::field::{is_signed, u32_at};
use acpi_base::{Code, LentImage, TableKind};
use acpi_read::sums_to_zero;

/// What is looked for at the addresses that slots list.
#[derive(Clone, Copy)]
pub enum Sought {
    /// A table that has the fault with this code.
    Fault(Code),
    /// A header of this kind.
    Kind(TableKind),
    /// The header of this further table.
    Further(FurtherTable),
    /// The header of a DSDT or of a FACS.
    Apart,
}

/// What is at an address. An image may list millions, so this is kept small.
#[derive(Clone, Copy)]
pub struct TableAt {
    /// The address.
    pub address: u64,
    /// The signature of the header there as a number, otherwise 0.
    pub signature: u32,
    /// The offset of the first field of the header there whose text is odd, if there is one.
    pub odd_text: Option<u8>,
    /// The fault of the table there, of which there is at most one.
    pub fault: Option<Code>,
    /// Its kind, by the signature of its header.
    pub kind: Option<TableKind>,
    /// Which further table it is, by the signature too.
    pub further: Option<FurtherTable>,
    /// Whether it is a DSDT or a FACS, by the signature too.
    pub is_apart: bool,
}

/// The fault of a table whose header is present. `run` has the bytes from its address on.
fn table_fault(image: &LentImage<'_>, address: u64, run: &[u8], header: &[u8]) -> Option<Code>
    requires run { AreBytesFrom image.now address run.now }
    requires present { bytes_at image.now address 36 ≡ Some header.now }
    requires long { length header.now ≡ 36 }
    ensures { (code : Code) → (result ≡ Some code) ↔ TableFault image.now address code }
{
    let length = u32_at(header, 4);
    if length < 36 {
        return Some(Code::TableLength);
    }
    let Some(bytes) = run.get(..length as usize) else {
        return Some(Code::TableOut);
    };
    if sums_to_zero(image, address, bytes) {
        None
    } else {
        Some(Code::TableSum)
    }
}

/// Whether a header is that of a DSDT or of a FACS.
fn is_apart(header: &[u8]) -> bool
    ensures { IsTrue result
        ↔ ((has_signature header.now dsdt_signature ≡ true) ⊎ (has_signature header.now facs_signature ≡ true)) }
{
    is_signed(header, b"DSDT") || is_signed(header, b"FACS")
}

impl TableAt {
    /// What is at an address, for which the image is searched once. Its bytes are summed only if all of them are
    /// present.
    pub fn of(image: &LentImage<'_>, address: u64) -> TableAt
        ensures there { result.address ≡ address }
        ensures noted { IsTableAt image.now result }
    {
        let run = image.bytes_from(address);
        let Some(header) = run.get(..36) else {
            return TableAt {
                address,
                signature: 0,
                odd_text: None,
                fault: Some(Code::TableHeaderOut),
                kind: None,
                further: None,
                is_apart: false,
            };
        };
        TableAt {
            address,
            signature: u32_at(header, 0),
            odd_text: odd_field(header),
            fault: table_fault(image, address, run, header),
            kind: TableKind::of(header),
            further: FurtherTable::of(header),
            is_apart: is_apart(header),
        }
    }

    /// Whether the table there has the fault with this code.
    fn has_fault(&self, code: Code) -> bool
        ensures { IsTrue result ↔ self.now.fault ≡ Some code }
    {
        match self.fault {
            Some(fault) => fault == code,
            None => false,
        }
    }

    /// Whether this is looked for.
    pub fn has(&self, sought: Sought) -> bool
        ensures { IsTrue result ↔ HasSought sought self.now }
    {
        match sought {
            Sought::Fault(code) => self.has_fault(code),
            Sought::Kind(kind) => self.kind == Some(kind),
            Sought::Further(table) => self.further == Some(table),
            Sought::Apart => self.is_apart,
        }
    }
}
