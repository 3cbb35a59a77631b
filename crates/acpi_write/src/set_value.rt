//! The value of a set of tables.

ghost use Rattle.std.specs.Prelude.{◌≡◌};

use crate::table_value::{Head, TableValue};
use acpi_base::Witness;
use acpi_check::Refusal;
use std::alloc::AllocError;
use thiserror::Error;

/// The contents of a set of tables, without the addresses of its parts.
#[derive(Debug, Drop)]
pub struct SetValue<'a> {
    /// The OEMID of the RSDP: six characters that identify the OEM (ACPI 6.5, 5.2.5.3).
    pub oemid: [u8; 6],
    /// The header of the root table, an RSDT or an XSDT.
    pub root: Head,
    /// The listed tables, in the order of their slots; a slot that is 0 lists none. The first table of each
    /// `TableKind` is read by its contents. Any other table, even a later one with such a signature, is `Other`.
    pub tables: Vec<TableValue<'a>>,
    /// The bytes of the FACS, if the FADT names one (5.2.10). The FADT's own addresses of it are 0 here.
    pub facs: Option<&'a [u8]>,
}

/// Why a set has no value.
#[derive(Clone, Copy, Debug, PartialEq, Eq, Error)]
pub enum ValuesFault {
    /// The set is not clean; this is its first fault.
    #[error("the set is not clean")]
    NotClean(Witness),
    /// Out of memory.
    #[error("out of memory")]
    Memory,
}

impl From<Refusal> for ValuesFault {
    ghost use Rattle.acpi_write.specs.Views.{values_fault_of};

    ghost from_gives = { λ refusal fault. fault ≡ values_fault_of refusal };

    fn from(refusal: Refusal) -> ValuesFault {
        match refusal {
            Refusal::Fault(fault) => ValuesFault::NotClean(fault),
            Refusal::OutOfMemory => ValuesFault::Memory,
        }
    }
}

impl From<AllocError> for ValuesFault {
    ghost use Rattle.acpi_write.specs.declared.set_value.ValuesFault.{ValuesFault};

    ghost from_gives = { λ _ fault. fault ≡ ValuesFault.Memory };

    fn from(_error: AllocError) -> ValuesFault {
        ValuesFault::Memory
    }
}
