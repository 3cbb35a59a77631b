//! Confirming a fault: whether an image has a fault that a checker reports, checked independently of the checker.
//!
//! `confirm` returns true exactly for the faults of the definitions, wherever the witness comes from and whatever its
//! three numbers are. It does not require that earlier stages hold. With the crates that check it shares only
//! `acpi_base`: images, numbers at an offset, byte sums and the policy. It looks the bytes up in the image itself, and
//! has its own walks over slots and entries. It allocates nothing.
//!
//! An example, from `crates/acpi_cli/src/confirm.rt`, where `parse_witness` has read the fault from an argument:
//!
//! ```rust
//! policy.set_rsdp(address);
//! if confirm(image, &policy, witness) {
//!     let bytes = Vec::from_slice(alloc, b"true\n")?;
//!     let outcome = Outcome::Yes;
//!     return Ok(Output { bytes, outcome });
//! }
//! ```
//!
//! There is a file for each group of codes, in the order of `docs/FAULTS.md`:
//!
//! ```text
//! rsdp      1 to 7     the RSDP
//! root      8 to 14    the root table, and its bytes for the later codes
//! tables   15 to 18    a listed table
//! fadt     19 to 25    the FADT
//! facs     26 to 31    the FACS
//! madt     32 to 40    the MADT's entries
//! srat     41 to 45    the SRAT's entries
//! slit     46 to 49    the SLIT
//! pptt     50 to 56    the PPTT's entries, and its chains
//! cross    57 to 59    two tables, or two kinds of entries
//! ```
//!
//! `listed_tables` finds the first listed table with a signature. `in_tables` passes its bytes on to be checked, and
//! `entries` walks over the entries of a table.
#![tactic(auto)]

ghost use Rattle.std.specs.Prelude.{◌↔◌, IsTrue};
ghost use Rattle.acpi_base.specs.Faults.{Fault};

mod cross;
mod entries;
mod facs;
mod fadt;
mod in_tables;
mod listed_tables;
mod madt;
mod pptt;
mod root;
mod rsdp;
mod slit;
mod srat;
mod tables;

use acpi_base::{LentImage, Policy, Stage, Witness};
use facs::is_facs_fault;
use fadt::is_fadt_fault;
use in_tables::{in_madt, in_madt_and_pptt, in_madt_and_srat, in_pptt, in_slit, in_srat};
use root::is_root_fault;
use rsdp::is_rsdp_fault;
use tables::is_table_fault;

/// Whether the witness is a fault of the image under the policy: its code's condition holds for these three numbers,
/// of which those that the code does not use are 0. Any numbers are allowed, and no stage needs to hold. Allocates
/// nothing, and always returns.
///
/// A fault need not be the first one: if a set has several, `confirm` accepts each.
pub fn confirm(image: &LentImage<'_>, policy: &Policy, witness: &Witness) -> bool
    ensures fault { IsTrue result ↔ Fault image.now policy.now witness.now }
{
    match witness.code.stage() {
        Stage::Rsdp => is_rsdp_fault(image, policy, witness),
        Stage::Root => is_root_fault(image, policy, witness),
        Stage::Tables => is_table_fault(image, policy, witness),
        Stage::Fadt => is_fadt_fault(image, policy, witness),
        Stage::Facs => is_facs_fault(image, policy, witness),
        Stage::Madt | Stage::Interrupts | Stage::Overrides | Stage::Served => {
            in_madt(image, policy, witness)
        }
        Stage::Srat | Stage::Ranges => in_srat(image, policy, witness),
        Stage::Slit => in_slit(image, policy, witness),
        Stage::Pptt | Stage::References | Stage::Parents | Stage::Caches => {
            in_pptt(image, policy, witness)
        }
        Stage::Domains => in_madt_and_srat(image, policy, witness),
        Stage::Leaves => in_madt_and_pptt(image, policy, witness),
    }
}
