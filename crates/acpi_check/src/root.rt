//! Stage 2: the root table.

ghost use Rattle.std.specs.Prelude.{◌≡◌, ◌≢◌, ℕ, Some};
ghost use Rattle.acpi_base.specs.Policy.{PolicyValue};
ghost use Rattle.acpi_base.specs.Rsdp.{IsRsdp};
ghost use Rattle.acpi_base.specs.Root.{chosen_root};
ghost use Rattle.acpi_base.specs.Statements.{CleanBefore};
ghost use Rattle.acpi_base.specs.declared.stage.Stage.{Stage};
ghost use Rattle.acpi_base.specs.declared.code.Code.{Code};
ghost use Rattle.acpi_check.specs.StageResults.{Reads};
ghost use Rattle.acpi_check.specs.TableResults.{IsRootOf};

use acpi_base::{Code, LentImage, Witness};
use acpi_read::{Root, Rsdp};

/// The root table that the RSDP names; its faults are at the RSDP's address if it names none, otherwise at the root
/// table's.
pub fn check_root<'a>(image: &'a LentImage<'_>, rsdp: &Rsdp) -> Result<Root<'a>, Witness>
    ensures { (q : PolicyValue) → CleanBefore Stage.Root image.now q
        → IsRsdp image.now q.rsdp rsdp.now
        → Reads Stage.Root image.now q (IsRootOf image.now q.rsdp) result }
{
    match Root::read(image, rsdp) {
        Ok(root) => Ok(root),
        Err(code) => Err(Witness::at(code, place_of_fault(rsdp, code))),
    }
}

/// The address of a fault of the root table.
#[tactic(auto, unfolding(acpi_base::specs::Root::chosen_root))]
fn place_of_fault(rsdp: &Rsdp, code: Code) -> u64
    ensures none { code ≡ Code.NoRoot → result ≡ rsdp.now.address }
    ensures named { (r d : ℕ) → code ≢ Code.NoRoot
        → chosen_root rsdp.now.named ≡ Some (record { address = r; width = d }) → result ≡ r }
{
    if code == Code::NoRoot {
        return rsdp.address();
    }
    if rsdp.xsdt() != 0 {
        return rsdp.xsdt();
    }
    u64::from(rsdp.rsdt())
}
