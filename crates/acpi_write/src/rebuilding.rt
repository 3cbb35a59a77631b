//! Sets rebuilt at another address.

ghost use Rattle.std.specs.Prelude.{IfOk, IfErr};
ghost use Rattle.acpi_base.specs.Memory.{IsImage};
ghost use Rattle.acpi_base.specs.Policy.{with_rsdp};
ghost use Rattle.acpi_base.specs.Statements.{IsClean};
ghost use Rattle.acpi_write.specs.PlacedSets.{IsPlacedSet};
ghost use Rattle.acpi_write.specs.Rebuilding.{IsRebuilt, IsRebuildRefusal};
ghost use Rattle.acpi_write.specs.SetBytes.{AreRebuiltBytes};

use crate::laws::rebuilt_sets_are_kept;
use crate::placing::{RebuildFault, placed};
use crate::set_bytes::set_bytes;
use crate::set_reading::values;
use crate::set_value::SetValue;
use crate::set_writing::written_set;
use acpi_base::{Image, LentImage, Policy};
use std::alloc::Global;

/// The contents of a set, and the addresses of its parts from a base address on.
#[derive(Drop)]
struct PlacedSet<'a> {
    value: SetValue<'a>,
    places: Vec<u64>,
}

/// The set of the image, placed at the base address. Refuses as `rebuild` does.
fn placed_set<'a>(
    alloc: Global,
    image: &'a LentImage<'_>,
    policy: &Policy,
    base: u64,
) -> Result<PlacedSet<'a>, RebuildFault>
    ensures placed { IfOk result (IsPlacedSet image.now policy.now base) }
    ensures refused { IfErr result (IsRebuildRefusal image.now policy.now base) }
{
    if base % 64 != 0 {
        return Err(RebuildFault::Unaligned);
    }
    let value = values(alloc, image, policy)?;
    let places = placed(alloc, &value, base)?;
    Ok(PlacedSet { value, places })
}

/// Rebuilds the set of an image at the address `base`: the RSDP at `base`, after it the XSDT, the FACS if there is
/// one, and the listed tables in the order of their slots, each part at the lowest multiple of 64 not below the end
/// of the one before. The new image has nothing else. It is clean under the same policy with `base` as the RSDP's
/// address. The law `rebuilt_sets_are_kept` states that it also has the same contents as the old set, and that
/// rebuilding it at `base` gives the same image; its premise that an image's numbers fit is what `Image::numbers_fit`
/// states.
///
/// Refuses, in this order: `Unaligned` if the base address is not a multiple of 64; `NotClean` if the set is not
/// clean under the policy, with its first fault, which is that of `check`; `TableTooLong` if the XSDT would have more
/// than 4,294,967,295 bytes; `PastEnd` if a part would pass the address 2^64 - 1; `NeedsLow` if the FADT has fewer
/// than 140 bytes and the FACS would be at 2^32 or above; `Memory` if the allocator is out of memory, which may be
/// returned instead of any but `Unaligned`, and only if the stages up to the MADT's hold, since these allocate
/// nothing. By the law `refused_sets_are_not_rebuilt` none of them but `Memory` applies if there is a rebuilt image.
pub fn rebuild(
    alloc: Global,
    image: &LentImage<'_>,
    policy: &Policy,
    base: u64,
) -> Result<Image, RebuildFault>
    ensures rebuilt { IfOk result (λ new. IsRebuilt image.now policy.now base new) }
    ensures image { IfOk result IsImage }
    ensures clean { IfOk result (λ new. IsClean new (with_rsdp policy.now base)) }
    ensures refused { IfErr result (IsRebuildRefusal image.now policy.now base) }
{
    let set = placed_set(alloc, image, policy, base)?;
    // For the proof: the three calls that return nothing do nothing at run time.
    image.numbers_fit();
    rebuilt_sets_are_kept();
    let new = written_set(alloc, &set.value, base, &set.places)?;
    new.numbers_fit();
    Ok(new)
}

/// Rebuilds the set of an image at the address `base`, as `rebuild` does, and returns it as memory: the bytes from
/// `base` on, up to the end of the last part, with zeros between the parts.
///
/// Refuses as `rebuild` does, and in the same order.
pub fn rebuild_bytes(
    alloc: Global,
    image: &LentImage<'_>,
    policy: &Policy,
    base: u64,
) -> Result<Vec<u8>, RebuildFault>
    ensures rebuilt { IfOk result (λ bytes. AreRebuiltBytes image.now policy.now base bytes.items) }
    ensures refused { IfErr result (IsRebuildRefusal image.now policy.now base) }
{
    let set = placed_set(alloc, image, policy, base)?;
    // For the proof, as in `rebuild`.
    image.numbers_fit();
    rebuilt_sets_are_kept();
    let bytes = set_bytes(alloc, &set.value, base, &set.places)?;
    Ok(bytes)
}
