//! The first listed table with a signature (ACPI 6.5, 5.2.6 to 5.2.8).

ghost use Rattle.std.specs.Prelude.{◌↔◌, ◌≤◌, ◌<◌, ◌^◌, ℕ, List, IsTrue, IfSome, MatchOption, length};
ghost use Rattle.acpi_base.specs.Listed.{IsListedTable, ListsNone, IsFirstListed, IsNoneListed};
ghost use Rattle.acpi_base.specs.Memory.{Memory};
ghost use Rattle.acpi_confirm.specs.Roots.{HasSlots, IsHeaderIn, IsSignedIn, IsCompleteRoot};

use crate::root::{Root, complete_root};
use crate::tables::table_at;
use acpi_base::field::is_signed;
use acpi_base::{LentImage, Policy};

/// The bytes of the first listed table with the signature, if it is complete: the first slot whose address has a
/// header with the signature decides.
pub(crate) fn listed<'a>(
    image: &'a LentImage<'_>,
    policy: &Policy,
    signature: &[u8; 4],
) -> Option<&'a [u8]>
    ensures found { MatchOption result ((whole : List ℕ)
        → ¬ IsListedTable image.now policy.now.rsdp signature.now whole)
        (λ whole. IsListedTable image.now policy.now.rsdp signature.now whole.now) }
    ensures count { IfSome result (λ whole. (36 ≤ length whole.now) × (length whole.now < 2 ^ 32)) }
{
    let root = complete_root(image, policy.rsdp())?;
    table_found(image, first_with(image, &root, signature))
}

/// The bytes of the first listed table with the one signature, and of that with the other, each if it is complete. The
/// slots are read once for both, up to the later of the two.
pub(crate) fn both_listed<'a>(
    image: &'a LentImage<'_>,
    policy: &Policy,
    one: &[u8; 4],
    other: &[u8; 4],
) -> (Option<&'a [u8]>, Option<&'a [u8]>)
    ensures one { MatchOption result.0 ((whole : List ℕ)
        → ¬ IsListedTable image.now policy.now.rsdp one.now whole)
        (λ whole. IsListedTable image.now policy.now.rsdp one.now whole.now) }
    ensures other { MatchOption result.1 ((whole : List ℕ)
        → ¬ IsListedTable image.now policy.now.rsdp other.now whole)
        (λ whole. IsListedTable image.now policy.now.rsdp other.now whole.now) }
    ensures one_count { IfSome result.0
        (λ whole. (36 ≤ length whole.now) × (length whole.now < 2 ^ 32)) }
    ensures other_count { IfSome result.1
        (λ whole. (36 ≤ length whole.now) × (length whole.now < 2 ^ 32)) }
{
    let Some(root) = complete_root(image, policy.rsdp()) else {
        return (None, None);
    };
    let (first, second) = first_with_each(image, &root, one, other);
    (table_found(image, first), table_found(image, second))
}

/// Whether the root table is complete and lists no header with the signature.
pub(crate) fn lists_none(image: &LentImage<'_>, policy: &Policy, signature: &[u8; 4]) -> bool
    ensures { IsTrue result ↔ ListsNone image.now policy.now.rsdp signature.now }
{
    match complete_root(image, policy.rsdp()) {
        Some(root) => first_with(image, &root, signature).is_none(),
        None => false,
    }
}

/// The table at an address that was found, if there is one and the table is complete.
fn table_found<'a>(image: &'a LentImage<'_>, address: Option<u64>) -> Option<&'a [u8]>
    ensures found { (p d : ℕ) (bytes signature : List ℕ) → IsCompleteRoot image.now p d bytes
        → MatchOption address (IsNoneListed image.now bytes d signature)
        (IsFirstListed image.now bytes d signature)
        → MatchOption result ((whole : List ℕ) → ¬ IsListedTable image.now p signature whole)
        (λ whole. IsListedTable image.now p signature whole.now) }
    ensures count { IfSome result (λ whole. (36 ≤ length whole.now) × (length whole.now < 2 ^ 32)) }
{
    table_at(image, address?)
}

/// The address in the first slot at whose address a header with the signature is present.
fn first_with(image: &LentImage<'_>, root: &Root<'_>, signature: &[u8; 4]) -> Option<u64>
    requires { HasSlots root.now.width root.now.bytes.now }
    ensures { MatchOption result
        (IsNoneListed image.now root.now.bytes.now root.now.width signature.now)
        (IsFirstListed image.now root.now.bytes.now root.now.width signature.now) }
{
    for slot in 0..root.slots() {
        if let Some(address) = signed(header_in(image, root, slot), signature) {
            return Some(address);
        }
    }
    None
}

/// The address in the first slot at whose address a header with the one signature is present, and the same for the
/// other one.
fn first_with_each(
    image: &LentImage<'_>,
    root: &Root<'_>,
    one: &[u8; 4],
    other: &[u8; 4],
) -> (Option<u64>, Option<u64>)
    requires { HasSlots root.now.width root.now.bytes.now }
    ensures one { MatchOption result.0
        (IsNoneListed image.now root.now.bytes.now root.now.width one.now)
        (IsFirstListed image.now root.now.bytes.now root.now.width one.now) }
    ensures other { MatchOption result.1
        (IsNoneListed image.now root.now.bytes.now root.now.width other.now)
        (IsFirstListed image.now root.now.bytes.now root.now.width other.now) }
{
    let mut first = None;
    let mut second = None;
    for k in 0..root.slots() {
        let here = header_in(image, root, k);
        first = first.or(signed(here, one));
        second = second.or(signed(here, other));
        if first.is_some() && second.is_some() {
            break;
        }
    }
    (first, second)
}

/// The address in slot k and the header there, if the slot has an address and the header is present.
#[tactic(auto, using(acpi_base::proofs::Root::Slots::one_slot))]
fn header_in<'a>(image: &'a LentImage<'_>, root: &Root<'_>, k: u64) -> Option<(u64, &'a [u8])>
    requires { HasSlots root.now.width root.now.bytes.now }
    ensures { IsHeaderIn image.now root.now.bytes.now root.now.width k result }
{
    let address = root.slot(k)?;
    let header = image.window(address, 36)?;
    Some((address, header))
}

/// The address of the header that was found in a slot, if it begins with the signature.
fn signed(found: Option<(u64, &[u8])>, signature: &[u8; 4]) -> Option<u64>
    ensures { (m : Memory) (bytes : List ℕ) (d k : ℕ) → IsHeaderIn m bytes d k found.entry
        → IsSignedIn m bytes d k signature.now result }
{
    let (address, header) = found?;
    is_signed(header, signature).then_some(address)
}
