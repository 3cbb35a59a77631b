//! Codes 8 to 14: the root table, which is the XSDT or the RSDT (ACPI 6.5, 5.2.7, 5.2.8).

ghost use Rattle.std.specs.Prelude.{◌≡◌, ◌+◌, ◌*◌, ◌≤◌, ◌<◌, ◌↔◌, ℕ, List, IsTrue, IfSome, MatchOption, Some, length};
ghost use Rattle.std.specs.Option.{option_map};
ghost use Rattle.acpi_base.specs.Faults.{FaultCondition};
ghost use Rattle.acpi_base.specs.Rsdp.{addresses_at};
ghost use Rattle.acpi_base.specs.Root.{chosen_root, root_signature, IsSlotWidth, HasNoRoot, IsRoot, HasSlot, RootTableFault};
ghost use Rattle.acpi_base.specs.declared.stage.Stage.{Stage};
ghost use Rattle.acpi_confirm.specs.Roots.{IsCompleteRoot, HasSlots};

use crate::tables::table_at;
use acpi_base::field::{is_signed, u8_at, u32_at, u64_at};
use acpi_base::{Code, LentImage, Policy, Witness, sum};

/// The addresses that an RSDP names; 0 for none.
#[derive(Clone, Copy, Debug)]
struct Addresses {
    rsdt: u32,
    /// 0 in the short form.
    xsdt: u64,
}

/// The address of the root table, and the width of its slots.
#[derive(Clone, Copy, Debug)]
struct RootPlace {
    address: u64,
    /// In bytes: 8 in an XSDT, 4 in an RSDT.
    width: u32,
}

/// Whether the witness is a fault of the root table that the RSDP names.
pub(crate) fn is_root_fault(image: &LentImage<'_>, policy: &Policy, witness: &Witness) -> bool
    ensures { IsTrue result ↔ FaultCondition Stage.Root image.now policy.now witness.now }
{
    if witness.other != 0 || witness.point != 0 {
        return false;
    }
    match witness.code {
        Code::NoRoot => witness.at == policy.rsdp() && names_no_root(image, witness.at),
        code => has_named_fault(image, policy.rsdp(), witness.at, code),
    }
}

/// Whether the RSDP at an address names a root table at `at` that has the fault with this code.
fn has_named_fault(image: &LentImage<'_>, rsdp: u64, at: u64, code: Code) -> bool
    ensures { IsTrue result ↔ ((d : ℕ) × IsRoot image.now rsdp at d
        × RootTableFault image.now at d code) }
{
    match named_root(image, rsdp) {
        Some(root) => root.address == at && has_fault(image, root, code),
        None => false,
    }
}

/// Whether the root table at a place has the fault with this code.
fn has_fault(image: &LentImage<'_>, root: RootPlace, code: Code) -> bool
    requires { IsSlotWidth root.width }
    ensures { IsTrue result ↔ RootTableFault image.now root.address root.width code }
{
    let Some(header) = image.window(root.address, 36) else {
        return code == Code::RootHeaderOut;
    };
    let length = u32_at(header, 4);
    let whole = image.window(root.address, u64::from(length));
    match code {
        Code::RootSignature => !is_signed(header, signature(root.width)),
        Code::RootLength => length < 36,
        Code::RootOut => length >= 36 && whole.is_none(),
        Code::RootRagged => length >= 36 && (length - 36) % root.width != 0,
        Code::RootSum => length >= 36 && whole.is_some_and(|whole| sum(whole) != 0),
        _ => false,
    }
}

/// The signature of a root table with slots of this width.
fn signature(width: u32) -> &'static [u8; 4]
    ensures { result.now ≡ root_signature width }
{
    if width == 8 { b"XSDT" } else { b"RSDT" }
}

/// The addresses that the RSDP at an address names, if its 20 bytes are present, or for the extended form its 36.
#[tactic(auto, unfolding(acpi_base::specs::Rsdp::addresses_at))]
fn addresses_at(image: &LentImage<'_>, address: u64) -> Option<Addresses>
    ensures { option_map (λ named. record { rsdt = named.rsdt; xsdt = named.xsdt })
        result ≡ addresses_at image.now address }
{
    let head = image.window(address, 20)?;
    if u8_at(head, 15) < 2 {
        return Some(Addresses {
            rsdt: u32_at(head, 16),
            xsdt: 0,
        });
    }
    let prefix = image.window(address, 36)?;
    Some(Addresses {
        rsdt: u32_at(prefix, 16),
        xsdt: u64_at(prefix, 24),
    })
}

/// The XSDT if one is named, otherwise the RSDT if one is named.
#[tactic(auto, unfolding(acpi_base::specs::Root::chosen_root))]
fn chosen_root(named: Addresses) -> Option<RootPlace>
    ensures root { option_map (λ root. record { address = root.address; width = root.width })
        result ≡ chosen_root (record { rsdt = named.rsdt; xsdt = named.xsdt }) }
    ensures width { IfSome result (λ root. IsSlotWidth root.width) }
{
    if named.xsdt != 0 {
        return Some(RootPlace {
            address: named.xsdt,
            width: 8,
        });
    }
    if named.rsdt != 0 {
        return Some(RootPlace {
            address: u64::from(named.rsdt),
            width: 4,
        });
    }
    None
}

/// Whether the RSDP at an address can be read and names no root table.
fn names_no_root(image: &LentImage<'_>, address: u64) -> bool
    ensures { IsTrue result ↔ HasNoRoot image.now address }
{
    addresses_at(image, address).is_some_and(|named| chosen_root(named).is_none())
}

/// The place of the root table that the RSDP at an address names.
fn named_root(image: &LentImage<'_>, address: u64) -> Option<RootPlace>
    ensures found { MatchOption result ((r d : ℕ) → ¬ IsRoot image.now address r d)
        (λ root. IsRoot image.now address root.address root.width) }
    ensures width { IfSome result (λ root. IsSlotWidth root.width) }
    ensures one { IfSome result (λ root. (r d : ℕ) → IsRoot image.now address r d
        → (r ≡ root.address) × (d ≡ root.width)) }
{
    chosen_root(addresses_at(image, address)?)
}

/// A complete root table: the XSDT or the RSDT.
#[derive(Clone, Copy, Debug)]
pub(crate) struct Root<'a> {
    /// Its bytes, as many as its Length says.
    bytes: &'a [u8],
    /// The width of a slot in bytes: 8 in an XSDT, 4 in an RSDT.
    width: u32,
}

/// The root table that the RSDP at an address names, if it is complete and has its kind's signature.
#[tactic(auto, using(acpi_base::proofs::Tables::Faults::signed_table))]
pub(crate) fn complete_root<'a>(image: &'a LentImage<'_>, address: u64) -> Option<Root<'a>>
    ensures found { MatchOption result ((d : ℕ) (bytes : List ℕ)
        → ¬ IsCompleteRoot image.now address d bytes)
        (λ root. IsCompleteRoot image.now address root.width root.bytes.now) }
    ensures slots { IfSome result (λ root. HasSlots root.width root.bytes.now) }
{
    let place = named_root(image, address)?;
    let bytes = table_at(image, place.address)?;
    if !is_signed(bytes, signature(place.width)) {
        return None;
    }
    Some(Root {
        bytes,
        width: place.width,
    })
}

impl Root<'_> {
    /// How many complete slots it has, including those that are 0.
    pub(crate) fn slots(&self) -> u64
        requires { HasSlots self.now.width self.now.bytes.now }
        ensures { (k : ℕ) → (k < result)
            ↔ (36 + self.now.width * (k + 1) ≤ length self.now.bytes.now) }
    {
        (self.bytes.len() as u64 - 36) / u64::from(self.width)
    }

    /// The address in slot k, from 0 on, if there is such a slot and it is not 0.
    #[tactic(auto, using(crate::proofs::Roots::slot_end))]
    pub(crate) fn slot(&self, k: u64) -> Option<u64>
        requires { HasSlots self.now.width self.now.bytes.now }
        ensures { MatchOption result ((a : ℕ) → ¬ HasSlot self.now.bytes.now self.now.width k a)
            (HasSlot self.now.bytes.now self.now.width k) }
    {
        if k >= self.slots() {
            return None;
        }
        let width = self.width as usize;
        let start = 36 + width * k as usize;
        let address = if width == 8 {
            u64_at(self.bytes, start)
        } else {
            u64::from(u32_at(self.bytes, start))
        };
        if address == 0 { None } else { Some(address) }
    }
}
