//! The root table, the XSDT or the RSDT.

ghost use Rattle.std.specs.Prelude.{◌≡◌, ◌≤◌, ◌<◌, ◌+◌, ◌*◌, ◌^◌, ◌↔◌, List, ℕ, length, IsTrue, IsOk, IfOk, IfErr, IfSome, MatchOption};
ghost use Rattle.std.specs.Option.{option_map};
ghost use Rattle.acpi_base.specs.Codes.{code_number, stage_of};
ghost use Rattle.acpi_base.specs.declared.stage.Stage.{Stage};
ghost use Rattle.acpi_base.specs.Header.{header_of};
ghost use Rattle.acpi_base.specs.Number.{field};
ghost use Rattle.acpi_base.specs.Rsdp.{addresses_at};
ghost use Rattle.acpi_base.specs.Root.{chosen_root, root_signature, IsSlotWidth, IsValidRootTable, RootTableFault, NamedRootFault};
ghost use Rattle.acpi_base.specs.Tables.{length_of};
ghost use Rattle.acpi_base.specs.declared.code.Code.{Code};
ghost use Rattle.acpi_read.specs.Structures.{header_value};
ghost use Rattle.acpi_read.specs.Roots.{RootValue, place_value, slots_of, IsValidNamedRoot, IsCompleteRoot};

use crate::frame::bytes_of;
use crate::header::{Header, header_at};
use crate::layout::Layout;
use crate::rsdp::Rsdp;
use acpi_base::field::{u8_at, u32_at, u64_at};
use acpi_base::{Code, Frame, LentImage, Question, sum};
use std::marker::Model;

/// The root table (ACPI 6.5, 5.2.7 and 5.2.8): the XSDT or the RSDT, whose slots after the header are the addresses
/// of all other tables.
///
/// A root table returned by `read` sums to 0 and has a whole number of slots; neither is known of one returned by
/// `complete`. Whether there are tables at the addresses in its slots is not checked. Contracts see its address, the
/// width of its slots in bytes and its bytes.
#[derive(Debug, Drop)]
pub struct Root<'a> {
    address: u64,
    /// The width of a slot in bytes: 8 in an XSDT, 4 in an RSDT.
    width: u32,
    bytes: &'a [u8],
}

impl<'a> Model for Root<'a> {
    ghost use Rattle.std.specs.Prelude.{◌≡◌, ◌≤◌, ◌<◌, ◌^◌, length};
    ghost use Rattle.acpi_base.specs.Root.{IsSlotWidth};
    ghost use Rattle.acpi_base.specs.Tables.{length_of};
    ghost use Rattle.acpi_read.specs.Roots.{RootValue};

    ghost Value = { RootValue };

    ghost view = { λ root. record {
      address = root.address;
      width = root.width;
      bytes = root.bytes.now;
    } };

    ghost invariant = { λ root. IsSlotWidth root.width × (36 ≤ length root.bytes.now)
        × (length root.bytes.now < 2 ^ 32) × (length_of root.bytes.now ≡ length root.bytes.now) };
}

/// The address of a root table, and the width of its slots.
#[derive(Clone, Copy, Debug, PartialEq, Eq)]
pub struct RootPlace {
    /// Its address, which is not 0.
    pub address: u64,
    /// The width of a slot in bytes: 8 in an XSDT, 4 in an RSDT.
    pub width: u32,
}

impl RootPlace {
    /// The signature of a root table with slots of this width.
    pub fn signature(self) -> [u8; 4]
        ensures { result ≡ root_signature self.width }
    {
        if self.width == Root::XSDT_SLOT {
            *b"XSDT"
        } else {
            *b"RSDT"
        }
    }
}

/// The addresses that an RSDP names; 0 for none.
#[derive(Clone, Copy, Debug)]
struct Addresses {
    rsdt: u32,
    /// 0 in the short form.
    xsdt: u64,
}

/// The XSDT if one is named, otherwise the RSDT if one is named.
#[tactic(auto, unfolding(acpi_base::specs::Root::chosen_root))]
fn chosen_root(named: Addresses) -> Option<RootPlace>
    ensures root { option_map place_value
        result ≡ chosen_root (record { rsdt = named.rsdt; xsdt = named.xsdt }) }
    ensures width { IfSome result (λ root. IsSlotWidth root.width) }
{
    if named.xsdt != 0 {
        return Some(RootPlace {
            address: named.xsdt,
            width: Root::XSDT_SLOT,
        });
    }
    if named.rsdt != 0 {
        return Some(RootPlace {
            address: u64::from(named.rsdt),
            width: Root::RSDT_SLOT,
        });
    }
    None
}

/// The addresses that the RSDP at an address names, if its 20 bytes are present, or for the extended form its 36.
#[tactic(auto, unfolding(acpi_base::specs::Rsdp::addresses_at))]
fn addresses_at(image: &LentImage<'_>, address: u64) -> Option<Addresses>
    ensures { option_map (λ named. record { rsdt = named.rsdt; xsdt = named.xsdt })
        result ≡ addresses_at image.now address }
{
    let head = image.window(address, Rsdp::SHORT_LENGTH)?;
    if u8_at(head, 15) < 2 {
        return Some(Addresses {
            rsdt: u32_at(head, 16),
            xsdt: 0,
        });
    }
    let extended = image.window(address, Rsdp::EXTENDED_LENGTH)?;
    Some(Addresses {
        rsdt: u32_at(extended, 16),
        xsdt: u64_at(extended, 24),
    })
}

/// The place of the root table that the RSDP at an address names, whether the RSDP is valid or not: that of the XSDT
/// if it names one, otherwise that of the RSDT, otherwise none. There is no place either if the RSDP cannot be read:
/// if its 20 bytes are not present, or for the extended form its 36. What is at the place is not checked.
pub fn named_root(image: &LentImage<'_>, rsdp: u64) -> Option<Option<RootPlace>>
    ensures root { option_map (option_map place_value)
        result ≡ option_map chosen_root (addresses_at image.now rsdp) }
    ensures width { IfSome result (λ named. IfSome named (λ root. IsSlotWidth root.width)) }
{
    let named = addresses_at(image, rsdp)?;
    Some(chosen_root(named))
}

/// The place of the root table that an RSDP names.
fn place_of(rsdp: &Rsdp) -> Option<RootPlace>
    ensures root { option_map place_value result ≡ chosen_root rsdp.now.named }
    ensures width { IfSome result (λ root. IsSlotWidth root.width) }
{
    chosen_root(Addresses {
        rsdt: rsdp.rsdt(),
        xsdt: rsdp.xsdt(),
    })
}

/// The root table at a place.
fn read_at<'a>(image: &'a LentImage<'_>, place: RootPlace) -> Result<Root<'a>, Code>
    requires { IsSlotWidth place.width }
    ensures ok { IfOk result
        (λ root. (root.address ≡ place.address) × (root.width ≡ place.width)
        × IsValidRootTable image.now place.address place.width root.bytes) }
    ensures valid { (whole : List ℕ) → IsValidRootTable image.now place.address place.width whole
        → IsOk result }
    ensures fault { IfErr result (RootTableFault image.now place.address place.width) }
    ensures stage { IfErr result (λ code. stage_of code ≡ Stage.Root) }
    ensures least { IfErr result (λ code. (other : Code)
        → RootTableFault image.now place.address place.width other
        → code_number code ≤ code_number other) }
{
    let RootPlace { address, width } = place;
    let bytes = match bytes_of(image, address, Frame::TABLE, Some(place.signature())) {
        Ok(bytes) => bytes,
        Err(Question::Signature(_)) => return Err(Code::RootSignature),
        Err(Question::Length) => return Err(Code::RootLength),
        Err(Question::Bytes) => return Err(Code::RootOut),
        Err(_) => return Err(Code::RootHeaderOut),
    };
    if (bytes.len() as u32 - Header::LEN as u32) % width != 0 {
        return Err(Code::RootRagged);
    }
    if sum(bytes) != 0 {
        return Err(Code::RootSum);
    }
    Ok(Root {
        address,
        width,
        bytes,
    })
}

impl<'a> Root<'a> {
    /// How many bytes a slot of an XSDT has (ACPI 6.5, 5.2.8).
    pub const XSDT_SLOT: u32 = 8;

    /// How many bytes a slot of an RSDT has (5.2.7).
    pub const RSDT_SLOT: u32 = 4;

    /// The root table that an RSDP names: the XSDT if it names one, otherwise the RSDT. The RSDT is not read if an
    /// XSDT is named. The RSDP may come from another image: only its addresses are used.
    ///
    /// Refuses, in this order: `NoRoot` if it names neither; `RootHeaderOut` if the header's 36 bytes are not all
    /// present; `RootSignature` if they do not begin with `XSDT`, or `RSDT` for an RSDT; `RootLength` if its Length
    /// is below 36; `RootOut` if its Length bytes are not all present; `RootRagged` if its Length ends within a slot;
    /// `RootSum` if its bytes do not sum to 0.
    pub fn read(image: &'a LentImage<'_>, rsdp: &Rsdp) -> Result<Root<'a>, Code>
        ensures ok { IfOk result (IsValidNamedRoot image.now rsdp.now.named) }
        ensures valid { (root : RootValue) → IsValidNamedRoot image.now rsdp.now.named root
            → IsOk result }
        ensures fault { IfErr result (NamedRootFault image.now rsdp.now.named) }
        ensures stage { IfErr result (λ code. stage_of code ≡ Stage.Root) }
        ensures least { IfErr result (λ code. (other : Code)
            → NamedRootFault image.now rsdp.now.named other
            → code_number code ≤ code_number other) }
    {
        let Some(place) = place_of(rsdp) else {
            return Err(Code::NoRoot);
        };
        read_at(image, place)
    }

    /// The root table that the RSDP at an address names, if it is a complete table with its kind's signature,
    /// whatever its bytes and those of the RSDP sum to, and even if its Length ends within a slot. None if the RSDP
    /// cannot be read or names none, and if no such table is there.
    pub fn complete(image: &'a LentImage<'_>, rsdp: u64) -> Option<Root<'a>>
        ensures { MatchOption result ((root : RootValue) → ¬ IsCompleteRoot image.now rsdp root)
            (IsCompleteRoot image.now rsdp) }
    {
        let place = named_root(image, rsdp)??;
        let RootPlace { address, width } = place;
        let bytes = bytes_of(image, address, Frame::TABLE, Some(place.signature())).ok()?;
        Some(Root {
            address,
            width,
            bytes,
        })
    }

    /// How many complete slots it has, including those that are 0.
    pub fn slots(&self) -> u32
        ensures slots { result ≡ slots_of self.now }
        ensures inside { (k : ℕ)
            → (k < result) ↔ (36 + self.now.width * (k + 1) ≤ length self.now.bytes) }
    {
        (self.bytes.len() - Header::LEN) as u32 / self.width
    }

    /// The number in slot k, which is below `slots`. Slots are counted from 0, and begin at offset 36. A slot that is
    /// 0 lists no table, and 0 is returned for it.
    pub fn slot(&self, k: u32) -> u64
        requires { k < slots_of self.now }
        ensures { result ≡ field self.now.bytes (36 + self.now.width * k) self.now.width }
    {
        let offset = Header::LEN + (self.width * k) as usize;
        if self.width == Root::XSDT_SLOT {
            u64_at(self.bytes, offset)
        } else {
            u64::from(u32_at(self.bytes, offset))
        }
    }

    /// All its bytes, with the header: as many as its Length says, at least 36, and fewer than 2^32.
    pub fn bytes(&self) -> &'a [u8]
        ensures bytes { result.now ≡ self.now.bytes }
        ensures count { (36 ≤ length self.now.bytes) × (length self.now.bytes < 2 ^ 32) }
        ensures said { length_of self.now.bytes ≡ length self.now.bytes }
    {
        self.bytes
    }

    /// The fields of its first 36 bytes. The length is the number of the root table's bytes.
    #[tactic(auto, unfolding(acpi_base::specs::Header::header_of))]
    pub fn header(&self) -> Header
        ensures fields { header_value result ≡ header_of self.now.bytes }
        ensures length { result.length ≡ length self.now.bytes }
    {
        header_at(self.bytes)
    }

    /// The address that it was read at.
    pub fn address(&self) -> u64
        ensures { result ≡ self.now.address }
    {
        self.address
    }

    /// Whether it is an XSDT, with slots of 8 bytes; otherwise it is an RSDT, with slots of 4.
    pub fn wide(&self) -> bool
        ensures width { IsSlotWidth self.now.width }
        ensures wide { IsTrue result ↔ (self.now.width ≡ 8) }
    {
        self.width == Root::XSDT_SLOT
    }
}
