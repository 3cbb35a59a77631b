//! The RSDP, the root system description pointer.

ghost use Rattle.std.specs.Prelude.{◌≡◌, ◌≤◌, ◌↔◌, length, take, drop, IsOk, IfOk, IfErr};
ghost use Rattle.acpi_base.specs.Codes.{code_number, stage_of};
ghost use Rattle.acpi_base.specs.declared.stage.Stage.{Stage};
ghost use Rattle.acpi_base.specs.Rsdp.{revision_of, short_addresses, IsRsdp, IsValidRsdp, RsdpFault};
ghost use Rattle.acpi_base.specs.declared.code.Code.{Code};

use crate::frame::bytes_of;
use acpi_base::field::{array_at, is_signed, u8_at, u32_at, u64_at};
use acpi_base::{Code, Frame, LentImage, Question, sum};
use std::marker::Model;

/// The root system description pointer (ACPI 6.5, 5.2.5.3), which names the RSDT and the XSDT.
///
/// A revision of 0 or 1 means the short form of 20 bytes, which names no XSDT; 2 or more means the extended form of
/// at least 36. Its checksums were right when it was read; whether there are tables at its addresses is not checked.
/// The three reserved bytes at offset 33 and the bytes past 36 are ignored, except that they count in the checksum.
#[derive(Clone, Copy, Debug, PartialEq, Eq)]
pub struct Rsdp {
    address: u64,
    revision: u8,
    oemid: [u8; 6],
    /// 0 for none.
    rsdt: u32,
    /// 0 for none, and in the short form.
    xsdt: u64,
}

impl Model for Rsdp {
    ghost use Rattle.acpi_base.specs.Rsdp.{RsdpValue};

    ghost Value = { RsdpValue };

    ghost view = { λ r. record {
      address = r.address;
      revision = r.revision;
      oemid = r.oemid;
      named = record { rsdt = r.rsdt; xsdt = r.xsdt };
    } };

    ghost inverse = { λ v. record {
      address = v.address;
      revision = v.revision;
      oemid = v.oemid;
      rsdt = v.named.rsdt;
      xsdt = v.named.xsdt;
    } };
}

/// The fields of the first 20 bytes, which are all that the short form has.
fn short_form(address: u64, head: &[u8]) -> Rsdp
    requires { 20 ≤ length head.now }
    ensures { result ≡ record {
      address = address;
      revision = revision_of head.now;
      oemid = take 6 (drop 9 head.now);
      named = short_addresses head.now;
    } }
{
    Rsdp {
        address,
        revision: u8_at(head, 15),
        oemid: array_at(head, 9),
        rsdt: u32_at(head, 16),
        xsdt: 0,
    }
}

impl Rsdp {
    /// How many bytes the short form has, which are also the first ones of the extended form.
    pub const SHORT_LENGTH: u64 = 20;

    /// The minimum length of the extended form in bytes.
    pub const EXTENDED_LENGTH: u64 = 36;

    /// The RSDP at an address. Any address is allowed.
    ///
    /// Refuses, in this order: `RsdpOut` if its 20 bytes are not all present; `RsdpSignature` if they do not begin
    /// with `RSD PTR `; `RsdpSum` if they do not sum to 0; and of a revision of 2 or more `RsdpTailOut` if its 36
    /// bytes are not all present; `RsdpLength` if its Length is below 36; `RsdpLongOut` if its Length bytes are not
    /// all present; `RsdpExtendedSum` if they do not sum to 0.
    #[tactic(auto, using(acpi_base::proofs::Rsdp::Naming::extended_named), unfolding(acpi_base::specs::Rsdp::addresses_at))]
    pub fn read(image: &LentImage<'_>, address: u64) -> Result<Rsdp, Code>
        ensures ok { IsOk result ↔ IsValidRsdp image.now address }
        ensures value { IfOk result (IsRsdp image.now address) }
        ensures fault { IfErr result (RsdpFault image.now address) }
        ensures stage { IfErr result (λ code. stage_of code ≡ Stage.Rsdp) }
        ensures least { IfErr result (λ code. (other : Code) → RsdpFault image.now address other
            → code_number code ≤ code_number other) }
    {
        let Some(head) = image.window(address, Rsdp::SHORT_LENGTH) else {
            return Err(Code::RsdpOut);
        };
        if !is_signed(head, b"RSD PTR ") {
            return Err(Code::RsdpSignature);
        }
        if sum(head) != 0 {
            return Err(Code::RsdpSum);
        }
        let rsdp = short_form(address, head);
        if rsdp.revision < 2 {
            return Ok(rsdp);
        }
        let whole = match bytes_of(image, address, Frame::EXTENDED_RSDP, None) {
            Ok(whole) => whole,
            Err(Question::Length) => return Err(Code::RsdpLength),
            Err(Question::Bytes) => return Err(Code::RsdpLongOut),
            Err(_) => return Err(Code::RsdpTailOut),
        };
        if sum(whole) != 0 {
            return Err(Code::RsdpExtendedSum);
        }
        Ok(Rsdp {
            rsdt: u32_at(whole, 16),
            xsdt: u64_at(whole, 24),
            ..rsdp
        })
    }

    /// The address that it was read at.
    pub fn address(&self) -> u64
        ensures { result ≡ self.now.address }
    {
        self.address
    }

    /// The revision, at offset 15: 0 or 1 in the short form, 2 or more in the extended one.
    pub fn revision(&self) -> u8
        ensures { result ≡ self.now.revision }
    {
        self.revision
    }

    /// The six characters at offset 9 that identify the OEM. They may be any bytes.
    pub fn oemid(&self) -> [u8; 6]
        ensures { result ≡ self.now.oemid }
    {
        self.oemid
    }

    /// The RSDT's address, at offset 16; 0 for none.
    pub fn rsdt(&self) -> u32
        ensures { result ≡ self.now.named.rsdt }
    {
        self.rsdt
    }

    /// The XSDT's address, at offset 24; 0 for none, and in the short form, which has no such field.
    pub fn xsdt(&self) -> u64
        ensures { result ≡ self.now.named.xsdt }
    {
        self.xsdt
    }
}
