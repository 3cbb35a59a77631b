//! The FACS, the firmware ACPI control structure.

ghost use Rattle.std.specs.Prelude.{◌≡◌, ◌≢◌, ◌≤◌, ◌<◌, ◌^◌, ◌%◌, ◌↔◌, ℕ, length, None, IsOk, IfOk, IfErr, IfSome, true};
ghost use Rattle.acpi_base.specs.Codes.{code_number, stage_of};
ghost use Rattle.acpi_base.specs.declared.stage.Stage.{Stage};
ghost use Rattle.acpi_base.specs.Fadt.{facs_address, is_reduced};
ghost use Rattle.acpi_base.specs.Frames.{frame_length};
ghost use Rattle.acpi_base.specs.Facs.{facs_frame, IsFacs, HasValidFacs, NamedFacsFault};
ghost use Rattle.acpi_base.specs.declared.code.Code.{Code};

use crate::fadt::Fadt;
use crate::frame::bytes_of;
use acpi_base::{Code, Frame, LentImage, Question};
use std::marker::Model;

/// The firmware ACPI control structure (ACPI 6.5, 5.2.10): as many bytes as its Length says, from 64 to
/// 2^32 - 1, at an address that is a multiple of 64. It has no checksum. Contracts see its address and its
/// bytes.
///
/// The bytes after its Length field are not checked.
#[derive(Debug, Drop)]
pub struct Facs<'a> {
    address: u64,
    bytes: &'a [u8],
}

impl<'a> Model for Facs<'a> {
    ghost use Rattle.std.specs.Prelude.{◌≡◌, ◌≢◌, ◌≤◌, ◌<◌, ◌^◌, ◌%◌, length};
    ghost use Rattle.acpi_base.specs.Facs.{facs_frame};
    ghost use Rattle.acpi_base.specs.Frames.{frame_length};
    ghost use Rattle.acpi_read.specs.Fadts.{FacsValue};

    ghost Value = { FacsValue };

    ghost view = { λ facs. record { address = facs.address; bytes = facs.bytes.now } };

    ghost invariant = { λ facs. (facs.address % 64 ≡ 0) × (facs.address ≢ 0)
        × (64 ≤ length facs.bytes.now) × (length facs.bytes.now < 2 ^ 32)
        × (frame_length facs_frame facs.bytes.now ≡ length facs.bytes.now) };
}

impl<'a> Facs<'a> {
    /// The FACS that a FADT names, or none if the hardware is reduced and the FADT names none. If one is named, it is
    /// read even if the hardware is reduced. The FADT may come from another image: only its bytes are used.
    ///
    /// Refuses, in this order: `NoFacs` if the FADT names none and the hardware is not reduced; `FacsAlign` if the
    /// address that it names is not a multiple of 64; `FacsHeaderOut` if the 8 bytes there are not all present;
    /// `FacsSignature` if they do not begin with `FACS`; `FacsLength` if its Length is below 64; `FacsOut` if its
    /// Length bytes are not all present.
    pub fn read(image: &'a LentImage<'_>, fadt: &Fadt<'_>) -> Result<Option<Facs<'a>>, Code>
        ensures ok { IsOk result ↔ HasValidFacs image.now fadt.now }
        ensures none { (result ≡ Ok None)
            ↔ ((is_reduced fadt.now ≡ true) × (facs_address fadt.now ≡ 0)) }
        ensures some { IfOk result
            (λ found. IfSome found
            (λ facs. (facs.address ≡ facs_address fadt.now) × (facs.address ≢ 0)
            × IsFacs image.now facs.address facs.bytes)) }
        ensures fault { IfErr result
            (λ code. NamedFacsFault image.now fadt.now code (facs_address fadt.now)) }
        ensures stage { IfErr result (λ code. stage_of code ≡ Stage.Facs) }
        ensures least { IfErr result (λ code. (other : Code) (at : ℕ)
            → NamedFacsFault image.now fadt.now other at → code_number code ≤ code_number other) }
    {
        let address = fadt.facs_address();
        if address == 0 {
            if fadt.reduced() {
                return Ok(None);
            }
            return Err(Code::NoFacs);
        }
        if address % 64 != 0 {
            return Err(Code::FacsAlign);
        }
        match bytes_of(image, address, Frame::FACS, Some(*b"FACS")) {
            Ok(bytes) => Ok(Some(Facs { address, bytes })),
            Err(Question::Signature(_)) => Err(Code::FacsSignature),
            Err(Question::Length) => Err(Code::FacsLength),
            Err(Question::Bytes) => Err(Code::FacsOut),
            Err(_) => Err(Code::FacsHeaderOut),
        }
    }

    /// The address that it was read at, which is a multiple of 64 and not 0.
    pub fn address(&self) -> u64
        ensures address { result ≡ self.now.address }
        ensures aligned { (self.now.address % 64 ≡ 0) × (self.now.address ≢ 0) }
    {
        self.address
    }

    /// All its bytes: as many as its Length says, at least 64, and fewer than 2^32.
    pub fn bytes(&self) -> &'a [u8]
        ensures bytes { result.now ≡ self.now.bytes }
        ensures count { (64 ≤ length self.now.bytes) × (length self.now.bytes < 2 ^ 32) }
        ensures said { frame_length facs_frame self.now.bytes ≡ length self.now.bytes }
    {
        self.bytes
    }
}
