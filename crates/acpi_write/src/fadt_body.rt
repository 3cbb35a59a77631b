//! The body of a FADT with another FACS address.

ghost use Rattle.std.specs.Prelude.{◌≡◌, ◌≤◌, ◌<◌, ◌^◌, length, IfOk};
ghost use Rattle.acpi_write.specs.FadtBody.{with_facs};

use std::alloc::{AllocError, Global};

/// Where FIRMWARE_CTRL ends, which is the first field of a FADT's body (ACPI 6.5, 5.2.9).
const FIRMWARE_CTRL_END: usize = 4;

/// Where X_FIRMWARE_CTRL begins in a FADT's body.
const X_FIRMWARE_CTRL: usize = 96;

/// Where X_FIRMWARE_CTRL ends in a FADT's body.
pub(crate) const X_FIRMWARE_CTRL_END: usize = 104;

/// The body of a FADT, which is its bytes from 36 on, with this FACS address: in X_FIRMWARE_CTRL if the body has that
/// field, at 96 to 103, otherwise in FIRMWARE_CTRL, at 0 to 3 (ACPI 6.5, 5.2.9). The other field is 0.
pub(crate) fn with_facs(alloc: Global, body: &[u8], facs: u64) -> Result<Vec<u8>, AllocError>
    requires least { 4 ≤ length body.now }
    requires low { length body.now < 104 → facs < 2 ^ 32 }
    ensures { IfOk result (λ bytes. bytes.items ≡ with_facs body.now facs) }
{
    let mut bytes = Vec::new(alloc);
    if body.len() < X_FIRMWARE_CTRL_END {
        bytes.extend_from_slice(&(facs as u32).to_le_bytes())?;
        bytes.extend_from_slice(&body[FIRMWARE_CTRL_END..])?;
        return Ok(bytes);
    }
    bytes.extend_from_slice(&[0; 4])?;
    bytes.extend_from_slice(&body[FIRMWARE_CTRL_END..X_FIRMWARE_CTRL])?;
    bytes.extend_from_slice(&facs.to_le_bytes())?;
    bytes.extend_from_slice(&body[X_FIRMWARE_CTRL_END..])?;
    Ok(bytes)
}
