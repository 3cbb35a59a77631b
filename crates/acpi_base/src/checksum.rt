//! Checksums.

ghost use Rattle.std.specs.Prelude.{◌≡◌};
ghost use Rattle.acpi_base.specs.Number.{byte_sum};

/// The sum of the bytes modulo 256, which is 0 if their checksum is right. Allocates nothing.
#[tactic(auto, unfolding(crate::specs::Number::byte_sum))]
pub fn sum(bytes: &[u8]) -> u8
    ensures { result ≡ byte_sum bytes.now }
{
    let mut total = 0u8;
    for byte in bytes {
        total = total.wrapping_add(*byte);
    }
    total
}
