//! Bits of the flags of a structure.

ghost use Rattle.std.specs.Prelude.{◌≡◌, ◌<◌};
ghost use Rattle.acpi_base.specs.Number.{has_bit};

/// Whether a bit of flags is set.
#[tactic(auto, unfolding(acpi_base::specs::Number::has_bit))]
#[inline(always)]
pub fn is_set(flags: u32, bit: u32) -> bool
    requires { bit < 32 }
    ensures { result ≡ has_bit flags bit }
{
    flags >> bit & 1 == 1
}
