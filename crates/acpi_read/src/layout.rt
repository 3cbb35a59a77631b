//! Structures of a fixed layout, read and written.

ghost use Rattle.std.specs.Prelude.{◌≡◌, ◌↔◌, ℕ, List, length, Some, IsSome, IfSome};
ghost use Rattle.acpi_base.specs.Layouts.{Part, PartValue, layout_size, values_at, layout_bytes, IsOfLayout, FitLayout};

/// A structure whose fields are at fixed offsets in a fixed number of bytes.
///
/// Reading and writing agree: what was written is read back, which `read_back` proves for every layout.
pub trait Layout: Sized {
    ghost LEN: { ℕ };

    /// How many bytes it has.
    const LEN: usize;

    /// Its parts, from its first byte on.
    ghost parts: { List Part };

    /// The values of the parts that have one.
    ghost values: { Self → List PartValue };

    /// What else the bytes must satisfy: nothing, except for a kind whose length byte depends on its other fields.
    ghost allows: { List ℕ → Type 0 } = { λ _. Unit {0} };

    /// The structure with exactly these bytes: none if they are not `LEN` bytes, or if a fixed byte of the kind
    /// differs. Bytes that the standard reserves may be any.
    fn read(bytes: &[u8]) -> Option<Self>
        ensures some { IsSome result ↔ (IsOfLayout parts bytes.now × allows bytes.now) }
        ensures value { IfSome result (λ value. values_at 0 parts bytes.now ≡ values value) };

    /// Writes the structure's bytes, and 0 to bytes that the standard reserves. `out` has `LEN` bytes.
    fn write(&self, out: &mut [u8])
        requires { length out.old ≡ LEN }
        ensures bytes { out.new ≡ layout_bytes parts (values self.now) }
        ensures fits { FitLayout parts (values self.now) }
        ensures allowed { allows out.new };

    /// The parts have `LEN` bytes.
    ghost counted: { layout_size parts ≡ LEN };

    /// Structures with the same values are the same.
    ghost one_value: { (one other : Self) → values one ≡ values other → one ≡ other };
}

/// Writes a value and reads it back, which always returns the value. `out` has `LEN` bytes.
pub fn read_back<L: Layout>(value: &L, out: &mut [u8]) -> Option<L>
    requires { length out.old ≡ L.LEN }
    ensures value { result ≡ Some value.now }
    ensures bytes { out.new ≡ layout_bytes L.parts (L.values value.now) }
{
    value.write(out);
    L::read(out)
}
