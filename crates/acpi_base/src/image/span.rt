//! Where the bytes of a piece are in a store of bytes.

ghost use Rattle.std.specs.Prelude.{◌≡◌, ◌+◌, ◌≤◌, length, take, drop};

/// A number of bytes of a store, from an index on.
#[derive(Clone, Copy, Debug)]
pub struct Span {
    pub start: usize,
    pub len: usize,
}

impl Span {
    /// The bytes themselves.
    pub fn bytes(self, store: &[u8]) -> &[u8]
        requires { self.start + self.len ≤ length store.now }
        ensures { result.now ≡ take self.len (drop self.start store.now) }
    {
        &store[self.start..self.start + self.len]
    }
}
