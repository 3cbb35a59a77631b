//! The first value that the entries of a table give each key.

ghost use Rattle.std.specs.Prelude.{◌<◌, IfSome, length};
ghost use Rattle.acpi_check.specs.FirstSeen.{PassesGiven};

/// A value that an entry gives a key.
#[derive(Clone, Copy)]
pub struct Given {
    /// The key, as an index.
    pub key: usize,
    /// The value.
    pub value: u32,
}

/// The first value of a key.
#[derive(Clone, Copy)]
pub struct FirstSeen {
    /// The offset of the entry that gives it, from the table's start.
    pub offset: u64,
    /// The value.
    pub value: u32,
}

/// An entry that gives a key another value than the first one.
#[derive(Clone, Copy)]
pub struct OtherValue {
    /// The entry's offset, from the table's start.
    pub at: u64,
    /// The offset of the entry that gives the first value.
    pub other: u64,
    /// The key.
    pub key: usize,
}

/// Records the value of the entry at an offset in `firsts`, which has for each key the first value before it; returns
/// the conflict if the first value differs.
pub fn pass_given(
    firsts: &mut [Option<FirstSeen>],
    offset: u64,
    given: Option<Given>,
) -> Option<OtherValue>
    requires { IfSome given (λ g. g.key < length firsts.old) }
    ensures { PassesGiven firsts.old firsts.new offset given result }
{
    let Given { key, value } = given?;
    match firsts[key] {
        None => {
            firsts[key] = Some(FirstSeen { offset, value });
            None
        }
        Some(first) if first.value != value => Some(OtherValue {
            at: offset,
            other: first.offset,
            key,
        }),
        Some(_) => None,
    }
}
