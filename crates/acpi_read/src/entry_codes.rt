//! What a fault of a table of entries is about.

ghost use Rattle.std.specs.Prelude.{◌≡◌};
ghost use Rattle.acpi_read.specs.EntryTables.{is_code, subject_of};

use acpi_base::Code;

/// What a fault is about, if each entry of a table is checked by itself.
#[derive(Clone, Copy, Debug, PartialEq, Eq)]
pub enum Subject {
    /// A table that ends before the offset of its first entry.
    Short,
    /// The bytes after the entries, at which no entry can begin.
    Cut,
    /// The second entry of a kind of which a table has at most one.
    Second,
    /// An entry by itself.
    Own,
}

/// The codes of a table's faults that are not about an entry by itself.
#[derive(Clone, Copy, Debug, PartialEq, Eq)]
pub struct EntryCodes {
    /// The code for a table that ends before the offset of its first entry, if that is a fault.
    pub short: Option<Code>,
    /// The code for the bytes after the entries, at which no entry can begin.
    pub cut: Code,
    /// The code for the second entry of a kind of which a table has at most one, if there is such a kind.
    pub second: Option<Code>,
}

impl EntryCodes {
    /// What a fault with a code is about.
    pub fn subject(&self, code: Code) -> Subject
        ensures { result ≡ subject_of self.now code }
    {
        if is_code(self.short, code) {
            Subject::Short
        } else if is_code(Some(self.cut), code) {
            Subject::Cut
        } else if is_code(self.second, code) {
            Subject::Second
        } else {
            Subject::Own
        }
    }
}

/// Whether this is the code, if there is one.
fn is_code(one: Option<Code>, code: Code) -> bool
    ensures { result ≡ is_code one code }
{
    match one {
        Some(one) => one.number() == code.number(),
        None => false,
    }
}
