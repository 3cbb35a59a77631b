//! The entries of a table, one after another, and searches for them.

ghost use Rattle.std.specs.Prelude.{◌≡◌, ◌<◌, IfSome, List, ℕ};
ghost use denote.Ref.{Bor};
ghost use Rattle.std.specs.Option.{option_map, MatchOption};
ghost use Rattle.acpi_base.specs.Entries.{IsEntry, first_entry, entries_of, cut_of};
ghost use Rattle.acpi_base.specs.Number.{has_bit};
ghost use Rattle.acpi_confirm.specs.Walks.{IsThere, IsEnd, IsNext, FindsAny};

/// Whether a bit of an entry's flags is set; bit 0 is the lowest.
#[tactic(auto, unfolding(acpi_base::specs::Number::has_bit))]
pub(crate) fn has_bit(flags: u32, bit: u32) -> bool
    requires { bit < 32 }
    ensures { result ≡ has_bit flags bit }
{
    flags >> bit & 1 == 1
}

/// The entry that the bytes begin with, if there is one: its second byte is its length.
#[tactic(auto, unfolding(acpi_base::specs::Entries::first_entry))]
fn first_entry(left: &[u8]) -> Option<&[u8]>
    ensures { option_map (λ entry. entry.now) result ≡ first_entry left.now }
{
    let length = usize::from(*left.get(1)?);
    if length < 2 {
        return None;
    }
    left.get(..length)
}

/// The entry at an offset at which one should begin.
#[tactic(auto, using(crate::proofs::Walks::walking))]
pub(crate) fn entry_from(whole: &[u8], start: usize) -> Option<&[u8]>
    ensures { MatchOption result (IsEnd start whole.now)
        (λ entry. IsNext start whole.now entry.now) }
{
    if start > whole.len() {
        return None;
    }
    first_entry(&whole[start..])
}

/// The entry at an offset of a table whose entries begin at `first`, if there is one: the walk passes the entries up
/// to the offset.
#[tactic(auto, using(crate::proofs::Walks::walking))]
pub(crate) fn entry_at(whole: &[u8], first: usize, at: u64) -> Option<&[u8]>
    ensures there { IsThere (entries_of first whole.now) at
        (option_map (λ entry. entry.now) result) }
    ensures entry { IfSome result (λ entry. IsEntry entry.now) }
{
    let mut start = first;
    while (start as u64) < at {
        let Some(entry) = entry_from(whole, start) else {
            return None;
        };
        start += entry.len();
    }
    if start as u64 > at {
        return None;
    }
    entry_from(whole, start)
}

/// The cut: the offset of the bytes after the entries of a table, if any are left. No entry can begin there.
#[tactic(auto, unfolding(acpi_base::specs::Entries::cut_of))]
pub(crate) fn cut(whole: &[u8], first: usize) -> Option<u64>
    ensures { result ≡ cut_of first whole.now }
{
    let mut start = first;
    while let Some(entry) = entry_from(whole, start) {
        start += entry.len();
    }
    (start < whole.len()).then_some(start as u64)
}

/// Whether a table has an entry of the wanted form.
pub(crate) fn has_entry<F: Fn(&[u8]) -> bool>(whole: &[u8], first: usize, is_sought: F) -> bool
    requires { (entry : Bor (List ℕ)) → IsEntry entry.now → F.pre is_sought entry }
    ensures { FindsAny (λ entry found. F.post is_sought entry found) (entries_of first whole.now)
        result }
{
    let mut start = first;
    while let Some(entry) = entry_from(whole, start) {
        if is_sought(entry) {
            return true;
        }
        start += entry.len();
    }
    false
}
