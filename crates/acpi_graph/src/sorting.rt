//! Sorting items that are mostly in order already.

ghost use Rattle.std.specs.Prelude.{◌≡◌, ◌≤◌, IsOk, OnErr, OnOk, vec_len};
ghost use Rattle.std.specs.List.Sorted.{IsPermutation, IsSorted, IsStable};

use std::alloc::AllocError;

/// Sorts the items; equal ones keep their order. Items that are in order already are left as they are. Refuses if
/// out of memory, and then changes nothing: the sort of more than 20 items that are not in order needs a buffer.
pub fn sort_unless_sorted<T: Ord>(items: &mut Vec<T>) -> Result<(), AllocError>
    ensures permutation { IsPermutation items.old.items items.new.items }
    ensures len { vec_len items.new ≡ vec_len items.old }
    ensures sorted { OnOk result (IsSorted T.cmp items.new.items) }
    ensures stable { IsStable T.cmp items.old.items items.new.items }
    ensures err { OnErr result (items.new.items ≡ items.old.items) }
    ensures few { vec_len items.old ≤ 20 → IsOk result }
    ensures in_order { IsSorted T.cmp items.old.items → IsOk result }
{
    // A sort clears a buffer of 4 KiB on the stack first, which took 1 to 2 % of a check of firmware.
    if items.is_sorted() {
        return Ok(());
    }
    items.sort()
}
