//! Rules as rows of data, table by table. What a row means is said by `acpi_rules`.

ghost use Rattle.std.specs.Prelude.{◌≡◌, map};
ghost use Rattle.acpi_lint.specs.RowGroups.{group_value, row_groups, devices_group, dmar_group, dmar_scopes_group, dmar_with_srat_group, fadt_further_group, fadt_group, fadt_with_madt_group, gic_group, gtdt_group, gtdt_with_madt_group, hmat_group, hmat_with_srat_group, hpet_group, ivrs_group, madt_further_group, madt_group, madt_with_dmar_group, madt_with_fadt_group, madt_with_ivrs_group, madt_with_pptt_group, madt_with_srat_group, mcfg_group, pptt_group, pptt_with_madt_group, spcr_group, spcr_with_madt_group, srat_group, srat_with_madt_group, srat_with_slit_group};

// ---- how rows are written

/// The number of `width` bytes at an offset.
macro_rules! field {
    ($at:literal, $width:literal) => {
        Field {
            place: 16 * $at + $width,
        }
    };
}

/// Structures of a type and a length, of a type and at least a length, or of some types and any length or at least one.
macro_rules! kind {
    ($kind:literal, $size:literal) => {
        Kind {
            first: $kind,
            last: $kind,
            least: $size,
            most: $size,
        }
    };
    ($kind:literal, $least:literal ..) => {
        Kind {
            first: $kind,
            last: $kind,
            least: $least,
            most: 0xffff,
        }
    };
    ($first:literal ..= $last:literal) => {
        kind!($first ..= $last, 0..)
    };
    ($first:literal ..= $last:literal, $least:literal ..) => {
        Kind {
            first: $first,
            last: $last,
            least: $least,
            most: 0xffff,
        }
    };
}

/// A kind, or the structures of its type, whatever their length.
macro_rules! kind_of {
    ((any $kind:ident)) => {
        Kind {
            first: $kind.first,
            last: $kind.last,
            least: 0,
            most: 0xffff,
        }
    };
    ($kind:ident) => {
        $kind
    };
}

/// The structure that a rule is about, its table, or the other table.
macro_rules! within {
    (own) => {
        Within::Own
    };
    (table) => {
        Within::Table
    };
    (around) => {
        Within::Around
    };
    (other) => {
        Within::Other
    };
}

/// A multiple of a field, and what is added to it: a number, a field of the same structure, or bits of it.
macro_rules! sum {
    ($within:ident, $number:literal, $times:literal, $field:ident) => {
        Value::Sum(within!($within), $field, $times, $number)
    };
    ($within:ident, $added:ident, $times:literal, $field:ident) => {
        Value::SumOf(within!($within), $field, $times, $added)
    };
    ($within:ident, ($added:ident & $mask:literal), $times:literal, $field:ident) => {
        Value::SumBits(within!($within), $times, $mask, $field, $added)
    };
}

/// A number of at most 32 bits, 2^64 - 1, a field, bits of a field, the length of a structure or what of it is behind an
/// offset, its offset or one behind that, the offset of its end or of its first byte that is 0, a multiple of a field with or
/// without something added, a product of two or three fields, the length of a structure with a matrix, a field's number that is
/// told apart by a structure or by another field, or how far the sum of two fields is above 2^64.
macro_rules! value {
    ((length $within:ident)) => {
        Value::Length(within!($within))
    };
    ((length $within:ident - $offset:literal)) => {
        Value::Behind(within!($within), $offset)
    };
    ((offset $within:ident)) => {
        Value::Offset(within!($within), 0)
    };
    ((offset $within:ident + $behind:literal)) => {
        Value::Offset(within!($within), $behind)
    };
    ((end $within:ident)) => {
        Value::End(within!($within))
    };
    ((zero $within:ident $from:literal)) => {
        Value::FirstZero(within!($within), $from)
    };
    ((pair $one:ident $other:ident)) => {
        Value::Pair($one, $other)
    };
    ((excess $one:ident $other:ident)) => {
        Value::Excess($one, $other)
    };
    ((table $field:ident)) => {
        Value::Of(Within::Table, $field)
    };
    ((other $field:ident)) => {
        Value::Of(Within::Other, $field)
    };
    ((around $field:ident)) => {
        Value::Of(Within::Around, $field)
    };
    (((table $field:ident) & $mask:literal)) => {
        Value::Bits(Within::Table, $field, $mask)
    };
    (((other $field:ident) & $mask:literal)) => {
        Value::Bits(Within::Other, $field, $mask)
    };
    (($field:ident & $mask:literal)) => {
        Value::Bits(Within::Own, $field, $mask)
    };
    (($within:ident $one:tt + $times:literal * $field:ident)) => {
        sum!($within, $one, $times, $field)
    };
    (($one:tt + $times:literal * $field:ident)) => {
        sum!(own, $one, $times, $field)
    };
    (($times:literal * $field:ident)) => {
        sum!(own, 0, $times, $field)
    };
    (($one:ident * $other:ident * $third:ident)) => {
        Value::Product3($one, $other, $third)
    };
    (($one:ident * $other:ident)) => {
        Value::Product(Within::Own, $one, $other)
    };
    (($within:ident $one:ident * $other:ident)) => {
        Value::Product(within!($within), $one, $other)
    };
    ((matrix $within:ident $base:literal $rows:ident $columns:ident)) => {
        Value::Matrix(within!($within), $base, $rows, $columns)
    };
    ((keyed $within:ident $field:ident)) => {
        Value::Keyed(within!($within), $field)
    };
    (largest) => {
        Value::Largest
    };
    ($number:literal) => {
        Value::Number($number)
    };
    ($field:ident) => {
        Value::Of(Within::Own, $field)
    };
}

/// A comparison.
macro_rules! clause {
    ($left:tt, ==, $right:tt) => {
        Clause {
            left: value!($left),
            test: Test::Is,
            right: value!($right),
        }
    };
    ($left:tt, !=, $right:tt) => {
        Clause {
            left: value!($left),
            test: Test::IsNot,
            right: value!($right),
        }
    };
    ($left:tt, <, $right:tt) => {
        Clause {
            left: value!($left),
            test: Test::Below,
            right: value!($right),
        }
    };
    ($left:tt, <=, $right:tt) => {
        Clause {
            left: value!($left),
            test: Test::UpTo,
            right: value!($right),
        }
    };
    ($left:tt, >, $right:tt) => {
        clause!($right, <, $left)
    };
    ($left:tt, >=, $right:tt) => {
        clause!($right, <=, $left)
    };
}

/// Comparisons that all hold.
macro_rules! clauses {
    () => {
        Clauses::None
    };
    ($left:tt $test:tt $right:tt) => {
        Clauses::One(clause!($left, $test, $right))
    };
    ($($left:tt $test:tt $right:tt),+) => {
        Clauses::All(&[$(clause!($left, $test, $right)),+])
    };
}

/// What structures give, by cases: `{KIND if CLAUSE && CLAUSE => at OFFSET shows VALUE, NUMBER; ..}`, or a list of
/// cases with a name. A finding has the offset in the table as `at`, VALUE as `other` and NUMBER as `point`, but those of
/// numbers that occur again or are found elsewhere: their `other` is the place of the first one, in a row `found_field` or
/// `found_field_below` the offset after that word. In a row `overlap`
/// NUMBER is where a range begins and VALUE how many numbers it has, or in a row `overlap_to` its last number; `at` and
/// `other` are the places of the two, and `point` is the lowest number in both.
macro_rules! cases {
    ({$(
        $kind:tt $(if $($left:tt $test:tt $right:tt)&&+)?
            => at $at:literal shows $value:tt, $number:tt
    );+}) => {
        &[$((
            kind_of!($kind),
            clauses!($($($left $test $right),+)?),
            $at,
            value!($value),
            value!($number),
        )),+]
    };
    ($cases:ident) => {
        $cases
    };
}

/// Cases of which only one has to hold: `{KIND if CLAUSE; ..}`, or a list with a name.
macro_rules! any {
    ({$($kind:tt $(if $($left:tt $test:tt $right:tt)&&+)?);+}) => {
        &[$((
            kind_of!($kind),
            clauses!($($($left $test $right),+)?),
            0,
            value!(0),
            value!(0),
        )),+]
    };
    ($cases:ident) => {
        $cases
    };
}

/// The table that a rule is about, or the other one.
macro_rules! source {
    (table) => {
        Source::Table
    };
    (other) => {
        Source::Other
    };
}

/// A condition: `(some SOURCE PATH: CASES)`, `(none SOURCE PATH: CASES)`, `(two SOURCE PATH: CASES)`, `(first SOURCE PATH:
/// CASES)` or `(whole SOURCE PATH)`, or one with a name.
macro_rules! guard {
    ((some $source:ident $path:ident: $cases:tt)) => {
        (Need::Some, source!($source), &$path, any!($cases))
    };
    ((none $source:ident $path:ident: $cases:tt)) => {
        (Need::None, source!($source), &$path, any!($cases))
    };
    ((two $source:ident $path:ident: $cases:tt)) => {
        (Need::Two, source!($source), &$path, any!($cases))
    };
    ((first $source:ident $path:ident: $cases:tt)) => {
        (Need::First, source!($source), &$path, cases!($cases))
    };
    ((whole $source:ident $path:ident)) => {
        (Need::Whole, source!($source), &$path, &[])
    };
    ($guard:ident) => {
        $guard
    };
}

/// What is reported of the numbers that structures give.
macro_rules! form {
    (given) => {
        Form::Given
    };
    (repeated) => {
        Form::Repeated(Repeat::Twice)
    };
    (unlike) => {
        Form::Repeated(Repeat::Unlike)
    };
    (unlike_first) => {
        Form::Repeated(Repeat::UnlikeFirst)
    };
    (unlike_value) => {
        Form::Repeated(Repeat::UnlikeValue)
    };
    (unlike_number) => {
        Form::Repeated(Repeat::UnlikeNumber)
    };
    (nowhere) => {
        Form::LookedUp(LookUp::Nowhere)
    };
    (somewhere) => {
        Form::LookedUp(LookUp::Found(FoundAs::First))
    };
    (behind) => {
        Form::LookedUp(LookUp::Found(FoundAs::Behind))
    };
    (found_field $offset:literal) => {
        Form::LookedUp(LookUp::Found(FoundAs::Field($offset)))
    };
    (found_field_below $offset:literal) => {
        Form::LookedUp(LookUp::Found(FoundAs::FieldBelow($offset)))
    };
    (overlap) => {
        Form::Overlap(Range::Count)
    };
    (overlap_to) => {
        Form::Overlap(Range::Last)
    };
}

/// The numbers that structures of a path give by cases, but those at places that they give by others.
macro_rules! numbers {
    ($path:ident, $cases:tt) => {
        (&$path, cases!($cases), &[])
    };
    ($path:ident, $cases:tt, $except:tt) => {
        (&$path, cases!($cases), cases!($except))
    };
}

/// A rule: `rule!(NUMBER NAME, FORM in PATH where GUARD, ..: CASES)`, with `except CASES` after it for places at which no
/// number counts, and `among SOURCE PATH CASES` after that for numbers that are looked up. One on where a walk is cut has no
/// cases: `rule!(NUMBER NAME, cut in PATH where GUARD, ..)`.
macro_rules! rule {
    ($number:literal $name:ident, cut in $path:ident $(where $($guard:tt),+)?) => {
        (
            $number,
            Form::Cut,
            &[$($(guard!($guard)),+)?],
            (&$path, &[], &[]),
            None,
        )
    };
    (
        $number:literal $name:ident, $form:ident $($offset:literal)? in $path:ident $(where $($guard:tt),+)?:
        $cases:tt $(except $except:tt)?
        among $source:ident $known_path:ident $known:tt $(except $known_except:tt)?
    ) => {
        (
            $number,
            form!($form $($offset)?),
            &[$($(guard!($guard)),+)?],
            numbers!($path, $cases $(, $except)?),
            Some(&(source!($source), numbers!($known_path, $known $(, $known_except)?))),
        )
    };
    (
        $number:literal $name:ident, $form:ident in $path:ident $(where $($guard:tt),+)?:
        $cases:tt $(except $except:tt)?
    ) => {
        (
            $number,
            form!($form),
            &[$($(guard!($guard)),+)?],
            numbers!($path, $cases $(, $except)?),
            None,
        )
    };
}

mod dmar;
mod dmar_fields;
mod fadt;
mod fadt_fields;
mod gtdt;
mod gtdt_fields;
mod hmat;
mod hmat_fields;
mod hpet;
mod hpet_fields;
mod ivrs;
mod ivrs_fields;
mod madt;
mod madt_fields;
mod mcfg;
mod mcfg_fields;
mod pptt;
mod pptt_fields;
mod slit_fields;
mod spcr;
mod spcr_fields;
mod srat;
mod srat_fields;
mod table_fields;

use crate::further_table::{FurtherTable, RowTable};
use acpi_base::TableKind;
use acpi_rules::Row;
use dmar::{DMAR, DMAR_SCOPES, DMAR_WITH_SRAT, MADT_WITH_DMAR};
pub use dmar_fields::DMAR_SERIES;
use fadt::{FADT, FADT_FURTHER, FADT_WITH_MADT};
pub use gtdt::TIMER_RANGES;
use gtdt::{GTDT, GTDT_WITH_MADT};
use hmat::{HMAT, HMAT_WITH_SRAT};
pub use hmat_fields::HMAT_SERIES;
use hpet::HPET;
use ivrs::{DEVICES, IVRS, MADT_WITH_IVRS};
pub use ivrs_fields::IVRS_SERIES;
pub use madt::{GICR_LENGTHS, GICRS_ARE_KNOWN, NEEDS_GTDT, USABLE_GICCS};
use madt::{GIC, MADT, MADT_FURTHER, MADT_WITH_FADT, MADT_WITH_PPTT, MADT_WITH_SRAT};
pub use madt_fields::{MADT_ENTRIES, MADT_SERIES};
pub use mcfg::ECAMS;
use mcfg::MCFG;
pub use mcfg_fields::MCFG_ENTRIES;
pub use pptt::{
    CACHE_TYPES, MARKED_LEAVES, NEXT_LEVELS, OUTER_PARENTS, RESOURCES, UNMARKED_LEAVES,
};
use pptt::{PPTT, PPTT_WITH_MADT};
pub use pptt_fields::{PPTT_ENTRIES, PPTT_RESOURCES, PPTT_SERIES};
use spcr::{SPCR, SPCR_WITH_MADT};
use srat::{SRAT, SRAT_WITH_MADT, SRAT_WITH_SLIT};
pub use srat_fields::SRAT_SERIES;

/// Rows on a table, or on a table with another one.
pub type RowGroup<'a> = (RowTable, Option<RowTable>, &'a [Row<'a>]);

const OF_FADT: RowTable = RowTable::Kind(TableKind::Fadt);

const OF_MADT: RowTable = RowTable::Kind(TableKind::Madt);

const OF_SRAT: RowTable = RowTable::Kind(TableKind::Srat);

const OF_PPTT: RowTable = RowTable::Kind(TableKind::Pptt);

const OF_SLIT: RowTable = RowTable::Kind(TableKind::Slit);

/// The rows on the FADT.
#[tactic(auto, unfolding(crate::specs::RowGroups::fadt_group))]
fn fadt_group() -> RowGroup<'static>
    ensures { group_value result ≡ fadt_group }
{
    (OF_FADT, None, FADT.as_slice())
}

/// The further ones on the FADT.
#[tactic(auto, unfolding(crate::specs::RowGroups::fadt_further_group))]
fn fadt_further_group() -> RowGroup<'static>
    ensures { group_value result ≡ fadt_further_group }
{
    (OF_FADT, None, FADT_FURTHER.as_slice())
}

/// Those on the FADT with the MADT.
#[tactic(auto, unfolding(crate::specs::RowGroups::fadt_with_madt_group))]
fn fadt_with_madt_group() -> RowGroup<'static>
    ensures { group_value result ≡ fadt_with_madt_group }
{
    (OF_FADT, Some(OF_MADT), FADT_WITH_MADT.as_slice())
}

/// Those on the MADT, but for the parts of a GIC.
#[tactic(auto, unfolding(crate::specs::RowGroups::madt_group))]
fn madt_group() -> RowGroup<'static>
    ensures { group_value result ≡ madt_group }
{
    (OF_MADT, None, MADT.as_slice())
}

/// The further ones on the MADT.
#[tactic(auto, unfolding(crate::specs::RowGroups::madt_further_group))]
fn madt_further_group() -> RowGroup<'static>
    ensures { group_value result ≡ madt_further_group }
{
    (OF_MADT, None, MADT_FURTHER.as_slice())
}

/// Those on the parts of a GIC in the MADT.
#[tactic(auto, unfolding(crate::specs::RowGroups::gic_group))]
fn gic_group() -> RowGroup<'static>
    ensures { group_value result ≡ gic_group }
{
    (OF_MADT, None, GIC.as_slice())
}

/// Those on the MADT with the FADT.
#[tactic(auto, unfolding(crate::specs::RowGroups::madt_with_fadt_group))]
fn madt_with_fadt_group() -> RowGroup<'static>
    ensures { group_value result ≡ madt_with_fadt_group }
{
    (OF_MADT, Some(OF_FADT), MADT_WITH_FADT.as_slice())
}

/// Those on the MADT with the SRAT.
#[tactic(auto, unfolding(crate::specs::RowGroups::madt_with_srat_group))]
fn madt_with_srat_group() -> RowGroup<'static>
    ensures { group_value result ≡ madt_with_srat_group }
{
    (OF_MADT, Some(OF_SRAT), MADT_WITH_SRAT.as_slice())
}

/// Those on the MADT with the PPTT.
#[tactic(auto, unfolding(crate::specs::RowGroups::madt_with_pptt_group))]
fn madt_with_pptt_group() -> RowGroup<'static>
    ensures { group_value result ≡ madt_with_pptt_group }
{
    (OF_MADT, Some(OF_PPTT), MADT_WITH_PPTT.as_slice())
}

/// Those on the SRAT.
#[tactic(auto, unfolding(crate::specs::RowGroups::srat_group))]
fn srat_group() -> RowGroup<'static>
    ensures { group_value result ≡ srat_group }
{
    (OF_SRAT, None, SRAT.as_slice())
}

/// Those on the SRAT with the MADT.
#[tactic(auto, unfolding(crate::specs::RowGroups::srat_with_madt_group))]
fn srat_with_madt_group() -> RowGroup<'static>
    ensures { group_value result ≡ srat_with_madt_group }
{
    (OF_SRAT, Some(OF_MADT), SRAT_WITH_MADT.as_slice())
}

/// Those on the SRAT with the SLIT.
#[tactic(auto, unfolding(crate::specs::RowGroups::srat_with_slit_group))]
fn srat_with_slit_group() -> RowGroup<'static>
    ensures { group_value result ≡ srat_with_slit_group }
{
    (OF_SRAT, Some(OF_SLIT), SRAT_WITH_SLIT.as_slice())
}

/// Those on the PPTT.
#[tactic(auto, unfolding(crate::specs::RowGroups::pptt_group))]
fn pptt_group() -> RowGroup<'static>
    ensures { group_value result ≡ pptt_group }
{
    (OF_PPTT, None, PPTT.as_slice())
}

/// Those on the PPTT with the MADT.
#[tactic(auto, unfolding(crate::specs::RowGroups::pptt_with_madt_group))]
fn pptt_with_madt_group() -> RowGroup<'static>
    ensures { group_value result ≡ pptt_with_madt_group }
{
    (OF_PPTT, Some(OF_MADT), PPTT_WITH_MADT.as_slice())
}

/// Those on the MCFG.
#[tactic(auto, unfolding(crate::specs::RowGroups::mcfg_group))]
fn mcfg_group() -> RowGroup<'static>
    ensures { group_value result ≡ mcfg_group }
{
    (RowTable::Further(FurtherTable::Mcfg), None, MCFG.as_slice())
}

/// Those on the HPET.
#[tactic(auto, unfolding(crate::specs::RowGroups::hpet_group))]
fn hpet_group() -> RowGroup<'static>
    ensures { group_value result ≡ hpet_group }
{
    (RowTable::Further(FurtherTable::Hpet), None, HPET.as_slice())
}

/// Those on the SPCR.
#[tactic(auto, unfolding(crate::specs::RowGroups::spcr_group))]
fn spcr_group() -> RowGroup<'static>
    ensures { group_value result ≡ spcr_group }
{
    (RowTable::Further(FurtherTable::Spcr), None, SPCR.as_slice())
}

/// Those on the SPCR with the MADT.
#[tactic(auto, unfolding(crate::specs::RowGroups::spcr_with_madt_group))]
fn spcr_with_madt_group() -> RowGroup<'static>
    ensures { group_value result ≡ spcr_with_madt_group }
{
    (
        RowTable::Further(FurtherTable::Spcr),
        Some(OF_MADT),
        SPCR_WITH_MADT.as_slice(),
    )
}

/// Those on the HMAT.
#[tactic(auto, unfolding(crate::specs::RowGroups::hmat_group))]
fn hmat_group() -> RowGroup<'static>
    ensures { group_value result ≡ hmat_group }
{
    (RowTable::Further(FurtherTable::Hmat), None, HMAT.as_slice())
}

/// Those on the HMAT with the SRAT.
#[tactic(auto, unfolding(crate::specs::RowGroups::hmat_with_srat_group))]
fn hmat_with_srat_group() -> RowGroup<'static>
    ensures { group_value result ≡ hmat_with_srat_group }
{
    (
        RowTable::Further(FurtherTable::Hmat),
        Some(OF_SRAT),
        HMAT_WITH_SRAT.as_slice(),
    )
}

/// Those on the GTDT.
#[tactic(auto, unfolding(crate::specs::RowGroups::gtdt_group))]
fn gtdt_group() -> RowGroup<'static>
    ensures { group_value result ≡ gtdt_group }
{
    (RowTable::Further(FurtherTable::Gtdt), None, GTDT.as_slice())
}

/// Those on the GTDT with the MADT.
#[tactic(auto, unfolding(crate::specs::RowGroups::gtdt_with_madt_group))]
fn gtdt_with_madt_group() -> RowGroup<'static>
    ensures { group_value result ≡ gtdt_with_madt_group }
{
    (
        RowTable::Further(FurtherTable::Gtdt),
        Some(OF_MADT),
        GTDT_WITH_MADT.as_slice(),
    )
}

/// Those on the DMAR.
#[tactic(auto, unfolding(crate::specs::RowGroups::dmar_group))]
fn dmar_group() -> RowGroup<'static>
    ensures { group_value result ≡ dmar_group }
{
    (RowTable::Further(FurtherTable::Dmar), None, DMAR.as_slice())
}

/// Those on the device scopes of the DMAR.
#[tactic(auto, unfolding(crate::specs::RowGroups::dmar_scopes_group))]
fn dmar_scopes_group() -> RowGroup<'static>
    ensures { group_value result ≡ dmar_scopes_group }
{
    (
        RowTable::Further(FurtherTable::Dmar),
        None,
        DMAR_SCOPES.as_slice(),
    )
}

/// Those on the DMAR with the SRAT.
#[tactic(auto, unfolding(crate::specs::RowGroups::dmar_with_srat_group))]
fn dmar_with_srat_group() -> RowGroup<'static>
    ensures { group_value result ≡ dmar_with_srat_group }
{
    (
        RowTable::Further(FurtherTable::Dmar),
        Some(OF_SRAT),
        DMAR_WITH_SRAT.as_slice(),
    )
}

/// Those on the MADT with the DMAR.
#[tactic(auto, unfolding(crate::specs::RowGroups::madt_with_dmar_group))]
fn madt_with_dmar_group() -> RowGroup<'static>
    ensures { group_value result ≡ madt_with_dmar_group }
{
    (
        OF_MADT,
        Some(RowTable::Further(FurtherTable::Dmar)),
        MADT_WITH_DMAR.as_slice(),
    )
}

/// Those on the IVRS.
#[tactic(auto, unfolding(crate::specs::RowGroups::ivrs_group))]
fn ivrs_group() -> RowGroup<'static>
    ensures { group_value result ≡ ivrs_group }
{
    (RowTable::Further(FurtherTable::Ivrs), None, IVRS.as_slice())
}

/// Those on the device entries of the IVRS.
#[tactic(auto, unfolding(crate::specs::RowGroups::devices_group))]
fn devices_group() -> RowGroup<'static>
    ensures { group_value result ≡ devices_group }
{
    (
        RowTable::Further(FurtherTable::Ivrs),
        None,
        DEVICES.as_slice(),
    )
}

/// Those on the MADT with the IVRS.
#[tactic(auto, unfolding(crate::specs::RowGroups::madt_with_ivrs_group))]
fn madt_with_ivrs_group() -> RowGroup<'static>
    ensures { group_value result ≡ madt_with_ivrs_group }
{
    (
        OF_MADT,
        Some(RowTable::Further(FurtherTable::Ivrs)),
        MADT_WITH_IVRS.as_slice(),
    )
}

/// All rows. Each group is told by a function, since the proof of one that names all constants takes too many steps.
pub fn row_groups() -> [RowGroup<'static>; 29]
    ensures { map group_value result ≡ row_groups }
{
    [
        fadt_group(),
        fadt_further_group(),
        fadt_with_madt_group(),
        madt_group(),
        madt_further_group(),
        gic_group(),
        madt_with_fadt_group(),
        madt_with_srat_group(),
        madt_with_pptt_group(),
        srat_group(),
        srat_with_madt_group(),
        srat_with_slit_group(),
        pptt_group(),
        pptt_with_madt_group(),
        mcfg_group(),
        hpet_group(),
        spcr_group(),
        spcr_with_madt_group(),
        hmat_group(),
        hmat_with_srat_group(),
        gtdt_group(),
        gtdt_with_madt_group(),
        dmar_group(),
        dmar_scopes_group(),
        dmar_with_srat_group(),
        madt_with_dmar_group(),
        ivrs_group(),
        devices_group(),
        madt_with_ivrs_group(),
    ]
}
