//! Caches of one type at a node of a PPTT (ACPI 6.5, 5.2.30.1, 5.2.30.2).

ghost use Rattle.std.specs.Prelude.{◌≡◌, ◌↔◌, ℕ, true, AllPairs, Contains, IfOk};
ghost use Rattle.std.specs.List.{filter_map};
ghost use Rattle.acpi_rules.specs.Numbered.{IsNotAbove, IsRepeated};
ghost use Rattle.acpi_rules.specs.Places.{FindsLeast};
ghost use Rattle.acpi_rules.specs.Terms.{tables_value};
ghost use Rattle.acpi_rules.specs.declared.numbered.Numbered.{Numbered};
ghost use Rattle.acpi_rules.specs.declared.numbered.Repeat.TheVariants.{UnlikeValues};
ghost use Rattle.acpi_lint.specs.CacheTypes.{IsLower, has_pair, has_type, nearest, next_level};
ghost use Rattle.acpi_lint.specs.Rules.CacheTypes.{IsResource, IsSameCacheType, LeadsTo};

use crate::rows::{CACHE_TYPES, NEXT_LEVELS, PPTT_ENTRIES, PPTT_RESOURCES, PPTT_SERIES, RESOURCES};
use acpi_read::Table;
use acpi_rules::{
    Index, IndexedTable, Numbered, Place, Repeat, Tables, first_of, first_repeated, lesser,
    numbers_in_order, sort_numbers, sorted_given,
};
use std::alloc::{AllocError, Global};

/// The node of a resource, and as its place the Next Level of the cache that the resource names, if it names one.
#[tactic(auto, unfolding(crate::specs::CacheTypes::next_level))]
fn next_level(caches: &[Numbered], resource: &Numbered) -> Option<Numbered>
    requires { AllPairs IsNotAbove caches.now }
    ensures { result ≡ next_level caches.now resource.now }
{
    let cache = first_of(caches, resource.number)?;
    Some(Numbered {
        number: resource.value,
        at: cache.value,
        value: 0,
    })
}

/// The same of all resources. Allocates for each.
fn all_next_levels(
    alloc: Global,
    caches: &[Numbered],
    resources: &[Numbered],
) -> Result<Vec<Numbered>, AllocError>
    requires { AllPairs IsNotAbove caches.now }
    ensures { IfOk result (λ all. all.items ≡ filter_map (next_level caches.now) resources.now) }
{
    let mut all = Vec::new(alloc);
    for resource in resources {
        if let Some(pair) = next_level(caches, resource) {
            all.push(pair)?;
        }
    }
    Ok(all)
}

/// Whether a node and an offset are a pair.
fn has_pair(pairs: &[Numbered], node: u64, offset: u64) -> bool
    requires { AllPairs IsNotAbove pairs.now }
    ensures { result ≡ has_pair pairs.now node offset }
{
    let before = pairs.partition_point(|pair| {
        pair.number < node || (pair.number == node && pair.at < offset)
    });
    if before < pairs.len() {
        return pairs[before].number == node && pairs[before].at == offset;
    }
    false
}

/// Whether what is found has this type.
fn has_type(found: Option<Numbered>, kind: u64) -> bool
    ensures { result ≡ has_type found kind }
{
    match found {
        Some(cache) => cache.value == kind,
        None => false,
    }
}

/// The node of a resource, with what it names as its value, if that is a cache of the type and not a pair with the node.
#[tactic(auto, unfolding(crate::specs::CacheTypes::nearest))]
fn nearest(
    types: &[Numbered],
    kind: u64,
    pairs: &[Numbered],
    resource: &Numbered,
) -> Option<Numbered>
    requires types { AllPairs IsNotAbove types.now }
    requires pairs { AllPairs IsNotAbove pairs.now }
    ensures { result ≡ nearest types.now kind pairs.now resource.now }
{
    let is_typed = has_type(first_of(types, resource.number), kind);
    if !is_typed || has_pair(pairs, resource.value, resource.number) {
        return None;
    }
    Some(Numbered {
        number: resource.value,
        at: resource.at,
        value: resource.number,
    })
}

/// The same of all resources. Allocates for each.
fn all_nearest(
    alloc: Global,
    types: &[Numbered],
    kind: u64,
    pairs: &[Numbered],
    resources: &[Numbered],
) -> Result<Vec<Numbered>, AllocError>
    requires types { AllPairs IsNotAbove types.now }
    requires pairs { AllPairs IsNotAbove pairs.now }
    ensures { IfOk result (λ all.
        all.items ≡ filter_map (nearest types.now kind pairs.now) resources.now) }
{
    let mut all = Vec::new(alloc);
    for resource in resources {
        if let Some(node) = nearest(types, kind, pairs, resource) {
            all.push(node)?;
        }
    }
    Ok(all)
}

/// The nodes, each with the Next Level of each cache that it names as its place, in order. Allocates for each resource, and
/// for each cache.
fn pairs_in(
    alloc: Global,
    tables: &Tables<'_>,
    resources: &[Numbered],
) -> Result<Vec<Numbered>, AllocError>
    requires { (g : Numbered) → Contains resources.now g ↔ IsResource (tables_value tables.now) g }
    ensures order { IfOk result (λ pairs. AllPairs IsNotAbove pairs.items) }
    ensures pairs { IfOk result (λ pairs. (n o : ℕ) → (has_pair pairs.items n o ≡ true)
        ↔ LeadsTo (tables_value tables.now) n o) }
{
    let caches = sorted_given(alloc, &PPTT_ENTRIES, NEXT_LEVELS, tables)?;
    let mut pairs = all_next_levels(alloc, &caches, resources)?;
    sort_numbers(&mut pairs)?;
    Ok(pairs)
}

/// The lower of two places, of which either may be missing.
fn lower(one: Option<Place>, other: Option<Place>) -> Option<Place>
    ensures { IsLower one other result }
{
    match other {
        Some(place) => Some(lesser(one, place)),
        None => one,
    }
}

/// The first node that names two caches of a type, with the first of them and the first other one. Allocates for each
/// resource.
fn same_of_type(
    alloc: Global,
    kind: u64,
    types: &[Numbered],
    pairs: &[Numbered],
    resources: &[Numbered],
) -> Result<Option<Place>, AllocError>
    requires types { AllPairs IsNotAbove types.now }
    requires pairs { AllPairs IsNotAbove pairs.now }
    ensures { IfOk result (FindsLeast (IsRepeated UnlikeValues
        (λ g. Contains (filter_map (nearest types.now kind pairs.now) resources.now) g))) }
{
    let given = all_nearest(alloc, types, kind, pairs, resources)?;
    first_repeated(given, Repeat::UnlikeValues)
}

/// The first node of which its private resources name two such caches. Allocates for each resource and each cache.
fn same_in(alloc: Global, table: &IndexedTable<'_>) -> Result<Option<Place>, AllocError>
    ensures { IfOk result (FindsLeast (IsSameCacheType table.now.bytes.now)) }
{
    let other = IndexedTable::new(&[]);
    let tables = Tables {
        table: *table,
        other,
    };
    // In the order of the nodes, so that little is left to be sorted.
    let resources = numbers_in_order(alloc, &PPTT_RESOURCES, RESOURCES, &tables)?;
    let pairs = pairs_in(alloc, &tables, &resources)?;
    let types = sorted_given(alloc, &PPTT_ENTRIES, CACHE_TYPES, &tables)?;
    let of_data = same_of_type(alloc, 0, &types, &pairs, &resources)?;
    let of_instruction = same_of_type(alloc, 1, &types, &pairs, &resources)?;
    let of_both = same_of_type(alloc, 2, &types, &pairs, &resources)?;
    Ok(lower(of_data, lower(of_instruction, of_both)))
}

/// 311 SameCacheType, look at it (5.2.30.2): a node names two caches of one type, and neither is the Next Level of a cache
/// that it names.
/// Numbers: `at` is the node's offset, `other` that of the first cache of the type, `point` that of the other one.
/// "The node at {at} of the PPTT names two caches of one type, at {other} and {point}, and neither is the Next Level of a
/// cache that it names."
///
/// The first node of which its private resources name two such caches, both of which say their type. Allocates for each
/// resource and each cache.
// No row: what is looked up is looked up again.
pub fn same_cache_type(alloc: Global, pptt: &Table<'_>) -> Result<Option<Place>, AllocError>
    ensures { IfOk result (FindsLeast (IsSameCacheType pptt.now)) }
{
    let bytes = pptt.bytes();
    match &Index::of(alloc, &PPTT_SERIES, bytes)? {
        Some(index) => same_in(alloc, &IndexedTable::with(bytes, index)),
        None => same_in(alloc, &IndexedTable::new(bytes)),
    }
}
