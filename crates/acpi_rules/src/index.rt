//! The structures of a series of a table by their types, found once for all rules.

ghost use Rattle.std.specs.Prelude.{◌≡◌, ◌≤◌, ◌<◌, ◌⊎◌, ◌↔◌, ◌^◌, IfOk, IfSome, None, OnOk, length};
ghost use Rattle.acpi_rules.specs.Indexes.{IsAmong, IsIndexOf, listed_window, typed_site};
ghost use Rattle.acpi_rules.specs.Sites.{SiteValue};
ghost use Rattle.acpi_rules.specs.Walks.{Placed, placed};

use crate::series::{Series, kind_in};
use crate::structures::Structures;
use crate::window::Window;
use std::alloc::{AllocError, Global};

/// Where a structure is.
#[derive(Clone, Copy, Debug, PartialEq, Eq)]
pub struct Listed {
    /// Its offset in bytes, from the table's start.
    pub at: u32,
    /// How many bytes it has.
    pub size: u32,
}

/// The structures of a type.
#[derive(Debug, Drop)]
pub struct OfType {
    /// The type; 0 if they have none.
    pub kind: u64,
    /// The structures.
    pub listed: Vec<Listed>,
}

/// The structures of a series of a table by their types, and whether the walk that finds them is cut. Each rule goes over
/// those of its own types alone.
#[derive(Debug, Drop)]
pub struct Index {
    /// The series.
    pub series: Series,
    /// Its structures.
    pub types: Vec<OfType>,
    /// Whether the walk is not cut.
    pub is_whole: bool,
}

impl Index {
    /// The index of a series of a table; none if the table has 4 GiB or more, which no Length says.
    ///
    /// Refuses with `AllocError` if out of memory: it allocates for each structure.
    pub fn of(alloc: Global, series: &Series, table: &[u8]) -> Result<Option<Index>, AllocError>
        ensures of { IfOk result (λ index. IfSome index (λ i. i.series ≡ series.now)) }
        ensures index { IfOk result (λ index. IfSome index (λ i. IsIndexOf i table.now)) }
        ensures none { IfOk result (λ index. index ≡ None → 2 ^ 32 ≤ length table.now) }
    {
        if table.len() > u32::MAX as usize {
            return Ok(None);
        }
        let whole = Window {
            at: 0,
            bytes: table,
        };
        let mut types = Vec::new(alloc);
        let mut guesses = [0; 256];
        let mut structures = Structures::new(series, whole);
        while let Some(own) = structures.next() {
            let kind = kind_in(own.bytes, series.shape);
            let listed = Listed {
                at: own.at as u32,
                size: own.bytes.len() as u32,
            };
            add(alloc, &mut types, &mut guesses, kind, listed)?;
        }
        Ok(Some(Index {
            series: *series,
            types,
            is_whole: structures.cut().is_none(),
        }))
    }
}

/// Adds a structure to those of its type. For each lowest byte of a type there is a guess where these are: most tables
/// have types of one byte, so it is right. After a wrong one they are in two places.
#[inline(always)]
fn add(
    alloc: Global,
    types: &mut Vec<OfType>,
    guesses: &mut [usize; 256],
    kind: u64,
    own: Listed,
) -> Result<(), AllocError>
    ensures { OnOk result ((whole : Placed) (s : SiteValue) → IsAmong whole types.new.items s
        ↔ ((s ≡ typed_site whole kind own) ⊎ IsAmong whole types.old.items s)) }
{
    let lowest = (kind % 256) as usize;
    let guess = guesses[lowest];
    if let Some(of_type) = types.get(guess)
        && of_type.kind == kind
    {
        types[guess].listed.push(own)?;
        return Ok(());
    }
    guesses[lowest] = types.len();
    let mut listed = Vec::new(alloc);
    listed.push(own)?;
    types.push(OfType { kind, listed })?;
    Ok(())
}

impl Listed {
    /// The structure, in its table.
    #[inline(always)]
    #[tactic(auto, using(crate::proofs::Steps::drop_within))]
    pub(crate) fn window<'a>(&self, table: &'a [u8]) -> Window<'a>
        ensures { placed result ≡ listed_window table.entry.now self.now }
    {
        let at = (self.at as usize).min(table.len());
        let left = &table[at..];
        Window {
            at: self.at as u64,
            bytes: &left[..left.len().min(self.size as usize)],
        }
    }
}
