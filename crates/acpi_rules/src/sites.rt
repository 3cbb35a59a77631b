//! The structures that a rule is about, along a path.

ghost use Rattle.std.specs.Prelude.{◌≡◌, [], ◌∷◌, ◌++◌, MatchOption};
ghost use Rattle.acpi_rules.specs.Sites.{cut_inside, first_cut, first_cut_inside, has_inner, site_value, sites_in, sites_inside, sites_inside_all, sites_of, whole_site};
ghost use Rattle.acpi_rules.specs.Walks.{placed};

use crate::series::{Extent, Inner, Path, Series, Shape, Start, kind_in};
use crate::structures::{Cut, Structures, cut_in};
use crate::window::Window;
use std::marker::Model;

/// A structure that a rule is about.
#[derive(Clone, Copy, Debug)]
pub struct Site<'a> {
    /// The structure.
    pub own: Window<'a>,
    /// The one that it is in; for the table, the table.
    pub around: Window<'a>,
    /// The one that this is in, or the table where there is none.
    pub outer: Window<'a>,
    /// The structure's type; 0 if it has none, as records and the table.
    pub kind: u64,
}

/// The structures of a series inside one.
#[derive(Debug, Drop)]
struct SeriesSites<'a> {
    shape: Shape,
    outer: Window<'a>,
    around: Window<'a>,
    structures: Structures<'a>,
}

impl<'a> Model for SeriesSites<'a> {
    ghost use Rattle.std.specs.Prelude.{List, map};
    ghost use Rattle.acpi_rules.specs.Sites.{SiteValue, site_in};
    ghost use Rattle.acpi_rules.specs.Walks.{placed};

    ghost Value = { List SiteValue };

    ghost view = { λ s. map (site_in s.shape (placed s.outer) (placed s.around)) s.structures.structures };
}

impl<'a> SeriesSites<'a> {
    /// The structures of a series inside one, which is itself inside `outer`.
    #[inline(always)]
    fn new(series: &Series, outer: Window<'a>, around: Window<'a>) -> SeriesSites<'a>
        ensures { result ≡ sites_in series.now (placed outer.entry) (placed around.entry) }
    {
        SeriesSites {
            shape: series.shape,
            outer,
            around,
            structures: Structures::new(series, around),
        }
    }

    /// No structures.
    #[inline(always)]
    fn none() -> SeriesSites<'a>
        ensures { result ≡ [] }
    {
        let nothing = Window { at: 0, bytes: &[] };
        SeriesSites {
            shape: Shape::Records(0),
            outer: nothing,
            around: nothing,
            structures: Structures::none(),
        }
    }

    /// Those inside one.
    #[tactic(auto, unfolding(crate::specs::Sites::sites_inside))]
    #[inline(always)]
    fn inside(row: &Inner, site: &Site<'a>) -> SeriesSites<'a>
        ensures { result ≡ sites_inside row.now (site_value site.entry.now) }
    {
        if has_inner(row, site.kind) {
            SeriesSites::new(&row.series, site.around, site.own)
        } else {
            SeriesSites::none()
        }
    }
}

impl<'a> Iterator for SeriesSites<'a> {
    type Item = Site<'a>;

    ghost use Rattle.std.specs.Iterator.{YieldsFirstBy, item_count};

    ghost next_gives = { YieldsFirstBy site_value (λ left. left) };

    ghost remaining = { item_count (λ left. left) };

    #[inline(always)]
    fn next(&mut self) -> Option<Site<'a>> {
        let Some(own) = self.structures.next() else {
            return None;
        };
        Some(Site {
            own,
            around: self.around,
            outer: self.outer,
            kind: kind_in(own.bytes, self.shape),
        })
    }
}

/// A row that no structure has.
const NO_INNER: Inner = Inner {
    first: 1,
    last: 0,
    series: Series {
        start: Start::At(0),
        extent: Extent::ToEnd,
        shape: Shape::Records(0),
    },
};

/// Whether structures of this type have the series inside.
#[inline(always)]
fn has_inner(row: &Inner, kind: u64) -> bool
    ensures { result ≡ has_inner row.now kind }
{
    u64::from(row.first) <= kind && kind <= u64::from(row.last)
}

/// The structures inside those of a series.
#[derive(Debug, Drop)]
struct InnerSites<'a> {
    row: Inner,
    /// Those whose insides were not walked.
    outers: SeriesSites<'a>,
    /// What is left inside the one that is walked.
    inner: SeriesSites<'a>,
}

impl<'a> Model for InnerSites<'a> {
    ghost use Rattle.std.specs.Prelude.{◌++◌, List};
    ghost use Rattle.acpi_rules.specs.Sites.{SiteValue, sites_inside_all};

    ghost Value = { List SiteValue };

    ghost view = { λ s. s.inner ++ sites_inside_all s.row s.outers };
}

/// The first structure that is inside one of these, with what is left there in `inner`. Those before it have none
/// inside.
#[tactic(auto, unfolding(crate::specs::Sites::sites_inside_all))]
fn enter_series<'a>(
    row: &Inner,
    outers: &mut SeriesSites<'a>,
    inner: &mut SeriesSites<'a>,
) -> Option<Site<'a>>
    requires { inner.old ≡ [] }
    ensures { MatchOption result
        ((sites_inside_all row.now outers.old ≡ []) × (outers.new ≡ []) × (inner.new ≡ []))
        (λ first. sites_inside_all row.now outers.old
        ≡ site_value first ∷ (inner.new ++ sites_inside_all row.now outers.new)) }
{
    while let Some(around) = outers.next() {
        *inner = SeriesSites::inside(row, &around);
        if let Some(first) = inner.next() {
            return Some(first);
        }
    }
    None
}

impl<'a> InnerSites<'a> {
    /// The structures inside these.
    #[inline(always)]
    fn new(row: &Inner, outers: SeriesSites<'a>) -> InnerSites<'a>
        ensures { result ≡ sites_inside_all row.now outers.entry }
    {
        InnerSites {
            row: *row,
            outers,
            inner: SeriesSites::none(),
        }
    }

    /// These structures.
    #[tactic(auto, unfolding(crate::specs::Sites::sites_inside_all))]
    #[inline(always)]
    fn of(sites: SeriesSites<'a>) -> InnerSites<'a>
        ensures { result ≡ sites.entry }
    {
        InnerSites {
            row: NO_INNER,
            outers: SeriesSites::none(),
            inner: sites,
        }
    }
}

impl<'a> Iterator for InnerSites<'a> {
    type Item = Site<'a>;

    ghost use Rattle.std.specs.Iterator.{YieldsFirstBy, item_count};

    ghost next_gives = { YieldsFirstBy site_value (λ left. left) };

    ghost remaining = { item_count (λ left. left) };

    #[tactic(auto, unfolding(crate::specs::Sites::sites_inside_all))]
    fn next(&mut self) -> Option<Site<'a>> {
        if let Some(site) = self.inner.next() {
            return Some(site);
        }
        enter_series(&self.row, &mut self.outers, &mut self.inner)
    }
}

/// The structures that a path leads to, in their order. Nothing is allocated.
#[derive(Debug, Drop)]
pub struct WalkedSites<'a> {
    /// The table, where the path leads to it and it was not given yet.
    table: Option<Window<'a>>,
    row: Inner,
    /// Those whose insides were not walked, where the path leads to these.
    outers: Option<InnerSites<'a>>,
    /// What is left inside the one that is walked.
    inner: SeriesSites<'a>,
}

impl<'a> Model for WalkedSites<'a> {
    ghost use Rattle.std.specs.Prelude.{◌++◌, List};
    ghost use Rattle.acpi_rules.specs.Sites.{SiteValue, sites_left};

    ghost Value = { List SiteValue };

    ghost view = { λ s. s.inner ++ sites_left s.table s.row s.outers };
}

/// The first structure that is inside one of these, with what is left there in `inner`. Those before it have none
/// inside.
#[tactic(auto, unfolding(crate::specs::Sites::sites_inside_all))]
#[inline(never)]
fn enter_inner<'a>(
    row: &Inner,
    outers: &mut InnerSites<'a>,
    inner: &mut SeriesSites<'a>,
) -> Option<Site<'a>>
    requires { inner.old ≡ [] }
    ensures { MatchOption result
        ((sites_inside_all row.now outers.old ≡ []) × (outers.new ≡ []) × (inner.new ≡ []))
        (λ first. sites_inside_all row.now outers.old
        ≡ site_value first ∷ (inner.new ++ sites_inside_all row.now outers.new)) }
{
    while let Some(around) = outers.next() {
        *inner = SeriesSites::inside(row, &around);
        if let Some(first) = inner.next() {
            return Some(first);
        }
    }
    None
}

impl<'a> WalkedSites<'a> {
    /// The structures that a path leads to in a table.
    pub fn along(path: &Path, table: &'a [u8]) -> WalkedSites<'a>
        ensures { result ≡ sites_of path.now table.entry.now }
    {
        let whole = Window {
            at: 0,
            bytes: table,
        };
        match path {
            Path::Table => WalkedSites::whole(whole),
            Path::Entries(series) => WalkedSites::of(SeriesSites::new(series, whole, whole)),
            Path::Inside(series, row) => {
                let entries = SeriesSites::new(series, whole, whole);
                WalkedSites::new(row, InnerSites::of(entries))
            }
            Path::Innermost(series, row, inner) => {
                let entries = SeriesSites::new(series, whole, whole);
                WalkedSites::new(inner, InnerSites::new(row, entries))
            }
        }
    }

    /// The table.
    #[tactic(auto, unfolding(crate::specs::Sites::sites_inside_all))]
    #[inline(always)]
    fn whole(table: Window<'a>) -> WalkedSites<'a>
        ensures { result ≡ whole_site (placed table.entry) ∷ [] }
    {
        WalkedSites {
            table: Some(table),
            row: NO_INNER,
            outers: None,
            inner: SeriesSites::none(),
        }
    }

    /// The structures inside these.
    #[inline(always)]
    fn new(row: &Inner, outers: InnerSites<'a>) -> WalkedSites<'a>
        ensures { result ≡ sites_inside_all row.now outers.entry }
    {
        WalkedSites {
            table: None,
            row: *row,
            outers: Some(outers),
            inner: SeriesSites::none(),
        }
    }

    /// The next structure. Most are left inside the one that is walked, which `next` sees to.
    #[tactic(auto, unfolding(crate::specs::Sites::sites_inside_all))]
    #[inline(never)]
    fn next_outside(&mut self) -> Option<Site<'a>>
        ensures { MatchOption result ((self.old ≡ []) × (self.new ≡ []))
            (λ site. self.old ≡ site_value site ∷ self.new) }
    {
        if let Some(site) = self.inner.next() {
            return Some(site);
        }
        if let Some(table) = self.table {
            self.table = None;
            return Some(Site {
                own: table,
                around: table,
                outer: table,
                kind: 0,
            });
        }
        match &mut self.outers {
            Some(outers) => enter_inner(&self.row, outers, &mut self.inner),
            None => None,
        }
    }

    /// These structures.
    #[tactic(auto, unfolding(crate::specs::Sites::sites_inside_all))]
    #[inline(always)]
    fn of(sites: SeriesSites<'a>) -> WalkedSites<'a>
        ensures { result ≡ sites.entry }
    {
        WalkedSites {
            table: None,
            row: NO_INNER,
            outers: None,
            inner: sites,
        }
    }
}

impl<'a> Iterator for WalkedSites<'a> {
    type Item = Site<'a>;

    ghost use Rattle.std.specs.Iterator.{YieldsFirstBy, item_count};

    ghost next_gives = { YieldsFirstBy site_value (λ left. left) };

    ghost remaining = { item_count (λ left. left) };

    #[inline(always)]
    fn next(&mut self) -> Option<Site<'a>> {
        if let Some(site) = self.inner.next() {
            return Some(site);
        }
        self.next_outside()
    }
}

/// Where the walk inside one is cut, if it is.
#[tactic(auto, unfolding(crate::specs::Sites::cut_inside))]
fn cut_inside(row: &Inner, site: &Site<'_>) -> Option<Cut>
    ensures { result ≡ cut_inside row.now (site_value site.now) }
{
    if has_inner(row, site.kind) {
        cut_in(&row.series, site.own)
    } else {
        None
    }
}

/// The first cut among the walks inside these.
fn first_cut_inside(row: &Inner, mut sites: WalkedSites<'_>) -> Option<Cut>
    ensures { result ≡ first_cut_inside row.now sites.entry }
{
    while let Some(site) = sites.next() {
        if let Some(cut) = cut_inside(row, &site) {
            return Some(cut);
        }
    }
    None
}

/// The first cut among the walks that the last step of a path makes in a table.
pub(crate) fn first_cut(path: &Path, table: &[u8]) -> Option<Cut>
    ensures { result ≡ first_cut path.now table.now }
{
    match *path {
        Path::Table => None,
        Path::Entries(series) => {
            let whole = Window {
                at: 0,
                bytes: table,
            };
            cut_in(&series, whole)
        }
        Path::Inside(series, row) => {
            let outers = Path::Entries(series);
            first_cut_inside(&row, WalkedSites::along(&outers, table))
        }
        Path::Innermost(series, row, inner) => {
            let outers = Path::Inside(series, row);
            first_cut_inside(&inner, WalkedSites::along(&outers, table))
        }
    }
}
