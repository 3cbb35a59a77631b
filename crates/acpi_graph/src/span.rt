//! Spans of numbers.

ghost use Rattle.std.specs.Prelude.{◌≡◌, ◌<◌, ◌↔◌, IsSome, IfSome};

/// The numbers from `start` on and below `end`: at least one. `name` is the id by which results name the span.
///
/// Spans compare by `start`, then by `name`.
#[derive(Clone, Copy, Debug, PartialEq, Eq, Hash, PartialOrd, Ord)]
pub struct Span {
    pub start: u128,
    pub name: u32,
    pub end: u128,
    pub ghost not_empty: { start < end },
}

impl Span {
    /// The span from `start` on and below `end`, or None if it contains no number.
    pub fn new(start: u128, end: u128, name: u32) -> Option<Span>
        ensures not_empty { IsSome result ↔ (start < end) }
        ensures start { IfSome result (λ span. span.start ≡ start) }
        ensures end { IfSome result (λ span. span.end ≡ end) }
        ensures name { IfSome result (λ span. span.name ≡ name) }
    {
        if start < end {
            Some(Span { start, name, end })
        } else {
            None
        }
    }
}
