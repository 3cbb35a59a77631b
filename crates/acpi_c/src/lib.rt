//! The checker as a static library for C, and for all languages that can call C.
//!
//! An image is passed as pieces, each of them an address and the bytes from there on, or as image text.
//! `acpiset_check` and `acpiset_check_text` return the verdict on its tables, `acpiset_confirm` whether it has one
//! fault, `acpiset_lint` all findings, `acpiset_find` where the RSDP is, and `acpiset_abi` the version of these
//! functions and structs. `acpiset_show` writes the lines of a set, `acpiset_rebuild` the bytes of a set rebuilt at
//! another address. `acpiset_name`, `acpiset_stage`, `acpiset_severity` and `acpiset_explain` say what the number of
//! a finding means. No argument is kept, and no result has to be freed.
//!
//! No function has a `requires`: whatever the addresses, bytes, counts and settings are, it returns an answer. A C
//! caller must ensure what the types say: valid pointers and lengths. `bindings/c/acpiset.h` declares the functions
//! for C.
//!
//! An example, from `crates/acpi_c/src/tests.rt`: the second piece has an address of the first one.
//!
//! ```rust
//! let pieces = [
//!     Piece {
//!         address: 0x1000,
//!         bytes: &[1, 2],
//!     },
//!     Piece {
//!         address: 0xfff,
//!         bytes: &[3, 4],
//!     },
//! ];
//! let answer = answered(acpiset_check(alloc, &pieces, &[], &SETTINGS))?; // unless memory ran out
//! assert!(rt; answer.kind == AnswerKind::PiecesOverlap.number());
//! assert!(rt; answer.at == 1);
//! assert!(rt; answer.other == 0x1000);
//! ```
//!
//! `pieces` makes an image from pieces, `text` from a text; `settings` makes a policy; `refusal` says why a call is
//! refused, and `answer` writes a result as numbers.
#![tactic(auto)]

mod answer;
mod check;
mod confirm;
mod explained;
mod find;
mod kind;
pub mod laws;
mod lint;
mod made;
mod meaning;
mod pieces;
mod rebuild;
mod refusal;
mod settings;
mod show;
mod sums;
#[cfg(test)]
mod tests;
mod text;

ghost use Rattle.std.specs.Prelude.{◌≡◌};

pub use answer::{Answer, Finding};
pub use kind::AnswerKind;
pub use pieces::Piece;
pub use settings::{Inputs, Settings};

/// The version of the functions and the structs. It changes if one of them does.
#[unsafe(no_mangle)]
pub extern "C" fn acpiset_abi() -> u32
    ensures { result ≡ 1 }
{
    1
}
