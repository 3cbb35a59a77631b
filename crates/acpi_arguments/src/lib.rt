//! The arguments of the command line: the job that they give, and what is printed if they give none.
//!
//! `read_words` returns the job that the arguments give, as `clap` parses them. If they give none, `Reply` is what is
//! printed: the help, the version, or what is wrong with them, with a tip.
//!
//! An example, from `crates/acpi_cli/src/program.rt`:
//!
//! ```rust
//! match read_words(alloc, words) {
//!     Ok(job) => {
//!         let result = do_job(alloc, reader, writer, job);
//!         report(errors, &result);
//!         status_of(&result)
//!     }
//!     Err(WordFault::Words) => refuse(errors, &Reply::new(alloc, words)),
//!     Err(WordFault::Memory) => refuse_memory(errors),
//! }
//! ```
#![tactic(auto)]

mod allowed;
mod command_line;
mod complaint;
mod number_words;
mod policy_words;
mod printable;
mod reply;
mod tips;
mod topic;
mod usage;
mod witness_fault;
mod words;

pub use policy_words::Inputs;
pub use reply::Reply;
pub use topic::Topic;
pub use words::{Job, WordFault, read_words};
