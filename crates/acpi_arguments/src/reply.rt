//! What is printed if the arguments give no job.

use crate::complaint::Complaint;
use crate::topic::Topic;
use crate::usage::TITLE;
use std::alloc::Global;
use std::fmt;

/// The usage in two lines, and where to find more.
const SHORT_USAGE: &str = "usage: acpiset check [OPTION].. [ADDRESS=COUNT].. < IMAGE
       acpiset lint|confirm|rebuild|show|find [OPTION].. < IMAGE
For more: acpiset help, man acpiset, or TROUBLESHOOTING.md of the documentation";

/// A reply to arguments that give no job.
#[derive(Drop)]
pub enum Reply {
    /// A text that they ask for by an option.
    Topic(Topic),
    /// An argument is not UTF-8.
    NotUtf8,
    /// What is wrong with the arguments, a tip if there is one, and the short usage.
    Refusal(Complaint),
    /// The short usage: the command is missing, or the program is out of memory.
    Usage,
}

impl Reply {
    /// The reply to the arguments `words`, which give no job.
    pub fn new(alloc: Global, words: &[String]) -> Reply {
        if asks_for_help(words) {
            return Reply::Topic(Topic::Everything);
        }
        if asks_for_version(words) {
            return Reply::Topic(Topic::Release);
        }
        match Complaint::new(alloc, words) {
            Some(complaint) => Reply::Refusal(complaint),
            None => Reply::Usage,
        }
    }
}

impl fmt::Display for Reply {
    /// The complete reply. Allocates nothing.
    fn fmt<W: fmt::Write>(&self, f: &mut fmt::Formatter<W>) -> fmt::Result {
        match self {
            Reply::Topic(topic) => write_topic(f, *topic),
            Reply::NotUtf8 => writeln!(f, "{TITLE}an argument is not UTF-8\n{SHORT_USAGE}"),
            Reply::Refusal(complaint) => write_refusal(f, complaint),
            Reply::Usage => writeln!(f, "{TITLE}{SHORT_USAGE}"),
        }
    }
}

/// Writes a text that `help` or `version` also prints.
fn write_topic<W: fmt::Write>(f: &mut fmt::Formatter<W>, topic: Topic) -> fmt::Result {
    for part in topic.parts() {
        f.write_str(part)?;
    }
    Ok(())
}

/// Writes what is wrong with the arguments, a tip if there is one, and the short usage.
fn write_refusal<W: fmt::Write>(f: &mut fmt::Formatter<W>, complaint: &Complaint) -> fmt::Result {
    writeln!(f, "{TITLE}{}", complaint.message)?;
    if let Some(tip) = &complaint.tip {
        writeln!(f, "  tip: {tip}")?;
    }
    writeln!(f, "{SHORT_USAGE}")
}

/// Whether any of the arguments is `--help` or `-h`.
fn asks_for_help(words: &[String]) -> bool {
    words
        .iter()
        .any(|word| matches!(word.as_str(), "--help" | "-h"))
}

/// Whether the first of the arguments is `--version` or `-V`.
fn asks_for_version(words: &[String]) -> bool {
    words
        .get(1)
        .is_some_and(|word| matches!(word.as_str(), "--version" | "-V"))
}
