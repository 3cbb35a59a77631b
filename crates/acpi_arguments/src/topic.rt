//! What `help` and `version` print.

ghost use Rattle.std.specs.Prelude.{◌≡◌, IfOk, map};
ghost use Rattle.std.specs.List.{flat_map};
ghost use Rattle.std.specs.String.{string_bytes};
ghost use Rattle.acpi_arguments.specs.Topics.{asked_topic, topic_alone, topic_named, topic_text, topic_with_name};

use crate::usage;
use std::alloc::{AllocError, Global};

/// What the arguments ask to print.
#[derive(Clone, Copy, PartialEq, Eq)]
pub enum Topic {
    /// The complete help.
    Everything,
    /// The version, and how many stages there are.
    Release,
    /// The help of one command, as are those below.
    Check,
    Lint,
    Confirm,
    Rebuild,
    Show,
    Find,
    Help,
    Version,
}

impl Topic {
    /// The topic that the arguments `words`, of which the first is the program's name, ask for: `help`, `help COMMAND` or
    /// `version`, and nothing else.
    pub fn of(words: &[String]) -> Option<Topic>
        ensures { result ≡ asked_topic (map string_bytes words.now) }
    {
        match words {
            [_, command] => Topic::alone(command.as_str()),
            [_, command, name] => Topic::with_name(command.as_str(), name.as_str()),
            _ => None,
        }
    }

    /// The topic of a command without an argument.
    fn alone(command: &str) -> Option<Topic>
        ensures { result ≡ topic_alone command.now }
    {
        match command {
            "help" => Some(Topic::Everything),
            "version" => Some(Topic::Release),
            _ => None,
        }
    }

    /// The topic of a command with one argument.
    fn with_name(command: &str, name: &str) -> Option<Topic>
        ensures { result ≡ topic_with_name command.now name.now }
    {
        match command {
            "help" => Topic::named(name),
            _ => None,
        }
    }

    /// The topic of the command with this name.
    pub(crate) fn named(name: &str) -> Option<Topic>
        ensures { result ≡ topic_named name.now }
    {
        match name {
            "check" => Some(Topic::Check),
            "lint" => Some(Topic::Lint),
            "confirm" => Some(Topic::Confirm),
            "rebuild" => Some(Topic::Rebuild),
            "show" => Some(Topic::Show),
            "find" => Some(Topic::Find),
            "help" => Some(Topic::Help),
            "version" => Some(Topic::Version),
            _ => None,
        }
    }

    /// The complete text.
    pub fn text(self, alloc: Global) -> Result<String, AllocError>
        ensures { IfOk result (λ text. string_bytes text ≡ topic_text self) }
    {
        self.parts().concat(alloc)
    }

    /// The text in parts, one after another.
    pub(crate) fn parts(self) -> &'static [&'static str]
        ensures { flat_map (λ part. part.now) result.now ≡ topic_text self }
    {
        match self {
            Topic::Everything => usage::EVERYTHING,
            Topic::Release => usage::RELEASE,
            Topic::Check => usage::CHECK,
            Topic::Lint => usage::LINT,
            Topic::Confirm => usage::CONFIRM,
            Topic::Rebuild => usage::REBUILD,
            Topic::Show => usage::SHOW,
            Topic::Find => usage::FIND,
            Topic::Help => usage::HELP,
            Topic::Version => usage::VERSION_HELP,
        }
    }
}
