//! What is wrong with arguments that give no job: a message, and a tip. Both are text for people, and decide nothing.

use crate::allowed::names_in;
use crate::command_line::{clap_text, parse, value, values};
use crate::number_words::hex_number;
use crate::policy_words::{default_count, hotplug_setting, inputs_of_word, processors_setting};
use crate::printable::printable_arguments;
use crate::tips::{allow_tip, clap_tip, decimal_tip, hex_tip, inputs_address_tip, word_tip};
use crate::topic::Topic;
use crate::witness_fault::WitnessFault;
use crate::words::{given_witness, last_stage};
use acpi_base::Stage;
use acpi_lint::Rule;
use clap::ArgMatches;
use std::alloc::Global;

/// The message if `confirm` has no `--witness`.
const NO_WITNESS: &str =
    "confirm needs --witness FAULT: a fault as check prints it after no, in one argument, as in '10 Overlap 0x30 0x58 0x0'";

/// What an address may be.
const ADDRESSES: &str = "1 to 16 hex digits, with or without 0x before them, as in f59e0";

/// What a number of inputs may be.
const INPUTS: &str = "a number of inputs from 1 to 256, in at most 3 decimal digits";

/// What is wrong with arguments, and a tip if there is one: a line each. The arguments in them are printable
/// (`printable_text`).
#[derive(Drop)]
pub struct Complaint {
    pub message: String,
    pub tip: Option<String>,
}

impl Complaint {
    /// What is wrong with the arguments `words`. `None` if the command is missing, or the program is out of memory.
    pub fn new(alloc: Global, words: &[String]) -> Option<Complaint> {
        let printed = printable_arguments(alloc, words).ok()?;
        if let Some(word) = further_word(&printed) {
            let message = format!(in alloc; "unexpected argument '{word}' found").ok()?;
            return Some(Complaint { message, tip: None });
        }
        let words = without_help(&printed);
        match parse(alloc, words) {
            Ok(matches) => {
                let (name, options) = matches.subcommand()?;
                command_complaint(alloc, words, name, options)
            }
            Err(_) => clap_complaint(alloc, words),
        }
    }
}

/// The first argument after `version`, or after `help` and a command.
fn further_word(words: &[String]) -> Option<&str> {
    let place = match words.get(1)?.as_str() {
        "version" => 2,
        "help" if Topic::named(words.get(2)?.as_str()).is_some() => 3,
        _ => return None,
    };
    Some(words.get(place)?.as_str())
}

/// The arguments without the program's name if the first one is `help`: then `clap` judges the next one as a command.
fn without_help(words: &[String]) -> &[String] {
    match words {
        [_, first, ..] if first.as_str() == "help" => &words[1..],
        _ => words,
    }
}

/// `clap`'s message on arguments that it refuses: the first one that is unknown, repeated or without its value.
fn clap_complaint(alloc: Global, words: &[String]) -> Option<Complaint> {
    let text = clap_text(alloc, words)?;
    let line = text.lines().next()?;
    let message = String::from_str(alloc, line.strip_prefix("error: ")?).ok()?;
    let tip = clap_tip(alloc, words, text.as_str());
    Some(Complaint { message, tip })
}

/// What is wrong with the options of a command: one that is missing, otherwise the first wrong value.
fn command_complaint(
    alloc: Global,
    words: &[String],
    name: &str,
    options: &ArgMatches,
) -> Option<Complaint> {
    if name == "confirm" && value(options, "witness").is_none() {
        let message = String::from_str(alloc, NO_WITNESS).ok()?;
        return Some(Complaint { message, tip: None });
    }
    if name == "rebuild" && value(options, "base").is_none() {
        let message = format!(in alloc; "rebuild needs --base HEX: {ADDRESSES}").ok()?;
        return Some(Complaint { message, tip: None });
    }
    value_complaint(alloc, options)
        .or_else(|| allow_complaint(alloc, options))
        .or_else(|| inputs_complaint(alloc, words, options))
}

/// The first wrong value of an option.
fn value_complaint(alloc: Global, options: &ArgMatches) -> Option<Complaint> {
    for name in ["rsdp", "base"] {
        if let Some(hex) = value(options, name)
            && hex_number(hex, 16).is_none()
        {
            return refused_value(alloc, name, hex, ADDRESSES, hex_tip(hex));
        }
    }
    if let Some(text) = value(options, "witness")
        && given_witness(Some(text)).is_none()
    {
        return witness_complaint(alloc, text);
    }
    if let Some(number) = value(options, "through")
        && last_stage(Some(number)).is_none()
    {
        return stage_complaint(alloc, number);
    }
    setting_complaint(alloc, options)
}

/// A value of `--witness` that is no fault.
fn witness_complaint(alloc: Global, text: &str) -> Option<Complaint> {
    let fault = WitnessFault::new(text);
    let message = format!(in alloc; "--witness '{text}': {fault}").ok()?;
    let tip = owned(alloc, fault.tip());
    Some(Complaint { message, tip })
}

/// A value of `--through` that is no stage.
fn stage_complaint(alloc: Global, number: &str) -> Option<Complaint> {
    let last = Stage::LAST.number();
    let stages = format!(in alloc; "a stage from 1 to {last}, in at most 2 decimal digits").ok()?;
    refused_value(
        alloc,
        "through",
        number,
        stages.as_str(),
        decimal_tip(number),
    )
}

/// The first wrong value of an option of the policy.
fn setting_complaint(alloc: Global, options: &ArgMatches) -> Option<Complaint> {
    if let Some(number) = value(options, "default-inputs")
        && default_count(Some(number)).is_none()
    {
        return refused_value(alloc, "default-inputs", number, INPUTS, decimal_tip(number));
    }
    let hotplug = value(options, "hotplug");
    if hotplug_setting(hotplug).is_none() {
        return refused_value(alloc, "hotplug", hotplug?, "counted or apart", None);
    }
    let processors = value(options, "processors");
    if processors_setting(processors).is_none() {
        return refused_value(alloc, "processors", processors?, "enabled or usable", None);
    }
    None
}

/// A value of the option `--NAME`, with what was expected.
fn refused_value(
    alloc: Global,
    name: &str,
    value: &str,
    expected: &str,
    tip: Option<&str>,
) -> Option<Complaint> {
    let message = format!(in alloc; "--{name} '{value}': expected {expected}").ok()?;
    let tip = owned(alloc, tip);
    Some(Complaint { message, tip })
}

/// The first name in the value of `--allow` that is no rule's.
fn allow_complaint(alloc: Global, options: &ArgMatches) -> Option<Complaint> {
    let names = names_in(alloc, value(options, "allow")?).ok()?;
    let name = names.iter().find(|name| Rule::from_name(name).is_none())?;
    let message = format!(in alloc;
        "--allow '{name}': expected names of rules of advice, with a comma between any two"
    );
    let tip = owned(alloc, allow_tip(name));
    Some(Complaint {
        message: message.ok()?,
        tip,
    })
}

/// What is wrong with the first argument that should be `ADDRESS=COUNT`.
fn inputs_complaint(alloc: Global, words: &[String], options: &ArgMatches) -> Option<Complaint> {
    let given = values(options, "inputs");
    let word = given.iter().find(|word| inputs_of_word(word).is_none())?;
    let Some((address, count)) = word.split_once('=') else {
        let message = format!(in alloc; "'{word}': expected ADDRESS=COUNT, as in fec00000=24");
        let tip = word_tip(alloc, words, word);
        return Some(Complaint {
            message: message.ok()?,
            tip,
        });
    };
    if hex_number(address, 8).is_none() {
        let message = format!(in alloc;
            "'{word}': expected an ADDRESS of 1 to 8 hex digits, with or without 0x before them"
        );
        let tip = inputs_address_tip(alloc, address);
        return Some(Complaint {
            message: message.ok()?,
            tip,
        });
    }
    let message = format!(in alloc;
        "'{word}': expected a COUNT from 1 to 256, in at most 3 decimal digits"
    ).ok()?;
    let tip = owned(alloc, decimal_tip(count));
    Some(Complaint { message, tip })
}

/// A tip as an owned text. `None` also if the program is out of memory.
fn owned(alloc: Global, tip: Option<&str>) -> Option<String> {
    String::from_str(alloc, tip?).ok()
}
