//! Tips on arguments that are refused: the usual slips, and what to write instead.

use crate::number_words::{decimal_number, hex_number};
use acpi_base::Code;
use acpi_lint::Rule;
use std::alloc::Global;

/// Where the image comes from.
const STANDARD_INPUT: &str = "the image is read from standard input: acpiset check < IMAGE";

/// What makes other formats of the output.
const REPORT: &str =
    "acpiset has no JSON output: pipe it to acpiset-report --format json (in the sources tools/report)";

/// What the tools are called, which are no commands.
const TOOLS: &str =
    "the tools are programs of their own: acpiset-explain, acpiset-report, acpiset-tables2image, acpiset-memory2image, acpiset-acpidump2image";

/// The options of the commands.
const OPTIONS: [&str; 9] = [
    "--rsdp",
    "--through",
    "--allow",
    "--strict",
    "--witness",
    "--base",
    "--default-inputs",
    "--hotplug",
    "--processors",
];

/// A tip on arguments that `clap` refuses with this text: our own on the argument that it names, otherwise `clap`'s,
/// which is the option or command that is most like it. `None` also if the program is out of memory.
pub fn clap_tip(alloc: Global, words: &[String], text: &str) -> Option<String> {
    let named = text.lines().next().and_then(named_argument);
    if let Some(tip) = named.and_then(|argument| usual_tip(words, argument)) {
        return String::from_str(alloc, tip).ok();
    }
    let similar = text.lines().find(|line| line.starts_with("  tip: ") && line.contains("similar"));
    match similar.and_then(|line| line.strip_prefix("  tip: ")) {
        Some(tip) => String::from_str(alloc, tip).ok(),
        None => path_tip(alloc, words),
    }
}

/// The argument that the first line of `clap`'s text names as unknown.
fn named_argument(line: &str) -> Option<&str> {
    let rest = line
        .strip_prefix("error: unexpected argument '")
        .or_else(|| line.strip_prefix("error: unrecognized subcommand '"))?;
    Some(rest.split_once('\'')?.0)
}

/// A tip on an unknown argument.
fn usual_tip(words: &[String], argument: &str) -> Option<&'static str> {
    if is_option_first(words) && OPTIONS.contains(&argument) {
        return Some("the command comes before its options, as in acpiset check --rsdp f59e0");
    }
    match argument {
        "--json" | "--sarif" | "--junit" | "--tap" | "--format" | "json" => Some(REPORT),
        "explain" | "report" | "tables2image" | "memory2image" | "acpidump2image" => Some(TOOLS),
        "--all" | "-a" | "all" => Some("lint lists all findings: acpiset lint < IMAGE"),
        "--verbose" | "-v" => Some(
            "acpiset-explain says what a line means; acpiset version prints the version",
        ),
        "--version" | "-V" => Some("acpiset version prints the version"),
        "--quiet" | "-q" => Some(
            "the exit status has the verdict: acpiset check < IMAGE > /dev/null",
        ),
        "--input" | "--image" | "--file" | "-i" | "-f" | "-" => Some(STANDARD_INPUT),
        "--output" | "-o" => Some(
            "the output goes to standard output: acpiset check < IMAGE > FILE",
        ),
        "--through" => Some("only check has --through"),
        "--allow" => Some("only lint has --allow"),
        "--strict" => Some("only lint has --strict"),
        "--witness" => Some("only confirm has --witness"),
        "--base" => Some("only rebuild has --base"),
        _ => None,
    }
}

/// Whether an option comes where the command belongs.
fn is_option_first(words: &[String]) -> bool {
    words.get(1).is_some_and(|word| word.starts_with('-'))
}

/// A tip on an argument that is no option and has no `=`.
pub fn word_tip(alloc: Global, words: &[String], word: &str) -> Option<String> {
    if word == "-" {
        return String::from_str(alloc, STANDARD_INPUT).ok();
    }
    path_tip(alloc, words)
}

/// A tip if an argument that is no option's value looks like a path.
fn path_tip(alloc: Global, words: &[String]) -> Option<String> {
    let (_, path) = words
        .iter()
        .zip(words.iter().skip(1))
        .find(|(before, word)| !before.starts_with('-') && is_path(word))?;
    format!(in alloc; "the image is read from standard input: acpiset check < {path}").ok()
}

/// Whether an argument looks like a path. One that is printed without its end does not: a tip could not name it.
fn is_path(word: &str) -> bool {
    !word.starts_with('-') && !word.ends_with("...") && (word.contains('/') || word.contains('.'))
}

/// A tip on a text that is no rule's name.
pub fn allow_tip(name: &str) -> Option<&'static str> {
    if name.is_empty() {
        return Some("leave out the comma, or write a name: lint --allow SameUid,SameApicId");
    }
    for number in 1..u8::MAX {
        if Code::new(number).is_some_and(|code| code.name() == name) {
            return Some("a fault can't be allowed: only rules of advice can");
        }
    }
    for number in Rule::FIRST..=Rule::LAST {
        if Rule::new(number).is_some_and(|rule| rule.name().eq_ignore_ascii_case(name)) {
            return Some("upper and lower case differ: write the name as lint prints it");
        }
    }
    None
}

/// A tip on a text that is no hex number.
pub fn hex_tip(text: &str) -> Option<&'static str> {
    if text.starts_with("0X") {
        return Some("write the prefix as 0x, or leave it out");
    }
    let digits = text.strip_suffix('h').or_else(|| text.strip_suffix('H'))?;
    if hex_number(digits, 16).is_some() {
        Some("leave out the h: all addresses are in hex")
    } else {
        None
    }
}

/// A tip on a text that is no decimal number.
pub fn decimal_tip(text: &str) -> Option<&'static str> {
    if text.starts_with("0x") || text.starts_with("0X") {
        Some("write it in decimal, without 0x")
    } else {
        None
    }
}

/// A tip on a text that is no address of an I/O APIC, which may be one in decimal.
pub fn inputs_address_tip(alloc: Global, text: &str) -> Option<String> {
    if let Some(tip) = hex_tip(text) {
        return String::from_str(alloc, tip).ok();
    }
    let address = decimal_number(text, 10).filter(|number| *number < 1 << 32)?;
    format!(in alloc; "addresses are in hex: {text} in decimal is {address:x}").ok()
}
