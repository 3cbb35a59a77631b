//! The command line as it is declared to `clap`. No other module builds its commands.

ghost use Rattle.std.specs.Prelude.{◌≡◌, ◌≢◌, [], IfErr, IfOk, false, map, option_map, true, unwrap_or};
ghost use Rattle.std.specs.String.{string_bytes};
ghost use Rattle.clap.specs.Words.{all_of, app_of, first_of, found_of, kind_of, rows_of, rule_of, subcommand_rows_of};
ghost use Rattle.clap.specs.declared.builder.command.Command.TheViews.{out-Command};
ghost use Rattle.acpi_arguments.specs.CommandLine.{check_line, command_line, confirm_line, command_of, flag_rule, inputs_rule, is_set, is_taken, judging_line, lint_line, option_rule, rebuild_line, show_line, strict_line, with_options, with_setting_options};

use crate::words::WordFault;
use clap::error::ErrorKind;
use clap::{Arg, ArgAction, ArgMatches, Command, Error};
use std::alloc::{AllocError, Global};

/// Parses the arguments, of which the first is the program's name.
pub fn parse<'a>(alloc: Global, words: &'a [String]) -> Result<ArgMatches<'a>, WordFault>
    ensures taken { IfOk result (λ matches. is_taken (map string_bytes words.now) ≡ true) }
    ensures command { IfOk result (λ matches.
        subcommand_rows_of matches ≡ command_of (map string_bytes words.now)) }
    ensures refused { IfErr result (λ fault.
        is_taken (map string_bytes words.now) ≡ true → fault ≡ WordFault.Memory) }
{
    let Ok(command) = acpiset(alloc) else {
        return Err(WordFault::Memory);
    };
    match command.try_get_matches_from(words) {
        Ok(matches) => Ok(matches),
        Err(error) => Err(fault_of(&error)),
    }
}

/// The complete error text of `clap` on arguments that it refuses. `None` if it accepts them, or the program is out of
/// memory.
pub fn clap_text(alloc: Global, words: &[String]) -> Option<String> {
    let error = acpiset(alloc).ok()?.try_get_matches_from(words).err()?;
    if fault_of(&error) == WordFault::Memory {
        return None;
    }
    format!(in alloc; "{error}").ok()
}

/// The value that `--id` was given.
pub fn value<'a>(options: &ArgMatches<'a>, id: &str) -> Option<&'a str>
    ensures { option_map (λ text. text.now) result ≡ first_of id.now
        (rows_of (found_of options.now)) }
{
    options.get_str(id)
}

/// Whether the flag `--id` was given.
pub fn is_set(options: &ArgMatches, id: &str) -> bool
    ensures { result ≡ is_set (first_of id.now (rows_of (found_of options.now))) }
{
    value(options, id) == Some("true")
}

/// The values of the positional argument `id`, in the order in which they were given.
pub fn values<'b, 'a>(options: &'b ArgMatches<'a>, id: &str) -> &'b [&'a str]
    ensures { map (λ text. text.now) result.now ≡ unwrap_or
        (all_of id.now (rows_of (found_of options.now))) [] }
{
    options.get_raw(id).unwrap_or_default()
}

fn fault_of(error: &Error) -> WordFault
    ensures memory { kind_of error.now ≡ ErrorKind.OutOfMemory → result ≡ WordFault.Memory }
    ensures words { kind_of error.now ≢ ErrorKind.OutOfMemory → result ≡ WordFault.Words }
{
    if error.kind() == ErrorKind::OutOfMemory {
        WordFault::Memory
    } else {
        WordFault::Words
    }
}

fn acpiset<'a>(alloc: Global) -> Result<Command<'a>, AllocError>
    ensures line { IfOk result (λ command. app_of command ≡ command_line) }
{
    Command::new(alloc, "acpiset")
        .subcommand(check(alloc)?)?
        .subcommand(lint(alloc)?)?
        .subcommand(confirm(alloc)?)?
        .subcommand(rebuild(alloc)?)?
        .subcommand(show(alloc)?)?
        .subcommand(Command::new(alloc, "find"))
}

#[tactic(auto, unfolding(crate::specs::CommandLine::check_line))]
fn check<'a>(alloc: Global) -> Result<Command<'a>, AllocError>
    ensures line { IfOk result (λ command. app_of command ≡ check_line) }
    ensures own { IfOk result (λ command. (out-Command command).has_globals ≡ false) }
{
    let command = Command::new(alloc, "check");
    let rsdp = option(alloc, "rsdp", "HEX");
    let through = option(alloc, "through", "N");
    judging(alloc, command, rsdp, through)
}

#[tactic(auto, unfolding(crate::specs::CommandLine::lint_line))]
fn lint<'a>(alloc: Global) -> Result<Command<'a>, AllocError>
    ensures line { IfOk result (λ command. app_of command ≡ lint_line) }
    ensures own { IfOk result (λ command. (out-Command command).has_globals ≡ false) }
{
    let command = Command::new(alloc, "lint");
    let allow = option(alloc, "allow", "NAMES");
    let rsdp = option(alloc, "rsdp", "HEX");
    strictly(alloc, command, allow, rsdp)
}

#[tactic(auto, unfolding(crate::specs::CommandLine::confirm_line))]
fn confirm<'a>(alloc: Global) -> Result<Command<'a>, AllocError>
    ensures line { IfOk result (λ command. app_of command ≡ confirm_line) }
    ensures own { IfOk result (λ command. (out-Command command).has_globals ≡ false) }
{
    let command = Command::new(alloc, "confirm");
    let witness = option(alloc, "witness", "FAULT");
    let rsdp = option(alloc, "rsdp", "HEX");
    judging(alloc, command, witness, rsdp)
}

#[tactic(auto, unfolding(crate::specs::CommandLine::rebuild_line))]
fn rebuild<'a>(alloc: Global) -> Result<Command<'a>, AllocError>
    ensures line { IfOk result (λ command. app_of command ≡ rebuild_line) }
    ensures own { IfOk result (λ command. (out-Command command).has_globals ≡ false) }
{
    let command = Command::new(alloc, "rebuild");
    let base = option(alloc, "base", "HEX");
    let rsdp = option(alloc, "rsdp", "HEX");
    judging(alloc, command, base, rsdp)
}

/// The command with its own two options, then those that `read_policy` reads.
fn judging<'a>(
    alloc: Global,
    command: Command<'a>,
    first: Arg<'a>,
    second: Arg<'a>,
) -> Result<Command<'a>, AllocError>
    requires command { (out-Command command).has_globals ≡ false }
    requires first { first.global ≡ false }
    requires second { second.global ≡ false }
    ensures line { IfOk result
        (λ whole. app_of whole ≡ judging_line (app_of command.entry) (rule_of first.entry)
        (rule_of second.entry)) }
    ensures own { IfOk result (λ whole. (out-Command whole).has_globals ≡ false) }
{
    with_options(alloc, command, first, second)?.arg(inputs(alloc))
}

/// The same with `--strict` too.
fn strictly<'a>(
    alloc: Global,
    command: Command<'a>,
    first: Arg<'a>,
    second: Arg<'a>,
) -> Result<Command<'a>, AllocError>
    requires command { (out-Command command).has_globals ≡ false }
    requires first { first.global ≡ false }
    requires second { second.global ≡ false }
    ensures line { IfOk result
        (λ whole. app_of whole ≡ strict_line (app_of command.entry) (rule_of first.entry)
        (rule_of second.entry)) }
    ensures own { IfOk result (λ whole. (out-Command whole).has_globals ≡ false) }
{
    with_options(alloc, command, first, second)?
        .arg(flag(alloc, "strict"))?
        .arg(inputs(alloc))
}

/// The same without `--strict` and `ADDRESS=COUNT`.
fn with_options<'a>(
    alloc: Global,
    command: Command<'a>,
    first: Arg<'a>,
    second: Arg<'a>,
) -> Result<Command<'a>, AllocError>
    requires command { (out-Command command).has_globals ≡ false }
    requires first { first.global ≡ false }
    requires second { second.global ≡ false }
    ensures line { IfOk result
        (λ whole. app_of whole ≡ with_options (app_of command.entry) (rule_of first.entry)
        (rule_of second.entry)) }
    ensures own { IfOk result (λ whole. (out-Command whole).has_globals ≡ false) }
{
    with_settings(alloc, command.arg(first)?.arg(second)?)
}

/// The command with the options that `read_policy` reads, except `ADDRESS=COUNT`.
fn with_settings<'a>(alloc: Global, command: Command<'a>) -> Result<Command<'a>, AllocError>
    requires command { (out-Command command).has_globals ≡ false }
    ensures line { IfOk result
        (λ whole. app_of whole ≡ with_setting_options (app_of command.entry)) }
    ensures own { IfOk result (λ whole. (out-Command whole).has_globals ≡ false) }
{
    command
        .arg(option(alloc, "default-inputs", "N"))?
        .arg(option(alloc, "hotplug", "SETTING"))?
        .arg(option(alloc, "processors", "SETTING"))
}

fn show<'a>(alloc: Global) -> Result<Command<'a>, AllocError>
    ensures line { IfOk result (λ command. app_of command ≡ show_line) }
    ensures own { IfOk result (λ command. (out-Command command).has_globals ≡ false) }
{
    Command::new(alloc, "show")
        .arg(option(alloc, "rsdp", "HEX"))?
        .arg(flag(alloc, "anyway"))
}

/// `--NAME VALUE`, at most once. The value's name appears only in error messages.
fn option<'a>(alloc: Global, name: &'a str, value: &'a str) -> Arg<'a>
    ensures rule { rule_of result ≡ option_rule name.entry.now }
    ensures own { result.global ≡ false }
{
    Arg::new(alloc, name)
        .long(name)
        .action(ArgAction::Set)
        .value_name(value)
}

/// `--NAME`, which takes no value, at most once.
fn flag<'a>(alloc: Global, name: &'a str) -> Arg<'a>
    ensures rule { rule_of result ≡ flag_rule name.entry.now }
    ensures own { result.global ≡ false }
{
    Arg::new(alloc, name).long(name).action(ArgAction::SetTrue)
}

/// `ADDRESS=COUNT`, any number of times.
fn inputs<'a>(alloc: Global) -> Arg<'a>
    ensures rule { rule_of result ≡ inputs_rule }
    ensures own { result.global ≡ false }
{
    Arg::new(alloc, "inputs")
        .action(ArgAction::Append)
        .value_name("ADDRESS=COUNT")
}
