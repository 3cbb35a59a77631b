//! The job that the arguments of the command line give.

ghost use Rattle.std.specs.Prelude.{◌≡◌, ◌↔◌, ℕ, Bool, List, Option, IfErr, IfOk, IsSome, Some, map, option_map};
ghost use Rattle.std.specs.String.{string_bytes};
ghost use Rattle.clap.specs.Words.{found_of, rows_of};
ghost use Rattle.acpi_base.specs.Codes.{stage_number};
ghost use Rattle.acpi_base.specs.Laws.{NumbersFit};
ghost use Rattle.acpi_base.specs.Policy.{PolicyValue};
ghost use Rattle.acpi_base.specs.Text.WitnessText.{witness_line};
ghost use Rattle.acpi_base.specs.declared.witness.Witness.{Witness};
ghost use Rattle.acpi_lint.specs.declared.rule.Rule.{Rule};
ghost use Rattle.acpi_arguments.specs.CommandLine.{Asked, DoesAsked, PolicyTexts, allow_word, asked_job, base_word, asked_check, check_words, asked_confirm, confirm_words, asked_lint};
ghost use Rattle.acpi_arguments.specs.CommandLine.{find_words, last_word, lint_words, policy_words, asked_rebuild, rebuild_words, rsdp_word, asked_show, show_words, witness_word};
ghost use Rattle.acpi_arguments.specs.Words.{written_fault};

use crate::allowed::allowed_rules;
use crate::command_line::{is_set, parse, value};
use crate::number_words::{decimal_number, hex_number};
use crate::policy_words::read_policy;
use acpi_base::{Policy, Stage, Witness, parse_witness};
use acpi_lint::Rule;
use clap::ArgMatches;
use std::alloc::Global;
use thiserror::Error;

/// A command, and the arguments of its command function.
#[derive(Drop)]
pub enum Job {
    /// Check the tables that are reached from the RSDP, up to the stage `last`: the RSDP at `rsdp`, or the
    /// one that is found if that is `None`. The policy's own RSDP address is 0.
    Check {
        rsdp: Option<u64>,
        policy: Policy,
        last: Stage,
    },
    /// Report the first fault of each code and the first finding of each rule of advice, in the tables that are reached
    /// from the RSDP (see `Check`), but no advice of the rules `allowed`. The policy's own RSDP address is 0. If
    /// `is_strict`, advice is a bad outcome too.
    Lint {
        allowed: Vec<Rule>,
        rsdp: Option<u64>,
        policy: Policy,
        is_strict: bool,
    },
    /// Check whether the witness is a fault of the tables that are reached from the RSDP (see `Check`). The
    /// policy's own RSDP address is 0.
    Confirm {
        rsdp: Option<u64>,
        policy: Policy,
        witness: Witness,
    },
    /// Rebuild the set of tables that are reached from the RSDP (see `Check`), from the address `base` on. The policy's
    /// own RSDP address is 0.
    Rebuild {
        rsdp: Option<u64>,
        policy: Policy,
        base: u64,
    },
    /// Show what the tables say that are reached from the RSDP (see `Check`). If `is_anyway`, checksums and Lengths of these
    /// tables may be wrong.
    Show {
        rsdp: Option<u64>,
        is_anyway: bool,
    },
    /// Search for the RSDP.
    Find,
}

/// Why no job was read.
#[derive(Clone, Copy, Debug, PartialEq, Eq, Error)]
pub enum WordFault {
    /// The arguments are wrong, or ask for help.
    #[error("the arguments are refused")]
    Words,
    /// Out of memory.
    #[error("out of memory")]
    Memory,
}

/// The job that the arguments `words` give, of which the first is the program's name.
///
/// The commands are `find`, `show [--rsdp HEX] [--anyway]`, `check [--rsdp HEX] [--through N] [--default-inputs N] [--hotplug
/// SETTING] [--processors SETTING] [ADDRESS=COUNT]..`, and `lint`, `confirm` and `rebuild` with the same options as
/// `check`, except that instead of `--through N` `lint` has `--allow NAMES` and the flag `--strict`, `confirm` has
/// `--witness FAULT` and `rebuild` has `--base HEX`; these two are required. NAMES are the names of rules of advice, with a
/// comma between any two; upper and lower case differ. FAULT is a fault as `check` writes it (`parse_witness`), in one
/// argument. HEX is an address of 1 to 16 hex digits, with or without `0x` before them. The N of `--through` is a stage
/// from 1 to 18 in one or two decimal digits; if absent,
/// 18. The setting of `--hotplug` is `counted` or `apart` (`HotPlug`); if absent, `counted`. That of `--processors` is
///     `enabled` or `usable` (`Processors`); if absent, `enabled`.
///
/// No ACPI table says how many inputs an I/O APIC has. COUNT is the number of inputs of the I/O APIC at ADDRESS, and
/// the N of `--default-inputs`, 24 if absent, that of each I/O APIC without a COUNT. Both are from 1 to 256, in 1 to 3
/// decimal digits. ADDRESS is 1 to 8 hex digits, with or without `0x` before them. If an address is repeated, the first
/// count wins.
///
/// Returns `Words` if the arguments are anything else, `--help` included; `Memory` may be returned instead of a job or
/// of `Words`.
pub fn read_words(alloc: Global, words: &[String]) -> Result<Job, WordFault>
    ensures job { IfOk result (DoesAsked (asked_job (map string_bytes words.now))) }
    ensures refused { IfErr result (λ fault.
        IsSome (asked_job (map string_bytes words.now)) → fault ≡ WordFault.Memory) }
{
    let matches = parse(alloc, words)?;
    let (name, options) = matches.subcommand().ok_or(WordFault::Words)?;
    match name {
        "check" => check_job(alloc, options),
        "lint" => lint_job(alloc, options),
        "confirm" => confirm_job(alloc, options),
        "rebuild" => rebuild_job(alloc, options),
        "show" => show_job(options),
        "find" => Ok(Job::Find),
        _ => Err(WordFault::Words),
    }
}

/// The job of `check` with these options.
#[tactic(auto, unfolding(crate::specs::CommandLine::asked_check))]
fn check_job(alloc: Global, options: &ArgMatches) -> Result<Job, WordFault>
    ensures job { IfOk result (DoesAsked (asked_check (rows_of (found_of options.now)))) }
    ensures refused { IfErr result (λ fault.
        IsSome (asked_check (rows_of (found_of options.now))) → fault ≡ WordFault.Memory) }
{
    let rsdp = given_address(value(options, "rsdp")).ok_or(WordFault::Words)?;
    let last = last_stage(value(options, "through")).ok_or(WordFault::Words)?;
    let policy = read_policy(alloc, options)?;
    Ok(Job::Check { rsdp, policy, last })
}

/// The job of `lint` with these options.
#[tactic(auto, unfolding(crate::specs::CommandLine::asked_lint))]
fn lint_job(alloc: Global, options: &ArgMatches) -> Result<Job, WordFault>
    ensures job { IfOk result (DoesAsked (asked_lint (rows_of (found_of options.now)))) }
    ensures refused { IfErr result (λ fault.
        IsSome (asked_lint (rows_of (found_of options.now))) → fault ≡ WordFault.Memory) }
{
    let rsdp = given_address(value(options, "rsdp")).ok_or(WordFault::Words)?;
    let is_strict = is_set(options, "strict");
    let allowed = allowed_rules(alloc, value(options, "allow"))?;
    let policy = read_policy(alloc, options)?;
    Ok(Job::Lint {
        allowed,
        rsdp,
        policy,
        is_strict,
    })
}

/// The job of `confirm` with these options.
#[tactic(auto, unfolding(crate::specs::CommandLine::asked_confirm))]
fn confirm_job(alloc: Global, options: &ArgMatches) -> Result<Job, WordFault>
    ensures job { IfOk result (DoesAsked (asked_confirm (rows_of (found_of options.now)))) }
    ensures refused { IfErr result (λ fault.
        IsSome (asked_confirm (rows_of (found_of options.now))) → fault ≡ WordFault.Memory) }
{
    let rsdp = given_address(value(options, "rsdp")).ok_or(WordFault::Words)?;
    let witness = given_witness(value(options, "witness")).ok_or(WordFault::Words)?;
    let policy = read_policy(alloc, options)?;
    Ok(Job::Confirm {
        rsdp,
        policy,
        witness,
    })
}

/// The job of `rebuild` with these options.
#[tactic(auto, unfolding(crate::specs::CommandLine::asked_rebuild))]
fn rebuild_job(alloc: Global, options: &ArgMatches) -> Result<Job, WordFault>
    ensures job { IfOk result (DoesAsked (asked_rebuild (rows_of (found_of options.now)))) }
    ensures refused { IfErr result (λ fault.
        IsSome (asked_rebuild (rows_of (found_of options.now))) → fault ≡ WordFault.Memory) }
{
    let rsdp = given_address(value(options, "rsdp")).ok_or(WordFault::Words)?;
    let base = base_address(value(options, "base")).ok_or(WordFault::Words)?;
    let policy = read_policy(alloc, options)?;
    Ok(Job::Rebuild { rsdp, policy, base })
}

/// The job of `show` with these options.
#[tactic(auto, unfolding(crate::specs::CommandLine::asked_show))]
fn show_job(options: &ArgMatches) -> Result<Job, WordFault>
    ensures job { IfOk result (DoesAsked (asked_show (rows_of (found_of options.now)))) }
    ensures refused { IfErr result (λ fault.
        IsSome (asked_show (rows_of (found_of options.now))) → fault ≡ WordFault.Memory) }
{
    let rsdp = given_address(value(options, "rsdp")).ok_or(WordFault::Words)?;
    let is_anyway = is_set(options, "anyway");
    Ok(Job::Show { rsdp, is_anyway })
}

/// The address that `--rsdp` gives, if it is present. `None` if its value is not an address.
fn given_address(word: Option<&str>) -> Option<Option<u64>>
    ensures { result ≡ rsdp_word (option_map (λ text. text.now) word.entry) }
{
    match word {
        Some(text) => Some(Some(hex_number(text, 16)?)),
        None => Some(None),
    }
}

/// The address that `--base` gives. `None` if it is absent, or its value is not an address.
fn base_address(word: Option<&str>) -> Option<u64>
    ensures { result ≡ base_word (option_map (λ text. text.now) word.entry) }
{
    hex_number(word?, 16)
}

/// The fault that `--witness` gives. `None` if it is absent, or its value is not a fault.
pub fn given_witness(word: Option<&str>) -> Option<Witness>
    ensures { result ≡ witness_word (option_map (λ text. text.now) word.entry) }
{
    // Each number is read, so that the proof knows that it has 64 bits.
    let Witness {
        code,
        at,
        other,
        point,
    } = parse_witness(word?.as_bytes())?;
    Some(Witness {
        code,
        at,
        other,
        point,
    })
}

/// The stage that `--through` names, or the last one if it is absent. `None` if its value is not a stage.
pub fn last_stage(word: Option<&str>) -> Option<Stage>
    ensures { option_map stage_number result ≡ last_word
        (option_map (λ text. text.now) word.entry) }
{
    let Some(text) = word else {
        return Some(Stage::LAST);
    };
    let number = u8::try_from(decimal_number(text, 2)?).ok()?;
    Stage::new(number)
}

/// A value of `--witness` is read as a fault exactly if it is this fault's text, with 64-bit numbers.
pub fn fault_words_are_texts()
    ensures { (text : List ℕ) (w : Witness) → (written_fault text ≡ Some w)
        ↔ (NumbersFit w × (text ≡ witness_line w)) }
{}

/// Each plain command line with valid values is accepted, and gives the expected job: `find`; `check` with each choice
/// of its options, in this order, and then any number of arguments `ADDRESS=COUNT`; likewise `lint`, with and without
/// its flag, `confirm` of each fault, as it is written, and `rebuild` to each address; and `show`, with and without its
/// option and its flag.
pub fn plain_lines_are_read()
    ensures find { (program : List ℕ) → asked_job (find_words program) ≡ Some Asked.find }
    ensures check { (program : List ℕ) (hex number : Option (List ℕ)) (texts : PolicyTexts)
        (rsdp : Option ℕ) (policy : PolicyValue) (last : ℕ) → rsdp_word hex ≡ Some rsdp
        → policy_words texts ≡ Some policy → last_word number ≡ Some last
        → asked_job (check_words program hex number texts) ≡ Some (Asked.check rsdp policy last) }
    ensures lint { (program : List ℕ) (names hex : Option (List ℕ)) (texts : PolicyTexts)
        (strict : Bool) (allowed : List Rule) (rsdp : Option ℕ) (policy : PolicyValue)
        → allow_word names ≡ Some allowed → rsdp_word hex ≡ Some rsdp
        → policy_words texts ≡ Some policy
        → asked_job (lint_words program names hex texts strict)
        ≡ Some (Asked.lint allowed rsdp policy strict) }
    ensures confirm { (program : List ℕ) (w : Witness) (hex : Option (List ℕ)) (texts : PolicyTexts)
        (rsdp : Option ℕ) (policy : PolicyValue) → NumbersFit w → rsdp_word hex ≡ Some rsdp
        → policy_words texts ≡ Some policy
        → asked_job (confirm_words program (witness_line w) hex texts) ≡ Some
        (Asked.confirm rsdp policy w) }
    ensures rebuild { (program base : List ℕ) (at : ℕ) (hex : Option (List ℕ)) (texts : PolicyTexts)
        (rsdp : Option ℕ) (policy : PolicyValue) → base_word (Some base) ≡ Some at
        → rsdp_word hex ≡ Some rsdp
        → policy_words texts ≡ Some policy
        → asked_job (rebuild_words program base hex texts) ≡ Some (Asked.rebuild rsdp policy at) }
    ensures show { (program : List ℕ) (hex : Option (List ℕ)) (rsdp : Option ℕ) (anyway : Bool)
        → rsdp_word hex ≡ Some rsdp
        → asked_job (show_words program hex anyway) ≡ Some (Asked.show rsdp anyway) }
{}
