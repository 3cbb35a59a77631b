//! The settings of a check among the arguments of the command line: how many inputs each I/O APIC has, which memory
//! ranges must not overlap, and which processors count as enabled.

ghost use Rattle.std.specs.Prelude.{◌≡◌, ◌++◌, ℕ, List, IfErr, IfOk, IsSome, Some, codes, map, option_map, unwrap_or};
ghost use Rattle.clap.specs.Words.{found_of, rows_of};
ghost use Rattle.acpi_base.specs.Policy.{PolicyValue, inputs_of, new_policy};
ghost use Rattle.acpi_arguments.specs.CommandLine.{default_word, first_count, hotplug_word, inputs_policy, asked_policy, processors_word, with_inputs};
ghost use Rattle.acpi_arguments.specs.Words.{count_word, hex_word, inputs_word};

use crate::command_line::{value, values};
use crate::number_words::{decimal_number, hex_number};
use crate::words::WordFault;
use acpi_base::{HotPlug, Policy, Processors};
use clap::ArgMatches;
use std::alloc::Global;

/// The number of inputs of each I/O APIC without a count of its own, if `--default-inputs` is absent.
const DEFAULT_INPUTS: u16 = 24;

/// The address of an I/O APIC, and how many inputs it has.
#[derive(Clone, Copy)]
pub struct Inputs {
    address: u32,
    count: u16,
}

/// The policy that `--default-inputs`, `--hotplug`, `--processors` and the arguments `ADDRESS=COUNT` give. Its RSDP
/// address is 0. Takes O(n log n) steps for n arguments.
///
/// Returns `Words` if one of them is wrong; `Memory` may be returned instead of a policy or of `Words`.
pub fn read_policy(alloc: Global, options: &ArgMatches) -> Result<Policy, WordFault>
    ensures policy { IfOk result
        (λ policy. asked_policy (rows_of (found_of options.now)) ≡ Some policy) }
    ensures refused { IfErr result (λ fault.
        IsSome (asked_policy (rows_of (found_of options.now))) → fault ≡ WordFault.Memory) }
{
    let hotplug = hotplug_setting(value(options, "hotplug")).ok_or(WordFault::Words)?;
    let processors = processors_setting(value(options, "processors")).ok_or(WordFault::Words)?;
    let mut policy = read_inputs(
        alloc,
        value(options, "default-inputs"),
        values(options, "inputs"),
    )?;
    policy.set_hotplug(hotplug);
    policy.set_processors(processors);
    Ok(policy)
}

/// The policy that `--default-inputs` and the arguments `ADDRESS=COUNT` give, with the other settings of a new one. If
/// an address is repeated, the first count wins.
fn read_inputs(
    alloc: Global,
    default_inputs: Option<&str>,
    words: &[&str],
) -> Result<Policy, WordFault>
    ensures policy { IfOk result (λ policy.
        inputs_policy (option_map (λ text. text.now) default_inputs.entry)
        (map (λ text. text.now) words.now)
        ≡ Some policy) }
    ensures refused { IfErr result (λ fault.
        IsSome (inputs_policy (option_map (λ text. text.now) default_inputs.entry)
        (map (λ text. text.now) words.now))
        → fault ≡ WordFault.Memory) }
{
    let default_inputs = default_count(default_inputs).ok_or(WordFault::Words)?;
    let mut policy = Policy::new(alloc, 0, default_inputs).unwrap();
    for word in words {
        let inputs = inputs_of_word(word).ok_or(WordFault::Words)?;
        if policy.add_input(inputs.address, inputs.count).is_err() {
            return Err(WordFault::Memory);
        }
    }
    Ok(policy)
}

/// In this policy each I/O APIC has the first count that the arguments give for its address, otherwise the default.
/// They change nothing else in a policy.
pub fn first_counts_win()
    ensures inputs { (default_inputs address : ℕ) (counts : List Inputs) →
        inputs_of (with_inputs (new_policy 0 default_inputs) counts) address
        ≡ unwrap_or (first_count counts address) default_inputs }
    ensures others { (q : PolicyValue) (counts : List Inputs) →
        with_inputs q counts ≡ record q { inputs = (with_inputs q counts).inputs } }
{}

/// An argument is `ADDRESS=COUNT` exactly if it is an address of 1 to 8 hex digits, with or without `0x` before them, a
/// `=`, and a count of 1 to 256 in 1 to 3 decimal digits.
pub fn inputs_are_address_and_count()
    ensures read { (address count : List ℕ) (a n : ℕ) → hex_word 8 address ≡ Some a
        → count_word count ≡ Some n
        → inputs_word (address ++ codes "=" ++ count) ≡ Some (record { address = a; count = n }) }
    ensures only { (word : List ℕ) (inputs : Inputs) → inputs_word word ≡ Some inputs
        → (address : List ℕ) × (count : List ℕ) × (word ≡ address ++ codes "=" ++ count)
        × (hex_word 8 address ≡ Some inputs.address) × (count_word count ≡ Some inputs.count) }
{}

/// The count that `--default-inputs` gives, or 24 if it is absent. `None` if its value is not a count.
pub fn default_count(word: Option<&str>) -> Option<u16>
    ensures { result ≡ default_word (option_map (λ text. text.now) word.entry) }
{
    match word {
        Some(text) => count(text),
        None => Some(DEFAULT_INPUTS),
    }
}

/// The setting that `--hotplug` gives, or `Counted` if it is absent. `None` if its value is not a setting.
pub fn hotplug_setting(word: Option<&str>) -> Option<HotPlug>
    ensures { result ≡ hotplug_word (option_map (λ text. text.now) word.entry) }
{
    match word.unwrap_or("counted") {
        "counted" => Some(HotPlug::Counted),
        "apart" => Some(HotPlug::Apart),
        _ => None,
    }
}

/// The setting that `--processors` gives, or `Enabled` if it is absent. `None` if its value is not a setting.
pub fn processors_setting(word: Option<&str>) -> Option<Processors>
    ensures { result ≡ processors_word (option_map (λ text. text.now) word.entry) }
{
    match word.unwrap_or("enabled") {
        "enabled" => Some(Processors::Enabled),
        "usable" => Some(Processors::Usable),
        _ => None,
    }
}

/// The inputs that `ADDRESS=COUNT` gives. `None` if the argument is anything else.
pub fn inputs_of_word(word: &str) -> Option<Inputs>
    ensures { result ≡ inputs_word word.now }
{
    let (address, number) = word.split_once('=')?;
    let address = hex_number(address, 8)? as u32;
    let count = count(number)?;
    Some(Inputs { address, count })
}

/// The number of inputs, 1 to 256, that `text` spells in 1 to 3 decimal digits. `None` if it is anything else.
fn count(text: &str) -> Option<u16>
    ensures { result ≡ count_word text.now }
{
    let number = decimal_number(text, 3)?;
    if number == 0 || number > u64::from(Policy::MOST_INPUTS) {
        return None;
    }
    Some(number as u16)
}
