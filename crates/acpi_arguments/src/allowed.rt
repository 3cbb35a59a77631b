//! The rules of advice that `--allow` names.

ghost use Rattle.std.specs.Prelude.{◌≡◌, ◌==◌, IfErr, IfOk, IsSome, Some, map, option_map};
ghost use Rattle.std.specs.List.{slice_split};
ghost use Rattle.acpi_lint.specs.Rules.Rows.{rule_named};
ghost use Rattle.acpi_arguments.specs.CommandLine.{allow_word};
ghost use Rattle.acpi_arguments.specs.Words.{all_read};

use crate::words::WordFault;
use acpi_lint::Rule;
use std::alloc::{AllocError, Global};

/// The rules that `--allow` names, in the order in which it does; none if it is absent.
///
/// Returns `Words` if one of the names is no rule's; `Memory` may be returned instead of the rules or of `Words`.
pub fn allowed_rules(alloc: Global, word: Option<&str>) -> Result<Vec<Rule>, WordFault>
    ensures rules { IfOk result (λ rules.
        allow_word (option_map (λ text. text.now) word.entry) ≡ Some rules.items) }
    ensures refused { IfErr result (λ fault.
        IsSome (allow_word (option_map (λ text. text.now) word.entry)) → fault ≡ WordFault.Memory) }
{
    let Some(text) = word else {
        return Ok(Vec::new(alloc));
    };
    let Ok(names) = names_in(alloc, text) else {
        return Err(WordFault::Memory);
    };
    rules_named(alloc, &names)
}

/// The names in the value of `--allow`, with a comma between any two.
pub fn names_in(alloc: Global, text: &str) -> Result<Vec<&str>, AllocError>
    ensures { IfOk result (λ names.
        map (λ name. name.now) names.items ≡ slice_split (λ byte. byte == 44) text.now) }
{
    text.split(',').collect(alloc)
}

/// The rules with these names.
fn rules_named(alloc: Global, names: &[&str]) -> Result<Vec<Rule>, WordFault>
    ensures rules { IfOk result (λ rules.
        all_read rule_named (map (λ name. name.now) names.now) ≡ Some rules.items) }
    ensures refused { IfErr result (λ fault.
        IsSome (all_read rule_named (map (λ name. name.now) names.now)) → fault ≡ WordFault.Memory) }
{
    let mut rules = Vec::new(alloc);
    for name in names {
        let rule = Rule::from_name(name).ok_or(WordFault::Words)?;
        if rules.push(rule).is_err() {
            return Err(WordFault::Memory);
        }
    }
    Ok(rules)
}
