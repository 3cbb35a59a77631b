//! The first finding of each rule of advice.

ghost use Rattle.std.specs.Prelude.{◌≡◌, IfOk};
ghost use Rattle.acpi_base.specs.Memory.{Memory};
ghost use Rattle.acpi_base.specs.Policy.{PolicyValue};
ghost use Rattle.acpi_rules.specs.Places.{FindsLeast};
ghost use Rattle.acpi_lint.specs.ByHand.{AreFoundByHand, rules_by_hand};
ghost use Rattle.acpi_lint.specs.CompleteTables.{AreCompleteTables};
ghost use Rattle.acpi_lint.specs.RowFindings.{AreBroken, AreFirsts};
ghost use Rattle.acpi_lint.specs.RowGroups.{OfAny, row_groups};
ghost use Rattle.acpi_lint.specs.Rules.Broken.{IsBrokenByHand};
ghost use Rattle.acpi_lint.specs.Rules.Findings.{AreFirstAdvice};
ghost use Rattle.acpi_lint.specs.Rules.Rows.{rule_number};
ghost use Rattle.acpi_lint.specs.StageFaults.{FindsFirstAdvice};
ghost use Rattle.acpi_lint.specs.declared.complete_tables.CompleteTables.{CompleteTables};
ghost use Rattle.acpi_lint.specs.declared.rule.Rule.{Rule};

use crate::by_hand::found_by_hand;
use crate::complete_tables::CompleteTables;
use crate::row_findings::{Found, lowest_of, row_findings};
use crate::rule::{Advice, Rule};
use acpi_base::{LentImage, Policy};
use acpi_rules::Place;
use std::alloc::{AllocError, Global};

/// The place of the first finding of the rule with a number, if it is not a row. The tables are those of the set.
fn place_by_hand(found: &[Found], number: u16) -> Option<Place>
    ensures { (m : Memory) (q : PolicyValue) → AreFoundByHand m q rules_by_hand found.now
        → (rule : Rule) → rule_number rule ≡ number → FindsLeast (IsBrokenByHand rule m q) result }
{
    lowest_of(None, found, number)
}

/// The first finding of the rule with a number, among those of the rows and of the rules that are none. The tables are
/// those of the set. None if there is no such rule.
fn first_finding(rows: &[Found], by_hand: &[Found], number: u16) -> Option<Advice>
    ensures { (m : Memory) (q : PolicyValue) (tables : CompleteTables)
        → AreCompleteTables m q.rsdp tables → AreFirsts (OfAny (AreBroken tables) row_groups) rows.now
        → AreFoundByHand m q rules_by_hand by_hand.now → FindsFirstAdvice number m q result }
{
    let place = place_by_hand(by_hand, number);
    let Place { at, other, point } = lowest_of(place, rows, number)?;
    let rule = Rule::new(number)?;
    Some(Advice {
        rule,
        at,
        other,
        point,
    })
}

/// The first findings of all rules that are broken, in the order of the rules' numbers.
pub fn first_advice(
    alloc: Global,
    image: &LentImage<'_>,
    tables: &CompleteTables<'_>,
    policy: &Policy,
) -> Result<Vec<Advice>, AllocError>
    requires { AreCompleteTables image.now policy.now.rsdp tables.now }
    ensures { IfOk result (λ advice. AreFirstAdvice image.now policy.now advice.items) }
{
    let rows = row_findings(alloc, tables)?;
    let by_hand = found_by_hand(alloc, image, tables, policy)?;
    let mut advice = Vec::new(alloc);
    for number in Rule::FIRST..=Rule::LAST {
        if let Some(finding) = first_finding(&rows, &by_hand, number) {
            advice.push(finding)?;
        }
    }
    Ok(advice)
}
