//! Advice as text.

ghost use Rattle.std.specs.Prelude.{◌≡◌, IfOk};
ghost use Rattle.acpi_lint.specs.AdviceText.{advice_line};

use crate::rule::Advice;
use std::alloc::{AllocError, Global};

/// The line of advice: `advice`, the rule's name and its three numbers in lower case hex, separated by single blanks,
/// and an LF, as in `advice SameUid 0x64 0x5c 0x6`.
#[tactic(auto, unfolding(crate::specs::AdviceText::advice_line, acpi_base::specs::Text::WitnessText::hex_text))]
pub fn advice_text(alloc: Global, advice: &Advice) -> Result<Vec<u8>, AllocError>
    ensures { IfOk result (λ text. text.items ≡ advice_line advice.now) }
{
    let Advice {
        rule,
        at,
        other,
        point,
    } = advice;
    let name = rule.name();
    let line = format!(in alloc; "advice {name} 0x{at:x} 0x{other:x} 0x{point:x}\n")?;
    Ok(line.into_bytes())
}
