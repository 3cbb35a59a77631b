//! Faults and verdicts as text.

ghost use Rattle.std.specs.Prelude.{◌≡◌, ◌++◌, IfOk, OnOk, codes};
ghost use Rattle.acpi_base.specs.Text.WitnessText.{hex_text, witness_line, verdict_line};

use crate::verdict::Verdict;
use crate::witness::Witness;
use itoa::Buffer;
use std::alloc::{AllocError, Global};

/// Adds a blank and the number in hex.
#[tactic(auto, unfolding(crate::specs::Text::WitnessText::hex_text))]
fn add_number(line: &mut Vec<u8>, alloc: Global, number: u64) -> Result<(), AllocError>
    ensures { OnOk result (line.new.items ≡ line.old.items ++ (codes " " ++ hex_text number)) }
{
    let text = format!(in alloc; " 0x{number:x}")?;
    line.extend_from_slice(text.as_bytes())
}

/// The fault's text: its stage in decimal, its code's name, and its three numbers in lower case hex,
/// separated by single blanks, as in `10 Overlap 0x30 0x58 0x0`.
#[tactic(auto, unfolding(crate::specs::Text::WitnessText::witness_line))]
pub fn witness_text(alloc: Global, witness: &Witness) -> Result<Vec<u8>, AllocError>
    ensures { IfOk result (λ text. text.items ≡ witness_line witness.now) }
{
    let mut stage = Buffer::new();
    let stage = stage.format(witness.code.stage().number());
    let mut line = Vec::from_slice(alloc, stage.as_bytes())?;
    line.push(b' ')?;
    line.extend_from_slice(witness.code.name().as_bytes())?;
    add_number(&mut line, alloc, witness.at)?;
    add_number(&mut line, alloc, witness.other)?;
    add_number(&mut line, alloc, witness.point)?;
    Ok(line)
}

/// The verdict's line: `yes`, or `no` and the fault's text, and an LF.
pub fn verdict_text(alloc: Global, verdict: &Verdict) -> Result<Vec<u8>, AllocError>
    ensures { IfOk result (λ text. text.items ≡ verdict_line verdict.now) }
{
    match verdict {
        Verdict::Yes => Vec::from_slice(alloc, b"yes\n"),
        Verdict::No(witness) => {
            let mut line = Vec::from_slice(alloc, b"no ")?;
            line.extend_from_slice(&witness_text(alloc, witness)?)?;
            line.push(b'\n')?;
            Ok(line)
        }
    }
}
