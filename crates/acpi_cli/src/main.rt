//! The program: reads its arguments, and checks the image on standard input, lists everything that is wrong with it,
//! confirms one of its faults, rebuilds its set of tables at another address, shows what its tables say, or searches it
//! for the RSDP.
#![tactic(auto)]

mod beginning;
mod check;
mod confirm;
mod devices;
mod find;
mod hint;
mod laws;
mod lint;
mod outcome;
mod program;
mod rebuild;
mod show;
#[cfg(test)]
mod tests;
mod uninterrupted;

use acpi_arguments::{Reply, WordFault};
use acpi_base::Tally;
use beginning::Beginning;
use hint::{Ended, hint};
use program::{obey, refuse, refuse_memory};
use std::io::{ErrorKind, Write};
use std::process::ExitCode;
use uninterrupted::Uninterrupted;

/// The arguments of the command line, starting with the program's own name. Returns `Words` if one is not UTF-8.
fn arguments(rt: &HostRuntime) -> Result<Vec<String>, WordFault> {
    match std::env::args(rt) {
        Ok(words) => words.collect(rt.alloc()).map_err(|_| WordFault::Memory),
        Err(error) if error.kind() == ErrorKind::InvalidData => Err(WordFault::Words),
        Err(_) => Err(WordFault::Memory),
    }
}

/// Passes the arguments and the standard streams to `obey`, and writes a hint after it if there is one.
fn main(rt: HostRuntime) -> std::io::Result<ExitCode> {
    let mut reader = Tally::new(Beginning::new(Uninterrupted::new(rt.stdin())));
    let mut writer = Tally::new(Beginning::new(Uninterrupted::new(rt.stdout())));
    let mut errors = rt.stderr();
    let status = match arguments(&rt) {
        Ok(words) => obey(
            rt.alloc(),
            &mut reader,
            &mut writer,
            &mut errors,
            words.as_slice(),
        ),
        Err(WordFault::Words) => refuse(&mut errors, &Reply::NotUtf8),
        Err(WordFault::Memory) => refuse_memory(&mut errors),
    };
    let has_failed_read = reader.failures() > 0;
    let (input, output) = (reader.into_inner(), writer.into_inner());
    let ended = Ended {
        status,
        has_failed_read,
        read: input.bytes(),
        written: output.bytes(),
    };
    if let Some(text) = hint(&ended) {
        let _ = writeln!(errors, "acpiset: hint: {text}");
    }
    Ok(ExitCode::from(status))
}
