//! From the arguments of the command line to the exit status, on any reader and writer.

ghost use Rattle.std.specs.Prelude.{◌≡◌, IfOk, map};
ghost use Rattle.std.specs.String.{string_bytes};
ghost use Rattle.acpi_arguments.specs.CommandLine.{asked_job};
ghost use Rattle.acpi_arguments.specs.Topics.{asked_topic, topic_text};
ghost use Rattle.acpi_cli.specs.Commands.{device, Runs, ReportsJob};
ghost use Rattle.acpi_cli.specs.Program.{Obeys, Prints, Serves};

use crate::check::run_check;
use crate::confirm::run_confirm;
use crate::devices::{Output, write_output};
use crate::find::run_find;
use crate::lint::run_lint;
use crate::outcome::{Outcome, RunFault, status_of};
use crate::rebuild::run_rebuild;
use crate::show::{run_show, run_show_anyway};
use acpi_arguments::{Job, Reply, Topic, WordFault, read_words};
use acpi_base::Tally;
use std::alloc::{AllocError, Global};
use std::io::{Read, Write};

/// The exit status if the arguments are refused.
const REFUSED: u8 = 2;

/// The exit status if the program is out of memory.
const OUT_OF_MEMORY: u8 = 4;

/// Does what the arguments `words` ask for, of which the first is the program's name, and returns the exit status.
///
/// If they ask for a text, it is written, nothing is read, and the status is 0, or 4 if memory ran out or a write failed.
/// If they give a job, its command function runs on `reader` and `writer`, and the status is that of its result: 0, 1,
/// 3 or 4. If they give neither, as `--help` does, nothing is read or written, and the status is 2; if memory runs out
/// while they are parsed, nothing is read or written either, and the status is 4. Errors are reported on `errors`; a
/// failed write there changes nothing else.
#[tactic(auto, using(crate::proofs::Statuses::keeps_all))]
pub fn obey<R: Read, W: Write, E: Write>(
    alloc: Global,
    reader: &mut Tally<R>,
    writer: &mut Tally<W>,
    errors: &mut E,
    words: &[String],
) -> u8
    ensures { Serves (asked_topic (map string_bytes words.now))
        (asked_job (map string_bytes words.now))
        (device R.remaining reader.old reader.new)
        (device W.contents writer.old writer.new)
        result }
{
    match Topic::of(words) {
        Some(topic) => print_topic(alloc, writer, errors, topic),
        None => obey_job(alloc, reader, writer, errors, words),
    }
}

/// Writes the text of a topic, and returns the exit status.
fn print_topic<W: Write, E: Write>(
    alloc: Global,
    writer: &mut Tally<W>,
    errors: &mut E,
    topic: Topic,
) -> u8
    ensures { Prints topic (device W.contents writer.old writer.new) result }
{
    let result = write_output(writer, topic_output(alloc, topic));
    report(errors, &result);
    status_of(&result)
}

/// Does the job that the arguments `words` give, and returns the exit status (`obey`).
#[tactic(auto, using(crate::proofs::Statuses::refused))]
fn obey_job<R: Read, W: Write, E: Write>(
    alloc: Global,
    reader: &mut Tally<R>,
    writer: &mut Tally<W>,
    errors: &mut E,
    words: &[String],
) -> u8
    ensures { Obeys (asked_job (map string_bytes words.now))
        (device R.remaining reader.old reader.new)
        (device W.contents writer.old writer.new)
        result }
{
    match read_words(alloc, words) {
        Ok(job) => {
            let result = do_job(alloc, reader, writer, job);
            report(errors, &result);
            status_of(&result)
        }
        Err(WordFault::Words) => refuse(errors, &Reply::new(alloc, words)),
        Err(WordFault::Memory) => refuse_memory(errors),
    }
}

/// The text of a topic.
fn topic_output(alloc: Global, topic: Topic) -> Result<Output, AllocError>
    ensures { IfOk result (λ output. (output.bytes.items ≡ topic_text topic)
        × (output.outcome ≡ Outcome.Yes)) }
{
    let bytes = topic.text(alloc)?.into_bytes();
    let outcome = Outcome::Yes;
    Ok(Output { bytes, outcome })
}

/// Does the job on a reader and a writer.
pub fn do_job<R: Read, W: Write>(
    alloc: Global,
    reader: &mut Tally<R>,
    writer: &mut Tally<W>,
    job: Job,
) -> Result<Outcome, RunFault>
    ensures { Runs (ReportsJob job) (device R.remaining reader.old reader.new)
        (device W.contents writer.old writer.new) result }
{
    match job {
        Job::Check { rsdp, policy, last } => run_check(alloc, reader, writer, rsdp, policy, last),
        Job::Lint {
            allowed,
            rsdp,
            policy,
            is_strict,
        } => run_lint(
            alloc,
            reader,
            writer,
            allowed.as_slice(),
            rsdp,
            policy,
            is_strict,
        ),
        Job::Confirm {
            rsdp,
            policy,
            witness,
        } => run_confirm(alloc, reader, writer, rsdp, policy, &witness),
        Job::Rebuild { rsdp, policy, base } => {
            run_rebuild(alloc, reader, writer, rsdp, policy, base)
        }
        Job::Show { rsdp, is_anyway } => {
            if is_anyway {
                run_show_anyway(alloc, reader, writer, rsdp)
            } else {
                run_show(alloc, reader, writer, rsdp)
            }
        }
        Job::Find => run_find(alloc, reader, writer),
    }
}

/// Reports a command function's error, if it returned one.
fn report<E: Write>(errors: &mut E, ended: &Result<Outcome, RunFault>) {
    if let Err(fault) = ended {
        let _ = writeln!(errors, "acpiset: {fault}");
    }
}

/// Replies to arguments that give no job.
pub fn refuse<E: Write>(errors: &mut E, reply: &Reply) -> u8
    ensures { result ≡ 2 }
{
    let _ = write!(errors, "{reply}");
    REFUSED
}

/// Reports that the program is out of memory.
pub fn refuse_memory<E: Write>(errors: &mut E) -> u8
    ensures { result ≡ 4 }
{
    let _ = writeln!(errors, "acpiset: {}", WordFault::Memory);
    OUT_OF_MEMORY
}
