//! Tests of the command functions on small sets, and on readers and writers that fail.

use crate::outcome::{Outcome, RunFault};
use crate::program::do_job;
use acpi_arguments::Job;
use acpi_base::{Code, Policy, PolicyFault, Stage, Tally, TextFault, Witness};
use acpi_lint::Rule;
use std::alloc::{AllocError, Global};
use std::io;
use std::io::{ErrorKind, Read};
use std::process::Abort;
use std::test::Fail;

/// An RSDP and an RSDT that lists nothing. Both checksums are right.
const LISTS_NOTHING: &[u8] = b"@e0000
52 53 44 20 50 54 52 20 4b 41 41 41 41 41 41 00
00 10 00 00
@1000
52 53 44 54 24 00 00 00 01 0a 41 41 41 41 41 41
41 41 41 41 41 41 41 41 01 00 00 00 41 41 41 41
01 00 00 00
";

/// A clean set: the RSDT lists a FADT of 116 bytes at 0x2000, whose flag HW_REDUCED_ACPI is set.
const CLEAN: &[u8] = b"@e0000
52 53 44 20 50 54 52 20 4b 41 41 41 41 41 41 00
00 10 00 00
@1000
52 53 44 54 28 00 00 00 01 e6 41 41 41 41 41 41
41 41 41 41 41 41 41 41 01 00 00 00 41 41 41 41
01 00 00 00 00 20 00 00
@2000
46 41 43 50 74 00 00 00 01 cd 41 41 41 41 41 41
41 41 41 41 41 41 41 41 01 00 00 00 41 41 41 41
01 00 00 00 00 00 00 00 00 00 00 00 00 00 00 00
00 00 00 00 00 00 00 00 00 00 00 00 00 00 00 00
00 00 00 00 00 00 00 00 00 00 00 00 00 00 00 00
00 00 00 00 00 00 00 00 00 00 00 00 00 00 00 00
00 00 00 00 00 00 00 00 00 00 00 00 00 00 00 00
00 00 10 00
";

/// The clean set rebuilt at 0x7ffe0000: an RSDP of revision 2, an XSDT, and the same FADT, each at a multiple of 64.
const REBUILT: &[u8] = b"@7ffe0000
52 53 44 20 50 54 52 20 59 41 41 41 41 41 41 02
00 00 00 00 24 00 00 00 40 00 fe 7f 00 00 00 00
1f 00 00 00
@7ffe0040
58 53 44 54 2c 00 00 00 01 ff 41 41 41 41 41 41
41 41 41 41 41 41 41 41 01 00 00 00 41 41 41 41
01 00 00 00 80 00 fe 7f 00 00 00 00
@7ffe0080
46 41 43 50 74 00 00 00 01 cd 41 41 41 41 41 41
41 41 41 41 41 41 41 41 01 00 00 00 41 41 41 41
01 00 00 00 00 00 00 00 00 00 00 00 00 00 00 00
00 00 00 00 00 00 00 00 00 00 00 00 00 00 00 00
00 00 00 00 00 00 00 00 00 00 00 00 00 00 00 00
00 00 00 00 00 00 00 00 00 00 00 00 00 00 00 00
00 00 00 00 00 00 00 00 00 00 00 00 00 00 00 00
00 00 10 00
";

/// What is shown of the clean set.
const SHOWN: &[u8] = b"rsdp 0xe0000 revision 0
root 0x1000 RSDT length 40 slots 1
slot 0 0x2000 FACP length 116 revision 1
fadt 0x2000 length 116 profile 0 sci 0 flags 0x100000 reduced yes
dsdt 0x0
";

/// The same after the verdict on the listed tables.
const SHOWN_ANYWAY: &[u8] = b"yes
rsdp 0xe0000 revision 0
root 0x1000 RSDT length 40 slots 1
slot 0 0x2000 FACP length 116 revision 1
fadt 0x2000 length 116 profile 0 sci 0 flags 0x100000 reduced yes
dsdt 0x0
";

/// No slot lists a FADT.
const NO_FADT: Witness = Witness {
    code: Code::NoFadt,
    at: 0,
    other: 0,
    point: 0,
};

/// The most bytes that a command function writes in these tests.
const ROOM: usize = 1024;

/// What the command function of a job returns on the bytes of a reader, and what it writes.
fn told<R: Read + Drop>(
    alloc: Global,
    reader: R,
    job: Job,
) -> Result<(Result<Outcome, RunFault>, Vec<u8>), AllocError> {
    let mut reader = Tally::new(reader);
    let mut writer = Tally::new(Vec::with_capacity(alloc, ROOM)?);
    let returned = do_job(alloc, &mut reader, &mut writer, job);
    Ok((returned, writer.into_inner()))
}

/// The command function of the job returns this outcome on the text, and writes these bytes.
fn expect_report(
    rt: &impl Abort,
    alloc: Global,
    text: &[u8],
    job: Job,
    outcome: Outcome,
    report: &[u8],
) -> Result<(), AllocError> {
    let (returned, written) = told(alloc, text, job)?;
    assert_eq!(rt; returned, Ok(outcome));
    assert_eq!(rt; written.as_slice(), report);
    Ok(())
}

/// Texts, the address that is given, the last stage, and the outcome and the line.
const CHECKS: [(&[u8], Option<u64>, Stage, Outcome, &[u8]); 4] = [
    (CLEAN, Some(0xe0000), Stage::LAST, Outcome::Yes, b"yes\n"),
    (LISTS_NOTHING, None, Stage::Tables, Outcome::Yes, b"yes\n"),
    (
        LISTS_NOTHING,
        None,
        Stage::LAST,
        Outcome::No,
        b"no 4 NoFadt 0x0 0x0 0x0\n",
    ),
    (b"", None, Stage::LAST, Outcome::No, b"no rsdp\n"),
];

#[test]
fn a_check_writes_the_verdict_of_the_stages_that_are_asked_for(
    rt: HostRuntime,
) -> Result<(), Fail> {
    let alloc = rt.alloc();
    for (text, rsdp, last, outcome, line) in CHECKS {
        let policy = Policy::new(alloc, 0, 24)?;
        let job = Job::Check { rsdp, policy, last };
        expect_report(&rt, alloc, text, job, outcome, line)?;
    }
    Ok(())
}

/// The clean set, whose slot 1 lists the FADT once more. The RSDT's checksum is lower by 0x24: its Length grows by 4,
/// and the slot adds 0x20.
const LISTS_TWICE: &[u8] = b"@e0000
52 53 44 20 50 54 52 20 4b 41 41 41 41 41 41 00
00 10 00 00
@1000
52 53 44 54 2c 00 00 00 01 c2 41 41 41 41 41 41
41 41 41 41 41 41 41 41 01 00 00 00 41 41 41 41
01 00 00 00 00 20 00 00 00 20 00 00
@2000
46 41 43 50 74 00 00 00 01 cd 41 41 41 41 41 41
41 41 41 41 41 41 41 41 01 00 00 00 41 41 41 41
01 00 00 00 00 00 00 00 00 00 00 00 00 00 00 00
00 00 00 00 00 00 00 00 00 00 00 00 00 00 00 00
00 00 00 00 00 00 00 00 00 00 00 00 00 00 00 00
00 00 00 00 00 00 00 00 00 00 00 00 00 00 00 00
00 00 00 00 00 00 00 00 00 00 00 00 00 00 00 00
00 00 10 00
";

/// The fault of an empty image whose RSDP is expected at 0.
const NOTHING: &[u8] = b"no 1 RsdpOut 0x0 0x0 0x0\n";

/// What is found in the set that lists its FADT twice, and without the rule ListedTwice.
const LISTED_TWICE: &[u8] = b"yes\nadvice ListedTwice 0x1 0x0 0x2000\nadvice NoDsdt 0x28 0x0 0x0\n";

const NO_DSDT: &[u8] = b"yes\nadvice NoDsdt 0x28 0x0 0x0\n";

/// A search: the text, the address that is given, the rules that are allowed, and whether it is strict.
type Search = (&'static [u8], Option<u64>, &'static [Rule], bool);

/// Searches, each with the outcome and the lines.
const LINTS: [(Search, Outcome, &[u8]); 7] = [
    ((CLEAN, None, &[Rule::NoDsdt], true), Outcome::Yes, b"yes\n"),
    (
        (CLEAN, None, &[Rule::ListedTwice], true),
        Outcome::No,
        NO_DSDT,
    ),
    ((LISTS_TWICE, None, &[], false), Outcome::Yes, LISTED_TWICE),
    ((LISTS_TWICE, None, &[], true), Outcome::No, LISTED_TWICE),
    (
        (LISTS_TWICE, None, &[Rule::ListedTwice], false),
        Outcome::Yes,
        NO_DSDT,
    ),
    ((b"", Some(0), &[], false), Outcome::No, NOTHING),
    ((b"", None, &[], false), Outcome::No, b"no rsdp\n"),
];

#[test]
fn all_that_is_wrong_is_written(rt: HostRuntime) -> Result<(), Fail> {
    let alloc = rt.alloc();
    for ((text, rsdp, rules, is_strict), outcome, lines) in LINTS {
        let policy = Policy::new(alloc, 0, 24)?;
        let mut allowed = Vec::new(alloc);
        allowed.extend_from_slice(rules)?;
        let job = Job::Lint {
            allowed,
            rsdp,
            policy,
            is_strict,
        };
        expect_report(&rt, alloc, text, job, outcome, lines)?;
    }
    Ok(())
}

/// Texts, the address that is given, a number of the fault NoFadt, and the outcome and the line.
const CONFIRMS: [(&[u8], Option<u64>, u64, Outcome, &[u8]); 4] = [
    (LISTS_NOTHING, Some(0xe0000), 0, Outcome::Yes, b"true\n"),
    (LISTS_NOTHING, None, 1, Outcome::No, b"false\n"),
    (CLEAN, None, 0, Outcome::No, b"false\n"),
    (b"", None, 0, Outcome::No, b"no rsdp\n"),
];

#[test]
fn a_fault_is_confirmed_by_all_its_numbers(rt: HostRuntime) -> Result<(), Fail> {
    let alloc = rt.alloc();
    for (text, rsdp, at, outcome, line) in CONFIRMS {
        let policy = Policy::new(alloc, 0, 24)?;
        let job = Job::Confirm {
            rsdp,
            policy,
            witness: Witness::at(Code::NoFadt, at),
        };
        expect_report(&rt, alloc, text, job, outcome, line)?;
    }
    Ok(())
}

/// Texts, the base address, and the outcome and what is written. At the last multiple of 64 only an RSDP fits.
const REBUILDS: [(&[u8], u64, Outcome, &[u8]); 5] = [
    (CLEAN, 0x7ffe_0000, Outcome::Yes, REBUILT),
    (CLEAN, 0x7ffe_0020, Outcome::No, b"refused Unaligned\n"),
    (
        LISTS_NOTHING,
        0x7ffe_0000,
        Outcome::No,
        b"no 4 NoFadt 0x0 0x0 0x0\n",
    ),
    (
        CLEAN,
        0xffff_ffff_ffff_ffc0,
        Outcome::No,
        b"refused PastEnd\n",
    ),
    (b"", 0x7ffe_0000, Outcome::No, b"no rsdp\n"),
];

#[test]
fn a_clean_set_is_rebuilt_where_it_fits(rt: HostRuntime) -> Result<(), Fail> {
    let alloc = rt.alloc();
    for (text, base, outcome, report) in REBUILDS {
        let policy = Policy::new(alloc, 0, 24)?;
        let rsdp = None;
        let job = Job::Rebuild { rsdp, policy, base };
        expect_report(&rt, alloc, text, job, outcome, report)?;
    }
    Ok(())
}

/// Texts, the address that is given, and the outcome and the lines.
const SHOWS: [(&[u8], Option<u64>, Outcome, &[u8]); 3] = [
    (CLEAN, None, Outcome::Yes, SHOWN),
    (
        CLEAN,
        Some(0xe0010),
        Outcome::No,
        b"no 1 RsdpOut 0xe0010 0x0 0x0\n",
    ),
    (b"", None, Outcome::No, b"no rsdp\n"),
];

#[test]
fn a_set_of_valid_tables_is_shown(rt: HostRuntime) -> Result<(), Fail> {
    let alloc = rt.alloc();
    for (text, rsdp, outcome, lines) in SHOWS {
        let job = Job::Show {
            rsdp,
            is_anyway: false,
        };
        expect_report(&rt, alloc, text, job, outcome, lines)?;
    }
    Ok(())
}

/// The same with `--anyway`.
const SHOWS_ANYWAY: [(&[u8], Option<u64>, Outcome, &[u8]); 3] = [
    (CLEAN, None, Outcome::Yes, SHOWN_ANYWAY),
    (
        CLEAN,
        Some(0xe0010),
        Outcome::No,
        b"no 1 RsdpOut 0xe0010 0x0 0x0\n",
    ),
    (b"", None, Outcome::No, b"no rsdp\n"),
];

#[test]
fn a_set_is_shown_anyway_after_its_verdict(rt: HostRuntime) -> Result<(), Fail> {
    let alloc = rt.alloc();
    for (text, rsdp, outcome, lines) in SHOWS_ANYWAY {
        let job = Job::Show {
            rsdp,
            is_anyway: true,
        };
        expect_report(&rt, alloc, text, job, outcome, lines)?;
    }
    Ok(())
}

#[test]
fn an_rsdp_is_found_where_there_is_one(rt: HostRuntime) -> Result<(), Fail> {
    let alloc = rt.alloc();
    expect_report(
        &rt,
        alloc,
        CLEAN,
        Job::Find,
        Outcome::Yes,
        b"rsdp 0xe0000\n",
    )?;
    expect_report(&rt, alloc, b"", Job::Find, Outcome::No, b"rsdp none\n")?;
    Ok(())
}

/// The commands.
#[derive(Clone, Copy, Debug)]
enum Command {
    Check,
    Lint,
    Confirm,
    Rebuild,
    Show,
    ShowAnyway,
    Find,
}

/// All commands, each with the first three bytes that its job writes on the set that lists nothing.
const COMMANDS: [(Command, [u8; 3]); 7] = [
    (Command::Check, *b"yes"),
    (Command::Lint, *b"no "),
    (Command::Confirm, *b"tru"),
    (Command::Rebuild, *b"no "),
    (Command::Show, *b"rsd"),
    (Command::ShowAnyway, *b"yes"),
    (Command::Find, *b"rsd"),
];

/// A job of the command.
fn job(alloc: Global, command: Command) -> Result<Job, PolicyFault> {
    let rsdp = None;
    let policy = Policy::new(alloc, 0, 24)?;
    Ok(match command {
        Command::Check => Job::Check {
            rsdp,
            policy,
            last: Stage::Tables,
        },
        Command::Lint => Job::Lint {
            allowed: Vec::new(alloc),
            rsdp,
            policy,
            is_strict: false,
        },
        Command::Confirm => Job::Confirm {
            rsdp,
            policy,
            witness: NO_FADT,
        },
        Command::Rebuild => Job::Rebuild {
            rsdp,
            policy,
            base: 0x7ffe_0000,
        },
        Command::Show => Job::Show {
            rsdp,
            is_anyway: false,
        },
        Command::ShowAnyway => Job::Show {
            rsdp,
            is_anyway: true,
        },
        Command::Find => Job::Find,
    })
}

#[test]
fn each_command_refuses_a_bad_line_and_writes_nothing(rt: HostRuntime) -> Result<(), Fail> {
    let alloc = rt.alloc();
    for (command, _) in COMMANDS {
        let (returned, written) = told(alloc, b"@0\n1".as_slice(), job(alloc, command)?)?;
        let fault = TextFault::BadLine { line: 2 };
        assert!(rt;
            returned == Err(RunFault::Image(fault)) && written.is_empty(),
            "{command:?}: {returned:?}"
        );
    }
    Ok(())
}

/// Gives its bytes, and then fails.
#[derive(Drop)]
struct Cut(&'static [u8]);

impl Read for Cut {
    fn read(&mut self, buffer: &mut [u8]) -> io::Result<usize> {
        match self.0.read(buffer)? {
            0 => Err(ErrorKind::Other.into()),
            count => Ok(count),
        }
    }
}

// The complete text was read when the read fails.
#[test]
fn each_command_tells_of_a_failed_read_and_writes_nothing(rt: HostRuntime) -> Result<(), Fail> {
    let alloc = rt.alloc();
    for (command, _) in COMMANDS {
        let (returned, written) = told(alloc, Cut(LISTS_NOTHING), job(alloc, command)?)?;
        assert!(rt;
            returned == Err(RunFault::Device) && written.is_empty(),
            "{command:?}: {returned:?}"
        );
    }
    Ok(())
}

/// What the command function of a job returns if its writer accepts only three bytes, and these bytes.
fn told_to_three_bytes(alloc: Global, job: Job) -> (Result<Outcome, RunFault>, [u8; 3]) {
    let mut bytes = [0; 3];
    let mut reader = Tally::new(LISTS_NOTHING);
    let mut writer = Tally::new(bytes.as_mut_slice());
    let returned = do_job(alloc, &mut reader, &mut writer, job);
    (returned, bytes)
}

#[test]
fn each_command_tells_of_a_failed_write_after_a_prefix(rt: HostRuntime) -> Result<(), Fail> {
    let alloc = rt.alloc();
    for (command, prefix) in COMMANDS {
        let told = told_to_three_bytes(alloc, job(alloc, command)?);
        assert!(rt;
            told == (Err(RunFault::Device), prefix),
            "{command:?}: {told:?}"
        );
    }
    Ok(())
}
