//! The texts of `help` and `version`, in parts: the complete help and that of one command have the same ones.

/// What `version` prints.
pub const RELEASE: &[&str] = &[TITLE, "version ", VERSION, STAGES];

/// What `help` prints, and `--help`.
pub const EVERYTHING: &[&str] = &[
    TITLE,
    ABOUT,
    USAGE,
    CHECK_USAGE,
    POLICY_USAGE,
    LINT_USAGE,
    POLICY_USAGE,
    CONFIRM_USAGE,
    POLICY_USAGE,
    REBUILD_USAGE,
    POLICY_USAGE,
    SHOW_USAGE,
    FIND_USAGE,
    HELP_USAGE,
    VERSION_USAGE,
    INPUT,
    CHECK_ABOUT,
    " ",
    CONFIRM_ABOUT,
    " ",
    SHOW_ABOUT,
    "\n",
    LINT_ABOUT,
    "\n",
    REBUILD_ABOUT,
    "\n",
    WITNESS,
    BASE,
    RSDP,
    ALLOW,
    STRICT,
    ANYWAY,
    THROUGH,
    POLICY,
    "\n",
    FIND_ABOUT,
    "\n",
    HELP_ABOUT,
    " ",
    VERSION_ABOUT,
    "\n",
    TEXTS,
    STATUSES,
];

/// What `help check` prints.
pub const CHECK: &[&str] = &[
    USAGE,
    CHECK_USAGE,
    POLICY_USAGE,
    INPUT,
    CHECK_ABOUT,
    "\n\n",
    RSDP,
    THROUGH,
    POLICY,
];

/// What `help lint` prints.
pub const LINT: &[&str] = &[
    USAGE,
    LINT_USAGE,
    POLICY_USAGE,
    INPUT,
    LINT_ABOUT,
    "\n",
    RSDP,
    ALLOW,
    STRICT,
    POLICY,
];

/// What `help confirm` prints.
pub const CONFIRM: &[&str] = &[
    USAGE,
    CONFIRM_USAGE,
    POLICY_USAGE,
    INPUT,
    CONFIRM_ABOUT,
    "\n\n",
    WITNESS,
    RSDP,
    POLICY,
];

/// What `help rebuild` prints.
pub const REBUILD: &[&str] = &[
    USAGE,
    REBUILD_USAGE,
    POLICY_USAGE,
    INPUT,
    REBUILD_ABOUT,
    "\n",
    BASE,
    RSDP,
    POLICY,
];

/// What `help show` prints.
pub const SHOW: &[&str] = &[USAGE, SHOW_USAGE, INPUT, SHOW_ABOUT, "\n", RSDP, ANYWAY];

/// What `help find` prints.
pub const FIND: &[&str] = &[USAGE, FIND_USAGE, INPUT, FIND_ABOUT];

/// What `help help` prints.
pub const HELP: &[&str] = &[USAGE, HELP_USAGE, "\n", HELP_ABOUT, "\n"];

/// What `help version` prints.
pub const VERSION_HELP: &[&str] = &[USAGE, VERSION_USAGE, "\n", VERSION_ABOUT, "\n"];

/// The name of the program, as each message on standard error begins.
pub const TITLE: &str = "acpiset: ";

/// The version of the program.
const VERSION: &str = "0.1.0";

/// How many stages it has.
const STAGES: &str = ", 18 stages\n";

const ABOUT: &str = "checks the static ACPI tables that an operating system reaches from
the RSDP, in an image of a machine's memory, against the rules of the ACPI
Specification 6.5, section 5.2. Its verdicts are proved: docs/PROMISES.md.

";

const USAGE: &str = "usage:

";

const POLICY_USAGE: &str = "                [--default-inputs N] [ADDRESS=COUNT]..
                [--hotplug counted|apart] [--processors enabled|usable]
";

const CHECK_USAGE: &str = "  acpiset check [--rsdp HEX] [--through N]
";

const LINT_USAGE: &str = "  acpiset lint [--rsdp HEX] [--allow NAMES] [--strict]
";

const CONFIRM_USAGE: &str = "  acpiset confirm --witness FAULT [--rsdp HEX]
";

const REBUILD_USAGE: &str = "  acpiset rebuild --base HEX [--rsdp HEX]
";

const SHOW_USAGE: &str = "  acpiset show [--rsdp HEX] [--anyway]
";

const FIND_USAGE: &str = "  acpiset find
";

const HELP_USAGE: &str = "  acpiset help [COMMAND]
";

const VERSION_USAGE: &str = "  acpiset version
";

const INPUT: &str =
    "\nAll commands but help and version read an image of a machine's memory, as text,
from standard input.

";

const CHECK_ABOUT: &str =
    "check judges the ACPI tables in it, and prints `yes`, or `no` and the first
fault.";

const CONFIRM_ABOUT: &str = "confirm judges one fault, independently of check, and prints `true` if
the image has it, otherwise `false`.";

const SHOW_ABOUT: &str = "show prints what the tables say, a line
for each entry, if stages 1 to 3 pass; otherwise what check --through 3 prints.
With --anyway it prints both, if there is a root table to show.
";

const LINT_ABOUT: &str =
    "lint prints everything that is wrong: `yes`, or a line `no` for each name of a
fault, with the first fault of that name, even if an earlier stage fails; then
a line `advice` for each rule of advice that is broken, with the first finding.
Advice is not a fault: it points out what is probably wrong, but breaks none of
the rules of check.
";

const REBUILD_ABOUT: &str =
    "rebuild moves a set of tables for which check says yes to another address, and
prints the text of an image of this set and nothing else. For any other set it
prints what check prints. If the set cannot be placed there, it prints `refused`
and the reason: Unaligned, the address is not a multiple of 64; PastEnd, past
the last address; NeedsLow, a FACS above 4 GiB and a FADT too short for its
address; TableTooLong, an XSDT of 4 GiB or more.
";

const WITNESS: &str = "  --witness FAULT
               the fault that confirm judges, in one argument, as check prints
               it after `no`, such as '10 Overlap 0x30 0x58 0x0'. It need not
               be the first fault
";

const BASE: &str = "  --base HEX   the address of the new RSDP, which the other parts follow: a
               multiple of 64, written as for --rsdp
";

const RSDP: &str = "  --rsdp HEX   the address of the RSDP: 1 to 16 hex digits, with or without 0x
               before them. If absent, the address that find prints; if there
               is none, all commands but find print `no rsdp`
";

const ALLOW: &str = "  --allow NAMES
               the names of rules of advice, with a comma between any two: lint
               prints no line of these and does not count them for --strict
";

const STRICT: &str = "  --strict     lint ends with status 1 also if there is advice but no fault
";

const ANYWAY: &str =
    "  --anyway     show prints what check --through 3 prints, and then the lines of
               the set, even if checksums or Lengths in it are wrong
";

const THROUGH: &str = "  --through N  the last stage to check, 1 to 18; if absent, 18:
                1 the RSDP
                2 the RSDT or XSDT
                3 each table that the RSDT or XSDT lists
                4 the FADT
                5 the FACS
                6 the MADT
                7 interrupts that two I/O APICs serve
                8 interrupt source overrides that contradict each other
                9 the SRAT
               10 memory ranges that overlap
               11 the SLIT
               12 the PPTT
               13 references within the PPTT
               14 cycles of parents in the PPTT
               15 cycles of caches in the PPTT
               16 processors in two proximity domains
               17 interrupts that no I/O APIC serves
               18 processors of the PPTT that the MADT lacks
";

const POLICY: &str = "  --default-inputs N
               the number of inputs, 1 to 256, of each I/O APIC for which no
               ADDRESS=COUNT is given; if absent, 24
  ADDRESS=COUNT
               the number of inputs, 1 to 256, of the I/O APIC at ADDRESS. Any
               number of these may be given; if an address is repeated, the
               first count wins. ADDRESS is 1 to 8 hex digits, with or without
               0x before them
  --hotplug counted|apart
               which enabled memory ranges must not overlap: any two of them
               (counted), or only two that are both hot-pluggable or both not
               (apart), for firmware that places a window for hot-plugged memory
               over memory that is present; if absent, counted
  --processors enabled|usable
               which processors of the MADT must not be in two proximity
               domains: those with the Enabled flag (enabled), or also those
               with the Online Capable flag, which may be enabled later
               (usable); if absent, enabled

No ACPI table says how many inputs an I/O APIC has; stages 6, 7 and 17 need it.
";

const FIND_ABOUT: &str =
    "find searches for the RSDP at the multiples of 16 from 0xe0000 to 0xffff0, and
prints `rsdp` and its address, or `rsdp none`.
";

const HELP_ABOUT: &str = "help prints the help of all commands, or of one.";

const VERSION_ABOUT: &str = "version prints the version of
the program, and how many stages it has.";

const TEXTS: &str =
    "\nIn the image text, a line of `@` and hex digits is the address of what follows,
a line of pairs of hex digits is bytes, and # begins a comment:

  @e0000
  52 53 44 20  # and so on

A fault is printed as `3 TableSum 0x1 0x3000 0x0`: the stage, the fault's name,
where it is, and two more numbers that depend on the name. Advice is printed as
`advice SlitDiffers 0x2d 0x30 0x0`: the rule's name, and the same numbers.

For example:

  acpiset check --rsdp f59e0 < image.txt
  acpiset check --default-inputs 16 fec00000=32 0xfec01000=8 < image.txt
  acpiset check --hotplug apart --processors usable < image.txt
  acpiset lint --rsdp f59e0 < image.txt
  acpiset show --rsdp f59e0 < image.txt
  acpiset rebuild --rsdp f59e0 --base 7ffe0000 < image.txt > new.txt
  acpiset confirm --rsdp f59e0 --witness '3 TableSum 0x1 0x3000 0x0' < image.txt

";

const STATUSES: &str =
    "Exit statuses: 0 yes, true, rebuilt, shown or found, and of help and version; 1
no, false, refused or not found; 2 the arguments are refused, or have --help or
--version; 3 the input is not image text; 4 out of memory, or a read or a write
failed.
";
