//! Hints on an input that is no image text, or has no RSDP: what it looks like, and what to do. They are text for people,
//! and decide nothing.

use crate::beginning::KEPT;

/// What a hint depends on, once the program has done what it was asked.
#[derive(Clone, Copy)]
pub struct Ended<'a> {
    pub status: u8,
    /// Whether a read failed.
    pub has_failed_read: bool,
    /// The first bytes that were read, at most `KEPT`.
    pub read: &'a [u8],
    /// The first bytes that were written.
    pub written: &'a [u8],
}

/// How inputs begin that are no image text, and the hint on each.
const FORMS: [(&[u8], &str); 6] = [
    (
        b"RSD PTR ",
        "the input looks like a raw RSDP or a dump of memory: acpiset-tables2image and acpiset-memory2image make image text of such files",
    ),
    (
        b"\x7fELF",
        "the input is an ELF file: if it is a dump of memory, acpiset-memory2image FILE > image.txt makes image text of it",
    ),
    (
        b"\x1f\x8b\x08",
        "the input looks like gzip data: gzip -dc FILE | acpiset check",
    ),
    (
        b"\xfd7zXZ\0",
        "the input looks like xz data: xz -dc FILE | acpiset check",
    ),
    (
        b"(\xb5/\xfd",
        "the input looks like zstd data: zstd -dc FILE | acpiset check",
    ),
    (
        b"\xef\xbb\xbf",
        "the input begins with a byte order mark: tail -c +4 FILE | acpiset check",
    ),
];

const ACPIDUMP: &str =
    "the input looks like text of acpidump: acpiset-acpidump2image FILE > image.txt makes image text of it";

const UTF_16: &str = "the input looks like UTF-16: iconv -f UTF-16 -t ASCII FILE | acpiset check";

const DSDT: &str =
    "the input looks like a raw DSDT, in which nothing is checked: acpiset-tables2image FILE.. takes the other tables";

const TABLE: &str =
    "the input looks like a raw ACPI table: acpiset-tables2image FILE.. > image.txt makes image text of it and others";

const BINARY: &str =
    "the input is no text: acpiset-memory2image makes image text of a dump of memory, acpiset-tables2image of raw tables";

const EMPTY: &str =
    "the input is empty: is it the wrong file, or did the command before the pipe fail?";

const NO_RSDP: &str =
    "with UEFI firmware the RSDP is elsewhere: give its address by --rsdp, from the image's first line, dmesg or /sys/firmware/efi/systab";

const UNREADABLE: &str =
    "the input cannot be read: is it a folder, or closed? acpiset-tables2image FOLDER/* takes the tables in a folder";

/// The hint on a run that ended, if there is one. It depends on what was reported: a refused text has status 3; `no rsdp`
/// was written; or a read failed, and this was not passed over.
pub fn hint(ended: &Ended) -> Option<&'static str> {
    match ended.status {
        1 if ended.written == b"no rsdp\n".as_slice() => Some(if is_blank(ended.read) {
            EMPTY
        } else {
            NO_RSDP
        }),
        3 => form_hint(ended.read),
        4 if ended.has_failed_read => Some(UNREADABLE),
        _ => None,
    }
}

/// Whether these are all bytes of the input, and there are only blanks.
fn is_blank(read: &[u8]) -> bool {
    read.len() < KEPT && read.iter().all(|byte| byte.is_ascii_whitespace())
}

/// The hint on an input that is no image text and begins with these bytes.
fn form_hint(read: &[u8]) -> Option<&'static str> {
    if is_dump_title(read) {
        return Some(ACPIDUMP);
    }
    for (begin, hint) in FORMS {
        if read.starts_with(begin) {
            return Some(hint);
        }
    }
    if is_utf_16(read) {
        return Some(UTF_16);
    }
    match (is_table(read), read.starts_with(b"DSDT")) {
        (true, true) => Some(DSDT),
        (true, false) => Some(TABLE),
        _ if read.contains(&0) => Some(BINARY),
        _ => None,
    }
}

/// Whether a text begins like a title line of acpidump, as `APIC @ 0x00000000BFFE1234`.
fn is_dump_title(read: &[u8]) -> bool {
    [3, 4, 7].iter().any(|length| {
        let title = read.get(*length..).unwrap_or_default();
        let name = read.get(..*length).unwrap_or_default();
        title.starts_with(b" @ 0x")
            && (name == b"RSD PTR".as_slice() || name.iter().all(is_of_signature))
    })
}

/// Whether a text in 16-bit units begins with a byte order mark and an ASCII character.
fn is_utf_16(read: &[u8]) -> bool {
    match read {
        [0xff, 0xfe, unit, 0, ..] | [0xfe, 0xff, 0, unit, ..] => unit.is_ascii() && *unit != 0,
        _ => false,
    }
}

/// Whether the bytes begin with a signature and a Length of less than 16 MiB.
fn is_table(read: &[u8]) -> bool {
    match read {
        [first, second, third, fourth, low, middle, high, 0, ..] => {
            let is_long = *low >= 36 || *middle > 0 || *high > 0;
            is_long
                && [first, second, third, fourth]
                    .iter()
                    .all(|byte| is_of_signature(byte))
        }
        _ => false,
    }
}

/// Whether a byte may be in the signature of a table.
fn is_of_signature(byte: &u8) -> bool {
    byte.is_ascii_uppercase() || byte.is_ascii_digit() || matches!(*byte, b'_' | b'!')
}
