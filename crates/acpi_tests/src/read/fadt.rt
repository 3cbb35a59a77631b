//! Tests of the fields of the FADT.

use crate::samples::{Q35, image_of_table};
use acpi_base::{Code, Image};
use acpi_read::{Fadt, Table};
use std::alloc::Global;
use std::process::Abort;
use std::test::*;

/// The fields of a FADT of 116 bytes: the number of each, its length in bytes and its value (ACPI 6.5, table 5.9).
const FIELDS: [(u8, u8, u64); 38] = [
    (0, 4, 0x07fe_0000), // FIRMWARE_CTRL
    (1, 4, 0x07fe_0040), // DSDT
    (2, 1, 0xa1), // reserved
    (3, 1, 0xa2), // Preferred_PM_Profile
    (4, 2, 0x1409), // SCI_INT
    (5, 4, 0xb2), // SMI_CMD
    (6, 1, 2), // ACPI_ENABLE
    (7, 1, 3), // ACPI_DISABLE
    (8, 1, 0xb3), // S4BIOS_REQ
    (9, 1, 0xb4), // PSTATE_CNT
    (10, 4, 0x600), // PM1a_EVT_BLK
    (11, 4, 0x1600), // PM1b_EVT_BLK
    (12, 4, 0x604), // PM1a_CNT_BLK
    (13, 4, 0x1604), // PM1b_CNT_BLK
    (14, 4, 0x650), // PM2_CNT_BLK
    (15, 4, 0x608), // PM_TMR_BLK
    (16, 4, 0x620), // GPE0_BLK
    (17, 4, 0x630), // GPE1_BLK
    (18, 1, 5), // PM1_EVT_LEN
    (19, 1, 2), // PM1_CNT_LEN
    (20, 1, 1), // PM2_CNT_LEN
    (21, 1, 4), // PM_TMR_LEN
    (22, 1, 0x10), // GPE0_BLK_LEN
    (23, 1, 8), // GPE1_BLK_LEN
    (24, 1, 0x40), // GPE1_BASE
    (25, 1, 7), // CST_CNT
    (26, 2, 0xfff), // P_LVL2_LAT
    (27, 2, 0xffe), // P_LVL3_LAT
    (28, 2, 0x400), // FLUSH_SIZE
    (29, 2, 0x110), // FLUSH_STRIDE
    (30, 1, 3), // DUTY_OFFSET
    (31, 1, 6), // DUTY_WIDTH
    (32, 1, 0xd), // DAY_ALRM
    (33, 1, 0xe), // MON_ALRM
    (34, 1, 0x32), // CENTURY
    (35, 2, 0x102), // IAPC_BOOT_ARCH
    (36, 1, 0xc1), // reserved
    (37, 4, 0x0100_80a5), // Flags
];

/// The bytes of the fields, one after the other.
fn body_of(alloc: Global, fields: &[(u8, u8, u64)]) -> Result<Vec<u8>, Fail> {
    let mut body = Vec::new(alloc);
    for (_, length, value) in fields {
        body.extend_from_slice(&value.to_le_bytes()[..usize::from(*length).min(8)])?;
    }
    Ok(body)
}

/// The fields have these values.
fn expect_fields(rt: &impl Abort, fadt: &Fadt<'_>, fields: &[(u8, u8, u64)]) {
    for (number, _, value) in fields {
        assert!(rt; *number < 41);
        let told = fadt.field(*number);
        assert!(rt; told == Some(*value), "{number}: {told:?}");
    }
}

/// The FADT of the image has the fields, all its bytes, and no fault.
fn expect_fadt(rt: &impl Abort, image: &Image) -> Result<(), Code> {
    let fadt = Fadt::new(Table::read(image, 0x1000)?)?;
    expect_fields(rt, &fadt, &FIELDS);
    assert!(rt; fadt.field(38).is_none());
    assert!(rt; image.window(0x1000, 116) == Some(fadt.bytes()));
    assert!(rt; fadt.header().signature == *b"FACP");
    assert!(rt; fadt.fault().is_none() && !fadt.reduced());
    Ok(())
}

// The other fields are tested by tests/show.
#[test]
fn fields_have_their_numbers(rt: HostRuntime) -> Result<(), Fail> {
    let body = body_of(rt.alloc(), &FIELDS)?;
    let image = image_of_table(rt.alloc(), &Q35, *b"FACP", &body)?;
    let told = expect_fadt(&rt, &image);
    assert!(rt; told == Ok(()), "{told:?}");
    Ok(())
}
