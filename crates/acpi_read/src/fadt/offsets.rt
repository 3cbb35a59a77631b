//! The offsets of the fields of a FADT that are read by name (ACPI 6.5, table 5.9).

pub const FIRMWARE_CTRL: usize = 36;

pub const DSDT: usize = 40;

pub const PM1A_EVT_BLK: usize = 56;

pub const PM1_EVT_LEN: usize = 88;

pub const PM1_CNT_LEN: usize = 89;

pub const PM2_CNT_LEN: usize = 90;

pub const PM_TMR_LEN: usize = 91;

pub const GPE0_BLK_LEN: usize = 92;

pub const GPE1_BLK_LEN: usize = 93;

pub const FLAGS: usize = 112;

pub const RESET_REG: usize = 116;

pub const RESET_VALUE: usize = 128;

pub const X_FIRMWARE_CTRL: usize = 132;

pub const X_DSDT: usize = 140;

pub const X_PM1A_EVT_BLK: usize = 148;
