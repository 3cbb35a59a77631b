//! The fields of the FADT (ACPI 6.5, 5.2.9), by the standard's names. Those of a generic address structure follow its name.

use acpi_rules::Field;

pub const FIRMWARE_CTRL: Field = field!(36, 4);

pub const DSDT: Field = field!(40, 4);

pub const RESERVED_44: Field = field!(44, 1);

pub const PREFERRED_PM_PROFILE: Field = field!(45, 1);

pub const SCI_INT: Field = field!(46, 2);

pub const SMI_CMD: Field = field!(48, 4);

pub const ACPI_ENABLE: Field = field!(52, 1);

pub const ACPI_DISABLE: Field = field!(53, 1);

pub const S4BIOS_REQ: Field = field!(54, 1);

pub const PSTATE_CNT: Field = field!(55, 1);

pub const PM1A_EVT_BLK: Field = field!(56, 4);

pub const PM1B_EVT_BLK: Field = field!(60, 4);

pub const PM1A_CNT_BLK: Field = field!(64, 4);

pub const PM1B_CNT_BLK: Field = field!(68, 4);

pub const PM2_CNT_BLK: Field = field!(72, 4);

pub const PM_TMR_BLK: Field = field!(76, 4);

pub const GPE0_BLK: Field = field!(80, 4);

pub const GPE1_BLK: Field = field!(84, 4);

pub const PM1_EVT_LEN: Field = field!(88, 1);

pub const PM1_CNT_LEN: Field = field!(89, 1);

pub const PM2_CNT_LEN: Field = field!(90, 1);

pub const PM_TMR_LEN: Field = field!(91, 1);

pub const GPE0_BLK_LEN: Field = field!(92, 1);

pub const GPE1_BLK_LEN: Field = field!(93, 1);

pub const GPE1_BASE: Field = field!(94, 1);

pub const CST_CNT: Field = field!(95, 1);

pub const RESERVED_111: Field = field!(111, 1);

pub const FLAGS: Field = field!(112, 4);

/// Its bits 31:16.
pub const FLAGS_31_16: Field = field!(114, 2);

pub const RESET_REG_ADDRESS: Field = field!(120, 8);

pub const ARM_BOOT_ARCH: Field = field!(129, 2);

pub const MINOR_VERSION: Field = field!(131, 1);

pub const X_FIRMWARE_CTRL: Field = field!(132, 8);

pub const X_DSDT: Field = field!(140, 8);

pub const X_PM1A_EVT_SPACE: Field = field!(148, 1);

pub const X_PM1A_EVT_WIDTH: Field = field!(149, 1);

pub const X_PM1A_EVT_ADDRESS: Field = field!(152, 8);

pub const X_PM1B_EVT_SPACE: Field = field!(160, 1);

pub const X_PM1B_EVT_WIDTH: Field = field!(161, 1);

pub const X_PM1B_EVT_ADDRESS: Field = field!(164, 8);

pub const X_PM1A_CNT_SPACE: Field = field!(172, 1);

pub const X_PM1A_CNT_WIDTH: Field = field!(173, 1);

pub const X_PM1A_CNT_ADDRESS: Field = field!(176, 8);

pub const X_PM1B_CNT_SPACE: Field = field!(184, 1);

pub const X_PM1B_CNT_WIDTH: Field = field!(185, 1);

pub const X_PM1B_CNT_ADDRESS: Field = field!(188, 8);

pub const X_PM2_CNT_SPACE: Field = field!(196, 1);

pub const X_PM2_CNT_WIDTH: Field = field!(197, 1);

pub const X_PM2_CNT_ADDRESS: Field = field!(200, 8);

pub const X_PM_TMR_SPACE: Field = field!(208, 1);

pub const X_PM_TMR_WIDTH: Field = field!(209, 1);

pub const X_PM_TMR_ADDRESS: Field = field!(212, 8);

pub const X_GPE0_SPACE: Field = field!(220, 1);

pub const X_GPE0_WIDTH: Field = field!(221, 1);

pub const X_GPE0_ADDRESS: Field = field!(224, 8);

pub const X_GPE1_SPACE: Field = field!(232, 1);

pub const X_GPE1_WIDTH: Field = field!(233, 1);

pub const X_GPE1_ADDRESS: Field = field!(236, 8);

pub const SLEEP_CONTROL_WIDTH: Field = field!(245, 1);

pub const SLEEP_CONTROL_OFFSET: Field = field!(246, 1);

pub const SLEEP_CONTROL_ADDRESS: Field = field!(248, 8);

pub const SLEEP_STATUS_WIDTH: Field = field!(257, 1);

pub const SLEEP_STATUS_OFFSET: Field = field!(258, 1);

pub const SLEEP_STATUS_ADDRESS: Field = field!(260, 8);
