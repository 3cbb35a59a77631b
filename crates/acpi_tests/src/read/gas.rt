//! Tests of generic addresses.

use crate::samples::expect_layout;
use acpi_read::{Gas, Layout};
use std::test::*;

#[test]
fn gas_is_read_and_written(rt: HostRuntime) {
    let gas = Gas {
        space: 0xa1,
        bit_width: 0xb1,
        bit_offset: 0xc1,
        access_size: 0xd1,
        address: 0xe8e7_e6e5_e4e3_e2e1,
    };
    let bytes = [
        0xa1, 0xb1, 0xc1, 0xd1, 0xe1, 0xe2, 0xe3, 0xe4, 0xe5, 0xe6, 0xe7, 0xe8,
    ];
    expect_layout(&rt, gas, &bytes);
    assert!(rt; Gas::read(&[0xa1; 13]).is_none());
    assert!(rt; Gas::read(&bytes[..11]).is_none());
}
