//! Tests of the contents of a set.

use crate::samples::{policy, reduced_body, set_of_fadt};
use acpi_base::{Code, Image, PolicyFault, Witness};
use acpi_write::{SetValue, TableValue, ValuesFault, values};
use std::alloc::Global;
use std::test::Fail;

/// Why an empty image has no value, if it is refused.
fn fault_of_nothing(alloc: Global) -> Result<Option<ValuesFault>, PolicyFault> {
    let policy = policy(alloc)?;
    Ok(values(alloc, &Image::new(alloc), &policy).err())
}

#[test]
fn an_image_of_nothing(rt: HostRuntime) -> Result<(), Fail> {
    let fault = fault_of_nothing(rt.alloc())?;
    assert!(rt; matches!(fault, Some(ValuesFault::NotClean(_))));
    Ok(())
}

/// Whether the value is that of a set with only a FADT.
fn is_of_a_fadt(value: &SetValue<'_>) -> bool {
    value.oemid == *b"AAAAAA"
        && value.facs.is_none()
        && matches!(value.tables.as_slice(), [TableValue::Fadt { .. }])
}

#[test]
fn a_set_of_a_fadt(rt: HostRuntime) -> Result<(), Fail> {
    let policy = policy(rt.alloc())?;
    let image = set_of_fadt(rt.alloc(), &reduced_body())?;
    let value = values(rt.alloc(), &image, &policy)?;
    assert!(rt; is_of_a_fadt(&value));
    Ok(())
}

#[test]
fn texts_of_faults(rt: HostRuntime) -> Result<(), Fail> {
    let no_fadt = Witness::at(Code::NoFadt, 0);
    let texts = [
        (ValuesFault::NotClean(no_fadt), "the set is not clean"),
        (ValuesFault::Memory, "out of memory"),
    ];
    for (fault, wanted) in &texts {
        let text = fault.to_string(rt.alloc())?;
        assert!(rt; text.as_str() == *wanted, "{text}");
    }
    Ok(())
}
