//! The kinds of entries of the MADT.

ghost use Rattle.std.specs.Prelude.{◌≡◌, refl};
ghost use Rattle.std.proofs.Common.{rules, arith};
ghost use Rattle.acpi_base.specs.Madt as said;
ghost use Rattle.acpi_read.specs.Madts as layouts;

use crate::kind::FixedKind;
use acpi_base::field::{Value, put_values, u8_at, u16_at, u32_at, u64_at};

/// A processor and its local APIC (ACPI 6.5, 5.2.12.2): type 0, 8 bytes.
#[derive(Clone, Copy, Debug, PartialEq, Eq)]
pub struct LocalApic {
    /// At 2: the processor's UID.
    pub uid: u8,
    /// At 3: its local APIC's ID.
    pub apic_id: u8,
    /// At 4: bit 0 is Enabled, bit 1 Online Capable.
    pub flags: u32,
}

impl FixedKind for LocalApic {
    ghost Said = { said.LocalApicValue };

    ghost layout = { layouts.local_apic_layout };

    ghost say = { layouts.local_apic_value };

    ghost TYPE = { said.local_apic.type };

    const TYPE: u8 = 0;

    ghost SIZE = { said.local_apic.size };

    const SIZE: usize = 8;

    fn fields(bytes: &[u8]) -> LocalApic {
        LocalApic {
            uid: u8_at(bytes, 2),
            apic_id: u8_at(bytes, 3),
            flags: u32_at(bytes, 4),
        }
    }

    fn put_fields(&self, out: &mut [u8]) {
        put_values(
            out,
            &[
                Value::U8(self.uid),
                Value::U8(self.apic_id),
                Value::U32(self.flags),
            ],
        );
    }

    ghost laid = { (refl, refl, Prim.search (rules, arith), λ _ _ same. Prim.search rules) };
}

/// An I/O APIC (ACPI 6.5, 5.2.12.3): type 1, 12 bytes. Byte 3 is reserved. How many inputs it has is not in
/// the table.
#[derive(Clone, Copy, Debug, PartialEq, Eq)]
pub struct IoApic {
    /// At 2: its ID.
    pub id: u8,
    /// At 4: its physical address.
    pub address: u32,
    /// At 8: the interrupt number of its first input.
    pub gsi_base: u32,
}

impl FixedKind for IoApic {
    ghost Said = { said.IoApicValue };

    ghost layout = { layouts.io_apic_layout };

    ghost say = { layouts.io_apic_value };

    ghost TYPE = { said.io_apic.type };

    const TYPE: u8 = 1;

    ghost SIZE = { said.io_apic.size };

    const SIZE: usize = 12;

    fn fields(bytes: &[u8]) -> IoApic {
        IoApic {
            id: u8_at(bytes, 2),
            address: u32_at(bytes, 4),
            gsi_base: u32_at(bytes, 8),
        }
    }

    fn put_fields(&self, out: &mut [u8]) {
        put_values(
            out,
            &[
                Value::U8(self.id),
                Value::Zeros(1),
                Value::U32(self.address),
                Value::U32(self.gsi_base),
            ],
        );
    }

    ghost laid = { (refl, refl, Prim.search (rules, arith), λ _ _ same. Prim.search rules) };
}

/// An interrupt source override (ACPI 6.5, 5.2.12.5): type 2, 10 bytes. It gives an ISA interrupt its interrupt
/// number. Any bus and any flags are read.
#[derive(Clone, Copy, Debug, PartialEq, Eq)]
pub struct Override {
    /// At 2: 0, for ISA.
    pub bus: u8,
    /// At 3: the ISA interrupt.
    pub source: u8,
    /// At 4: the interrupt number that it is given.
    pub gsi: u32,
    /// At 8: MPS INTI flags: bits 1:0 are the polarity, bits 3:2 the trigger mode.
    pub flags: u16,
}

impl FixedKind for Override {
    ghost Said = { said.OverrideValue };

    ghost layout = { layouts.override_layout };

    ghost say = { layouts.override_value };

    ghost TYPE = { said.override.type };

    const TYPE: u8 = 2;

    ghost SIZE = { said.override.size };

    const SIZE: usize = 10;

    fn fields(bytes: &[u8]) -> Override {
        Override {
            bus: u8_at(bytes, 2),
            source: u8_at(bytes, 3),
            gsi: u32_at(bytes, 4),
            flags: u16_at(bytes, 8),
        }
    }

    fn put_fields(&self, out: &mut [u8]) {
        put_values(
            out,
            &[
                Value::U8(self.bus),
                Value::U8(self.source),
                Value::U32(self.gsi),
                Value::U16(self.flags),
            ],
        );
    }

    ghost laid = { (refl, refl, Prim.search (rules, arith), λ _ _ same. Prim.search rules) };
}

/// An NMI source (ACPI 6.5, 5.2.12.6): type 3, 8 bytes. Its interrupt number is an NMI. Any flags are read.
#[derive(Clone, Copy, Debug, PartialEq, Eq)]
pub struct NmiSource {
    /// At 2: MPS INTI flags: bits 1:0 are the polarity, bits 3:2 the trigger mode.
    pub flags: u16,
    /// At 4: the interrupt number.
    pub gsi: u32,
}

impl FixedKind for NmiSource {
    ghost Said = { said.NmiSourceValue };

    ghost layout = { layouts.nmi_source_layout };

    ghost say = { layouts.nmi_source_value };

    ghost TYPE = { said.nmi_source.type };

    const TYPE: u8 = 3;

    ghost SIZE = { said.nmi_source.size };

    const SIZE: usize = 8;

    fn fields(bytes: &[u8]) -> NmiSource {
        NmiSource {
            flags: u16_at(bytes, 2),
            gsi: u32_at(bytes, 4),
        }
    }

    fn put_fields(&self, out: &mut [u8]) {
        put_values(out, &[Value::U16(self.flags), Value::U32(self.gsi)]);
    }

    ghost laid = { (refl, refl, Prim.search (rules, arith), λ _ _ same. Prim.search rules) };
}

/// A local APIC NMI (ACPI 6.5, 5.2.12.7): type 4, 6 bytes. It says which input of a local APIC is an NMI.
/// Any flags are read.
#[derive(Clone, Copy, Debug, PartialEq, Eq)]
pub struct LocalNmi {
    /// At 2: the processor's UID; 0xFF for all processors.
    pub uid: u8,
    /// At 3: MPS INTI flags: bits 1:0 are the polarity, bits 3:2 the trigger mode.
    pub flags: u16,
    /// At 5: the input, LINT0 or LINT1.
    pub lint: u8,
}

impl FixedKind for LocalNmi {
    ghost Said = { said.LocalNmiValue };

    ghost layout = { layouts.local_nmi_layout };

    ghost say = { layouts.local_nmi_value };

    ghost TYPE = { said.local_nmi.type };

    const TYPE: u8 = 4;

    ghost SIZE = { said.local_nmi.size };

    const SIZE: usize = 6;

    fn fields(bytes: &[u8]) -> LocalNmi {
        LocalNmi {
            uid: u8_at(bytes, 2),
            flags: u16_at(bytes, 3),
            lint: u8_at(bytes, 5),
        }
    }

    fn put_fields(&self, out: &mut [u8]) {
        put_values(
            out,
            &[
                Value::U8(self.uid),
                Value::U16(self.flags),
                Value::U8(self.lint),
            ],
        );
    }

    ghost laid = { (refl, refl, Prim.search (rules, arith), λ _ _ same. Prim.search rules) };
}

/// A local APIC address override (ACPI 6.5, 5.2.12.8): type 5, 12 bytes. Its address replaces the 32-bit one in the
/// MADT. Bytes 2 and 3 are reserved.
#[derive(Clone, Copy, Debug, PartialEq, Eq)]
pub struct AddressOverride {
    /// At 4: the physical address of the local APICs.
    pub address: u64,
}

impl FixedKind for AddressOverride {
    ghost Said = { said.AddressOverrideValue };

    ghost layout = { layouts.address_override_layout };

    ghost say = { layouts.address_override_value };

    ghost TYPE = { said.address_override.type };

    const TYPE: u8 = 5;

    ghost SIZE = { said.address_override.size };

    const SIZE: usize = 12;

    fn fields(bytes: &[u8]) -> AddressOverride {
        AddressOverride {
            address: u64_at(bytes, 4),
        }
    }

    fn put_fields(&self, out: &mut [u8]) {
        put_values(out, &[Value::Zeros(2), Value::U64(self.address)]);
    }

    ghost laid = { (refl, refl, Prim.search (rules, arith), λ _ _ same. Prim.search rules) };
}

/// A processor and its local x2APIC (ACPI 6.5, 5.2.12.12): type 9, 16 bytes. Bytes 2 and 3 are reserved.
#[derive(Clone, Copy, Debug, PartialEq, Eq)]
pub struct X2apic {
    /// At 4: its local x2APIC's ID.
    pub x2apic_id: u32,
    /// At 8: bit 0 is Enabled, bit 1 Online Capable.
    pub flags: u32,
    /// At 12: the processor's UID.
    pub uid: u32,
}

impl FixedKind for X2apic {
    ghost Said = { said.X2apicValue };

    ghost layout = { layouts.x2apic_layout };

    ghost say = { layouts.x2apic_value };

    ghost TYPE = { said.x2apic.type };

    const TYPE: u8 = 9;

    ghost SIZE = { said.x2apic.size };

    const SIZE: usize = 16;

    fn fields(bytes: &[u8]) -> X2apic {
        X2apic {
            x2apic_id: u32_at(bytes, 4),
            flags: u32_at(bytes, 8),
            uid: u32_at(bytes, 12),
        }
    }

    fn put_fields(&self, out: &mut [u8]) {
        put_values(
            out,
            &[
                Value::Zeros(2),
                Value::U32(self.x2apic_id),
                Value::U32(self.flags),
                Value::U32(self.uid),
            ],
        );
    }

    ghost laid = { (refl, refl, Prim.search (rules, arith), λ _ _ same. Prim.search rules) };
}

/// A local x2APIC NMI (ACPI 6.5, 5.2.12.13): type 0x0A, 12 bytes. It says which input of a local x2APIC is an NMI.
/// Any flags are read. Bytes 9 to 11 are reserved.
#[derive(Clone, Copy, Debug, PartialEq, Eq)]
pub struct X2apicNmi {
    /// At 2: MPS INTI flags: bits 1:0 are the polarity, bits 3:2 the trigger mode.
    pub flags: u16,
    /// At 4: the processor's UID; 0xFFFFFFFF for all processors.
    pub uid: u32,
    /// At 8: the input, LINT0 or LINT1.
    pub lint: u8,
}

impl FixedKind for X2apicNmi {
    ghost Said = { said.X2apicNmiValue };

    ghost layout = { layouts.x2apic_nmi_layout };

    ghost say = { layouts.x2apic_nmi_value };

    ghost TYPE = { said.x2apic_nmi.type };

    const TYPE: u8 = 10;

    ghost SIZE = { said.x2apic_nmi.size };

    const SIZE: usize = 12;

    fn fields(bytes: &[u8]) -> X2apicNmi {
        X2apicNmi {
            flags: u16_at(bytes, 2),
            uid: u32_at(bytes, 4),
            lint: u8_at(bytes, 8),
        }
    }

    fn put_fields(&self, out: &mut [u8]) {
        put_values(
            out,
            &[
                Value::U16(self.flags),
                Value::U32(self.uid),
                Value::U8(self.lint),
                Value::Zeros(3),
            ],
        );
    }

    ghost laid = { (refl, refl, Prim.search (rules, arith), λ _ _ same. Prim.search rules) };
}
