//! Examples of the definitions, proved by computing: the contract of each function is a group of them, and its body is
//! empty.

ghost use Rattle.acpi_base.specs.Memory.{IsImage};
ghost use Rattle.acpi_base.specs.Policy.{PolicyValue, IsPolicy};
ghost use Rattle.acpi_base.specs.Statements.{IsClean};
ghost use Rattle.acpi_write.specs.Rebuilding.{IsRebuilt};
ghost use Rattle.acpi_write.specs.SetValues.{IsSetValue};
ghost use Rattle.acpi_examples.specs.AdviceDevices.{AreDevicesAdvised};
ghost use Rattle.acpi_examples.specs.AdviceFadt.{IsFadtAdvised};
ghost use Rattle.acpi_examples.specs.AdviceFadtFields.{AreFadtFieldsAdvised};
ghost use Rattle.acpi_examples.specs.AdviceGic.{IsGicAdvised};
ghost use Rattle.acpi_examples.specs.AdviceHierarchy.{IsHierarchyAdvised};
ghost use Rattle.acpi_examples.specs.AdviceRanges.{AreRangesAdvised};
ghost use Rattle.acpi_examples.specs.AdviceSet.{AreSetsAdvised};
ghost use Rattle.acpi_examples.specs.AdviceSlit.{IsSlitAdvised};
ghost use Rattle.acpi_examples.specs.AdviceSlots.{AreSlotsAdvised};
ghost use Rattle.acpi_examples.specs.AlteredSets.{AreRsdpFaults, AreRootFaults, AreTableFaults, AreFadtFaults, AreFacsFaults};
ghost use Rattle.acpi_examples.specs.Madts.{AreMadtContents, AreMadtFaults, IsFirstInterrupt, HasNoMadtFault};
ghost use Rattle.acpi_examples.specs.Pptts.{ArePpttContents, ArePpttFaults, AreCycleFaults, HasNoPpttFault};
ghost use Rattle.acpi_examples.specs.Rows.{AreRowsFound};
ghost use Rattle.acpi_examples.specs.Sets.{AreListedTables, AreSetFaults};
ghost use Rattle.acpi_examples.specs.Slits.{AreSlitContents, AreSlitFaults, AreValidSlits};
ghost use Rattle.acpi_examples.specs.Srats.{AreSratContents, AreSratFaults, AreFirstOverlaps, HasNoSratFault};
ghost use Rattle.acpi_examples.specs.ExampleSet.{example_set, example_policy};
ghost use Rattle.acpi_examples.specs.RebuiltSets.{example_value, new_base, new_image};

/// Examples of the MADT and the SRAT: the contents of small tables, a fault of each code, which overlap is reported,
/// and that valid tables have no fault.
pub fn madt_and_srat_examples()
    ensures madt { AreMadtContents }
    ensures srat { AreSratContents }
    ensures madt_faults { (q : PolicyValue) → AreMadtFaults q }
    ensures srat_faults { AreSratFaults }
    ensures first_interrupt { (q : PolicyValue) → IsFirstInterrupt q }
    ensures first_overlaps { AreFirstOverlaps }
    ensures valid_madt { (q : PolicyValue) → HasNoMadtFault q }
    ensures valid_srat { HasNoSratFault }
{}

/// Examples of the SLIT and the PPTT: the contents of small tables, a fault of each code, and that valid tables have
/// no fault.
pub fn slit_and_pptt_examples()
    ensures slit { AreSlitContents }
    ensures slit_faults { AreSlitFaults }
    ensures valid_slit { AreValidSlits }
    ensures pptt { ArePpttContents }
    ensures pptt_faults { ArePpttFaults }
    ensures cycles { AreCycleFaults }
    ensures valid_pptt { HasNoPpttFault }
{}

/// Examples of complete sets, as images: which tables their root tables list, and a fault of each stage that compares
/// tables.
pub fn set_examples()
    ensures listed { AreListedTables }
    ensures faults { AreSetFaults }
{}

/// An example of a clean set: an image with one table of each kind that is read, for which every stage holds.
pub fn clean_set_example()
    ensures image { IsImage example_set }
    ensures policy { IsPolicy example_policy }
    ensures clean { IsClean example_set example_policy }
{}

/// Examples of the faults of the first five stages, one of each code: the clean set with one byte changed or missing.
pub fn altered_set_examples()
    ensures rsdp_faults { AreRsdpFaults }
    ensures root_faults { AreRootFaults }
    ensures table_faults { AreTableFaults }
    ensures fadt_faults { AreFadtFaults }
    ensures facs_faults { AreFacsFaults }
{}

/// Examples of advice: for each rule, some small tables that break it, with the three numbers, and similar ones that
/// do not.
pub fn advice_examples()
    ensures slots { AreSlotsAdvised }
    ensures sets { AreSetsAdvised }
    ensures fadt { (q : PolicyValue) → IsFadtAdvised q }
    ensures fadt_fields { AreFadtFieldsAdvised }
    ensures slit { IsSlitAdvised }
    ensures hierarchy { IsHierarchyAdvised }
    ensures gic { IsGicAdvised }
    ensures ranges { AreRangesAdvised }
    ensures devices { (q : PolicyValue) → AreDevicesAdvised q }
    ensures rows { AreRowsFound }
{}

/// An example: the value of that clean set, and its rebuilt image from 0xF0000 on, byte by byte.
pub fn rebuilt_set_example()
    ensures value { IsSetValue example_set example_policy.rsdp example_value }
    ensures rebuilt { IsRebuilt example_set example_policy new_base new_image }
{}
