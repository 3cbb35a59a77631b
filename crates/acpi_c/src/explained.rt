//! What docs/FAULTS.md says of the codes and the rules. scripts/lists.py writes this file.

use crate::meaning::Severity;
use acpi_base::Code;
use acpi_lint::Rule;

/// What is wrong and how it is mended, of each code by its number, one text after another.
pub const CODE_TEXTS: &str = "\
    Wrong: the 20 bytes at the RSDP's address are not all in the image.\nFix: first make sure that the image is complete and the address right. Then check that the firmware writes an RSDP there.\
    Wrong: the first 8 bytes are not `RSD PTR ` (the last character is a space).\nFix: check the address; then write the signature.\
    Wrong: the first 20 bytes do not sum to 0 modulo 256.\nFix: set Checksum at 8 after all other fields of the first 20 bytes, and before Extended Checksum.\
    Wrong: Revision is 2 or more, but the 36 bytes are not all in the image.\nFix: first make sure that the image is complete. Then reserve and write all 36 bytes, or set Revision to 0 and provide an RSDT.\
    Wrong: Revision is 2 or more, and Length at 20 is below 36.\nFix: set Length to 36, then set Extended Checksum. Checksum at 8 does not cover Length.\
    Wrong: Revision is 2 or more and Length is at least 36, but not all Length bytes are in the image.\nFix: first make sure that the image is complete. Then set Length to 36, and Extended Checksum after it.\
    Wrong: Revision is 2 or more, Length is at least 36, the image holds the Length bytes, and they do not sum to 0 modulo 256.\nFix: set Extended Checksum at 32 after all other fields, Checksum at 8 included.\
    Wrong: the RSDP names neither an RSDT nor an XSDT. With a Revision below 2 only RsdtAddress counts.\nFix: write the address of the XSDT or RSDT. An XSDT needs an RSDP of Revision 2.\
    Wrong: the 36-byte header of the XSDT or RSDT is not all in the image.\nFix: first make sure that the image is complete: does it contain the memory at this address? Then check the address in the RSDP.\
    Wrong: the table at XsdtAddress does not begin with `XSDT`, or the one at RsdtAddress, if that is used, not with `RSDT`.\nFix: write each address into its own field: the RSDT's at 16, the XSDT's at 24.\
    Wrong: Length of the XSDT or RSDT is below 36, the size of its header.\nFix: set Length to 36 plus the number of slots times their width, then set Checksum.\
    Wrong: Length of the XSDT or RSDT is at least 36, but not all Length bytes are in the image.\nFix: first make sure that the image is complete. Then as for RootLength.\
    Wrong: Length is at least 36, but Length - 36 is not a multiple of the width of a slot (4 in an RSDT, 8 in an XSDT).\nFix: as for RootLength. An XSDT that was filled with an odd number of 4-byte slots has this fault too.\
    Wrong: Length is at least 36, the image holds the Length bytes of the XSDT or RSDT, and they do not sum to 0 modulo 256.\nFix: set Checksum at 9 after the last slot is written. Adding a slot changes the checksum.\
    Wrong: the table's 36-byte header is not all in the image.\nFix: first make sure that the image is complete: does it contain this table's memory? Then remove the slot, or write the table before the slot.\
    Wrong: the table's Length is below 36, the size of its header.\nFix: set Length to the size of the table, header included, then set Checksum.\
    Wrong: Length is at least 36, but not all Length bytes are in the image.\nFix: first make sure that the image is complete. Then correct Length.\
    Wrong: the table's Length is at least 36, the image holds its Length bytes, and they do not sum to 0 modulo 256.\nFix: set Checksum at 9 after every other byte, and again after each change at run time. If Length was changed by mistake, correct Length instead.\
    Wrong: no slot lists a table with the signature `FACP`.\nFix: list the FADT. Its signature is `FACP`, not `FADT`.\
    Wrong: the FADT's Length is below 116, so the table ends before the end of Flags at 112.\nFix: write the FADT at least up to and including Flags, and set Length. The FADT of ACPI 6.5 has 276 bytes.\
    Wrong: the hardware is not reduced, and PM1_EVT_LEN is below 4.\nFix: set PM1_EVT_LEN to 4, or set HW_REDUCED_ACPI if the machine has no such registers.\
    Wrong: the hardware is not reduced, and PM1_CNT_LEN is below 2.\nFix: set PM1_CNT_LEN to 2, or set HW_REDUCED_ACPI if the machine has no such registers.\
    Wrong: the hardware is not reduced, and PM_TMR_LEN is neither 0 nor 4.\nFix: set PM_TMR_LEN to 4 if there is a timer, else to 0.\
    Wrong: the hardware is not reduced, and the length of a GPE block is odd.\nFix: set the length to twice the number of status bytes.\
    Wrong: RESET_REG_SUP is set and Length is at least 129, but RESET_REG has an address space above 2, a bit width other than 8, or a bit offset other than 0.\nFix: describe an 8-bit register in system memory, system I/O or PCI configuration space, or clear RESET_REG_SUP.\
    Wrong: the hardware is not reduced, and the FADT names no FACS: both FIRMWARE_CTRL and, if the table has it, X_FIRMWARE_CTRL are 0.\nFix: write the FACS's address into one of the two fields, or set HW_REDUCED_ACPI if the hardware is reduced.\
    Wrong: the FACS's address is not a multiple of 64.\nFix: allocate the FACS at a multiple of 64.\
    Wrong: the first 8 bytes at the FACS's address are not all in the image.\nFix: first make sure that the image is complete: the FACS is usually in other memory than the tables. Then check the address in the FADT: X_FIRMWARE_CTRL is used if the table has it and it is not 0, else FIRMWARE_CTRL.\
    Wrong: the first 4 bytes at the FACS's address are not `FACS`.\nFix: as for FacsHeaderOut.\
    Wrong: the FACS's Length is below 64.\nFix: set Length to 64. The FACS has no checksum.\
    Wrong: Length is at least 64, but not all Length bytes are in the image.\nFix: first make sure that the image is complete. Then correct Length.\
    Wrong: the MADT's Length is below 44, so it ends within its fixed fields.\nFix: write all of the fixed part, 44 bytes, and set Length to its size and that of all structures.\
    Wrong: after the last structure there are bytes that are not a structure: a single byte, a length of 0 or 1, or a length that goes past the end of the table.\nFix: correct the structure's length byte, or the table's Length. Often the structure before it is the wrong one: if its length byte is too small or too large, the walk continues in the wrong place.\
    Wrong: a structure of type 0 to 5, 9 or 10 does not have the length of its type (8, 12, 10, 8, 6, 12, 16, 12).\nFix: set byte 1 to the length of the type, and give the structure that many bytes. If the type looks wrong too, the length byte of the structure before it may be the wrong one.\
    Wrong: Bus of an interrupt source override is not 0. 0 is the ISA bus, the only one that is defined (5.2.12.5).\nFix: set Bus, byte 2 of the structure, to 0. Source is byte 3.\
    Wrong: the flags of an interrupt have the reserved value 10b as polarity, bits 1:0, or as trigger mode, bits 3:2. The structure is an interrupt source override, an NMI source, or an NMI of a local APIC or x2APIC.\nFix: 00b means as the bus specifies; 01b is active high or edge-triggered, 11b active low or level-triggered.\
    Wrong: there is a second structure that overrides the address of the local APICs. One whose Length is not 12 is another fault, and does not count here.\nFix: keep one.\
    Wrong: Global System Interrupt Base of an I/O APIC plus its number of inputs is more than 0x100000000, 2^32.\nFix: correct the base. No ACPI table says how many inputs an I/O APIC has, and `acpiset` assumes 24. If the base is right, give it the real number, as `ADDRESS=COUNT` or with `--default-inputs`.\
    Wrong: two I/O APICs serve the same interrupt number.\nFix: correct a Global System Interrupt Base: each I/O APIC begins where the one before it ends. If both are right, give `acpiset` the real numbers of inputs, as `ADDRESS=COUNT` or with `--default-inputs`.\
    Wrong: two interrupt source overrides give different interrupt numbers for the same Source.\nFix: keep one override for each Source.\
    Wrong: the SRAT's Length is below 48, so it ends within its reserved bytes.\nFix: write the header and the 12 reserved bytes, 48 bytes in all, and set Length to their size and that of all structures.\
    Wrong: after the last structure there are bytes that are not a structure: a single byte, a length of 0 or 1, or a length that goes past the end of the table.\nFix: correct the structure's length byte, or the table's Length. Often the structure before it is the wrong one: if its length byte is too small or too large, the walk continues in the wrong place.\
    Wrong: a structure of type 0, 1 or 2 does not have the length of its type (16, 40, 24).\nFix: set byte 1 to the length of the type, and give the structure that many bytes, including the reserved ones at its end. If the type looks wrong too, the length byte of the structure before it may be the wrong one.\
    Wrong: an enabled memory range goes past the end of the address space: Base Address plus Length is more than 2^64.\nFix: correct Base Address or Length. Length is a size in bytes, not the last address. In a structure that is not in use clear Enabled, bit 0 of its flags.\
    Wrong: two enabled memory ranges overlap.\nFix: make each range begin where the one before it ends, and list no memory twice.\
    Wrong: the SLIT's Length is below 44, so it ends before the end of N.\nFix: write N and the N * N distances that follow it, and set Length to include them all.\
    Wrong: Length is not 44 + N * N.\nFix: correct N, or write all N rows of N bytes; then set Length. N has 8 bytes: check that the upper four are 0.\
    Wrong: the distance from a locality to itself is not 10.\nFix: write 10 (0x0a) at 44 + N * i + i for each i. If many are wrong, check that each row has N bytes.\
    Wrong: a distance is below 10. The values 0 to 9 are reserved.\nFix: scale the distances so that 10 is local memory; 255 means that there is no connection.\
    Wrong: after the last structure there are bytes that are not a structure: a single byte, a length of 0 or 1, or a length that goes past the end of the table.\nFix: correct the structure's length byte, or the table's Length. Often the structure before it is the wrong one: if its length byte is too small or too large, the walk continues in the wrong place.\
    Wrong: the length of a node, type 0, is not 20 plus 4 for each private resource, whose number is at 16; or that of a cache, type 1, is neither 24 nor 28.\nFix: set byte 1 to the length. It is at most 255, so a node has at most 58 private resources. If the type looks wrong too, the length byte of the structure before it may be the wrong one.\
    Wrong: Parent of a node is not 0, and no node begins at it. A structure of type 0 with another Length than a node's is not a node.\nFix: write the offset of the parent's structure from the table's start, or 0 in a top node. If a structure is added or removed, all offsets after it change.\
    Wrong: no structure begins at a private resource of a node, or a node does. 0 is not a valid offset either: a node without private resources has 0 as their number.\nFix: write the offset of the cache's structure, or reduce the number of private resources and the structure's length.\
    Wrong: Next Level of Cache of a cache is not 0, and no cache begins at it. A structure of type 1 whose Length is not that of a cache is no cache.\nFix: write the offset of the next level's structure from the table's start, or 0 in the last level.\
    Wrong: the Parents of a node, followed from one node to the next, form a cycle instead of ending at a top node.\nFix: follow the Parents from the node at `at`, and set that of the top node to 0. A node that names itself is a cycle of 1.\
    Wrong: the Next Levels of a cache, followed from one cache to the next, form a cycle instead of ending.\nFix: set Next Level of Cache to 0 in the last cache, the one nearest to memory.\
    Wrong: two enabled structures of the SRAT assign one processor to different proximity domains, and this processor is enabled in the MADT.\nFix: keep one structure for each processor. Types 0 and 2 describe the same processors: an APIC ID below 255 and the same X2APIC ID are one processor. Bits 31:8 of the domain in a structure of type 0 are at 9.\
    Wrong: an interrupt source override or an NMI source of the MADT uses an interrupt number that no I/O APIC serves, although the MADT has an I/O APIC.\nFix: correct the number in the structure, or the I/O APIC's Global System Interrupt Base. If both are right, give `acpiset` the I/O APIC's number of inputs, as `ADDRESS=COUNT` or with `--default-inputs`.\
    Wrong: a node of the PPTT is a leaf with a valid ACPI Processor ID (bits 3 and 1 of its flags), and no processor of the MADT, enabled or not, has this UID.\nFix: write the ACPI Processor UID of the processor's MADT structure into the node, not its APIC ID. Clear bit 3 in a node that is not a leaf.";

/// The offsets in bytes where these begin, and where the last one ends.
pub const CODE_STARTS: [u32; Code::COUNT + 1] = [
    0, 189, 315, 467, 667, 814, 1016, 1220, 1400, 1599, 1799, 1954, 2119, 2338, 2549, 2751, 2891,
    3033, 3291, 3403, 3599, 3750, 3901, 4028, 4158, 4426, 4666, 4760, 5051, 5140, 5226, 5368, 5540,
    5895, 6182, 6356, 6678, 6844, 7147, 7405, 7536, 7734, 8089, 8393, 8662, 8786, 8944, 9089, 9248,
    9402, 9757, 10098, 10385, 10666, 10911, 11146, 11329, 11676, 12029, 12326,
];

/// What is found and how it is mended, of each rule by its number, one text after another.
pub const RULE_TEXTS: &str = "\
    Found: a slot holds the same address as an earlier slot. Slots that hold 0 are not compared.\nFix: remove the slot, and reduce Length by its width. Look for firmware code that installs its table each time it runs.\
    Found: a slot lists a FADT, MADT, SRAT, SLIT or PPTT, and an earlier slot lists a table with the same signature at another address (5.2). A table counts if its header, 36 bytes, is in the image.\nFix: list one table of each kind. Code that replaces a table has to replace its slot instead of adding one.\
    Found: a slot lists a DSDT or a FACS. These two are not listed in the XSDT or RSDT: the FADT holds their addresses (5.2.9).\nFix: remove the slot. If the FADT does not have the table's address, write it there.\
    Found: the FADT is shorter than the fields of its Revision: fewer than 244 bytes at Revision 3 or 4, 268 at 5, 276 from 6 on.\nFix: write all fields of the Revision, with 0 in those that are not used, and set Length; or set the Revision to that of the fields.\
    Found: FIRMWARE_CTRL and X_FIRMWARE_CTRL exist, neither is 0, and they differ.\nFix: write the address of the one FACS to both fields, or 0 to one of them. Only X_FIRMWARE_CTRL can hold an address of 0x100000000 or above.\
    Found: DSDT and X_DSDT exist, neither is 0, and they differ.\nFix: write the same address to both fields, or 0 to one of them. Code that moves or patches the DSDT has to update both.\
    Found: the hardware is not reduced, and a register block's 4-byte address and the address in its X_ structure both exist, neither is 0, and they differ. The X_ structure's address space is 1, system I/O.\nFix: write the same port to both, or 0 to one of them. The block's length byte, from 88 on, and the structure's bit width should agree too.\
    Found: the hardware is not reduced, the MADT has I/O APICs, and none of them serves the interrupt number of the SCI. That number is given by the first interrupt source override of bus 0 with SCI_INT as its Source (5.2.12.5); without one it is SCI_INT itself. Applies only if the MADT is well-formed.\nFix: correct SCI_INT, the override, or an I/O APIC's Global System Interrupt Base. If all are right, give `acpiset` the I/O APIC's number of inputs, as `ADDRESS=COUNT` or with `--default-inputs`.\
    Found: a usable processor has the ACPI Processor UID of an earlier usable one.\nFix: give each processor a UID of its own, the one that `_UID` of its object returns.\
    Found: a usable processor has the APIC ID, X2APIC ID or core ID of an earlier usable one.\nFix: write the ID that the processor has. List each processor once, as a local APIC or as a local x2APIC, but not as both.\
    Found: the I/O APIC Address of an I/O APIC is 0 (5.2.12.3).\nFix: write the address, or remove the structure if the machine does not have this I/O APIC.\
    Found: an I/O APIC has the I/O APIC ID of an earlier one (5.2.12.3).\nFix: give each I/O APIC an ID of its own, and use it in the MADT, in the I/O APIC's ID register, and in DMAR or IVRS.\
    Found: an I/O APIC has the I/O APIC Address of an earlier one, other than 0 (5.2.12.3).\nFix: write the second one's own address, or remove its structure.\
    Found: a Local APIC NMI (5.2.12.7) or Local x2APIC NMI (5.2.12.13) names a UID that no processor has, usable or not. 0xff in the first kind and 0xffffffff in the second mean all processors. Applies only if all processors are read and the MADT is well-formed.\nFix: write the processor's UID, not its APIC ID, or the value for all processors. In type 10 that value has 4 bytes: 0xff there is the UID 255.\
    Found: the MADT has a second GIC Distributor structure (5.2.12.15), type 12, of any length.\nFix: keep the structure of the distributor that the machine has. GIC MSI frames, redistributors and ITSs have types of their own: 13, 14 and 15.\
    Found: the MADT has no usable processor. Applies only if all processors are read and the MADT is well-formed.\nFix: write a structure for each processor, and set Enabled in its flags.\
    Found: two affinities of types 3 and 7 assign the same ACPI Processor UID to different proximity domains (5.2.16.4). For processors with an APIC ID this is the fault TwoDomains.\nFix: keep one affinity for each UID.\
    Found: no processor of the MADT, usable or not, has the APIC ID or X2APIC ID that an affinity names, or the UID that an affinity of type 3 or 7 names. Applies only if all processors are read and the MADT is well-formed.\nFix: write the number that the processor has in the MADT: the APIC ID, X2APIC ID or core ID, not the UID; in an affinity of a GICC or an RINTC the UID, not the MPIDR or the hart ID. In an affinity for a processor that does not exist, clear Enabled.\
    Found: a usable processor of the MADT is named by no affinity, although the SRAT has affinities: neither by its APIC ID, X2APIC ID or core ID, nor, if it has none of these, by its UID. Applies only if all processors are read and the SRAT is well-formed.\nFix: write an affinity for each processor of the MADT, and set Enabled in it.\
    Found: the proximity domain of an affinity, of an ITS (type 4), of an enabled initiator or port (types 5 and 6), or of an enabled memory range of any length, is N or above, where N is the SLIT's number of localities (5.2.17).\nFix: number the domains from 0 without gaps, and give each a row and a column in the SLIT. Bits 31:8 of the domain in a structure of type 0 are at 9.\
    Found: the distance from locality i to locality j is not the distance from j to i.\nFix: write the same value to both cells, unless the two directions really differ. If many cells differ, check that each row has N bytes.\
    Found: a leaf has the ACPI Processor ID of an earlier leaf (5.2.30.1).\nFix: write to each leaf the ACPI Processor UID of its own processor in the MADT.\
    Found: a cache's flags say that its Number of Sets is valid, bit 1, and it is 0; or that its Line Size is valid, bit 6, and it is not a power of two (5.2.30.2).\nFix: write the number of sets and the line size in bytes, or clear the bit that says that the field is valid. Do not copy the fields of Arm's CCSIDR_EL1: they hold the number of sets minus 1, and the line size as a logarithm.\
    Found: the PPTT's Revision is 3 or more, and a cache with a valid Cache ID, bit 7 of its flags, has that of an earlier one (5.2.30.2).\nFix: give each cache of the table a Cache ID of its own, across all levels. Nodes that share a cache have to refer to the same structure.\
    Found: a usable processor of the MADT has a UID that no leaf of the PPTT has, although the PPTT has nodes. Applies only if all processors are read and the PPTT is well-formed.\nFix: write a leaf for each processor of the MADT, with its ACPI Processor UID, and set bits 1 and 3 of the leaf's flags.\
    Found: the MADT has a processor of type 11, 17 or 24, and no processor, usable or not, has the ACPI Processor ID of a leaf as its UID. Applies only if all processors are read and the MADT is well-formed. For a MADT with types 0 to 5, 9 and 10 only, this is the fault LeafUnknown.\nFix: write the ACPI Processor UID: of a GICC at 8, not its CPU Interface Number at 4 or its MPIDR at 68; of an RINTC at 16, not its hart ID at 8; of a CORE PIC at 3, not its core ID at 7.\
    Found: the MADT has a structure of a type or length that is not read: of types 6 to 8, or from 28 on; or of another length than 40 or more (type 11), 24 (12, 13), 16 (14, 25), 20 (15), 16 or 24 (16), 15 (17), 23 (18), 21 (19), 13 (20), 19 (21), 17 (22), 14 (23), 20 or more (24), or 36 (26, 27). `acpiset` uses only its type and length, and of type 16 the fields of WakeupMailbox.\nFix: nothing is known to be wrong. Check these structures by other means, such as `iasl -d`. `show` prints the offset, type and length of each, and `acpiset-explain` counts them for a `yes`.\
    Found: the SRAT has a structure that no stage and no rule looks at: one of type 8 or above, of type 3 of other than 18 bytes, 4 of other than 12, 5 or 6 of other than 32, or 7 of other than 20. `acpiset` uses only its type and length.\nFix: as for MadtUnread.\
    Found: a slot of the XSDT or RSDT holds 0.\nFix: remove the slot, and reduce Length by its width. If a table is missing, look for the code that should write its address.\
    Found: the XSDT and the RSDT do not list the same number of tables of each signature. The XSDT is complete, the RSDP also names an RSDT, and that one is complete. Slots of 0 do not count, nor slots with an address at which fewer than 4 bytes are in the image, nor slots of the XSDT with an address of 0x100000000 or above, which no RSDT can list.\nFix: list the same tables in both, or write 0 to RsdtAddress. Code that adds or replaces a table has to change both.\
    Found: two structures share bytes of memory. Compared are the RSDP; the XSDT or RSDT; the FACS, if it has none of the faults 27 to 31; the DSDT, if its signature is `DSDT`; and the listed tables, by slot. Each counts with all its bytes, if they are in the image; a table with a Length below 36 does not count. Of those that begin at the same address only the first in this order counts, with its length.\nFix: give each table memory of its own. Code that makes a table longer in place has to check where the next one begins.\
    Found: the FADT names no DSDT: DSDT is 0, and X_DSDT does not exist or is 0.\nFix: write the DSDT's address to X_DSDT, and also to DSDT if it is below 0x100000000. A machine without AML needs a DSDT too, of 36 bytes: the header alone.\
    Found: the FADT names a DSDT, and what is there has another signature, a Length below 36, or a wrong checksum (5.2.11.1). Its header, 36 bytes, is in the image; for the checksum all Length bytes are.\nFix: if the address is right, set the checksum after all changes to the AML. Otherwise correct the address.\
    Found: the hardware is not reduced, and PM1a_EVT_BLK or PM1a_CNT_BLK has no address, neither in its 4-byte field nor in its X_ structure.\nFix: write the ports of the block. If the hardware does not have these registers, set HW_REDUCED_ACPI.\
    Found: the hardware is not reduced, and the length byte of a register block is not the bit width of its X_ structure. Neither address is 0, neither the width nor the length is 0, and the length is at most 31, since a width is one byte.\nFix: write 8 times the length to the bit width.\
    Found: the hardware is not reduced, and one of the register blocks PM2_CNT, PM_TMR, GPE0 and GPE1 has a length and no address, or an address and no length.\nFix: write both, or 0 to both.\
    Found: the hardware is not reduced, and two register blocks in system I/O share a port. A block is at the address of its X_ structure or, if that is missing or 0, at its 4-byte address. It has as many ports as its length byte says. If the length byte is 0, a block at its X_ address has its bit width / 8 ports, rounded up, and one at its 4-byte address has none.\nFix: correct the addresses and lengths by the hardware's manual.\
    Found: a register in system I/O is at a port above 0xffff. Checked are the last port of each register block and SMI_CMD, unless the hardware is reduced, and RESET_REG in system I/O, if RESET_REG_SUP is set and Length is at least 129.\nFix: correct the address. A register in memory has the address space 0 in its X_ structure, and its 4-byte field is 0.\
    Found: the hardware is not reduced, there are two GPE blocks, and GPE1_BASE is below 4 * GPE0_BLK_LEN, the number of events of GPE0.\nFix: write the number of GPE1's first event to GPE1_BASE, the one by which its `_Lxx` and `_Exx` methods are named.\
    Found: the hardware is not reduced, and SMI_CMD does not fit its commands. Either SMI_CMD is not 0, and ACPI_ENABLE and ACPI_DISABLE are the same; or SMI_CMD is 0, and a command is not.\nFix: write the port and the commands of the firmware's SMI handler. If there is none, write 0 to all six fields.\
    Found: the hardware is not reduced, and SCI_INT is 0.\nFix: write the interrupt number of the SCI, which is 9 on most PCs. Hardware without an SCI has HW_REDUCED_ACPI set.\
    Found: RESET_REG_SUP is set, Length is at least 129, and the address in RESET_REG is 0.\nFix: write the register's address, or clear RESET_REG_SUP.\
    Found: the MADT is of a machine of Arm or RISC-V, and the FADT does not fit it. With a structure of type 11 (GICC) or 24 (RINTC), of any length, HW_REDUCED_ACPI must be set; with one of type 11 the FADT must not be older than 5.1.\nFix: set HW_REDUCED_ACPI, and write all fields of Revision 6 with its minor version.\
    Found: the hardware is reduced, and its sleep registers cannot be used. One of them has an address and a bit width other than 8 or a bit offset other than 0; or both exist, and only one has an address.\nFix: write both registers with the bit width 8 and the bit offset 0. If the hardware has none, write 0 to all their fields.\
    Found: a field of the FADT has a reserved value. Byte 44 is above 1, Preferred_PM_Profile is above 8, byte 111 is not 0, a bit of Flags above bit 23 is set, or bits 22 and 23 both are.\nFix: write 0 to reserved bytes and bits. If several fields look wrong, check that the fields are laid out without gaps.\
    Found: a field of the FACS has a reserved value. Version is above 2, a byte from 33 to 35 or from 40 to 63 is not 0, a bit of Flags above bit 1 is set, or a bit of OSPM Flags above bit 0. Applies only to a FACS without the faults 27 to 31.\nFix: clear the whole FACS before its fields are written, but not when the machine wakes: its waking vector is still needed.\
    Found: a field of the RSDP has a reserved value. Revision is neither 0 nor 2; or Revision is 2 or above, and Length is above 36 or a byte from 33 to 35 is not 0. Length is looked at if as many bytes as it says are in the image.\nFix: write Revision 2, Length 36 and zeros to the reserved bytes; or Revision 0, for an RSDP of 20 bytes.\
    Found: a text in the header of a listed table has a byte that is not printable ASCII, 0x20 to 0x7e. Zeros at the end of a text are allowed. A table counts if its header, 36 bytes, is in the image.\nFix: write the whole text, with blanks or zeros after its last letter. Other bytes there are often those of memory that was not cleared.\
    Found: a slot lists a table of a kind of which a set has at most one, and an earlier slot lists one with the same signature at another address. The kinds are BERT, BGRT, CCEL, CPEP, DBG2, DMAR, ECDT, EINJ, ERST, FPDT, GTDT, HEST, HMAT, IORT, IVRS, MCFG, MPST, MSCT, NFIT, PCCT, PDTT, PHAT, PMTT, PRMT, RASF, RAS2, SBST, SDEI, SDEV, SPCR, SVKL, TPM2, VIOT, WAET and WSMT. A table counts if its header, 36 bytes, is in the image.\nFix: list one table of each kind, with all structures of both.\
    Found: a usable local x2APIC has an X2APIC ID below 255, beside a usable local APIC with another APIC ID than 255 (5.2.12.12).\nFix: list processors with an ID below 255 as local APICs and only the others as local x2APICs; or list all as local x2APICs.\
    Found: a usable local APIC has the APIC ID 255, or a usable local x2APIC the X2APIC ID 0xffffffff (5.2.12.2, 5.2.12.12).\nFix: write the processor's ID. In a structure for a processor that does not exist, clear Enabled and Online Capable.\
    Found: a processor is Online Capable and not Enabled, and the FADT's version does not have this flag: it is older than 6.3 for a local APIC or x2APIC, or older than 6.5 for a GICC (5.2.12.2, 5.2.12.12, 5.2.12.14).\nFix: write the FADT of version 6.5, with all its fields; or clear Online Capable.\
    Found: a processor is both Enabled and Online Capable (5.2.12.2, 5.2.12.12, 5.2.12.14).\nFix: clear Online Capable where Enabled is set.\
    Found: an interrupt source override has a Source above 15 that is not SCI_INT (5.2.12.5). Applies if there is a FADT.\nFix: correct Source. The interrupts of other devices are described in AML, those of PCI devices in `_PRT`.\
    Found: the override of Source 0, the timer of the ISA bus, says that the interrupt is level-triggered (5.2.12.5).\nFix: write 01b, edge-triggered, or 00b, as the bus has it.\
    Found: an override has the Global System Interrupt of an earlier one with another Source (5.2.12.5).\nFix: write to each override the number of the input to which its interrupt is wired.\
    Found: the NMI of a local APIC or local x2APIC is wired to another input than LINT1 (5.2.12.7, 5.2.12.13).\nFix: write 1, unless the hardware's manual says otherwise. On PCs LINT0 is the input for the interrupts of the 8259.\
    Found: a local APIC or local x2APIC is usable, the MADT has overrides or NMI sources, and it has no I/O APIC (5.2.12.3). There is no I/O SAPIC (type 6) either. Applies only if the MADT is well-formed.\nFix: write a structure for each I/O APIC. If the machine has none, remove the overrides and NMI sources.\
    Found: the MADT has a GICC (type 11) and no GIC Distributor (type 12), of any length (5.2.12.15). Applies only if the MADT is well-formed.\nFix: write a GICD with the distributor's address and the GIC's version.\
    Found: the GIC has version 3 or 4, and no redistributor is described (5.2.12.17). There is no structure of type 14, and no usable GICC has a GICR Base Address other than 0. Applies only if the MADT is well-formed.\nFix: write a GICR for each range of redistributors, or each redistributor's address to the processor's GICC.\
    Found: the GIC has version 3 or 4, and the GICRs have room for fewer redistributors than there are usable GICCs (5.2.12.17). Each redistributor takes 0x20000 bytes of one range. Applies only if the MADT is well-formed and all its structures of type 14 have 16 bytes.\nFix: write the size of the range: 0x20000 bytes for each redistributor, or 0x40000 for each one of a GIC with direct injection of virtual LPIs (version 4).\
    Found: the GIC has version 1 or 2, and a GICC has another Physical Base Address than the first GICC (5.2.12.14).\nFix: write the same address to all GICCs.\
    Found: a usable GICC has the MPIDR of an earlier usable one (5.2.12.14).\nFix: write to each GICC the MPIDR of its own processor.\
    Found: the MPIDR of a usable GICC has a bit set outside of 0xff00ffffff, its four affinity fields (5.2.12.14).\nFix: write the affinity fields alone: Aff3 in bits 39:32, Aff2 to Aff0 in bits 23:0. The register MPIDR_EL1 has further bits, such as bit 31, which is always 1.\
    Found: a GICR has a Discovery Range Length of 0 (5.2.12.17).\nFix: write the size of the range, or remove the structure.\
    Found: an ITS has the GIC ITS ID of an earlier one (5.2.12.18).\nFix: give each ITS an ID of its own, and use it in the IORT and in the SRAT.\
    Found: an MSI frame has the GIC MSI Frame ID of an earlier one (5.2.12.16).\nFix: give each frame an ID of its own. If the two structures describe the same frame, remove one.\
    Found: two structures of the GIC share an address (5.2.12.15). A GICR has as many bytes as its Discovery Range Length says, an ITS 0x20000, an MSI frame 0x1000, and a GICD 0x10000 if its version is 3 or 4 and 0x1000 otherwise.\nFix: correct the addresses, and the length of the GICR, by the hardware's manual.\
    Found: there is a GICR, and a usable GICC also has a GICR Base Address other than 0 (5.2.12.14, 5.2.12.17).\nFix: write 0 to GICR Base Address of all GICCs; or remove the GICRs, if each usable GICC has its address.\
    Found: more than one GICC is usable, and nothing says how the other processors are started (5.2.12.14). ARM_BOOT_ARCH exists, its bit 0, PSCI_COMPLIANT, is clear, and the Parking Protocol Version is 0 in all usable GICCs. Applies only if the MADT is well-formed.\nFix: set PSCI_COMPLIANT, and bit 1 if PSCI is called by HVC; or write the version and the address of the parking protocol to each GICC.\
    Found: a usable RINTC has the Hart ID of an earlier usable one. RINTC comes after ACPI 6.5.\nFix: write to each RINTC the ID of its own hart.\
    Found: a field of the MADT has a reserved value. It is a bit of the MADT's Flags above bit 0; a reserved byte or a reserved bit of the flags in a structure of types 0 to 5, 9 and 10; or, in a GICD, a byte from 16 to 19 that is not 0, or a version above 4.\nFix: write 0 to reserved bytes and bits.\
    Found: the SRAT has an affinity, and no enabled memory range with a Length above 0 (5.2.16.2). Applies only if the SRAT is well-formed.\nFix: write a memory range for each range of memory, and set Enabled in it.\
    Found: an enabled memory range has a Length of 0 (5.2.16.2).\nFix: write the Length in bytes. In a structure that is not used, clear Enabled.\
    Found: a generic initiator (type 5, 32 bytes) is not enabled (5.2.16.6).\nFix: remove the structure, or put it after all other structures of the SRAT.\
    Found: the SRAT's Revision is below 2, and an enabled structure of type 0 or 1 has a domain above 255 (5.2.16).\nFix: set Revision to 3; or clear the upper bytes, if they are not part of the domain.\
    Found: an ITS affinity of the SRAT names an ITS that the MADT does not have (5.2.16.5). Applies only if the MADT is well-formed and all its structures of type 15 have 20 bytes.\nFix: write the ID that the ITS has in the MADT.\
    Found: a field of the SRAT has a reserved value. The 4 bytes at 36 are not the number 1, or a structure of types 0 to 2 has a reserved byte that is not 0 or a reserved bit of its flags set.\nFix: write 1 at 36, and 0 to reserved bytes and bits.\
    Found: the distance from one locality to another one is 10, which means the same locality (5.2.17).\nFix: write distances above 10 between different localities. If there is no distance between two localities, make them one proximity domain.\
    Found: the PPTT's Revision is 2 or above, and a node with a valid ACPI Processor ID is no node's Parent and is not marked as a leaf (5.2.30.1). Applies only if the PPTT is well-formed.\nFix: set bit 3 in the flags of each node that is a processor.\
    Found: the PPTT's Revision is 2 or above, and a node that is marked as a leaf is the Parent of a node (5.2.30.1).\nFix: clear bit 3 in a node that groups others, or correct Parent.\
    Found: the Parents of a leaf lead to a node whose Parent is 0, and neither the leaf nor any of these nodes is marked as a physical package (5.2.30.1). Parents that lead to no node (52) or in a circle (55) keep the rule.\nFix: set bit 0 in the node of each package.\
    Found: the valid numbers of a cache contradict each other (5.2.30.2). Its Associativity is valid and 0, or its Size is valid and 0; or Size, Number of Sets, Associativity and Line Size are all valid, and Size is not the product of the others.\nFix: write the size in bytes, the number of sets and ways, and the line size in bytes; or clear the bit of a number that is not known.\
    Found: a field of a node or a cache has a reserved value. A reserved byte, 2 or 3, is not 0; or a reserved bit is set: above bit 4 in the flags of a node, above bit 7 in those of a cache, above bit 4 in the attributes of a cache.\nFix: write 0 to reserved bytes and bits.\
    Found: the MCFG's Length is not 44 plus 16 for each of one or more entries: there is no entry, or bytes are left over after the last one.\nFix: set Length to 44 plus 16 times the number of entries.\
    Found: the base address of an entry of the MCFG is 0 or no multiple of 1 MiB.\nFix: write the address to which the host bridge maps bus 0 of the segment.\
    Found: an entry of the MCFG has an end bus number below its start bus number.\nFix: write the entry's first bus to Start Bus Number, and its last one to End Bus Number.\
    Found: the address range of an entry of the MCFG ends above the highest address: its base address plus 1 MiB for each bus from 0 to its end bus number is above 2^64.\nFix: correct the base address or the end bus number.\
    Found: the MCFG's Revision is 0, and an entry's base address is 0xffffffff or above. Applies if OEMID does not begin with `SGI`.\nFix: write Revision 1, or an address below 4 GiB.\
    Found: two entries of the MCFG have the same bus of the same segment. An entry whose end bus number is below its start bus number has no bus.\nFix: give each bus of a segment to one entry.\
    Found: the ECAMs of two entries of the MCFG share an address.\nFix: write to each entry the address to which the host bridge maps bus 0 of its segment.\
    Found: the HPET's Length is below 56.\nFix: write all fields, and set Length to 56.\
    Found: the HPET's base address is not in memory: its address space is not 0.\nFix: write the address space 0, since the registers are in memory.\
    Found: the HPET's base address is 0; or 0xfed0000000000000, which is 0xfed00000 with its halves swapped; or no multiple of 1024, the size of its registers.\nFix: write the address to which the chipset maps the registers, 0xfed00000 on most PCs.\
    Found: the HMAT's Length is below 40, or its Revision is neither 1 nor 2.\nFix: write Revision 2, with the structures that ACPI 6.3 and later define; set Length to the end of the last structure.\
    Found: after the last structure of the HMAT there are bytes that are not a structure: fewer than 8 bytes, a length below 8, or a length that goes past the end of the table.\nFix: correct the structure's length or the table's Length. Often the length of the structure before it is wrong.\
    Found: a structure of the HMAT has a wrong length: one of type 0 not 40, one of type 1 below 32 + 4 * I + 4 * T + 2 * I * T, or one of type 2 below 32 + 2 * H. I, T and H count only if the structure has 32 bytes.\nFix: correct the length, or the numbers of initiators, targets or handles.\
    Found: Data Type of a structure of type 1 is above 5.\nFix: write 0 to 2 for the latency of accesses, reads or writes, or 3 to 5 for their bandwidth.\
    Found: the memory hierarchy of a structure of type 1, bits 3:0 of Flags, is above 4 in an HMAT of Revision 1, or above 3 in any other.\nFix: write 0 for memory, or in Revision 2 the level, 1 to 3, of a memory side cache.\
    Found: Entry Base Unit of a structure of type 1 is 0.\nFix: write the unit of the values: of latencies in picoseconds, of bandwidths in MB/s.\
    Found: a value in the matrix of a structure of type 1, times Entry Base Unit, is above 2^32 - 1. 0xffff does not count: it says that the initiator cannot reach the target.\nFix: write a smaller unit or value: latencies are in picoseconds, bandwidths in MB/s.\
    Found: two initiators of a structure of type 1 have the same domain, or two of its targets.\nFix: list each domain once.\
    Found: a structure of type 0 has an initiator, bit 0 of Flags, in a domain that no structure of the SRAT has; or memory in a domain that none of type 1 or 6 has: in an HMAT of Revision 1 if bit 1 of Flags is set, in any other always.\nFix: write domains of the SRAT, and describe all of them there.\
    Found: an initiator or a target of a structure of type 1 is in a domain that no structure of the SRAT has.\nFix: write domains of the SRAT, and describe all of them there.\
    Found: a structure of type 2 is of a domain that no memory affinity (type 1) of the SRAT has.\nFix: write the domain of the memory that the cache is for.\
    Found: Cache Attributes of a structure of type 2 have a number of levels, bits 3:0, above 3; a level, bits 7:4, above that number; or an associativity, bits 11:8, or a write policy, bits 15:12, above 2.\nFix: write the attributes of the cache as 5.2.28.5 defines them.\
    Found: there is an HMAT, whatever its Length and Revision, and the XSDT or RSDT lists no SRAT. The header of an SRAT, 36 bytes, is enough.\nFix: list the SRAT that has the HMAT's domains.\
    Found: the GTDT's Length is below 80, or in Revision 2 below 96, or from Revision 3 on below 104.\nFix: write all fields of the Revision, and set Length; or set the Revision to that of the fields.\
    Found: the MADT is well-formed and has a GICC, and the XSDT or RSDT lists no GTDT. The header of a GTDT, 36 bytes, is enough.\nFix: list a GTDT with the timers of the processors.\
    Found: the GSIVs of the non-secure EL1 timer and of the virtual timer are both 0.\nFix: write the interrupts of both timers: in most systems 30 and 27.\
    Found: the GSIV of a timer of each processor is not 0, and no PPI: neither 16 to 31 nor 1056 to 1119.\nFix: write the interrupt ID of the PPI: for PPI n from 0 to 15 it is 16 + n, for extended PPI n 1056 + n.\
    Found: two timers of each processor have the same GSIV, which is not 0. The secure EL1 timer is not compared.\nFix: write to each timer its own interrupt.\
    Found: the Revision is at least 2, Platform Timer Count is not 0, and Platform Timer Offset is within the GTDT's fields; or a platform timer goes past the table's end or has a length below 4; or one has a type above 1.\nFix: correct the count, the offset or the length. Often the length of the platform timer before it is wrong.\
    Found: a GT Block has fewer than 20 bytes; or its GT Block Timer Count is not 1 to 8, or GT Block Timer Offset is below 20; or both are right, and the length is not the offset plus 40 for each frame.\nFix: correct the field that is wrong. Mostly the offset is 20.\
    Found: GT Frame Number of a frame is above 7; or the frame is non-secure, bit 0 of its flags is clear, and its CntBase or the GSIV of its physical timer is 0.\nFix: write the frame's number, address and interrupt; or leave the frame out.\
    Found: two frames of a GT Block have the same GT Frame Number.\nFix: write each frame's own number.\
    Found: a watchdog does not have 28 bytes; or its RefreshFrame or WatchdogControlFrame address is 0.\nFix: write the length 28, and the addresses of both frames.\
    Found: a GSIV of a frame or a watchdog is not 0, and no SPI: neither 32 to 1019 nor 4096 to 5119.\nFix: write the interrupt ID of the SPI: for SPI n it is 32 + n, for extended SPI n 4096 + n.\
    Found: two of these ranges of 4096 bytes share an address: those from the CntCtlBase of a GT Block, from the CntBase or CntEL0Base of a frame, and from the RefreshFrame or WatchdogControlFrame of a watchdog. An address of 0 or 2^64 - 1 has no range.\nFix: write the addresses of the registers.\
    Found: the DMAR's Length is below 48, or Host Address Width is below 11 or above 63.\nFix: write the number of bits of the machine's physical addresses less one, such as 38, 45 or 51.\
    Found: after the last structure of the DMAR there are bytes that are not a structure: fewer than 4 bytes, a length below 4, or a length that goes past the end of the table.\nFix: correct the structure's length or the table's Length. Often the length of the structure before it is wrong.\
    Found: a structure is too short for its type: a DRHD needs 16 bytes, an RMRR 24, an RHSA 20, an ANDD 9, and an ATSR, an SATC or an SIDP 8.\nFix: correct the length or the type.\
    Found: the DMAR has no DRHD.\nFix: write a DRHD for each unit of remapping hardware; or list no DMAR if the machine has none.\
    Found: after the last device scope of a structure there are bytes that are not a device scope: a single byte, a length below 8, or a length that goes past the end of the structure.\nFix: correct the length of the device scope, which is 6 plus 2 for each step of its path, or that of the structure.\
    Found: the type of a device scope is 0 or above 5, or its length is odd; or a step of its path has a Device above 31 or a Function above 7.\nFix: write the type of the device, and the steps that lead to it from Start Bus Number on.\
    Found: Register Base Address of a DRHD is 0, or no multiple of 4096.\nFix: write the address to which the chipset maps the registers of the unit; or leave the DRHD out if the unit is disabled.\
    Found: the registers of two DRHDs share an address. They have 4096 * 2^n bytes, where n is bits 3:0 of Size. There are none where Register Base Address is 0.\nFix: write to each DRHD the address and the size of its own registers.\
    Found: two DRHDs of one segment have INCLUDE_PCI_ALL set; or two ATSRs of one segment have ALL_PORTS set.\nFix: set the flag in one of them, and list the devices or ports of the other one in device scopes.\
    Found: a DRHD without INCLUDE_PCI_ALL comes after one of the same segment that has it. The specification asks that this one is the last of its segment.\nFix: move the DRHD with INCLUDE_PCI_ALL behind all others of its segment.\
    Found: the base address of an RMRR is no multiple of 4096; or bits 11:0 of its limit address are not all set; or its limit address is not above its base address.\nFix: write the addresses of the first and the last byte of the region, in whole pages.\
    Found: an RMRR has 24 bytes, so it has no device scope.\nFix: add the device scopes of the devices that use the region; or leave the RMRR out.\
    Found: no DRHD has the Register Base Address of an RHSA.\nFix: write the Register Base Address of the unit's DRHD; or leave the RHSA out if the unit has no DRHD.\
    Found: no structure of the SRAT has Proximity Domain of an RHSA. Applies if SratUnread finds nothing.\nFix: write the domain of the SRAT that the unit is in.\
    Found: two RHSAs have the same Register Base Address.\nFix: write one RHSA for each DRHD.\
    Found: none of the bytes of ACPI Object Name of an ANDD is 0.\nFix: end the name with a 0, and count it in the length.\
    Found: Enumeration ID of a device scope of type 5 is the ACPI Device Number of no ANDD; or the ACPI Device Number of an ANDD is the Enumeration ID of no device scope of type 5 in a DRHD.\nFix: give the ANDD and the device scope in the DRHD of its unit the same number.\
    Found: bit 0 of the DMAR's Flags is set, and no device scope of type 3 in a DRHD has the ID of an I/O APIC of the MADT.\nFix: add to the DRHD of its unit a device scope of type 3 with the I/O APIC's ID.\
    Found: two device scopes of type 3, in DRHDs, have the same Enumeration ID.\nFix: write to each device scope the ID of its own I/O APIC.\
    Found: the IVRS's Length is below 48; or after its last block there are bytes that are not a block: fewer than 4 bytes, a length below 4, or a length that goes past the end of the table.\nFix: correct the block's length or the table's Length. Often the length of the block before it is wrong.\
    Found: a block is too short for its type: an IVHD of type 0x10 needs 24 bytes, one of type 0x11 or 0x40 needs 40, and an IVMD 32.\nFix: correct the length or the type.\
    Found: the IVRS has no IVHD.\nFix: write an IVHD for each IOMMU; or list no IVRS if the machine has none.\
    Found: IOMMU Base Address of an IVHD is 0, or no multiple of 16384.\nFix: write the address of the registers that the firmware wrote to the capability of the IOMMU.\
    Found: two IVHDs of one type and one PCI Segment Group have the same DeviceID.\nFix: write one IVHD of each type for an IOMMU, with the DeviceID of that IOMMU.\
    Found: an IVHD has another IOMMU Base Address than the first IVHD with its PCI Segment Group and DeviceID; or another PCI Segment Group or DeviceID than the first one with its IOMMU Base Address.\nFix: write the same three fields to all IVHDs of an IOMMU.\
    Found: after the last device entry of an IVHD there are bytes that are not a device entry: their type has no length, or a length that goes past the end of the block.\nFix: correct the type, UID Length, or the length of the IVHD.\
    Found: a device entry is of an unknown type, or of type 0xf0 in an IVHD of another type than 0x40. Of type 0x48: Variety is 0 or above 3. Of type 0xf0: Hardware ID begins with 0; or UID Format is above 2; or UID Length is not 0 for the format 0, or not 8 for 1.\nFix: write a type that the block may have, and the fields of the device.\
    Found: a device entry that starts a range is not followed by one that ends it; or one that ends a range does not follow one that starts it, or has a lower DeviceID than that one.\nFix: write the first DeviceID to the start of a range, and the last one to an entry of type 4 just after it.\
    Found: IVHDs of a type have device entries of type 0x48 with Variety 1, and none of these has the ID of an I/O APIC of the MADT as Handle.\nFix: add the device entry to an IVHD of each type, with the I/O APIC's ID and its Source Device ID.\
    Found: two device entries of type 0x48 with one Variety, in IVHDs of one type, have the same Handle.\nFix: write to each device entry the ID of its own I/O APIC, or the number of its own HPET.\
    Found: an IVMD of type 0x20 to 0x22 has neither Unity nor exclusion range set, or a higher bit of Flags; or IVMD Memory Block Length is 0, or the memory ends above the highest address; or, of type 0x22, the last DeviceID is below the first.\nFix: write the memory, the devices and the Flags: for a unity mapping bit 0, with bit 1 for reads and bit 2 for writes.\
    Found: the SPCR's Length is below 80, or, from Revision 4 on, below 88.\nFix: write all fields of the Revision, and set Length; or set the Revision to that of the fields.\
    Found: the SPCR's base address is neither in memory (address space 0) nor in I/O ports (1); or it is in memory, and its access size is above 3 (32 bits). Applies if the address is not 0 and the interface type is not 0x15, the RISC-V SBI console.\nFix: write the address space and the access size of the serial port's registers.\
    Found: the SPCR's baud rate is none of 0, 3, 4, 6 and 7, and there is no precise one: the Revision is below 4, or the number at 80 is 0.\nFix: write 3 for 9600, 4 for 19200, 6 for 57600, 7 for 115200, or 0 for the rate that the firmware has set.\
    Found: bit 0 (8259) of the SPCR's interrupt type is set, and IRQ is none of 2 to 7, 9 to 12, 14 and 15. Or, with a well-formed MADT, bit 1 (I/O APIC) is set, and the MADT has I/O APICs, none of which serves the GSI; or it has a GICD (type 12), the base address is not 0, and the interrupt type is neither 0 nor 8 (GIC), or is 8 with a GSI that is no SPI, 32 to 1019 or 4096 to 5119.\nFix: write the interrupt and the type of its controller, or 0 for none; or give `acpiset` the I/O APIC's inputs as `ADDRESS=COUNT`.\
    Found: exactly one of the SPCR's PCI device ID and PCI vendor ID is 0xffff, which means no PCI device; or neither is, and the PCI device number is above 31 or the PCI function number above 7.\nFix: write both IDs and the numbers of the PCI device; or, if the serial port is no PCI device, 0xffff to both IDs.\
    Found: the SPCR's namespace string has fewer than 2 bytes, or does not lie between byte 88 and the table's end; or it lies there, and its last byte is not 0. Applies from Revision 4 on.\nFix: write the device's path in the ACPI namespace, or `.` for none, and a 0; and its offset in the table and its length with the 0.\
    Found: the OEMID of the RSDP has a byte that is not printable ASCII, 0x20 to 0x7e. Zeros at its end are allowed. Applies if 20 bytes of the RSDP are in the image.\nFix: write the complete text, with blanks or zeros after its last letter.\
    Found: a text in the header of the XSDT or RSDT has a byte that is neither printable ASCII, 0x20 to 0x7e, nor one of the zeros at its end; or Revision is not 1. Applies if all bytes of the table are in the image.\nFix: write the complete texts, with blanks or zeros after the last letter, and Revision 1.\
    Found: a text in the header of the DSDT that the FADT names has a byte that is neither printable ASCII, 0x20 to 0x7e, nor one of the zeros at its end. Applies if 36 bytes with the signature `DSDT` are in the image.\nFix: correct the texts in `DefinitionBlock` of the ASL, or in the code that writes the header, which also has to set the checksum.\
    Found: Revision is 0; or the FADT is longer than one of its Revision: above 116 bytes at Revision 1, 132 at 2, 244 at 3 or 4, 268 at 5, 276 from 6 on.\nFix: set Revision to that of the fields, or Length to that of the Revision.\
    Found: the FADT is older than 5.1, which added ARM_BOOT_ARCH, and this field exists and is not 0.\nFix: write the version of the fields, 5.1 or later; or write 0 to ARM_BOOT_ARCH.\
    Found: the hardware is reduced, HW_REDUCED_ACPI is set, and SMI_CMD, the 4-byte address of a register block, or the address in an X_ structure that exists is not 0.\nFix: write 0 to them; or clear HW_REDUCED_ACPI if the hardware has these registers.\
    Found: the hardware is not reduced, SMI_CMD is not 0, and exactly one of ACPI_ENABLE and ACPI_DISABLE is 0.\nFix: write both commands of the firmware's SMI handler. If it has none, write 0 to all three fields.\
    Found: the hardware is not reduced, and S4BIOS_REQ is not 0 while S4BIOS_F is clear, or is 0 while S4BIOS_F is set. Applies only to a FACS without the faults 27 to 31.\nFix: if the firmware does this, write the command to S4BIOS_REQ and set S4BIOS_F; otherwise clear both.\
    Found: the hardware is not reduced, and a GPE block has events above 255: GPE0 has an address, and GPE0_BLK_LEN is above 64; or GPE1 has one, and GPE1_BASE + 4 * GPE1_BLK_LEN is above 256. The address is that of the X_ structure or of the 4-byte field.\nFix: correct the length or GPE1_BASE. A block of n bytes has 4 * n events.\
    Found: the hardware is not reduced, and the length byte of a register block other than GPE0 and GPE1 is above 31. The block's 4-byte address is not 0, and its X_ structure is missing or has the address 0.\nFix: write the length in bytes: usually 4 to PM1_EVT_LEN and PM_TMR_LEN, 2 to PM1_CNT_LEN, 1 to PM2_CNT_LEN.\
    Found: the hardware is not reduced, and the X_ structure of a register block exists and has an address other than 0 and an address space above 1.\nFix: write the address space 0, memory, or 1, system I/O.\
    Found: the hardware is not reduced, and an X_ structure that exists has an address other than 0 and another bit width than 32 for PM1a_EVT, PM1b_EVT and PM_TMR, 16 for PM1a_CNT and PM1b_CNT, or 8 for PM2_CNT (4.8.3).\nFix: write the usual width, and to the length byte an eighth of it.\
    Found: the hardware is not reduced, and SLEEP_CONTROL_REG or SLEEP_STATUS_REG exists and has an address other than 0.\nFix: write 0 to both; or set HW_REDUCED_ACPI if the hardware has no PM1 registers.\
    Found: the MADT has a structure of type 24 (RINTC), of any length, and the FADT is older than 6.6.\nFix: write all fields of Revision 6, and the minor version 6.\
    Found: a GICC is shorter than 76 bytes, its length in ACPI 5.1.\nFix: write the complete structure: 76 bytes in ACPI 5.1, 80 from 6.0 on, 82 from 6.5 on.\
    Found: the GIC has version 3 or 4, there is no structure of type 14, a usable GICC has a GICR Base Address other than 0, and that of an enabled GICC is 0. Applies only if the MADT is well-formed.\nFix: write to each GICC the address of its redistributor; or write a GICR for each range of redistributors, and 0 to all GICCs.\
    Found: the GIC has version 3 or 4, there is no structure of type 14, and a GICC is Online Capable and not Enabled. Applies only if the MADT is well-formed.\nFix: write a GICR for each range of redistributors, and 0 to GICR Base Address of all GICCs.\
    Found: a usable GICC of at least 60 bytes has another GICV, GICH or VGIC Maintenance Interrupt than the first such GICC, or another mode of this interrupt.\nFix: write the same values to all usable GICCs.\
    Found: the GIC has version 3 or 4, and an enabled GICC has the GICR Base Address of an earlier enabled one, other than 0.\nFix: write to each GICC the address of its own redistributor.\
    Found: the Parking Protocol Version of a GICC is above 1.\nFix: write 1, or 0 if the processor is not started by the parking protocol.\
    Found: the SPE Overflow Interrupt or the TRBE Interrupt of a GICC is neither 0 nor a PPI, 16 to 31 or 1056 to 1119.\nFix: write the interrupt ID, which is 16 for the first PPI; or 0 if the processor does not have this interrupt.\
    Found: a structure of types 17 to 27 has a version other than 1. Applies if it has the length that MadtUnread names.\nFix: write 1, and lay out all fields by the standard.\
    Found: a structure of types 11 to 15, 17, 24 and 25 has a reserved byte that is not 0, or a reserved bit of its flags set. Applies if it has the length that MadtUnread names.\nFix: write 0 to reserved bytes and bits.\
    Found: the Hart ID of a usable RINTC is 0xffffffffffffffff.\nFix: write the hart's ID. In a structure for a hart that does not exist, clear Enabled and Online Capable.\
    Found: in a structure of type 16, of any length, the Mailbox Version is above 1, a byte from 4 to 7 is not 0, or the Mailbox Address is 0 or no multiple of 4096; or its length is not that of its version: 24 bytes for 1; 16 for 0, and if it is too short to have a version.\nFix: write all fields of the version, and the address of the mailbox's page of 4096 bytes.\
    Found: a Local APIC Address Override (type 5, 12 bytes) has the address 0 (5.2.12.8).\nFix: write the address; or remove the structure if the 4 bytes at 36 of the MADT can hold the address.\
    Found: the MADT has a structure of types 9 to 15, of any length, and a Revision below 3; or one of types 24 to 27, of any length, and a Revision below 6.\nFix: write the Revision of the standard that has these structures.\
    Found: a structure of types 3 to 7 has a reserved byte that is not 0, or a reserved bit of its flags set. Applies if it has the length that SratUnread names.\nFix: write 0 to reserved bytes and bits.\
    Found: a generic initiator or port (types 5 and 6, 32 bytes) has a Device Handle Type above 1.\nFix: write 0 for a device handle of ACPI, 1 for one of PCI.\
    Found: nothing else is in the proximity domain of an ITS affinity (type 4, 12 bytes): no affinity, no enabled memory range, and no enabled initiator or port. Applies only if the SRAT is well-formed and SratUnread finds nothing in it.\nFix: write the domain of processors or memory near the ITS.\
    Found: the PPTT has a structure of a type above 1, of any length. `acpiset` uses only its type and length.\nFix: remove the structure, or check it by other means, such as `iasl -d`.\
    Found: the PPTT's Revision is 3 or more, and a cache of 28 bytes with a valid Cache ID, bit 7 of its flags, has the Cache ID 0.\nFix: number the caches from 1; or clear bit 7.\
    Found: a node names two caches of one type, neither of which is the Next Level of a cache that the node names. The type is valid in both, bit 4 of their flags; 10b and 11b are one type, unified.\nFix: let the node name only the caches nearest to it, one of each type, and let Next Level of Cache lead to the others.";

/// The offsets in bytes where these begin, and where the last one ends.
pub const RULE_STARTS: [u32; Rule::COUNT + 1] = [
    0, 212, 514, 722, 980, 1200, 1381, 1724, 2219, 2383, 2595, 2746, 2932, 3085, 3487, 3723, 3905,
    4119, 4587, 4918, 5293, 5512, 5663, 6049, 6321, 6617, 7084, 7655, 7913, 8081, 8544, 9067, 9300,
    9607, 9847, 10130, 10316, 10744, 11096, 11344, 11642, 11812, 11958, 12273, 12598, 12902, 13265,
    13598, 13931, 14421, 14672, 14909, 15204, 15339, 15563, 15735, 15920, 16143, 16448, 16658,
    16980, 17402, 17556, 17684, 17955, 18074, 18214, 18387, 18695, 18908, 19306, 19446, 19742,
    19952, 20092, 20241, 20438, 20662, 20905, 21144, 21390, 21569, 21832, 22209, 22479, 22675,
    22827, 22994, 23212, 23390, 23577, 23727, 23809, 23952, 24195, 24388, 24673, 24960, 25108,
    25327, 25467, 25724, 25843, 26140, 26310, 26462, 26729, 26915, 27110, 27287, 27437, 27644,
    27797, 28124, 28386, 28622, 28720, 28879, 29069, 29361, 29543, 29828, 30003, 30127, 30423,
    30653, 30844, 31072, 31276, 31501, 31749, 31890, 32050, 32206, 32294, 32411, 32678, 32879,
    33014, 33305, 33471, 33575, 33738, 33896, 34150, 34377, 34711, 34998, 35236, 35427, 35787,
    35956, 36282, 36526, 37040, 37347, 37665, 37901, 38204, 38549, 38775, 38953, 39201, 39409,
    39680, 40007, 40320, 40523, 40807, 41007, 41167, 41319, 41642, 41890, 42093, 42276, 42409,
    42636, 42806, 43021, 43187, 43549, 43737, 43957, 44155, 44309, 44602, 44782, 44956, 45270,
];

/// The name of each rule by its number, one text after another.
pub const RULE_NAMES: &str = "\
    ListedTwice\
    SecondTable\
    ListedApart\
    FadtOfRevision\
    FacsDiffers\
    DsdtDiffers\
    BlockDiffers\
    SciNowhere\
    SameUid\
    SameApicId\
    IoApicAtZero\
    SameIoApicId\
    SameIoApicAddress\
    NmiNowhere\
    SecondGicd\
    NoProcessor\
    TwoUidDomains\
    AffinityNowhere\
    NoDomain\
    DomainPastSlit\
    SlitDiffers\
    SameLeaf\
    CacheShape\
    SameCacheId\
    NoLeaf\
    LeafNowhere\
    MadtUnread\
    SratUnread\
    NullSlot\
    RsdtDiffers\
    TablesOverlap\
    NoDsdt\
    DsdtWrong\
    NoPm1Block\
    BlockWidth\
    HalfBlock\
    PortsOverlap\
    PortPastEnd\
    GpeOverlap\
    SmiHalf\
    SciZero\
    ResetNowhere\
    FadtForArch\
    SleepRegister\
    FadtReserved\
    FacsReserved\
    RsdpReserved\
    HeaderText\
    SecondOther\
    X2ApicBelow255\
    BroadcastId\
    CapableTooEarly\
    EnabledAndCapable\
    OverridePastIsa\
    TimerLevel\
    TwoSourcesOneGsi\
    LintNotOne\
    NoIoApic\
    NoDistributor\
    NoRedistributor\
    GicrTooSmall\
    GiccBaseDiffers\
    SameMpidr\
    MpidrReserved\
    GicrEmpty\
    SameIts\
    SameMsiFrame\
    GicOverlap\
    RedistributorTwice\
    NoBootMethod\
    SameHart\
    MadtReserved\
    NoMemoryRange\
    EmptyRange\
    InitiatorOff\
    DomainPastRevision\
    ItsNowhere\
    SratReserved\
    RemoteAsLocal\
    LeafUnflagged\
    LeafAsParent\
    NoPackage\
    CacheNumbers\
    PpttReserved\
    McfgLength\
    EcamAddress\
    BusesReversed\
    EcamWraps\
    EcamTooHigh\
    SameBus\
    EcamOverlap\
    HpetLength\
    HpetSpace\
    HpetAddress\
    HmatHeader\
    HmatCut\
    HmatLength\
    HmatDataType\
    HmatHierarchy\
    HmatUnit\
    HmatTooLarge\
    HmatSameDomain\
    HmatProximity\
    HmatDomainNowhere\
    HmatCacheNowhere\
    HmatCache\
    HmatAlone\
    GtdtLength\
    NoGtdt\
    NoTimer\
    TimerNoPpi\
    SameTimer\
    PlatformTimerCut\
    TimerBlock\
    TimerFrame\
    SameFrame\
    Watchdog\
    TimerNoSpi\
    TimerOverlap\
    DmarWidth\
    DmarCut\
    DmarShort\
    NoDrhd\
    ScopeCut\
    ScopeType\
    DrhdAddress\
    DrhdOverlap\
    SecondIncludeAll\
    IncludeAllNotLast\
    RmrrRange\
    RmrrNoDevice\
    RhsaNowhere\
    RhsaDomain\
    SameRhsa\
    AnddName\
    AnddNowhere\
    IoApicUnmapped\
    SameScope\
    IvrsCut\
    IvrsShort\
    NoIvhd\
    IvhdAddress\
    SameIvhd\
    IvhdDiffers\
    IvhdEntryCut\
    IvhdEntryType\
    IvhdRange\
    IoApicNotInIvrs\
    SameSpecial\
    IvmdRange\
    SpcrLength\
    SpcrAddress\
    SpcrBaud\
    SpcrGsi\
    SpcrPci\
    SpcrName\
    RsdpText\
    RootHeader\
    DsdtText\
    FadtPastRevision\
    ArmBootEarly\
    FixedInReduced\
    SmiHandshake\
    S4BiosDiffers\
    GpePastEnd\
    BlockTooLong\
    BlockSpace\
    BlockUsualWidth\
    SleepNotReduced\
    FadtForRiscv\
    GiccShort\
    GiccNoGicr\
    CapableNoGicr\
    GiccDiffers\
    SameGicrBase\
    ParkingVersion\
    GiccNoPpi\
    PicVersion\
    FurtherReserved\
    HartInvalid\
    WakeupMailbox\
    LapicAtZero\
    MadtRevision\
    AffinityReserved\
    DeviceHandle\
    ItsDomain\
    PpttUnread\
    CacheIdZero\
    SameCacheType";

/// The offsets in bytes where these begin, and where the last one ends.
pub const NAME_STARTS: [u32; Rule::COUNT + 1] = [
    0, 11, 22, 33, 47, 58, 69, 81, 91, 98, 108, 120, 132, 149, 159, 169, 180, 193, 208, 216, 230,
    241, 249, 259, 270, 276, 287, 297, 307, 315, 326, 339, 345, 354, 364, 374, 383, 395, 406, 416,
    423, 430, 442, 453, 466, 478, 490, 502, 512, 523, 537, 548, 563, 580, 595, 605, 621, 631, 639,
    652, 667, 679, 694, 703, 716, 725, 732, 744, 754, 772, 784, 792, 804, 817, 827, 839, 857, 867,
    879, 892, 905, 917, 926, 938, 950, 960, 971, 984, 993, 1004, 1011, 1022, 1032, 1041, 1052,
    1062, 1069, 1079, 1091, 1104, 1112, 1124, 1138, 1151, 1168, 1184, 1193, 1202, 1212, 1218, 1225,
    1235, 1244, 1260, 1270, 1280, 1289, 1297, 1307, 1319, 1328, 1335, 1344, 1350, 1358, 1367, 1378,
    1389, 1405, 1422, 1431, 1443, 1454, 1464, 1472, 1480, 1491, 1505, 1514, 1521, 1530, 1536, 1547,
    1555, 1566, 1578, 1591, 1600, 1615, 1626, 1635, 1645, 1656, 1664, 1671, 1678, 1686, 1694, 1704,
    1712, 1728, 1740, 1754, 1766, 1779, 1789, 1801, 1811, 1826, 1841, 1853, 1862, 1872, 1885, 1896,
    1908, 1922, 1931, 1941, 1956, 1967, 1980, 1991, 2003, 2019, 2031, 2040, 2050, 2061, 2074,
];

/// The severity of each rule, by its number.
pub const SEVERITIES: [Severity; Rule::COUNT] = [
    Severity::LikelyWrong,
    Severity::LikelyWrong,
    Severity::LikelyWrong,
    Severity::LikelyWrong,
    Severity::LikelyWrong,
    Severity::LikelyWrong,
    Severity::LikelyWrong,
    Severity::LikelyWrong,
    Severity::LikelyWrong,
    Severity::LikelyWrong,
    Severity::LikelyWrong,
    Severity::LikelyWrong,
    Severity::LikelyWrong,
    Severity::LikelyWrong,
    Severity::LikelyWrong,
    Severity::LikelyWrong,
    Severity::LikelyWrong,
    Severity::LikelyWrong,
    Severity::LikelyWrong,
    Severity::LikelyWrong,
    Severity::LookAtIt,
    Severity::LikelyWrong,
    Severity::LookAtIt,
    Severity::LikelyWrong,
    Severity::LikelyWrong,
    Severity::LikelyWrong,
    Severity::NotLookedAt,
    Severity::NotLookedAt,
    Severity::LookAtIt,
    Severity::LikelyWrong,
    Severity::LikelyWrong,
    Severity::LikelyWrong,
    Severity::LikelyWrong,
    Severity::LikelyWrong,
    Severity::LikelyWrong,
    Severity::LikelyWrong,
    Severity::LikelyWrong,
    Severity::LikelyWrong,
    Severity::LikelyWrong,
    Severity::LikelyWrong,
    Severity::LikelyWrong,
    Severity::LikelyWrong,
    Severity::LikelyWrong,
    Severity::LikelyWrong,
    Severity::LookAtIt,
    Severity::LookAtIt,
    Severity::LookAtIt,
    Severity::LookAtIt,
    Severity::LookAtIt,
    Severity::LikelyWrong,
    Severity::LikelyWrong,
    Severity::LikelyWrong,
    Severity::LookAtIt,
    Severity::LikelyWrong,
    Severity::LikelyWrong,
    Severity::LikelyWrong,
    Severity::LookAtIt,
    Severity::LookAtIt,
    Severity::LikelyWrong,
    Severity::LikelyWrong,
    Severity::LikelyWrong,
    Severity::LikelyWrong,
    Severity::LikelyWrong,
    Severity::LikelyWrong,
    Severity::LikelyWrong,
    Severity::LikelyWrong,
    Severity::LikelyWrong,
    Severity::LikelyWrong,
    Severity::LikelyWrong,
    Severity::LikelyWrong,
    Severity::LikelyWrong,
    Severity::LookAtIt,
    Severity::LikelyWrong,
    Severity::LikelyWrong,
    Severity::LikelyWrong,
    Severity::LikelyWrong,
    Severity::LikelyWrong,
    Severity::LookAtIt,
    Severity::LikelyWrong,
    Severity::LikelyWrong,
    Severity::LookAtIt,
    Severity::LikelyWrong,
    Severity::LookAtIt,
    Severity::LookAtIt,
    Severity::LikelyWrong,
    Severity::LikelyWrong,
    Severity::LikelyWrong,
    Severity::LikelyWrong,
    Severity::LikelyWrong,
    Severity::LikelyWrong,
    Severity::LikelyWrong,
    Severity::LikelyWrong,
    Severity::LikelyWrong,
    Severity::LikelyWrong,
    Severity::LikelyWrong,
    Severity::LikelyWrong,
    Severity::LikelyWrong,
    Severity::LookAtIt,
    Severity::LookAtIt,
    Severity::LikelyWrong,
    Severity::LookAtIt,
    Severity::LookAtIt,
    Severity::LikelyWrong,
    Severity::LikelyWrong,
    Severity::LikelyWrong,
    Severity::LookAtIt,
    Severity::LikelyWrong,
    Severity::LikelyWrong,
    Severity::LikelyWrong,
    Severity::LikelyWrong,
    Severity::LikelyWrong,
    Severity::LookAtIt,
    Severity::LikelyWrong,
    Severity::LikelyWrong,
    Severity::LikelyWrong,
    Severity::LookAtIt,
    Severity::LikelyWrong,
    Severity::LikelyWrong,
    Severity::LookAtIt,
    Severity::LikelyWrong,
    Severity::LikelyWrong,
    Severity::LikelyWrong,
    Severity::LikelyWrong,
    Severity::LikelyWrong,
    Severity::LikelyWrong,
    Severity::LikelyWrong,
    Severity::LikelyWrong,
    Severity::LikelyWrong,
    Severity::LookAtIt,
    Severity::LikelyWrong,
    Severity::LikelyWrong,
    Severity::LikelyWrong,
    Severity::LookAtIt,
    Severity::LikelyWrong,
    Severity::LikelyWrong,
    Severity::LikelyWrong,
    Severity::LikelyWrong,
    Severity::LikelyWrong,
    Severity::LikelyWrong,
    Severity::LikelyWrong,
    Severity::LikelyWrong,
    Severity::LikelyWrong,
    Severity::LikelyWrong,
    Severity::LikelyWrong,
    Severity::LikelyWrong,
    Severity::LookAtIt,
    Severity::LikelyWrong,
    Severity::LikelyWrong,
    Severity::LikelyWrong,
    Severity::LikelyWrong,
    Severity::LikelyWrong,
    Severity::LikelyWrong,
    Severity::LikelyWrong,
    Severity::LikelyWrong,
    Severity::LookAtIt,
    Severity::LikelyWrong,
    Severity::LookAtIt,
    Severity::LookAtIt,
    Severity::LookAtIt,
    Severity::LookAtIt,
    Severity::LookAtIt,
    Severity::LookAtIt,
    Severity::LookAtIt,
    Severity::LookAtIt,
    Severity::LikelyWrong,
    Severity::LikelyWrong,
    Severity::LikelyWrong,
    Severity::LikelyWrong,
    Severity::LookAtIt,
    Severity::LikelyWrong,
    Severity::LikelyWrong,
    Severity::LikelyWrong,
    Severity::LikelyWrong,
    Severity::LikelyWrong,
    Severity::LikelyWrong,
    Severity::LookAtIt,
    Severity::LikelyWrong,
    Severity::LookAtIt,
    Severity::LookAtIt,
    Severity::LikelyWrong,
    Severity::LikelyWrong,
    Severity::LikelyWrong,
    Severity::LookAtIt,
    Severity::LookAtIt,
    Severity::LookAtIt,
    Severity::LikelyWrong,
    Severity::NotLookedAt,
    Severity::LookAtIt,
    Severity::LookAtIt,
];
