//! Views of the ACPI tables in a memory image: the RSDP, the root table, any listed table, the FADT, the FACS and the
//! SLIT; the entries of the MADT, the SRAT and the PPTT; and their fixed layouts.
//!
//! A view is read at an address. It borrows its bytes from the image and allocates nothing. Reading returns the view
//! exactly when all its requirements hold, otherwise the code of the first one that does not, in the order of the
//! codes' numbers:
//!
//! ```text
//! Rsdp::read(image, address)     RsdpOut .. RsdpExtendedSum     20 bytes, or the Length that it says
//! Root::read(image, rsdp)        NoRoot .. RootSum              the XSDT, else the RSDT
//! Table::read(image, address)    TableHeaderOut .. TableSum     any table that a slot lists
//! first(image, root, signature)  an address or none             only the header must be present
//! Fadt::new(table)               FadtShort                      at least 116 bytes
//! Facs::read(image, fadt)        NoFacs .. FacsOut              the one that a FADT names, or none
//! Entries::madt(table)           MadtShort                      its entries, from offset 44 on
//! Entries::srat(table)           SratShort                      its entries, from offset 48 on
//! Entries::pptt(table)                                          its entries, from offset 36 on
//! table.entries::<MadtEntry<'_>>()                              the same by contents, of any table; also `cut`
//! MadtEntry::read(bytes)         MadtEntryLength                one of eight kinds, or any other type
//! SratEntry::read(bytes)         SratEntryLength                one of three kinds, or any other type
//! PpttEntry::read(bytes)         PpttEntryLength                a node, a cache, or any other type
//! Slit::new(table)               SlitShort .. SlitLow           all its cells
//! ```
//!
//! `Fadt::fault` and `Slit::new` return a complete fault, with its offset, since these tables have several faults
//! that differ only by it.
//!
//! ```rust
//! let rsdp = Rsdp::read(image, 0xe0000)?;
//! let root = Root::read(image, &rsdp)?;
//! if let Some(address) = first(image, &root, *b"FACP") {
//!     let fadt = Fadt::new(Table::read(image, address)?)?;
//!     let facs = Facs::read(image, &fadt)?;
//! }
//! if let Some(address) = first(image, &root, *b"APIC") {
//!     let mut entries = Entries::madt(Table::read(image, address)?)?;
//!     while let Some(entry) = entries.next() {
//!         if let MadtEntry::IoApic(io_apic) = MadtEntry::read(entry.bytes)? {}
//!     }
//!     if let Some(offset) = entries.cut() {} // no entry can begin there, and bytes remain
//! }
//! ```
//!
//! A view relies only on the bytes that it was read from. A view that is passed to a function may come from another
//! image: the contract is about the view's own value and the image, and does not require that they belong together.
//! Offsets are in bytes from a structure's start, numbers are little-endian, and an address of 0 means none.
#![tactic(auto)]

mod entries;
mod entry;
mod entry_codes;
mod entry_tables;
mod facs;
mod fadt;
mod first_tables;
mod frame;
mod gas;
mod header;
mod kind;
pub mod laws;
mod layout;
mod listed;
mod madt;
mod pptt;
mod root;
mod rsdp;
mod slit;
mod srat;
mod table;
mod typed_entries;

pub use entries::Entries;
pub use entry::Entry;
pub use entry_codes::{EntryCodes, Subject};
pub use facs::Facs;
pub use fadt::{BLOCK_LENGTHS, Block, Fadt, RESET_REG_SUP, has_flag};
pub use first_tables::{FirstTables, Listed};
pub use frame::fails;
pub use gas::Gas;
pub use header::Header;
pub use kind::EntryKind;
pub use layout::{Layout, read_back};
pub use listed::first;
pub use madt::{
    AddressOverride, GICC, GICC_LEN, IoApic, LocalApic, LocalNmi, MADT_FLAGS,
    MADT_LOCAL_APIC_ADDRESS, MadtEntry, NmiSource, Override, X2apic, X2apicNmi,
};
pub use pptt::{Cache24, Cache28, NodeHead, PpttEntry};
pub use root::{Root, RootPlace, named_root};
pub use rsdp::Rsdp;
pub use slit::Slit;
pub use srat::{
    ApicDomain, GICC_AFFINITY, GICC_AFFINITY_LEN, MemoryRange, SratEntry, X2apicDomain, is_enabled,
};
pub use table::{Table, sums_to_zero};
pub use typed_entries::{EntryAt, TableEntry, TypedEntries};
