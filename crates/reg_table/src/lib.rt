//! The register table of the Intel 82599: which register an address belongs to, and what an access to the register
//! does.
//!
//! A row is a register name with its indices. A place is one 32-bit register: a row and an index. An address belongs to
//! at most one place. `resolve` maps an address to its place and to the bits that show there. It uses one dispatch on
//! ranges of addresses instead of a search. The device core calls `resolve` for its reads and writes. The other calls
//! look up an address, a place or a row in the table. No call allocates. The device core, the script assembler and the
//! driver depend on this crate.
//!
//! The named bits of the registers also have the datasheet's names. Each register with named bits has a type for sets
//! of its bits. The type has a constant with the mask of each named bit: `Fctrl::BAM.0` is the mask of BAM.
//! [`has_flag`], [`with_flag`] and [`without_flag`] test and change a named bit in a word; [`has_bit`] tests a bit by
//! its number. The contracts state again, by bit number, which bit each name stands for.
//!
//! The table is defined in `specs/Rows.antt` and `specs/Runs.antt`, and implemented in `rows.rt`, `dispatch.rt` and
//! `first_addresses.rt`. `dev/generate registers` writes all of these files from one list.
//!
//! Source: Intel 82599 datasheet, section on programming interface, with this project's profile of masks and initial
//! values (docs/REGISTERS.md).
#![tactic(auto)]

mod access;
mod bank;
mod counter;
mod dispatch;
mod filtering;
mod first_addresses;
mod general;
mod kind;
mod laws;
mod mailboxes;
mod named;
mod place;
mod queues;
mod row;
mod rows;

pub use access::{Access, resolve};
pub use bank::Bank;
pub use counter::bump;
pub use filtering::{Fctrl, Mcstctrl, Rah, Rxcsum, Rxctrl, VtCtl};
pub use general::{Ctrl, CtrlExt, Eerd, Gpie, Pvfctrl};
pub use kind::Kind;
pub use laws::{
    address_has_one_place, addresses_are_aligned, first_addresses_read_back, name_has_one_row,
    runs_are_apart,
};
pub use mailboxes::{Pfmailbox, Pfmbicr, Pvfmailbox};
pub use named::{has_bit, has_flag, with_flag, without_flag};
pub use place::{Place, addr_of, place_of, view_of};
pub use queues::{Dmatxctl, Hlreg0, Rxdctl, Srrctl, Tdwbal, Txdctl};
pub use row::{all_rows, bank_of, count_of, kind_of, mask_of, name_of, reset_of, row_named};
pub use rows::RowId;
