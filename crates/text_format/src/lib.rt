//! The elements of everything that the bench reads or prints as text: register scripts, sources of EEPROM images,
//! debugger commands, lines to hash, and output.
//!
//! The crate parses lines, words, numbers, names and hex data. Each call parses one line or word, and only parsing hex
//! data allocates memory. The crate also prints words, addresses and bytes, without allocating. Each type prints what
//! its definition (`word_text`, `address_text`, `bytes_text`) says.
#![tactic(auto)]

mod bytes;
mod hex_data;
mod lines;
mod names;
mod numbers;
mod word;
mod words;

pub use bytes::BytesText;
pub use hex_data::{HexFault, hex_bytes};
pub use lines::{Line, Lines};
pub use names::{NAME_LIMIT, is_name};
pub use numbers::{NumberFault, number};
pub use word::{AddressText, WordText};
pub use words::Words;
