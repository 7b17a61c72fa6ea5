//! EEPROM images of the 82599: the source that is assembled into an image, the file that stores an image, and the words
//! and register writes in an image.
//!
//! An [`Image`] is a list of 64 to 16,384 16-bit words. The image's sections are inside it, and its checksum is
//! correct. [`assemble`] returns the one image that EEPROM source describes, and [`load`] returns the image whose file
//! has the given bytes. If there is no such image, each call returns the first fault, in the order of its list of
//! faults. The device reads an image with `word` and, at a reset, with `triples`.
#![tactic(auto)]

mod draft;
mod fault;
mod file;
mod image;
mod layout;
mod line;
mod section;
mod text;
mod triples;
mod words;

pub use file::{LoadFault, load};
pub use image::Image;
pub use text::{AsmFault, assemble, one_image};
pub use triples::Triples;
