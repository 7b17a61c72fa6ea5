//! Installs EEPROM images, either from the bytes of an image's file or from EEPROM source.

ghost use Rattle.std.specs.Prelude.{◌≡◌, ◌≢◌, ℕ, List, None, IsOkAnd};
ghost use Rattle.nic_device.specs.EepromImage.Bytes.{bytes_of};
ghost use Rattle.nic_device.specs.EepromImage.File.{file_fault};
ghost use Rattle.nic_device.specs.EepromImage.Image.{IsImage};
ghost use Rattle.nic_device.specs.EepromImage.Text.{sound_content, IsImageOf};
ghost use Rattle.card.specs.Card.{with_image};
ghost use Rattle.nic82599_c.specs.Images.{load_status, load_fault_status};
ghost use Rattle.nic82599_c.specs.Images.{text_status, text_line, text_fault_status, line_of};
ghost use Rattle.nic82599_c.specs.Images.{content_status, content_line};

use crate::handle::Handle;
use crate::status::{DONE, OUT_OF_MEMORY};
use card::Card;
use nic_device::{AsmFault, LoadFault, assemble, load};
use std::alloc::Global;

/// The base of the statuses for a refused image: the status is this base plus the fault's number.
pub const IMAGE: u8 = 64;

/// The base of the statuses for refused EEPROM source: the status is this base plus the fault's number.
pub const TEXT: u8 = 96;

/// The fault's number if the EEPROM source isn't UTF-8.
pub const NOT_UTF8: u8 = 6;

/// Returns the status for bytes that aren't an image.
fn status_of_load(fault: LoadFault) -> u8
    ensures { result ≡ load_fault_status fault }
{
    match fault {
        LoadFault::OddLength => IMAGE + 1,
        LoadFault::BadSize => IMAGE + 2,
        LoadFault::SectionOutside => IMAGE + 3,
        LoadFault::BadChecksum => IMAGE + 4,
        LoadFault::NotTriples => IMAGE + 5,
        LoadFault::OutOfMemory => OUT_OF_MEMORY,
    }
}

/// Returns the status for EEPROM source that doesn't describe an image.
fn status_of_text(fault: AsmFault) -> u8
    ensures { result ≡ text_fault_status fault }
{
    match fault {
        AsmFault::Syntax(_) => TEXT + 1,
        AsmFault::TwoValues(_) => TEXT + 2,
        AsmFault::Reserved(_) => TEXT + 3,
        AsmFault::DoesNotFit => TEXT + 4,
        AsmFault::PointerOutside => TEXT + 5,
        AsmFault::OutOfMemory => OUT_OF_MEMORY,
    }
}

/// Returns the line or index that a fault in EEPROM source reports, or 0 if the fault reports neither.
fn line_of(fault: AsmFault) -> u64
    ensures { result ≡ line_of fault }
{
    match fault {
        AsmFault::Syntax(line) => line as u64,
        AsmFault::TwoValues(index) | AsmFault::Reserved(index) => u64::from(index),
        AsmFault::DoesNotFit | AsmFault::PointerOutside | AsmFault::OutOfMemory => 0,
    }
}

/// Installs the EEPROM image whose file has these bytes. Returns DONE, IMAGE plus the fault's number, or OUT_OF_MEMORY.
/// Unless the result is DONE, the old image stays installed.
#[unsafe(no_mangle)]
pub extern "C" fn nic_install_image(alloc: Global, nic: &mut Handle, bytes: &[u8]) -> u8
    ensures status { result ≢ OUT_OF_MEMORY → result ≡ load_status (file_fault bytes.now) }
    ensures image { result ≡ DONE → (image : List ℕ) × IsImage image × (bytes.now ≡ bytes_of image)
        × (nic.new.card ≡ with_image nic.old.card image) }
    // OUT_OF_MEMORY is returned only if the file has no fault.
    ensures memory { result ≡ OUT_OF_MEMORY → file_fault bytes.now ≡ None }
    ensures unchanged { result ≢ DONE → nic.new.card ≡ nic.old.card }
{
    match load(alloc, bytes) {
        Ok(image) => {
            nic.get_mut().install(image);
            DONE
        }
        Err(fault) => status_of_load(fault),
    }
}

/// Installs the image that EEPROM source describes.
fn install_text(alloc: Global, card: &mut Card, text: &str, line: &mut u64) -> u8
    ensures status { result ≢ OUT_OF_MEMORY → result ≡ content_status (sound_content text.now) }
    ensures line { result ≢ OUT_OF_MEMORY → line.new ≡ content_line (sound_content text.now) }
    ensures image { result ≡ DONE → (image : List ℕ)
        × IsOkAnd (sound_content text.now) (λ content. IsImageOf content image)
        × (card.new ≡ with_image card.old image) }
    ensures unchanged { result ≢ DONE → card.new ≡ card.old }
{
    match assemble(alloc, text) {
        Ok(image) => {
            card.install(image);
            *line = 0;
            DONE
        }
        Err(fault) => {
            *line = line_of(fault);
            status_of_text(fault)
        }
    }
}

/// Installs the image that EEPROM source describes. Returns DONE, TEXT plus the fault's number (6 if the source isn't
/// UTF-8), or OUT_OF_MEMORY. Unless the result is DONE, the old image stays installed. `line` is set to the fault's
/// line or index, or to 0 after DONE or if the fault has neither. The contract specifies neither when OUT_OF_MEMORY is
/// returned nor the value of `line` after OUT_OF_MEMORY.
#[unsafe(no_mangle)]
pub extern "C" fn nic_install_text(
    alloc: Global,
    nic: &mut Handle,
    text: &[u8],
    line: &mut u64,
) -> u8
    ensures status { result ≢ OUT_OF_MEMORY → result ≡ text_status text.now }
    ensures line { result ≢ OUT_OF_MEMORY → line.new ≡ text_line text.now }
    ensures image { result ≡ DONE → (image : List ℕ)
        × IsOkAnd (sound_content text.now) (λ content. IsImageOf content image)
        × (nic.new.card ≡ with_image nic.old.card image) }
    ensures unchanged { result ≢ DONE → nic.new.card ≡ nic.old.card }
{
    match str::from_utf8(text) {
        Ok(text) => install_text(alloc, nic.get_mut(), text, line),
        Err(_) => {
            *line = 0;
            TEXT + NOT_UTF8
        }
    }
}
