//! The EEPROM image, the EEPROM step, and the register writes from the image that a reset performs.

ghost use Rattle.std.specs.Prelude.{◌≡◌, take};
ghost use Rattle.eeprom_image.specs.Triples.{triples_of};
ghost use Rattle.nic_device.specs.Eeprom.{is_stepped_over, with_triple, with_triples, eeprom_stepped};

use crate::engine::Engine;
use crate::event::Reply;
use eeprom_image::Image;
use register_file::{RowId, resolve};
use std::mem;

impl Engine {
    /// Installs an image and returns the old one.
    pub(crate) fn install(&mut self, image: Image) -> Image
        ensures former { result ≡ self.old.image }
        ensures installed { self.new ≡ record self.old { image = image } }
    {
        mem::replace(&mut self.image, image)
    }

    /// Runs an EEPROM step: puts the word that EERD requests into EERD and sets EERD's done bit.
    #[inline(never)]
    pub(crate) fn read_eeprom(&mut self) -> Reply
        ensures reply { result ≡ (eeprom_stepped self.old).reply }
        ensures state { self.new ≡ (eeprom_stepped self.old).state }
    {
        if self.registers.is_stopped() {
            return Reply::Idle;
        }
        let Some(index) = self.registers.eeprom_asked() else {
            return Reply::Idle;
        };
        let word = self.image.word(usize::from(index));
        self.registers.answer_eeprom(word);
        Reply::Done
    }

    /// Performs the register writes that the image contains, in order.
    pub(crate) fn apply_image(&mut self)
        ensures { self.new ≡ with_triples self.old (triples_of self.old.image) }
    {
        for index in 0..self.image.triple_count() {
            if let Some((address, word)) = self.image.triple(index) {
                self.apply_triple(address, word);
            }
        }
    }

    /// Performs one register write from the image. Skips a write to CTRL, to EERD or to an address without a register.
    fn apply_triple(&mut self, address: u32, word: u32)
        ensures { self.new ≡ with_triple self.old (address, word) }
    {
        let Some(access) = resolve(address) else {
            return;
        };
        if !is_stepped_over(access.place.row) {
            self.write_below_reset(access.place, access.view, word);
        }
    }
}

/// Whether the image's writes to this register are skipped.
fn is_stepped_over(row: RowId) -> bool
    ensures { result ≡ is_stepped_over row }
{
    matches!(row, RowId::Ctrl | RowId::Eerd)
}
