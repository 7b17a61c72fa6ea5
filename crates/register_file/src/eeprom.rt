//! EERD: EEPROM read requests and their results.

ghost use Rattle.std.specs.Prelude.{◌≡◌, ◌<◌, IfSome};
ghost use Rattle.register_file.specs.Eeprom.{eeprom_asked, eeprom_answered};

use crate::register_file::RegisterFile;
use reg_table::{Eerd, RowId, has_flag};

/// The lowest bit of EERD's word index. `INDICES` is the number of indices.
const INDEX: u32 = 0x0000_0004;

const INDICES: u32 = 0x4000;

/// The lowest bit of EERD's data field.
const DATA: u32 = 0x0001_0000;

impl RegisterFile {
    /// Returns the index, below 16,384, of the EEPROM word that EERD requests: bits 15 to 2, if bit 0, START, is 1.
    /// Returns `None` if EERD requests no word.
    pub fn eeprom_asked(&self) -> Option<u16>
        ensures asked { result ≡ eeprom_asked self.now }
        ensures range { IfSome result (λ index. index < 16384) }
    {
        let word = self.word(RowId::Eerd, 0);
        if has_flag(word, Eerd::START) {
            Some((word / INDEX % INDICES) as u16)
        } else {
            None
        }
    }

    /// Stores the result of an EEPROM read in EERD. The index is unchanged, bits 31 to 16 hold the word (below 65,536),
    /// DONE becomes 1, and START becomes 0.
    pub fn answer_eeprom(&mut self, word: u16)
        ensures { self.new ≡ eeprom_answered self.old word }
    {
        let index = self.word(RowId::Eerd, 0) / INDEX % INDICES;
        self.set_word(
            RowId::Eerd,
            0,
            index * INDEX + Eerd::DONE.0 + u32::from(word) * DATA,
        );
    }
}
