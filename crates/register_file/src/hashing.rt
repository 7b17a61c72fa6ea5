//! The receive side scaling hash and the redirection table.

ghost use Rattle.std.specs.Prelude.{◌≡◌, ◌≤◌, length};
ghost use Rattle.reg_table.specs.declared.rows.RowId.TheVariants.{Reta, Rssrk};
ghost use Rattle.register_file.specs.Words.{row_words};
ghost use Rattle.rss_hash.specs.Registers.{bytes_of_registers};
ghost use Rattle.rss_hash.specs.Toeplitz.{toeplitz_hash};

use crate::register_file::RegisterFile;

impl RegisterFile {
    /// Returns the 32 words of the redirection table, RETA.
    #[inline(always)]
    pub fn redirection(&self) -> &[u32; 32]
        ensures { result.now ≡ row_words self.now.words Reta }
    {
        &self.tables.reta
    }

    /// Returns the Toeplitz hash of an input of at most 36 bytes, using the key in RSSRK.
    pub fn hash(&self, input: &[u8]) -> u32
        requires { length input.now ≤ 36 }
        ensures { result ≡ toeplitz_hash (bytes_of_registers (row_words self.now.words Rssrk)) input.now }
    {
        self.key.hash(input)
    }
}
