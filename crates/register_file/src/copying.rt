//! Copies of the registers.

ghost use Rattle.std.specs.Prelude.{◌≡◌};

use crate::register_file::RegisterFile;

impl RegisterFile {
    /// Returns a copy of all registers, including the enable requests and the causes that messages have reported.
    pub fn copy(&self) -> RegisterFile
        ensures { result ≡ self.now }
    {
        RegisterFile {
            cells: self.cells,
            settings: self.settings,
            groups: self.groups.copy(),
            receive: self.receive,
            transmit: self.transmit,
            counters: self.counters,
            tables: self.tables,
            mailboxes: self.mailboxes,
            key: self.key.copy(),
        }
    }

    /// Makes all registers copies of another file's, including the enable requests and the causes that messages have
    /// reported.
    pub fn copy_from(&mut self, other: &RegisterFile)
        ensures { self.new ≡ other.now }
    {
        self.cells = other.cells;
        self.settings = other.settings;
        self.groups = other.groups.copy();
        self.receive = other.receive;
        self.transmit = other.transmit;
        self.counters = other.counters;
        self.tables = other.tables;
        self.mailboxes = other.mailboxes;
        self.key.copy_from(&other.key);
    }
}
