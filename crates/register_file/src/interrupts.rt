//! Interrupts: accesses to the groups' registers, and the causes that queues raise.

ghost use Rattle.std.specs.Prelude.{◌≡◌, ◌<◌};
ghost use Rattle.intr_unit.specs.BitSet.{IsSubset};
ghost use Rattle.intr_unit.specs.Group.{group_bits};
ghost use Rattle.register_file.specs.Registers.{with_word};
ghost use Rattle.register_file.specs.Groups.{index_of, auto_clear_row, auto_mask_row, clears_others, masks_by_message, auto_masks, vector_row, vector_entry, causes_raised, queue_raised, message_of, message_made};
ghost use Rattle.register_file.specs.Access.{group_read, causes_written, masks_set, causes_set, masks_cleared};

use crate::register_file::RegisterFile;
use dma_ring::Dir;
use intr_unit::Group;
use reg_table::{Gpie, RowId, has_flag};

/// The number of bits in an IVAR or PVTIVAR word that name the cause for one side of a queue.
const ENTRY_BITS: u32 = 8;

/// The number of queues per IVAR or PVTIVAR word. Each queue has a receive byte followed by a transmit byte.
const QUEUES_IN_A_WORD: u16 = 2;

impl RegisterFile {
    /// Raises in a group the causes that are 1 in `bits`, as the device does. A virtual function's number must be below
    /// 64.
    pub fn raise(&mut self, group: Group, bits: u32)
        requires { index_of group < 64 }
        ensures { self.new ≡ causes_raised self.old group bits }
    {
        let _own = self.groups.of(group);
        self.groups.raise(group, bits, false);
    }

    /// Raises in a group the cause that is assigned to one side of a queue below `QUEUES`. Bits 5:0 of the side's byte
    /// name the cause; the byte is in IVAR, or in PVTIVAR for a virtual function's group. The cause is raised if bit 7
    /// of the byte is 1 and the cause is at most 15, or at most 2 in a virtual function's group. Otherwise, nothing is
    /// raised. A virtual function's number must be below 64.
    pub fn raise_queue(&mut self, group: Group, dir: Dir, queue: u16)
        requires queue { queue < 128 }
        requires group { index_of group < 64 }
        ensures { self.new ≡ queue_raised self.old group dir queue }
    {
        let causes = group.queue_causes(self.vector_entry(group, dir, queue));
        self.raise(group, causes);
    }

    /// Sends a group's next message. Returns the message's vector, 0 to 15, or `None` if no bit is due. A virtual
    /// function's number must be below 64.
    pub fn message(&mut self, group: Group) -> Option<u8>
        requires { index_of group < 64 }
        ensures vector { result ≡ message_of self.old group }
        ensures state { self.new ≡ message_made self.old group }
    {
        let eiame = self.masks_by_message();
        let misc = self.word(RowId::IvarMisc, 0);
        let _own = self.groups.of(group);
        self.groups.message(group, eiame, misc)
    }

    /// Applies the side effects of reading a group's cause register.
    pub(crate) fn read_causes(&mut self, group: Group)
        requires { index_of group < 64 }
        ensures { self.new ≡ group_read self.old group }
    {
        let ocd = self.clears_others();
        let auto = self.auto_masks(group);
        let _own = self.groups.of(group);
        self.groups.read(group, ocd, auto);
    }

    /// Writes a group's cause register: clears the causes that are 1 in `bits`.
    pub(crate) fn write_causes(&mut self, group: Group, bits: u32)
        requires { index_of group < 64 }
        ensures { self.new ≡ causes_written self.old group bits }
    {
        let auto = self.auto_masks(group);
        let _own = self.groups.of(group);
        self.groups.write_one(group, bits, auto);
    }

    /// Writes a group's mask register: sets the masks that are 1 in `bits`.
    pub(crate) fn set_masks(&mut self, group: Group, bits: u32)
        requires { index_of group < 64 }
        ensures { self.new ≡ masks_set self.old group bits }
    {
        let _own = self.groups.of(group);
        self.groups.mask_set(group, bits);
    }

    /// Writes a group's cause set register: sets the causes that are 1 in `bits`.
    pub(crate) fn set_causes(&mut self, group: Group, bits: u32)
        requires { index_of group < 64 }
        ensures { self.new ≡ causes_set self.old group bits }
    {
        let auto = self.auto_masks(group);
        let _own = self.groups.of(group);
        self.groups.raise(group, bits, auto);
    }

    /// Writes a group's mask clear register: clears the masks that are 1 in `bits`.
    pub(crate) fn clear_masks(&mut self, group: Group, bits: u32)
        requires { index_of group < 64 }
        ensures { self.new ≡ masks_cleared self.old group bits }
    {
        let _own = self.groups.of(group);
        self.groups.mask_clear(group, bits);
    }

    /// Stores a word in a group's auto-clear register. The word must have only bits that the group implements.
    pub(crate) fn set_auto_clear(&mut self, group: Group, word: u32)
        requires index { index_of group < 64 }
        requires bits { IsSubset word (group_bits group) }
        ensures { self.new ≡ with_word self.old (auto_clear_row group) (index_of group) word }
    {
        let _own = self.groups.of(group);
        self.groups.set_auto_clear(group, word);
    }

    /// Stores a word in a group's auto-mask register. The word must have only bits that the group implements.
    pub(crate) fn set_auto_mask(&mut self, group: Group, word: u32)
        requires index { index_of group < 64 }
        requires bits { IsSubset word (group_bits group) }
        ensures { self.new ≡ with_word self.old (auto_mask_row group) (index_of group) word }
    {
        let _own = self.groups.of(group);
        self.groups.set_auto_mask(group, word);
    }

    /// Whether reading EICR clears only the other causes (OCD, GPIE bit 5).
    fn clears_others(&self) -> bool
        ensures { result ≡ clears_others self.now }
    {
        has_flag(self.word(RowId::Gpie, 0), Gpie::OCD)
    }

    /// Whether the auto-mask acts on messages (EIAME, GPIE bit 30).
    fn masks_by_message(&self) -> bool
        ensures { result ≡ masks_by_message self.now }
    {
        has_flag(self.word(RowId::Gpie, 0), Gpie::EIAME)
    }

    /// Whether a group's auto-mask acts on register accesses.
    fn auto_masks(&self, group: Group) -> bool
        ensures { result ≡ auto_masks self.now group }
    {
        group.auto_mask_acts(self.masks_by_message())
    }

    /// Returns the byte of IVAR or PVTIVAR that names the cause for one side of a queue below `QUEUES` in a group.
    fn vector_entry(&self, group: Group, dir: Dir, queue: u16) -> u8
        requires { queue < 128 }
        ensures { result ≡ vector_entry self.now group dir queue }
    {
        let word = self.word(vector_row(group), queue / QUEUES_IN_A_WORD);
        let receive = 2 * ENTRY_BITS * u32::from(queue % QUEUES_IN_A_WORD);
        match dir {
            Dir::Rx => ((word >> receive) % 256) as u8,
            Dir::Tx => ((word >> (receive + ENTRY_BITS)) % 256) as u8,
        }
    }
}

/// Returns the row that assigns a group's causes to queues: IVAR or PVTIVAR.
fn vector_row(group: Group) -> RowId
    ensures { result ≡ vector_row group }
{
    match group {
        Group::Pf => RowId::Ivar,
        Group::Vf(_) => RowId::Pvtivar,
    }
}
