//! The interrupts of all groups, updated in place.

ghost use Rattle.std.specs.Prelude.{◌≡◌, ◌<◌, length};
ghost use Rattle.intr_unit.specs.Interrupts.{reset_of, raised, after_read, after_write_one, after_mask_set, after_mask_clear, with_auto_clear, with_auto_mask, next_vector, after_message};
ghost use Rattle.intr_unit.specs.declared.group.Group.TheVariants.{Vf};
ghost use Rattle.register_file.specs.Groups.{index_of};
ghost use Rattle.register_file.specs.AllGroups.{IsOwn, at_group, with_group, all_reset};

use intr_unit::{Causes, Group};
use std::marker::Model;

/// The interrupts of the physical function and of each virtual function. A virtual function's number must be below 64
/// in every call.
#[derive(Drop)]
pub(crate) struct Groups {
    pf: Causes,
    vf: [Causes; 64],
}

impl Model for Groups {
    ghost use Rattle.register_file.specs.AllGroups.{AllGroups, AreNumbered};

    ghost Value = { AllGroups };

    ghost view = { λ a. record { pf = a.pf; vf = a.vf } };

    ghost invariant = { λ a. AreNumbered (record { pf = a.pf; vf = a.vf }) };
}

impl Groups {
    /// Returns all groups after a reset.
    pub(crate) fn new() -> Self
        ensures { result ≡ all_reset }
    {
        let mut vf = [Causes::new(Group::Vf(0)); 64];
        for v in 0..64u8 {
            vf[usize::from(v)] = Causes::new(Group::Vf(v));
        }
        Groups {
            pf: Causes::new(Group::Pf),
            vf,
        }
    }

    /// Returns a copy of all groups.
    pub(crate) fn copy(&self) -> Self
        ensures { result ≡ self.now }
    {
        Groups {
            pf: self.pf,
            vf: self.vf,
        }
    }

    /// Resets the group of a virtual function.
    pub(crate) fn renew(&mut self, v: u8)
        requires { v < 64 }
        ensures { self.new ≡ with_group self.old (Vf v) (reset_of (Vf v)) }
    {
        self.vf[usize::from(v)] = Causes::new(Group::Vf(v));
    }

    /// Borrows a group's interrupts. They are consistent, and each of their words has 32 bits.
    #[inline(always)]
    pub(crate) fn of(&self, group: Group) -> &Causes
        requires { index_of group < 64 }
        ensures value { result.now ≡ at_group self.now group }
        ensures own { IsOwn group result.now }
        ensures all { length self.now.vf ≡ 64 }
    {
        match group {
            Group::Pf => {
                has_own_words(&self.pf);
                &self.pf
            }
            Group::Vf(v) => {
                let causes = &self.vf[usize::from(v)];
                has_own_words(causes);
                causes
            }
        }
    }

    /// Raises causes in a group, with or without the group's auto-mask (`Causes::raise`).
    pub(crate) fn raise(&mut self, group: Group, bits: u32, auto: bool)
        requires { index_of group < 64 }
        ensures { self.new ≡ with_group self.old group (raised (at_group self.old group) bits auto) }
    {
        match group {
            Group::Pf => self.pf.raise(bits, auto),
            Group::Vf(v) => self.vf[usize::from(v)].raise(bits, auto),
        }
    }

    /// Applies the side effects of reading a group's cause register (`Causes::read`).
    pub(crate) fn read(&mut self, group: Group, ocd: bool, auto: bool)
        requires { index_of group < 64 }
        ensures { self.new ≡ with_group self.old group (after_read (at_group self.old group) ocd auto) }
    {
        let _word = match group {
            Group::Pf => self.pf.read(ocd, auto),
            Group::Vf(v) => self.vf[usize::from(v)].read(ocd, auto),
        };
    }

    /// Writes ones to a group's cause register (`Causes::write_one`).
    pub(crate) fn write_one(&mut self, group: Group, bits: u32, auto: bool)
        requires { index_of group < 64 }
        ensures { self.new ≡ with_group self.old group (after_write_one (at_group self.old group) bits auto) }
    {
        match group {
            Group::Pf => self.pf.write_one(bits, auto),
            Group::Vf(v) => self.vf[usize::from(v)].write_one(bits, auto),
        }
    }

    /// Sets masks in a group (`Causes::mask_set`).
    pub(crate) fn mask_set(&mut self, group: Group, bits: u32)
        requires { index_of group < 64 }
        ensures { self.new ≡ with_group self.old group (after_mask_set (at_group self.old group) bits) }
    {
        match group {
            Group::Pf => self.pf.mask_set(bits),
            Group::Vf(v) => self.vf[usize::from(v)].mask_set(bits),
        }
    }

    /// Clears masks in a group (`Causes::mask_clear`).
    pub(crate) fn mask_clear(&mut self, group: Group, bits: u32)
        requires { index_of group < 64 }
        ensures { self.new ≡ with_group self.old group (after_mask_clear (at_group self.old group) bits) }
    {
        match group {
            Group::Pf => self.pf.mask_clear(bits),
            Group::Vf(v) => self.vf[usize::from(v)].mask_clear(bits),
        }
    }

    /// Sets a group's auto-clear register. Bits that the group doesn't implement are dropped.
    pub(crate) fn set_auto_clear(&mut self, group: Group, word: u32)
        requires { index_of group < 64 }
        ensures { self.new ≡ with_group self.old group (with_auto_clear (at_group self.old group) word) }
    {
        match group {
            Group::Pf => self.pf.set_auto_clear(word),
            Group::Vf(v) => self.vf[usize::from(v)].set_auto_clear(word),
        }
    }

    /// Sets a group's auto-mask register. Bits that the group doesn't implement are dropped.
    pub(crate) fn set_auto_mask(&mut self, group: Group, word: u32)
        requires { index_of group < 64 }
        ensures { self.new ≡ with_group self.old group (with_auto_mask (at_group self.old group) word) }
    {
        match group {
            Group::Pf => self.pf.set_auto_mask(word),
            Group::Vf(v) => self.vf[usize::from(v)].set_auto_mask(word),
        }
    }

    /// Sends a group's next message. Returns the message's vector, or `None` if no bit is due.
    pub(crate) fn message(&mut self, group: Group, eiame: bool, misc: u32) -> Option<u8>
        requires { index_of group < 64 }
        ensures vector { result ≡ next_vector (at_group self.old group) misc }
        ensures state { self.new ≡ with_group self.old group (after_message (at_group self.old group) eiame misc) }
    {
        match group {
            Group::Pf => self.pf.message(eiame, misc),
            Group::Vf(v) => self.vf[usize::from(v)].message(eiame, misc),
        }
    }
}

/// States that a group is consistent and that each of its words has 32 bits. Does nothing at run time.
#[inline(always)]
fn has_own_words(causes: &Causes)
    ensures { IsOwn causes.now.group causes.now }
{
    let _causes = causes.causes();
    let _enabled = causes.enabled();
    let _auto_clear = causes.auto_clear();
    let _auto_mask = causes.auto_mask();
    let _reported = causes.reported();
}
