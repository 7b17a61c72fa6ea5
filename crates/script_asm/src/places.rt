//! A table of names, with the numbers of labels and data strings.

ghost use Rattle.std.specs.Prelude.{◌≡◌, Ok};
ghost use Rattle.script_asm.specs.Fault.{Gives};
ghost use Rattle.script_asm.specs.Places.{nowhere, place_of, with_place};

use crate::faults::ScriptFault;
use crate::names::Name;
use std::alloc::Global;
use std::collections::BTreeMap;
use std::marker::Model;

/// A table of names with their numbers. A label's number is the number of the instruction after it, and a data name's
/// number is that of its data string. The time for a lookup is logarithmic in the number of names.
#[derive(Drop)]
pub(crate) struct Places<'a> {
    numbers: BTreeMap<&'a str, u16>,
}

impl<'a> Model for Places<'a> {
    ghost use Rattle.script_asm.specs.Places.{Places, places_code, shown};

    ghost Value = { Places };

    ghost coded = { places_code };

    ghost view = { λ a. shown a.numbers };
}

impl<'a> Places<'a> {
    /// Returns an empty table.
    pub(crate) fn new(alloc: Global) -> Places<'a>
        ensures { result ≡ nowhere }
    {
        Places {
            numbers: BTreeMap::new(alloc),
        }
    }

    /// Returns the number of a name, or `None` if the name isn't defined.
    pub(crate) fn place_of(&self, name: &Name<'_>) -> Option<u16>
        ensures { result ≡ place_of self.now name.now }
    {
        self.numbers.get(name.as_str()).copied()
    }

    /// Defines a name's number.
    pub(crate) fn add(&mut self, name: Name<'a>, number: u16) -> Result<(), ScriptFault>
        ensures { Gives (λ _. self.new) result (Ok (with_place self.old name.entry number)) }
    {
        self.numbers.insert(name.as_str(), number)?;
        Ok(())
    }
}
