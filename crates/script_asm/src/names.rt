//! Names of labels and of data strings.

ghost use Rattle.std.specs.Prelude.{◌≡◌};
ghost use Rattle.script_asm.specs.Target.{name_in};

use crate::faults::LineFault;
use std::marker::Model;
use text_format::{NAME_LIMIT, is_name};

/// A name of at most 32 bytes. In contracts, a name is its bytes.
#[derive(Drop)]
pub(crate) struct Name<'a> {
    text: &'a str,
}

impl<'a> Model for Name<'a> {
    ghost use Rattle.std.specs.Prelude.{List, ℕ};

    ghost Value = { List ℕ };

    ghost view = { λ name. name.text.now };
}

impl<'a> Name<'a> {
    /// Returns the word as a name, or the fault if it isn't a name of at most 32 bytes.
    pub(crate) fn of(word: &'a str) -> Result<Name<'a>, LineFault>
        ensures { result ≡ name_in word.now }
    {
        if !is_name(word) {
            return Err(LineFault::Syntax);
        }
        if word.len() > NAME_LIMIT {
            return Err(LineFault::TooLong);
        }
        Ok(Name { text: word })
    }

    /// Returns the name as text.
    pub(crate) fn as_str(&self) -> &'a str
        ensures { result.now ≡ self.now }
    {
        self.text
    }
}
