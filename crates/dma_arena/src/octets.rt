ghost use Rattle.std.specs.Prelude.{◌≡◌, ◌≤◌, [], length};
ghost use Rattle.std.specs.Vec.{vec_capacity};

use std::marker::Model;

/// Stored bytes, for example those of a frame. In contracts, an `Octets` is a list of bytes.
#[derive(Debug, Drop)]
pub struct Octets {
    bytes: Vec<u8>,
}

impl Model for Octets {
    ghost use Rattle.std.specs.Prelude.{List, ℕ};

    ghost Value = { List ℕ };

    ghost view = { λ o. o.bytes.items };
}

impl Octets {
    /// Takes over a vector's bytes without copying them.
    pub fn of(bytes: Vec<u8>) -> Octets
        ensures { result ≡ bytes.items }
    {
        Octets { bytes }
    }

    /// Copies the bytes into the empty vector `room`, which must have room for them. Allocates nothing.
    pub fn copied(bytes: &[u8], mut room: Vec<u8>) -> Octets
        requires empty { room.items ≡ [] }
        requires room { length bytes.now ≤ vec_capacity room }
        ensures { result ≡ bytes.now }
    {
        match room.extend_from_slice(bytes) {
            Ok(()) => Octets::of(room),
            Err(_) => unreachable!(),
        }
    }

    /// Returns the bytes, in order.
    pub fn bytes(&self) -> &[u8]
        ensures { result.now ≡ self.now }
    {
        self.bytes.as_slice()
    }

    /// Returns the bytes as a vector without copying them.
    pub fn into_vec(self) -> Vec<u8>
        ensures { result.items ≡ self }
    {
        let Octets { bytes: vector } = self;
        vector
    }
}

impl PartialEq for Octets {
    ghost use Rattle.std.specs.Prelude.{◌==◌};
    ghost use Rattle.std.specs.Cmp.Rules.{comparing};
    ghost use Rattle.std.proofs.Common.{rules};
    ghost use lib.Pointwise.{pointwise};

    // Two values are equal if they have the same bytes in the same order.
    ghost eq = { pointwise ◌==◌ };

    ghost laws = { Prim.search (comparing, rules) };

    fn eq(&self, other: &Octets) -> bool {
        self.bytes() == other.bytes()
    }
}
