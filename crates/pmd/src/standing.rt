ghost use Rattle.std.specs.Prelude.{◌≡◌, ◌<◌, ◌↔◌, IsTrue, All, slice_set};
ghost use Rattle.pmd.specs.Standing.{has_come, moved_to, with_one_at, HaveAllCome};

use crate::meeting::MAX_MEMBERS;

/// Where a member of a gate is.
#[derive(Clone, Copy)]
pub enum Standing {
    /// The member hasn't reached any point.
    Outside,
    /// The member waits at this point or has passed it.
    At(u8),
    /// The member has left the gate and doesn't return.
    Left,
}

impl Standing {
    /// Returns whether the member has reached a point or a later one, or has left.
    pub fn has_come(self, point: u8) -> bool
        ensures { result ≡ has_come point self }
    {
        match self {
            Standing::Outside => false,
            Standing::At(own) => point <= own,
            Standing::Left => true,
        }
    }

    /// Returns where the member is after it reaches a point. A member never goes back to an earlier point, and doesn't
    /// return after it has left.
    pub fn moved_to(self, point: u8) -> Standing
        ensures { result ≡ moved_to point self }
    {
        match self {
            Standing::Outside => Standing::At(point),
            Standing::At(own) => Standing::At(own.max(point)),
            Standing::Left => Standing::Left,
        }
    }
}

/// Where each member is.
#[derive(Drop)]
pub struct Standings {
    of: [Standing; MAX_MEMBERS],
}

impl Standings {
    /// Creates the standings in which no member has reached a point yet.
    pub fn new() -> Standings
        ensures { All (λ s. s ≡ Standing.Outside) result.of }
    {
        Standings {
            of: [Standing::Outside; MAX_MEMBERS],
        }
    }

    /// Records that a member has reached a point.
    pub fn come(&mut self, member: usize, point: u8)
        requires { member < 17 }
        ensures { self.new.of ≡ with_one_at member point self.old.of }
    {
        let standing = self.of[member];
        self.of[member] = standing.moved_to(point);
    }

    /// Records that a member has left the gate for good.
    pub fn leave(&mut self, member: usize)
        requires { member < 17 }
        ensures { self.new.of ≡ slice_set self.old.of member Standing.Left }
    {
        self.of[member] = Standing::Left;
    }

    /// Returns whether each of the first `members` members has reached a point or a later one, or has left.
    pub fn have_come(&self, members: usize, point: u8) -> bool
        ensures { IsTrue result ↔ HaveAllCome point members self.now.of }
    {
        self.of
            .iter()
            .take(members)
            .all(|standing| standing.has_come(point))
    }
}
