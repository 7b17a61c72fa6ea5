ghost use Rattle.std.specs.Prelude.{◌≡◌, ◌<◌, ◌≤◌, false, nat_lt};
ghost use Rattle.std.specs.Sync.Mutex.{mutex_guard_value};
ghost use Rattle.pmd.specs.Standing.{HaveAllCome};

use crate::gate::Gate;
use crate::standing::Standings;
use std::marker::Model;
use std::sync::{Condvar, Mutex, MutexGuard, Wait};

/// The maximum number of members at a gate.
pub const MAX_MEMBERS: usize = 17;

/// A gate with at most 17 members, which are numbered from 0. Contracts describe a `Lockstep` by its number of members.
///
/// A member that reaches a point waits until every member that hasn't left has reached that point or a later one. The
/// contracts don't specify this wait; tests check it.
#[derive(Drop)]
pub struct Lockstep<'a, R> {
    rt: &'a R,
    members: usize,
    standings: Mutex<Standings>,
    moved: Condvar,
}

impl<'a, R> Model for Lockstep<'a, R> {
    ghost use Rattle.std.specs.Prelude.{ℕ, ◌≤◌};

    ghost Value = { ℕ };

    ghost view = { λ g. g.members };

    ghost invariant = { λ g. g.members ≤ 17 };
}

impl<'a, R> Lockstep<'a, R> {
    /// Creates a gate with `members` members. None of them has reached a point yet.
    pub fn new(rt: &'a R, members: usize) -> Self
        requires { members ≤ 17 }
        ensures { result ≡ members }
    {
        Lockstep {
            rt,
            members,
            standings: Mutex::new(Standings::new()),
            moved: Condvar::new(),
        }
    }
}

impl<'a, R: Wait> Lockstep<'a, R> {
    /// Records that a member has reached a point, and wakes the waiting members to check again.
    fn come(&self, member: usize, point: u8)
        requires { member < self.now }
    {
        self.standings.lock(self.rt).come(member, point);
        self.moved.notify_all();
    }

    /// Waits until each member has reached a point or a later one, or has left. Returns with the lock held; the state
    /// under the lock shows that each member has reached the point or has left.
    fn wait(&self, point: u8) -> MutexGuard<'_, Standings>
        ensures { HaveAllCome point self.now (mutex_guard_value result).of }
    {
        let members = self.members;
        self.moved
            .wait_while(self.rt, self.standings.lock(self.rt), |standings| {
                !standings.have_come(members, point)
            })
    }
}

impl<'a, R: Wait> Gate for Lockstep<'a, R> {
    ghost shuts = { λ members worker. members ≤ worker };

    /// Returns false exactly if the worker isn't a member. Nobody waits for such a worker, and it doesn't wait for
    /// anybody.
    fn pass(&self, worker: usize, point: u8) -> bool
        ensures shut { result ≡ false → self.now ≤ worker }
        // The gate lets every member pass every point, and nobody else.
        ensures lets_on { result ≡ nat_lt worker self.now }
    {
        if worker >= self.members {
            return false;
        }
        self.come(worker, point);
        let _held = self.wait(point);
        true
    }

    /// Does nothing if the worker isn't a member.
    fn leave(&self, worker: usize) {
        if worker < self.members {
            self.standings.lock(self.rt).leave(worker);
            self.moved.notify_all();
        }
    }
}
