//! The link, and the frames transmitted on it.

ghost use Rattle.std.specs.Prelude.{◌≡◌};
ghost use Rattle.nic_device.specs.Link.{link_set, collected};

use crate::engine::Engine;
use crate::event::Reply;
use register_file::Group;

/// EICR link status change: the link went up or down.
const LINK_CHANGE: u32 = 0x0010_0000;

impl Engine {
    /// Sets the link up or down. A change raises the link status change cause.
    #[inline(never)]
    pub(crate) fn set_link(&mut self, up: bool) -> Reply
        ensures reply { result ≡ (link_set self.old up).reply }
        ensures state { self.new ≡ (link_set self.old up).state }
    {
        if self.link == up {
            return Reply::Idle;
        }
        self.link = up;
        self.registers.raise(Group::Pf, LINK_CHANGE);
        Reply::Done
    }

    /// Collects the oldest transmitted frame.
    #[inline(always)]
    pub(crate) fn collect(&mut self) -> Reply
        ensures reply { result ≡ (collected self.old).reply }
        ensures state { self.new ≡ (collected self.old).state }
    {
        match self.out.pop_front() {
            Some((queue, bytes)) => Reply::Frame {
                queue: u16::from(queue),
                bytes,
            },
            None => Reply::Idle,
        }
    }
}
