//! Tests of a single call with an allocation that fails.

use std::alloc::Global;
use std::process::Abort;
use std::sync::Wait;

/// A call with everything that it needs.
pub trait Trial {
    /// Makes the call. If the call was refused for lack of memory, returns `false`, and all moved values are back in
    /// `self`.
    fn call<R: Abort + Wait>(&mut self, rt: &R, alloc: Global) -> bool;

    /// Returns a checksum of everything that a refused call must leave unchanged, including the moved values.
    fn picture<R: Abort>(&mut self, rt: &R) -> u64;

    /// Ends everything, and returns a checksum of the results.
    fn end<R: Abort + Wait>(self, rt: &R, alloc: Global) -> u64;
}

/// Makes a call that may be refused for lack of memory. Checks that the results are the same as for the same call
/// without a refusal.
pub fn tried<R: Abort + Wait + Print, T: Trial>(rt: &R, alloc: Global, subject: T, calm: T) {
    let (mut subject, mut calm) = (subject, calm);
    let before = subject.picture(rt);
    let _reported = println!(rt; "call");
    let made = subject.call(rt, alloc);
    let _reported = println!(rt; "end");
    if !made {
        assert!(rt;
            subject.picture(rt) == before,
            "a refused call changed something"
        );
        assert!(rt; subject.call(rt, alloc), "with memory the call is refused");
    }
    assert!(rt; calm.call(rt, alloc), "the call is refused");
    let (ends, wanted) = (subject.end(rt, alloc), calm.end(rt, alloc));
    assert!(rt; ends == wanted, "it ends otherwise");
}

/// A call that creates something new and changes nothing else.
pub trait Maker: Drop {
    /// Returns a checksum of the value that the call creates, or `None` if the call was refused for lack of memory.
    fn make<R: Abort>(&self, rt: &R, alloc: Global) -> Option<u64>;

    /// Returns a checksum of the call's input.
    fn picture(&self) -> u64;
}

/// A `Maker`'s call, and a checksum of its result.
#[derive(Drop)]
struct Making<M> {
    maker: M,
    sum: u64,
}

impl<M: Maker> Trial for Making<M> {
    fn call<R: Abort + Wait>(&mut self, rt: &R, alloc: Global) -> bool {
        match self.maker.make(rt, alloc) {
            Some(sum) => {
                self.sum = sum;
                true
            }
            None => false,
        }
    }

    fn picture<R: Abort>(&mut self, _rt: &R) -> u64 {
        self.maker.picture()
    }

    fn end<R: Abort + Wait>(self, _rt: &R, _alloc: Global) -> u64 {
        self.sum ^ self.maker.picture()
    }
}

/// Creates something with a call that may be refused for lack of memory. Checks that the same call without a refusal
/// has the same result.
pub fn makes<R: Abort + Wait + Print, M: Maker>(rt: &R, alloc: Global, subject: M, calm: M) {
    let subject = Making {
        maker: subject,
        sum: 0,
    };
    let calm = Making {
        maker: calm,
        sum: 0,
    };
    tried(rt, alloc, subject, calm);
}
