//! Whether a task has a thread.

use std::sync::atomic::{AtomicU64, Ordering};

/// No attempt to create a thread has failed.
const OPEN: u64 = 0;
/// No thread could be created.
const REFUSED: u64 = 1;

/// Whether a task has a thread. The run waits for each thread that was created, however long the thread takes to begin.
#[derive(Drop)]
pub struct Start {
    word: AtomicU64,
}

impl Start {
    /// Creates a start for which no attempt to create a thread has failed.
    pub fn new() -> Start {
        Start {
            word: AtomicU64::new(OPEN),
        }
    }

    /// Records that no thread can be created.
    pub(crate) fn refuse(&self) {
        self.word.store(REFUSED, Ordering::SeqCst);
    }

    /// Returns whether no thread could be created for the task. The result is final when the host is called.
    pub fn is_missing(&self) -> bool {
        self.word.load(Ordering::SeqCst) == REFUSED
    }
}
