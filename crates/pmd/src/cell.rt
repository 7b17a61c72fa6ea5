ghost use Rattle.std.specs.Prelude.{◌≡◌, true};
ghost use Rattle.pmd.specs.TaskCells.{waits};

use std::mem;

/// A task to run on its own thread, with a result.
pub trait Task<E> {
    /// The results that the task may return.
    ghost ends: { Self → E → Type 0 };

    /// Runs the task and returns its result.
    fn run(self) -> E
        ensures { ends self result };

    /// Gives the task up if no thread was created for it. Returns the task's result.
    fn give_up(self) -> E
        ensures { ends self result };
}

/// A cell that holds a task, then the task's result.
#[derive(Drop)]
pub enum TaskCell<T, E> {
    /// The task hasn't run yet.
    Waits(T),
    /// The task has ended with this result.
    Ended(E),
    /// Empty: the task is running.
    Empty,
}

/// Takes the task out of its cell.
pub(crate) fn take<T, E>(cell: &mut TaskCell<T, E>) -> T
    requires { waits cell.old ≡ true }
    ensures task { cell.old ≡ TaskCell.Waits result }
    ensures empty { cell.new ≡ TaskCell.Empty }
{
    match mem::replace(cell, TaskCell::Empty) {
        TaskCell::Waits(task) => task,
        TaskCell::Ended(_end) => unreachable!(),
        TaskCell::Empty => unreachable!(),
    }
}

/// Stores a task's result in its empty cell.
pub(crate) fn put<T, E>(cell: &mut TaskCell<T, E>, end: E)
    requires { cell.old ≡ TaskCell.Empty }
    ensures { cell.new ≡ TaskCell.Ended end }
{
    match mem::replace(cell, TaskCell::Ended(end)) {
        TaskCell::Empty => {}
        TaskCell::Waits(_task) => unreachable!(),
        TaskCell::Ended(_end) => unreachable!(),
    }
}
