//! Tasks on their own threads. A thread is either created or refused, and `spawn_with` reports which.

ghost use Rattle.std.specs.Prelude.{◌≡◌, true, IfOk, IfErr, length, vec_len, All};
ghost use Rattle.std.specs.Mem.{manually_drop_value};
ghost use Rattle.pmd.specs.TaskCells.{waits, EachEnded};

use crate::cell::{Task, TaskCell, put, take};
use crate::start::Start;
use std::mem::ManuallyDrop;
use std::snapshot::Snapshot;
use std::sync::Wait;
use std::thread;
use std::thread::{Promise, PromisedHandle, Scope, Threads};

/// States that a thread returns a result that this task may return.
#[derive(Drop)]
struct EndOf<T>(Snapshot<T>);

impl<E, T: Task<E>> Promise<ManuallyDrop<E>> for EndOf<T> {
    ghost use Rattle.std.specs.Mem.{manually_drop_value};

    ghost kept_by = { λ promise end. T.ends promise.0.value (manually_drop_value end) };
}

/// A thread that runs a task, or the task's result if no thread could be created.
type Seat<E, T> = Result<PromisedHandle<ManuallyDrop<E>, EndOf<T>>, ManuallyDrop<E>>;

/// Wraps a value for its transfer to a thread or back. The value must be droppable during the transfer, but a task and
/// its result might not be. `ManuallyDrop::into_inner` unwraps it.
fn on_its_way<T>(value: T) -> ManuallyDrop<T>
    ensures { manually_drop_value result ≡ value }
{
    // The code that joins the thread, or gets the closure back, unwraps the value.
    unsafe { ManuallyDrop::new_unchecked(value) }
}

/// Runs a task, or gives the task up if it has no thread.
fn work<E, T: Task<E>>(start: &Start, task: ManuallyDrop<T>) -> ManuallyDrop<E>
    ensures { T.ends (manually_drop_value task) (manually_drop_value result) }
{
    let task = ManuallyDrop::into_inner(task);
    let end = if start.is_missing() {
        task.give_up()
    } else {
        task.run()
    };
    on_its_way(end)
}

/// Runs a task on its own thread. If no thread can be created, gives the task up immediately.
fn begin<'s, V: 's, E: Send + 's, T: Task<E> + Send + 's>(
    scope: &Scope<'s, V>,
    start: &'s Start,
    task: T,
) -> Seat<E, T>
    ensures made { IfOk result (λ thread. thread.promise.0.value ≡ task) }
    ensures refused { IfErr result (λ end. T.ends task (manually_drop_value end)) }
{
    let promise = EndOf(Snapshot::of(&task));
    let task = on_its_way(task);
    match scope.spawn_with(
        promise,
        move || -> ManuallyDrop<E>
            ensures { T.ends (manually_drop_value task) (manually_drop_value result) }
        { work(start, task) },
    ) {
        Ok(thread) => Ok(thread),
        Err(refused) => {
            start.refuse();
            Err((refused.value)())
        }
    }
}

/// Returns the result of a task. If the task has a thread, waits until the thread has returned the result.
fn finish<R: Threads, E, T: Task<E>>(rt: &R, seat: Seat<E, T>) -> E
    ensures made { IfOk seat (λ thread. T.ends thread.promise.0.value result) }
    ensures refused { IfErr seat (λ end. manually_drop_value end ≡ result) }
{
    let end = match seat {
        Ok(thread) => thread.join(rt),
        Err(end) => end,
    };
    ManuallyDrop::into_inner(end)
}

/// Runs the task in each cell. Calls the host after each task has a thread or was given up.
fn run_cells<'s, V: 's, R: Threads, E: Send + 's, T: Task<E> + Send + 's, H: FnMut()>(
    rt: &R,
    scope: &Scope<'s, V>,
    starts: &'s [Start],
    host: &mut H,
    cells: &mut [TaskCell<T, E>],
)
    requires waits { All (λ s. waits s ≡ true) cells.old }
    requires starts { length starts.now ≡ length cells.old }
    requires host { H.pre host.old }
    ensures ended { EachEnded T.ends cells.old cells.new }
    ensures host { H.step host.old tt host.new }
{
    match (starts.split_first(), cells.split_first_mut()) {
        (Some((start, later)), Some((cell, others))) => {
            let seat = begin(scope, start, take(cell));
            run_cells(rt, scope, later, host, others);
            put(cell, finish(rt, seat));
        }
        _ => host(),
    }
}

/// Takes a `&mut` back at the end of a loan and leaves the value unchanged.
fn end_loan<L>(lent: &mut L)
    ensures { lent.new ≡ lent.old }
{}

/// Runs the task in each cell on its own thread, and calls the host on this thread in the meantime.
///
/// `run` waits for each thread that was created, however long the thread takes to begin. If no thread can be created,
/// the task is given up before the host is called, and from then on the task's `Start` says so. The clauses promise
/// that each task ends with a result that it may return, and that the host was called. They promise nothing about
/// threads.
pub fn run<R: Threads + Wait, E: Send, T: Task<E> + Send, H: FnMut()>(
    rt: &R,
    starts: &[Start],
    host: &mut H,
    cells: &mut Vec<TaskCell<T, E>>,
)
    requires waits { All (λ s. waits s ≡ true) cells.old.items }
    requires starts { length starts.now ≡ vec_len cells.old }
    requires host { H.pre host.old }
    ensures ended { EachEnded T.ends cells.old.items cells.new.items }
    ensures same { vec_len cells.new ≡ vec_len cells.old }
    ensures host { H.step host.old tt host.new }
{
    let (host, cells) = thread::scope(
        thread::scope_env(),
        rt,
        // Returning the `&mut` lets the prover know what was written through it.
        |scope| -> (&mut H, &mut Vec<TaskCell<T, E>>)
            requires { All (λ s. waits s ≡ true) cells.now.items × (length starts.now ≡ vec_len cells.now)
                × H.pre host.now }
            ensures loan_of_host { result.0.ghost_name ≡ host.entry.ghost_name }
            ensures host { H.step host.entry.now tt result.0.now }
            ensures loan_of_cells { result.1.ghost_name ≡ cells.entry.ghost_name }
            ensures ended { EachEnded T.ends cells.entry.now.items result.1.now.items }
            ensures same { vec_len result.1.now ≡ vec_len cells.entry.now }
        {
            run_cells(rt, scope, starts, host, cells);
            (host, cells)
        },
    );
    end_loan(host);
    end_loan(cells);
}
