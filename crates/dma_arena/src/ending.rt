//! Values that remain when a program ends.

ghost use Rattle.std.specs.Prelude.{◌≡◌};

use std::mem::ManuallyDrop;

/// Abandons a value that can't be dropped and couldn't be ended, for example an arena with a missing block, and returns
/// the failure. The process leaks what the value owns: use this only when it is about to exit with a nonzero status.
pub fn leave<T, F>(value: T, failure: F) -> F
    ensures { result ≡ failure }
{
    // The value is moved in, so no code uses it again, and nothing else refers to what it owns.
    let _left = unsafe { ManuallyDrop::new_unchecked(value) };
    failure
}
