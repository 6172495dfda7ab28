//! What holds of every handle.

ghost use Rattle.std.specs.Thread.{IsSend};
ghost use Rattle.pocket_c.specs.contracts.held.Handle.{the_row};

/// A handle may pass from thread to thread between two calls, whatever it holds: what it owns says the same to each of them.
pub fn handles_pass_between_threads()
    ensures { IsSend the_row }
{}
