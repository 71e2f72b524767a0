//! Two closures run at once, and a gate: an observer of the work that begins.
//!
//! ```text
//! let (low, high) = halves(&rt, || sum(&list[..middle]), || sum(&list[middle..]));
//! gate.pass(7);                                            // the work on node 7 begins
//! ```
//!
//! `halves` is a fork and a join (as in M. Conway, *A multiprocessor system design*, 1963): it starts a thread for one
//! closure, runs the other on the calling thread, and returns both results. If no thread can be started, it runs one
//! after the other, so it returns no error. A call costs the start of a thread, so the closures should take much longer
//! than that.
//!
//! A gate sees the indices of the nodes or documents at which work begins and returns nothing, so no result depends on
//! it. `OpenGate` does nothing; tests have gates that hold a thread until another has come, and so show that two run at
//! once.
//!
//! Proved: Both pieces return their results (`halves`).
//!
//! Tested: Two workers run at once.
//!
//! Neither: Speed.
#![tactic(auto)]

#[cfg(test)]
mod tests;

use std::thread;
use std::thread::Threads;

/// An observer that is called before the work on each item begins, on the thread that does this work. `table_grow`
/// calls it for each node that gets a table, before the table is looked up or computed. `list_all` calls it for each
/// document.
///
/// `pass` has no effect on any result: it returns nothing, and only sees the item's index. A gate can count, print or
/// hold a thread for a while. Tests do the last to show that two threads run.
pub trait Gate: Sync {
    /// The work on the item with this index begins.
    fn pass(&self, node: usize);
}

/// A gate that returns at once.
#[derive(Clone, Copy, Debug)]
pub struct OpenGate;

impl Gate for OpenGate {
    fn pass(&self, _node: usize) {}
}

/// The results of two closures. They run at once if a second thread can be started, and otherwise one after the other
/// on this thread. It returns no error, and only after both are done.
pub fn halves<
    R: Threads + Sync,
    A: Send,
    B: Send,
    FA: FnOnce() -> A + Send,
    FB: FnOnce() -> B + Send,
>(rt: &R, left: FA, right: FB) -> (A, B)
    requires { FA.pre left × FB.pre right }
    ensures first { FA.post left result.0 }
    ensures second { FB.post right result.1 }
{
    thread::join(rt, left, right)
}
