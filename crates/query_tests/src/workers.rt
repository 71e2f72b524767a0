//! What runs the computations of the tests.
ghost use Rattle.std.specs.Prelude.{◌≤◌};

use std::alloc::AllocError;
use std::thread::Threads;
use work_gate::Gate;

/// What runs a computation: the runtime with its threads, the maximum number of pieces that run at once, and the gate
/// that is passed before the work on each node or document.
pub struct Workers<'a, R: Threads + Sync, G: Gate> {
    pub rt: &'a R,
    pub count: u8,
    pub gate: &'a G,
    ghost least: { 1 ≤ count },
    ghost most: { count ≤ 64 },
}

impl<'a, R: Threads + Sync, G: Gate> Clone for Workers<'a, R, G> {
    fn clone(&self) -> Result<Self, AllocError> {
        Ok(*self)
    }
}

impl<'a, R: Threads + Sync, G: Gate> Copy for Workers<'a, R, G> {}
