//! What commands use apart from the session's state.
ghost use Rattle.std.specs.Prelude.{◌≤◌};

use std::alloc::AllocError;
use std::thread::Threads;
use work_gate::Gate;

/// What the caller provides: the runtime whose threads compute tables, the maximum number of pieces that run at once,
/// and the gate that is passed before the work on each node or document.
pub struct Lent<'a, R: Threads + Sync, G: Gate> {
    pub rt: &'a R,
    pub workers: u8,
    pub gate: &'a G,
    ghost least: { 1 ≤ workers },
    ghost most: { workers ≤ 64 },
}

impl<'a, R: Threads + Sync, G: Gate> Clone for Lent<'a, R, G> {
    fn clone(&self) -> Result<Self, AllocError> {
        Ok(*self)
    }
}

impl<'a, R: Threads + Sync, G: Gate> Copy for Lent<'a, R, G> {}

/// The context of a line: what the caller provides, and the line's number.
pub struct Context<'a, R: Threads + Sync, G: Gate> {
    pub lent: Lent<'a, R, G>,
    pub number: u64,
}

impl<'a, R: Threads + Sync, G: Gate> Clone for Context<'a, R, G> {
    fn clone(&self) -> Result<Self, AllocError> {
        Ok(*self)
    }
}

impl<'a, R: Threads + Sync, G: Gate> Copy for Context<'a, R, G> {}
