//! A gate that counts the threads that pass, and holds the first of two until the other has come.
use std::sync::atomic::{AtomicU64, Ordering};
use work_gate::Gate;

/// The maximum number of turns that the first thread waits for the other.
const TURNS: u32 = 50_000_000;

/// The number of threads that passed, the number of the two that have come, and the number of waits in vain.
#[derive(Drop)]
pub struct Meeting {
    two: Option<(usize, usize)>,
    passed: AtomicU64,
    arrived: AtomicU64,
    gave_up: AtomicU64,
}

impl Meeting {
    /// A gate for this pair of numbers. Without a pair no thread waits.
    pub fn new(two: Option<(usize, usize)>) -> Meeting {
        Meeting {
            two,
            passed: AtomicU64::new(0),
            arrived: AtomicU64::new(0),
            gave_up: AtomicU64::new(0),
        }
    }

    /// The numbers of threads that passed, arrived, and stopped waiting.
    pub fn counts(&self) -> (u64, u64, u64) {
        (
            self.passed.load(Ordering::SeqCst),
            self.arrived.load(Ordering::SeqCst),
            self.gave_up.load(Ordering::SeqCst),
        )
    }
}

impl Gate for Meeting {
    fn pass(&self, node: usize) {
        self.passed.fetch_add(1, Ordering::SeqCst);
        let is_held = match self.two {
            Some((left, right)) => node == left || node == right,
            None => false,
        };
        if !is_held {
            return;
        }
        self.arrived.fetch_add(1, Ordering::SeqCst);
        for _ in 0..TURNS {
            if self.arrived.load(Ordering::SeqCst) > 1 {
                return;
            }
        }
        self.gave_up.store(1, Ordering::SeqCst);
    }
}
