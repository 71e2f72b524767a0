use crate::{Gate, OpenGate, halves};
use std::sync::atomic::{AtomicU64, Ordering};
use std::test::Fail;

/// The number of turns that a blocked closure waits for the other one.
const TURNS: u32 = 50_000_000;

/// Holds each closure until both have arrived, for a stated number of turns.
#[derive(Drop)]
struct Meeting {
    arrived: AtomicU64,
    gave_up: AtomicU64,
}

impl Gate for Meeting {
    fn pass(&self, _node: usize) {
        self.arrived.fetch_add(1, Ordering::SeqCst);
        for _ in 0..TURNS {
            if self.arrived.load(Ordering::SeqCst) > 1 {
                return;
            }
        }
        self.gave_up.store(1, Ordering::SeqCst);
    }
}

fn passed(gate: &impl Gate, node: usize) -> usize {
    gate.pass(node);
    node
}

#[test]
fn two_pieces_meet(rt: HostRuntime) -> Result<(), Fail> {
    let gate = Meeting {
        arrived: AtomicU64::new(0),
        gave_up: AtomicU64::new(0),
    };
    assert_eq!(rt;
        halves(&rt, || passed(&gate, 3), || passed(&gate, 4)),
        (3, 4)
    );
    assert_eq!(rt; gate.gave_up.load(Ordering::SeqCst), 0);
    Ok(())
}

#[test]
fn an_open_gate_holds_nobody(rt: HostRuntime) -> Result<(), Fail> {
    assert_eq!(rt; halves(&rt, || passed(&OpenGate, 5), || 6u8), (5, 6));
    Ok(())
}
