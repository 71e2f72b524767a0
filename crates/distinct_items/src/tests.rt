//! Equal items get one number, also where most items are in few buckets.

ghost use Rattle.std.specs.Int.{bit_at};
ghost use Rattle.std.specs.Prelude.{◌%◌, ◌^◌};

use crate::{Digested, DistinctItems};
use span_types::NoMemory;
use std::alloc::Global;
use std::test::Fail;

// A number that is in one of four buckets at most.
#[derive(Drop)]
struct Number(u32);

impl Digested for Number {
    ghost root = { λ roots x. x.0 % 4 % roots };

    ghost branch = { λ x depth. bit_at x.0 (depth % 32) };

    fn root(&self, roots: usize) -> usize {
        (self.0 % 4) as usize % roots
    }

    fn branch(&self, depth: usize) -> usize {
        (self.0 >> (depth % 32) as u32 & 1) as usize
    }

    fn is_same(&self, other: &Number) -> bool {
        self.0 == other.0
    }
}

// Inserts the numbers, and returns their indices.
fn inserted(
    alloc: Global,
    items: &mut DistinctItems<Number>,
    numbers: &[u32],
) -> Result<Vec<usize>, NoMemory> {
    let mut indices = Vec::new(alloc);
    for number in numbers {
        if items.len() < 1_000 {
            indices.push(items.insert(Number(*number))?)?;
        }
    }
    Ok(indices)
}

#[test]
fn equal_numbers_have_one_index(rt: HostRuntime) -> Result<(), Fail> {
    let mut items = DistinctItems::new(rt.alloc());
    let numbers = [
        7,
        3,
        7,
        11,
        3,
        0,
        4_000_000_000,
        11,
        8,
        12,
        16,
        20,
        24,
        28,
        32,
        36,
        40,
        44,
        48,
        52,
        12,
        52,
    ];
    let wanted = [
        0, 1, 0, 2, 1, 3, 4, 2, 5, 6, 7, 8, 9, 10, 11, 12, 13, 14, 15, 16, 6, 16,
    ];
    let indices = inserted(rt.alloc(), &mut items, &numbers)?;
    assert_eq!(rt; indices.as_slice(), wanted.as_slice());
    Ok(())
}
