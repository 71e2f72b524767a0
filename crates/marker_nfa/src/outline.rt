//! The edges and ends of a formula's automaton.

ghost use Rattle.marker_nfa.specs.Parts.{IsOutline};
ghost use Rattle.marker_nfa.specs.Parts.{IsSmall};
ghost use Rattle.span_types.specs.FormulaTree.{tree_of, sets};
ghost use Rattle.std.specs.Prelude.{◌≤◌, IfOk};

use crate::lists::{Hop, push_at_start, push_hops, put_ends_in_order, put_in_order};
use crate::nfa::End;
use crate::parts::part_of;
use span_types::{ByteSet, Formula, NoMemory};
use std::alloc::Global;

/// The byte sets from the left, the edges without their byte sets, and the ends.
#[derive(Drop)]
pub struct Outline {
    pub letters: Vec<ByteSet>,
    pub hops: Vec<Hop>,
    pub ends: Vec<End>,
}

/// The byte sets, edges and ends of a formula.
///
/// # Errors
///
/// `NoMemory` if allocation fails.
pub fn outline_of(alloc: Global, formula: &Formula) -> Result<Outline, NoMemory>
    requires small { IsSmall (tree_of formula.now) }
    requires few { sets (tree_of formula.now) ≤ 512 }
    ensures { IfOk result (λ o. IsOutline (tree_of formula.now) o) }
{
    let mut letters = Vec::new(alloc);
    let mut hops = Vec::new(alloc);
    let part = part_of(alloc, formula, false, &mut letters, &mut hops)?;
    let start = End { state: 0, mark: 0 };
    push_hops(&mut hops, start, &part.firsts)?;
    put_in_order(&mut hops);
    let mut ends = part.lasts;
    push_at_start(&mut ends, &part.nulls)?;
    put_ends_in_order(&mut ends);
    Ok(Outline {
        letters,
        hops,
        ends,
    })
}
