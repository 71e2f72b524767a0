//! The tables of the new nodes of one height, computed in pieces at once from finished tables.

ghost use Rattle.std.specs.Prelude.{◌≡◌, ◌+◌, ◌<◌, ◌^◌, ◌++◌, All, length, map, IfOk, IfSome};
ghost use Rattle.std.specs.Thread.{IsSync};
ghost use Rattle.table_grow.specs.Filling.{AreParts, IsDue, IsReady, filling_of};
ghost use Rattle.table_grow.specs.Pieces.{AreMade, AreOwn, Extends, IsAdded, IsPiece, IsSpot, IsWithin, shifted};

use crate::filling::{Finder, Growth};
use crate::found::Made;
use node_store::NodeId;
use pair_memo::PairCache;
use span_types::NoMemory;
use std::thread::Threads;
use work_gate::{Gate, halves};

/// Where the table of a node is: among the kept tables, by its number, or among those that were computed, by its index.
#[derive(Clone, Copy)]
pub enum Spot {
    Kept(usize),
    Made(usize),
}

/// For some nodes in order where their tables are, and the tables that were computed. Equal compositions are computed
/// once.
#[derive(Drop)]
pub struct Piece {
    pub spots: Vec<Spot>,
    pub made: Vec<Made>,
}

// Computes the table of the node from its parts, adds it to those that were computed, and returns its index.
fn push_computed(
    finder: &Finder,
    made: &mut Vec<Made>,
    id: NodeId,
    parts: Option<(usize, usize)>,
) -> Result<usize, NoMemory>
    requires due { IsDue finder.now id }
    requires parts { IfSome parts (AreParts finder.now id.index) }
    ensures { IfOk result (IsAdded finder.now made.old.items made.new.items id parts) }
{
    let one = finder.compute(id, parts)?;
    let index = made.len();
    made.push(one)?;
    Ok(index)
}

// Where the table of the node is. It is computed only if neither the cache nor the piece has it.
fn spot_of(
    finder: &Finder,
    own: &mut PairCache,
    made: &mut Vec<Made>,
    id: NodeId,
) -> Result<Spot, NoMemory>
    requires due { IsDue finder.now id }
    requires made { AreMade finder.now.tables made.old.items }
    requires own { AreOwn own.old made.old.items }
    ensures made { IfOk result (λ _. AreMade finder.now.tables made.new.items) }
    ensures own { IfOk result (λ _. AreOwn own.new made.new.items) }
    ensures kept { IfOk result (λ _. Extends made.old.items made.new.items) }
    ensures spot { IfOk result (IsSpot finder.now made.new.items id) }
{
    let parts = finder.parts(id);
    match parts {
        None => Ok(Spot::Made(push_computed(finder, made, id, parts)?)),
        Some((left, right)) => {
            if let Some(number) = finder.recall(left, right) {
                return Ok(Spot::Kept(number));
            }
            if let Some(index) = own.find(left, right) {
                return Ok(Spot::Made(index));
            }
            let index = push_computed(finder, made, id, parts)?;
            own.note(left, right, index, index);
            Ok(Spot::Made(index))
        }
    }
}

// Where the tables of the nodes are, found on this thread.
fn one_piece<G: Gate>(finder: &Finder, gate: &G, ids: &[NodeId]) -> Result<Piece, NoMemory>
    requires { All (IsDue finder.now) ids.now }
    ensures { IfOk result (IsPiece finder.now ids.now) }
{
    let alloc = finder.alloc();
    let mut own = PairCache::new(alloc);
    let mut made = Vec::new(alloc);
    let mut spots = Vec::with_capacity(alloc, ids.len())?;
    for id in ids {
        gate.pass(id.index);
        let spot = spot_of(finder, &mut own, &mut made, *id)?;
        spots.push(spot)?;
    }
    Ok(Piece { spots, made })
}

// The same spot, if `before` more tables come before those that were computed.
fn shift(spot: Spot, before: usize, count: usize) -> Spot
    requires within { IsWithin count spot }
    requires few { before + count < 2 ^ 64 }
    ensures { result ≡ shifted before spot }
{
    match spot {
        Spot::Kept(number) => Spot::Kept(number),
        Spot::Made(index) => Spot::Made(before + index),
    }
}

// The nodes of the first piece and then those of the second.
fn joined(first: Piece, second: Piece) -> Result<Piece, NoMemory>
    requires { All (IsWithin (length second.made.items)) second.spots.items }
    ensures made { IfOk result (λ p. p.made.items ≡ first.made.items ++ second.made.items) }
    ensures spots { IfOk result (λ p. p.spots.items ≡ first.spots.items ++ map (shifted (length first.made.items)) second.spots.items) }
{
    let Piece {
        mut spots,
        mut made,
    } = first;
    let Piece {
        spots: next,
        made: mut more,
    } = second;
    let before = made.len();
    let count = more.len();
    made.append(&mut more)?;
    let _all = made.len();
    for spot in &next {
        spots.push(shift(*spot, before, count))?;
    }
    Ok(Piece { spots, made })
}

/// Where the tables of the nodes are, found in at most `workers` pieces at once.
pub(crate) fn in_pieces<R: Threads + Sync, G: Gate>(
    rt: &R,
    finder: &Finder,
    gate: &G,
    ids: &[NodeId],
    workers: u8,
) -> Result<Piece, NoMemory>
    requires { All (IsDue finder.now) ids.now }
    ensures { IfOk result (IsPiece finder.now ids.now) }
{
    if workers <= 1 || ids.len() <= 1 {
        return one_piece(finder, gate, ids);
    }
    let Finder {
        growth: Growth { alloc, store, dfa },
        filler,
        tables,
        memory,
    } = *finder;
    let (left, right) = ids.split_at(ids.len() / 2);
    let (first, second) = halves(
        rt,
        || -> Result<Piece, NoMemory>
            requires sync { IsSync R.row × IsSync G.row }
            requires ready { IsReady (filling_of dfa.now store.now tables.now filler.now memory.now) }
            requires due { All (IsDue (filling_of dfa.now store.now tables.now filler.now memory.now)) left.now }
            ensures piece { IfOk result (IsPiece (filling_of dfa.entry.now store.entry.now tables.entry.now filler.entry.now memory.entry.now) left.entry.now) }
        {
            let finder = Growth { alloc, store, dfa }.finder(filler, tables, memory);
            in_pieces(rt, &finder, gate, left, workers / 2)
        },
        || -> Result<Piece, NoMemory>
            requires sync { IsSync R.row × IsSync G.row }
            requires ready { IsReady (filling_of dfa.now store.now tables.now filler.now memory.now) }
            requires due { All (IsDue (filling_of dfa.now store.now tables.now filler.now memory.now)) right.now }
            ensures piece { IfOk result (IsPiece (filling_of dfa.entry.now store.entry.now tables.entry.now filler.entry.now memory.entry.now) right.entry.now) }
        {
            let finder = Growth { alloc, store, dfa }.finder(filler, tables, memory);
            in_pieces(rt, &finder, gate, right, workers - workers / 2)
        },
    );
    joined(first?, second?)
}
