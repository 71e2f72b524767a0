//! Compositions of kept tables, computed in pieces at once.

ghost use Rattle.count_tables.specs.Ahead.{AreMade, IsComposable};
ghost use Rattle.std.specs.Prelude.{◌≡◌, ◌++◌, All, IfOk};
ghost use Rattle.std.specs.Thread.{IsSync};

use crate::tables::TableSet;
use path_counts::{CountTable, compose};
use span_types::NoMemory;
use std::alloc::Global;
use std::thread::Threads;
use work_gate::{Gate, halves};

/// A composition to compute: that of two kept tables, by their numbers. It is the table of the node with this index.
#[derive(Clone, Copy)]
pub struct Job {
    pub node: usize,
    pub left: usize,
    pub right: usize,
}

/// A composition that was computed.
#[derive(Drop)]
pub struct Made {
    pub job: Job,
    pub table: CountTable,
}

// The compositions in order, computed on this thread.
fn one_piece<G: Gate>(
    alloc: Global,
    gate: &G,
    kept: &TableSet,
    jobs: &[Job],
) -> Result<Vec<Made>, NoMemory>
    requires { All (IsComposable kept.now) jobs.now }
    ensures { IfOk result (λ made. AreMade kept.now jobs.now made.items) }
{
    let mut made = Vec::with_capacity(alloc, jobs.len())?;
    for job in jobs {
        gate.pass(job.node);
        let table = compose(alloc, kept.at(job.left), kept.at(job.right))?;
        made.push(Made { job: *job, table })?;
    }
    Ok(made)
}

// The compositions of the first piece and then those of the second.
fn joined(first: Vec<Made>, second: Vec<Made>) -> Result<Vec<Made>, NoMemory>
    ensures { IfOk result (λ made. made.items ≡ first.items ++ second.items) }
{
    let mut all = first;
    let mut more = second;
    all.append(&mut more)?;
    Ok(all)
}

/// The compositions in order, computed in at most `workers` pieces at once. `gate.pass` is called for each of them before it is
/// computed.
///
/// # Errors
///
/// `NoMemory` if allocation fails.
pub(crate) fn in_pieces<R: Threads + Sync, G: Gate>(
    rt: &R,
    alloc: Global,
    gate: &G,
    kept: &TableSet,
    jobs: &[Job],
    workers: u8,
) -> Result<Vec<Made>, NoMemory>
    requires jobs { All (IsComposable kept.now) jobs.now }
    ensures { IfOk result (λ made. AreMade kept.now jobs.now made.items) }
{
    if workers <= 1 || jobs.len() <= 1 {
        return one_piece(alloc, gate, kept, jobs);
    }
    let (left, right) = jobs.split_at(jobs.len() / 2);
    let (first, second) = halves(
        rt,
        || -> Result<Vec<Made>, NoMemory>
            requires sync { IsSync R.row × IsSync G.row }
            requires jobs { All (IsComposable kept.now) left.now }
            ensures made { IfOk result (λ made. AreMade kept.entry.now left.entry.now made.items) }
        { in_pieces(rt, alloc, gate, kept, left, workers / 2) },
        || -> Result<Vec<Made>, NoMemory>
            requires sync { IsSync R.row × IsSync G.row }
            requires jobs { All (IsComposable kept.now) right.now }
            ensures made { IfOk result (λ made. AreMade kept.entry.now right.entry.now made.items) }
        { in_pieces(rt, alloc, gate, kept, right, workers - workers / 2) },
    );
    joined(first?, second?)
}
