//! Renumbering of the tables after a compaction, one query after the other.
ghost use Rattle.count_tables.specs.Dictionary.{count_of};
ghost use Rattle.query_book.specs.Book.{entries_of};
ghost use Rattle.query_book.specs.Growing.{ChangesAt, ChangesFirst};
ghost use Rattle.query_book.specs.Kept.{AreSound, IsSound};
ghost use Rattle.query_book.specs.Renumbering.{AreWithin, IsWithin, Renumbers, RenumbersCounts};
ghost use Rattle.std.specs.Prelude.{◌<◌, ◌≤◌, IfSome, length};

use crate::entry::TabledQuery;
use count_tables::CountTables;
use name_map::NameMap;
use node_store::Moves;

/// Keeps in each query exactly the tables of the kept nodes, under the nodes' new numbers.
pub(crate) fn renumber_entries(by_name: &mut NameMap<TabledQuery>, moves: &Moves)
    requires kept { AreSound by_name.old }
    requires within { AreWithin moves.now (entries_of by_name.old) }
    ensures { ChangesFirst (Renumbers moves.now) (length by_name.old) by_name.old by_name.new }
{
    for index in 0..by_name.count() {
        renumber_at(by_name, index, moves);
    }
}

/// Does the same for the query at index `index`.
fn renumber_at(by_name: &mut NameMap<TabledQuery>, index: usize, moves: &Moves)
    requires index { index < length by_name.old }
    requires kept { AreSound by_name.old }
    requires within { AreWithin moves.now (entries_of by_name.old) }
    ensures { ChangesAt (Renumbers moves.now) index by_name.old by_name.new }
{
    let tabled = by_name.value_mut(index);
    renumber_query(tabled, moves);
}

/// Does the same for a query.
fn renumber_query(tabled: &mut TabledQuery, moves: &Moves)
    requires sound { IsSound tabled.old }
    requires within { IsWithin moves.now tabled.old }
    ensures { Renumbers moves.now tabled.old tabled.new }
{
    tabled.tables.renumber(moves);
    renumber_counts(&mut tabled.counts, moves);
    // The cached compositions have the old numbers of the tables.
    tabled.memory.forget();
}

/// Does the same for the query's counting tables, if it has some.
fn renumber_counts(counts: &mut Option<CountTables>, moves: &Moves)
    requires { IfSome counts.old (λ d. count_of d ≤ length moves.now) }
    ensures { RenumbersCounts moves.now counts.old counts.new }
{
    if let Some(counts) = counts {
        counts.renumber(moves);
    }
}
