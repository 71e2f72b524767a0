//! The table of two texts joined.

ghost use Rattle.marker_dfa.specs.Deterministic.{DeterministicAutomaton, IsDeterministic};
ghost use Rattle.state_tables.specs.Classed.{AreRowsAt, AreSetsWithin, AreWithin, IsClassed};
ghost use Rattle.state_tables.specs.Coded.{list_of, table_of, with_set};
ghost use Rattle.state_tables.specs.Meaning.{IsTable};
ghost use Rattle.state_tables.specs.StateSet.{member, number_of_words};
ghost use Rattle.state_tables.specs.Table.{compose_of, compose_row, reach, row_at};
ghost use Rattle.std.specs.Prelude.{◌≡◌, ℕ, ◌<◌, ◌≤◌, ◌++◌, ◌^◌, [], List, get_or, length, map, true, IfOk, OnOk};

use crate::places::Places;
use crate::reached::{reach_set, step_over};
use crate::row_set::RowSet;
use crate::sets::Sets;
use crate::state_set::MAX_WORDS;
use crate::table::Table;
use crate::table_rows::{CodedRow, TableRows};
use crate::unions::Unions;
use span_types::NoMemory;
use std::alloc::Global;

/// The table of two texts joined, from the tables of the two. For each set of the left table it adds up the rows that
/// the set leads to in the right table, each of these at most once. Then it composes the row of each class of the left
/// table, and equal rows are one class again.
///
/// # Errors
///
/// `NoMemory` if allocation fails.
pub fn compose(alloc: Global, left: &Table, right: &Table) -> Result<Table, NoMemory>
    requires { length left.now ≡ length right.now }
    ensures value { IfOk result (λ t. t ≡ compose_of left.now right.now) }
    ensures meaning { IfOk result (λ t. (a : DeterministicAutomaton) (s u : List ℕ) → IsDeterministic a
        → IsTable a s left.now → IsTable a u right.now → IsTable a (s ++ u) t) }
{
    let classes = right.partition.classes();
    let images = images_of(alloc, &left.rows, classes, &right.rows)?;
    let mut set = RowSet::with_capacity(alloc, right.rows.width(), left.rows.len() as u16)?;
    let places = compose_rows(alloc, &left.rows, classes, &right.rows, images, &mut set)?;
    let partition = left.partition.merged(alloc, &places)?;
    Ok(Table::from_partition(partition, set))
}

// What each set of the left text reaches over the right one.
fn images_of(
    alloc: Global,
    left: &TableRows,
    classes: &[u16],
    rows: &TableRows,
) -> Result<Sets, NoMemory>
    requires right { IsClassed classes.now (list_of rows.now) }
    requires left { AreSetsWithin (length classes.now) left.now.sets }
    requires few { length left.now.sets ≤ length classes.now }
    requires width { left.now.width ≡ rows.now.width }
    ensures { IfOk result (λ images. images ≡ record {
      width = rows.now.width;
      sets = map (λ set. reach set 0 (table_of classes.now (list_of rows.now).rows)) left.now.sets;
    }) }
{
    let mut images = Sets::with_capacity(alloc, rows.width(), left.set_count())?;
    for set in 0..left.set_count() {
        push_image(&mut images, left.set(set).words(), classes, rows)?;
    }
    Ok(images)
}

// Adds what the set reaches over the right text.
fn push_image(
    images: &mut Sets,
    set: &[u64],
    classes: &[u16],
    rows: &TableRows,
) -> Result<(), NoMemory>
    requires right { IsClassed classes.now (list_of rows.now) }
    requires width { images.old.width ≡ rows.now.width }
    requires short { length set.now ≤ 16 }
    requires states { (q : ℕ) → member (number_of_words set.now) q ≡ true → q < length classes.now }
    requires few { length images.old.sets < 2 ^ 16 }
    ensures { OnOk result (images.new ≡ with_set images.old (reach (number_of_words set.now) 0 (table_of classes.now (list_of rows.now).rows))) }
{
    let mut state_room = [0; MAX_WORDS];
    let words = &mut state_room[..rows.width()];
    let mut row_room = [0; MAX_WORDS];
    let taken = &mut row_room[..rows.width()];
    reach_set(words, taken, set, classes, rows);
    images.push(words)
}

// The rows of the left text composed with those of the right one, and the index of each among them.
fn compose_rows(
    alloc: Global,
    left: &TableRows,
    classes: &[u16],
    rows: &TableRows,
    images: Sets,
    found: &mut RowSet,
) -> Result<Places, NoMemory>
    requires right { IsClassed classes.now (list_of rows.now) }
    requires right_sets { length rows.now.sets ≤ length classes.now }
    requires left { AreWithin (length classes.now) (list_of left.now).rows }
    requires few { length left.now.rows ≤ length classes.now }
    requires images { images ≡ record {
      width = rows.now.width;
      sets = map (λ set. reach set 0 (table_of classes.now (list_of rows.now).rows)) left.now.sets;
    } }
    requires empty { found.old ≡ record { width = rows.now.width; sets = []; rows = [] } }
    ensures width { OnOk result (found.new.width ≡ rows.now.width) }
    ensures few { OnOk result (length found.new.sets ≤ length left.now.rows) }
    ensures within { OnOk result (AreSetsWithin (length classes.now) found.new.sets) }
    ensures placed { IfOk result (λ places. AreRowsAt (λ k. compose_row (table_of classes.now (list_of rows.now).rows) (row_at (list_of left.now).rows k))
        (length (list_of left.now).rows) (length classes.now) places (list_of found.new)) }
{
    let mut unions = Unions::new(images);
    let mut places = Places::new(alloc, left.len());
    for row in 0..left.len() {
        let (code, beyond) = step_over(left.code(row), classes, rows);
        let set = unions.index_of(found, rows, left.set_of(row), beyond)?;
        places.push(found.index_of(CodedRow { code, set })?)?;
    }
    Ok(places)
}
