//! What rows reach, collected in one set.

ghost use Rattle.marker_dfa.specs.Deterministic.{and_then};
ghost use Rattle.state_tables.specs.Classed.{IsClassed};
ghost use Rattle.state_tables.specs.Coded.{list_of, set_beyond, step_of, table_of};
ghost use Rattle.state_tables.specs.Reached.{HasRoom, IsCollecting};
ghost use Rattle.state_tables.specs.StateSet.{member, number_of_words};
ghost use Rattle.state_tables.specs.Table.{marked_from, reach, reached_of, row_at, unmarked_of};
ghost use Rattle.std.specs.Int.{bit_at};
ghost use Rattle.std.specs.Prelude.{◌≡◌, ℕ, ◌+◌, ◌-◌, ◌*◌, ◌^◌, ◌<◌, ◌≤◌, Some, bit_or, drop, length, true};

use crate::state_set::{add, add_all, bit, least, without};
use crate::table_rows::TableRows;

const WORD_BITS: usize = 64;

// Adds all that the row reaches.
fn add_row(words: &mut [u64], rows: &TableRows, row: usize)
    requires width { length words.old ≡ rows.now.width }
    requires row { row < length (list_of rows.now).rows }
    requires within { (q : ℕ) → (row_at (list_of rows.now).rows row).unmarked ≡ Some q → q < 64 * rows.now.width }
    ensures value { number_of_words words.new ≡ bit_or (number_of_words words.old) (reached_of (row_at (list_of rows.now).rows row)) }
    ensures width { length words.new ≡ length words.old }
{
    add_all(words, rows.marked(row).words());
    let code = rows.code(row);
    if code != 0 {
        add(words, code - 1);
    }
}

// Adds all that the state reaches, unless the row of its class is taken already.
fn add_state(words: &mut [u64], taken: &mut [u64], classes: &[u16], rows: &TableRows, q: usize)
    requires collecting { IsCollecting classes.now (list_of rows.now) words.old taken.old }
    requires state { q < length classes.now }
    ensures value { number_of_words words.new ≡ bit_or (number_of_words words.old) (reached_of (row_at (table_of classes.now (list_of rows.now).rows) q)) }
    ensures collecting { IsCollecting classes.now (list_of rows.now) words.new taken.new }
{
    let row = classes[q];
    if bit(taken, row) == 0 {
        add(taken, row);
        add_row(words, rows, row as usize);
    }
}

// Adds all that the states of one word reach, of which the first one is `first`.
fn add_word(
    words: &mut [u64],
    taken: &mut [u64],
    classes: &[u16],
    rows: &TableRows,
    first: usize,
    word: u64,
)
    requires collecting { IsCollecting classes.now (list_of rows.now) words.old taken.old }
    requires states { (b : ℕ) → bit_at word b ≡ 1 → first + b < length classes.now }
    ensures value { number_of_words words.new ≡ bit_or (number_of_words words.old) (reach word 0 (drop first (table_of classes.now (list_of rows.now).rows))) }
    ensures collecting { IsCollecting classes.now (list_of rows.now) words.new taken.new }
{
    let mut rest = word;
    while rest != 0 {
        let bit = least(rest);
        add_state(words, taken, classes, rows, first + bit as usize);
        rest = without(rest, bit);
    }
}

// Adds all that the states of the set reach.
fn add_set(words: &mut [u64], taken: &mut [u64], classes: &[u16], rows: &TableRows, set: &[u64])
    requires collecting { IsCollecting classes.now (list_of rows.now) words.old taken.old }
    requires short { length set.now ≤ 16 }
    requires states { (q : ℕ) → member (number_of_words set.now) q ≡ true → q < length classes.now }
    ensures value { number_of_words words.new ≡ bit_or (number_of_words words.old) (reach (number_of_words set.now) 0 (table_of classes.now (list_of rows.now).rows)) }
    ensures collecting { IsCollecting classes.now (list_of rows.now) words.new taken.new }
{
    for index in 0..set.len() {
        add_word(words, taken, classes, rows, index * WORD_BITS, set[index]);
    }
}

/// What a set reaches over the right text, added to an empty set. Each row of the right text is added at most once: `taken`
/// is room for the set of those that were, and empty.
pub(crate) fn reach_set(
    words: &mut [u64],
    taken: &mut [u64],
    set: &[u64],
    classes: &[u16],
    rows: &TableRows,
)
    requires room { HasRoom classes.now (list_of rows.now) words.old taken.old }
    requires empty { number_of_words words.old ≡ 0 }
    requires none { number_of_words taken.old ≡ 0 }
    requires short { length set.now ≤ 16 }
    requires states { (q : ℕ) → member (number_of_words set.now) q ≡ true → q < length classes.now }
    ensures value { number_of_words words.new ≡ reach (number_of_words set.now) 0 (table_of classes.now (list_of rows.now).rows) }
    ensures room { HasRoom classes.now (list_of rows.now) words.new taken.new }
{
    add_set(words, taken, classes, rows, set);
}

/// The step of a code over the right text: the code of the state that its state leads to, and one more than the index of
/// the set that its state reaches with marks. Both are 0 if there is no state.
pub(crate) fn step_over(code: u16, classes: &[u16], rows: &TableRows) -> (u16, u16)
    requires states { IsClassed classes.now (list_of rows.now) }
    requires few { length rows.now.sets < 2 ^ 16 }
    requires within { (q : ℕ) → step_of code ≡ Some q → q < length classes.now }
    ensures code { step_of result.0 ≡ and_then (step_of code) (unmarked_of (table_of classes.now (list_of rows.now).rows)) }
    ensures marked { set_beyond rows.now.sets result.1 ≡ marked_from (table_of classes.now (list_of rows.now).rows) (step_of code) }
    ensures within { result.1 ≤ length rows.now.sets }
{
    if code == 0 {
        return (0, 0);
    }
    let row = classes[(code - 1) as usize] as usize;
    (rows.code(row), rows.set_of(row) + 1)
}
