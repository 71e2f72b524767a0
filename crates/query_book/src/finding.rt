//! The index of a query by its name.
ghost use Rattle.query_book.specs.Growing.{IsIndexOf};
ghost use Rattle.query_book.specs.Named.{value_of};
ghost use Rattle.std.specs.Prelude.{◌≡◌, MatchOption, None};

use crate::entry::TabledQuery;
use line_parts::is_same;
use name_map::NameMap;

/// The index of the name, if it is there.
pub(crate) fn index_of(by_name: &NameMap<TabledQuery>, name: &[u8]) -> Option<usize>
    ensures { MatchOption result (value_of by_name.now name.now ≡ None) (IsIndexOf by_name.now name.now) }
{
    for index in 0..by_name.count() {
        if is_same(name, by_name.at(index).0.bytes()) {
            return Some(index);
        }
    }
    None
}
