//! The sets of a table, in one of two forms.

ghost use Rattle.state_tables.specs.StateSetView.{set_of, width_of};
ghost use Rattle.state_tables.specs.TableRows.{sets_in};
ghost use Rattle.std.specs.Bool.{OnTrue};
ghost use Rattle.std.specs.Prelude.{◌≡◌, ◌<◌, get_or, length};

use crate::sets::Sets;
use crate::shared_sets::SharedSets;
use crate::state_set::{StateSet, is_same};

/// The sets of a new table with words of their own, or those of a kept one, which other tables may have too.
#[derive(Drop)]
pub(crate) enum TableSets {
    Own(Sets),
    Shared(SharedSets),
}

impl TableSets {
    /// The number of sets.
    pub(crate) fn len(&self) -> usize
        ensures { result ≡ length (sets_in self.now).sets }
    {
        match self {
            TableSets::Own(sets) => sets.len(),
            TableSets::Shared(sets) => sets.len(),
        }
    }

    /// The number of words of each set.
    pub(crate) fn width(&self) -> usize
        ensures { result ≡ (sets_in self.now).width }
    {
        match self {
            TableSets::Own(sets) => sets.width(),
            TableSets::Shared(sets) => sets.width(),
        }
    }

    /// The set with this index.
    pub(crate) fn at(&self, set: usize) -> StateSet<'_>
        requires { set < length (sets_in self.now).sets }
        ensures set { set_of result ≡ get_or (sets_in self.now).sets set 0 }
        ensures width { width_of result ≡ (sets_in self.now).width }
    {
        match self {
            TableSets::Own(sets) => StateSet::new(sets.words(set)),
            TableSets::Shared(sets) => StateSet::new(sets.words(set)),
        }
    }

    /// Whether the sets are the same.
    pub(crate) fn is_same(&self, others: &TableSets) -> bool
        ensures { OnTrue result (sets_in self.now ≡ sets_in others.now) }
    {
        if self.width() != others.width() || self.len() != others.len() {
            return false;
        }
        for set in 0..self.len() {
            if !is_same(self.at(set).words(), others.at(set).words()) {
                return false;
            }
        }
        true
    }
}
