//! How many answers there are.

ghost use Rattle.count_tables.specs.Number.{IsCounted, IsNumber, endings, weighted};
ghost use Rattle.marker_dfa.specs.Deterministic.{states_of};
ghost use Rattle.path_counts.specs.Paths.{stopped};
ghost use Rattle.slp_model.specs.Nodes.{text_of};
ghost use Rattle.std.specs.Prelude.{◌≡◌, ◌<◌, All};

use crate::tables::CountTables;
use marker_dfa::Dfa;
use node_store::{NodeId, Store};
use path_counts::Count;

// The sum of the numbers, each times how many marks may end a text in its state.
fn ended(counts: &[Count], dfa: &Dfa) -> u64
    requires { All (λ c. c.state < states_of dfa.now) counts.now }
    ensures { result ≡ stopped (weighted (endings dfa.now) counts.now) }
{
    let _ = dfa.states();
    let mut sum = 0u64;
    for count in counts {
        let ways = dfa.ends(count.state).len() as u64;
        sum = sum.saturating_add(count.number.saturating_mul(ways));
    }
    sum
}

impl CountTables {
    /// How many answers the automaton has on the text of the root. `u64::MAX` stands for itself and for every greater number.
    ///
    /// It takes time linear in the states, and reads the table of the root alone.
    pub fn number(&self, store: &Store, dfa: &Dfa, root: Option<NodeId>) -> u64
        requires { IsCounted dfa.now store.now self.now root }
        ensures { IsNumber dfa.now (text_of store.now root) result }
    {
        let _ = (store.count(), dfa.states());
        match root {
            None => dfa.ends(0).len() as u64,
            Some(id) => {
                let table = self.table(id);
                let marked = ended(table.counts(0), dfa);
                match table.unmarked(0) {
                    Some(q) => marked.saturating_add(dfa.ends(q).len() as u64),
                    None => marked,
                }
            }
        }
    }
}
