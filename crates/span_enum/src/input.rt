//! The inputs of an enumeration.
ghost use Rattle.marker_dfa.specs.Deterministic.{states_of};
ghost use Rattle.span_enum.specs.Listing.{IsReady};
ghost use Rattle.span_enum.specs.Trail.{IsEnumerationInput};
ghost use Rattle.std.specs.Prelude.{◌≡◌, ◌≤◌, ◌*◌};

use crate::ends::quiet_finals;
use crate::states::States;
use crate::walk::final_states;
use marker_dfa::Dfa;
use node_store::NodeId;
use state_tables::View;

/// An automaton, a view of nodes and their tables of this automaton, the root of the text, and the states in which a
/// text may end. In those that are quiet it may end only without a mark.
#[derive(Clone, Copy)]
pub(crate) struct EnumerationInput<'a, const N: usize> {
    pub(crate) view: View<'a>,
    pub(crate) dfa: &'a Dfa,
    pub(crate) root: Option<NodeId>,
    pub(crate) finals: States<N>,
    pub(crate) quiet: States<N>,
}

impl<'a, const N: usize> EnumerationInput<'a, N> {
    pub(crate) fn new(view: View<'a>, dfa: &'a Dfa, root: Option<NodeId>) -> EnumerationInput<'a, N>
        requires wide { states_of dfa.now ≤ 64 * N }
        requires narrow { N ≤ 16 }
        requires ready { IsReady dfa.now view.store.now view.tables.now root }
        ensures view { result.view ≡ view.entry }
        ensures dfa { result.dfa.now ≡ dfa.now }
        ensures root { result.root ≡ root }
        ensures input { IsEnumerationInput result }
    {
        let _states = dfa.states();
        let finals = final_states(dfa);
        let quiet = quiet_finals(dfa);
        EnumerationInput {
            view,
            dfa,
            root,
            finals,
            quiet,
        }
    }
}
