//! The states between two texts.
ghost use Rattle.marker_dfa.specs.Deterministic.{states_of};
ghost use Rattle.span_enum.specs.Between.{AreAmong, AreBetween};
ghost use Rattle.span_enum.specs.Quiet.{StaysQuiet, StayQuiet, LeadQuiet};
ghost use Rattle.span_enum.specs.Sets.{can_reach_of};
ghost use Rattle.span_enum.specs.Words.{IsFork};
ghost use Rattle.state_tables.specs.Meaning.{IsTable};
ghost use Rattle.state_tables.specs.StateSet.{member};
ghost use Rattle.state_tables.specs.Table.{reached_of, row_at};
ghost use Rattle.std.specs.Prelude.{◌≡◌, ℕ, ◌<◌, ◌≤◌, ◌*◌, length, true, List};

use crate::states::States;
use crate::trail::Ahead;
use marker_dfa::Dfa;
use state_tables::Table;

/// States between two texts: those from which the second one leads into a goal, and those of them that are known to be
/// quiet.
#[derive(Clone, Copy, Default)]
pub(crate) struct Between<const N: usize> {
    pub(crate) goals: States<N>,
    pub(crate) quiet: States<N>,
}

/// Whether runs over a text lead on from a state, and quietly.
#[derive(Clone, Copy)]
struct Way {
    leads: bool,
    quiet: bool,
}

/// The states reached from `p` over the text, with any marks.
fn reached<const N: usize>(table: &Table, p: u16) -> States<N>
    requires wide { length table.now ≤ 64 * N }
    requires narrow { N ≤ 16 }
    requires state { p < length table.now }
    ensures value { result ≡ reached_of (row_at table.now p) }
    ensures within { (q : ℕ) → member result q ≡ true → q < length table.now }
{
    let mut set = States::of(table.marked(p));
    match table.unmarked(p) {
        Some(q) => set.include(q, true),
        None => {}
    }
    set
}

/// Whether some run over the text leads from `p` into a goal, and whether the only such run has no marks and leads into
/// a quiet state.
fn way_on<const N: usize>(table: &Table, p: u16, goals: &States<N>, quiet: &States<N>) -> Way
    requires { p < length table.now }
    ensures leads { result.leads ≡ can_reach_of table.now p goals.now }
    ensures quiet { result.quiet ≡ true → StaysQuiet table.now p goals.now quiet.now }
{
    let marked = goals.meets(table.marked(p));
    match table.unmarked(p) {
        Some(q) => Way {
            leads: goals.holds(q) || marked,
            quiet: quiet.holds(q) && !marked,
        },
        None => Way {
            leads: marked,
            quiet: false,
        },
    }
}

/// The states of the set from which some run over the text ends in a goal, and the quiet ones among them.
fn goals_among<const N: usize>(
    table: &Table,
    from: &States<N>,
    goals: &States<N>,
    quiet: &States<N>,
) -> Between<N>
    requires narrow { N ≤ 16 }
    requires states { (q : ℕ) → member from.now q ≡ true → q < length table.now }
    ensures goals { AreAmong table.now from.now goals.now result.goals }
    ensures quiet { StayQuiet table.now from.now goals.now quiet.now result.quiet }
{
    let _states = table.states();
    let mut rest = *from;
    let mut set = States::none();
    let mut stay = States::none();
    while let Some(q) = rest.least() {
        let way = way_on(table, q, goals, quiet);
        set.include(q, way.leads);
        stay.include(q, way.quiet);
        rest.remove(q);
    }
    Between {
        goals: set,
        quiet: stay,
    }
}

/// The states reached from `p` over the left child of a node from which the right one leads into its goals, and the
/// quiet ones among them. Only these few are tested.
pub(crate) fn goals_between<const N: usize>(
    dfa: &Dfa,
    here: &Ahead<'_, N>,
    left: &Table,
    right: &Table,
    p: u16,
) -> Between<N>
    requires wide { states_of dfa.now ≤ 64 * N }
    requires narrow { N ≤ 16 }
    requires fork { IsFork dfa.now here.now.look.table.now left.now right.now }
    requires state { p < states_of dfa.now }
    ensures between { (s u : List ℕ) → IsTable dfa.now s left.now → IsTable dfa.now u right.now → AreBetween dfa.now p s u here.now.goals result.goals }
    ensures on { (q : ℕ) → member result.goals q ≡ true → can_reach_of right.now q here.now.goals ≡ true }
    ensures can { can_reach_of here.now.look.table.now p here.now.goals ≡ true → can_reach_of left.now p result.goals ≡ true }
    ensures quiet { (s u : List ℕ) → IsTable dfa.now s left.now → IsTable dfa.now u right.now
        → LeadQuiet dfa.now p s u here.now.goals here.now.quiet result.quiet }
{
    let _states = dfa.states();
    goals_among(right, &reached(left, p), &here.goals, &here.quiet)
}
