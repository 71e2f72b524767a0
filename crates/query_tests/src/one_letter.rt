//! A store whose one node is the letter `a`, and its tables for `$x{a}|a`.
ghost use Rattle.query_tests.specs.OneLetter.{IsOneLetter};
ghost use Rattle.slp_model.specs.Nodes.{tree};
ghost use Rattle.slp_model.specs.Tree.{Leaf};
ghost use Rattle.span_enum.specs.Listing.{IsReady};
ghost use Rattle.state_tables.specs.Dictionary.{count_of, table_of};
ghost use Rattle.state_tables.specs.Meaning.{IsTable};
ghost use Rattle.std.specs.Prelude.{◌≡◌, ◌≤◌, [], ◌∷◌, Some, length, IfOk};

use crate::formulas::automaton_of;
use marker_dfa::Dfa;
use node_store::{NodeId, Store};
use span_types::{NoMemory, Span, Steps, Tuple};
use state_tables::{Tables, View, of_byte};
use std::alloc::Global;
use std::sync::ledger::Ledger;

/// The node of the letter.
pub const A: NodeId = NodeId { index: 0 };

/// The letter's store, the automaton of `$x{a}|a`, and the tables of both.
#[derive(Drop)]
pub struct OneLetter {
    pub store: Store,
    pub dfa: Dfa,
    pub tables: Tables,
}

impl OneLetter {
    pub fn new<L: Ledger>(alloc: Global, places: &mut Steps<L>) -> Result<OneLetter, NoMemory>
        ensures { IfOk result (λ letter. IsOneLetter letter.dfa letter.store letter.tables) }
    {
        let store = store_of_a(alloc)?;
        let dfa = dfa_of_x(alloc)?;
        let tables = tables_of_a(alloc, &dfa, places)?;
        ready(&store, &dfa, &tables);
        Ok(OneLetter { store, dfa, tables })
    }

    /// The view of the letter's store and tables.
    pub fn view(&self) -> View<'_>
        requires { IsOneLetter self.now.dfa self.now.store self.now.tables }
        ensures store { result.store.now ≡ self.now.store }
        ensures ready { IsReady self.now.dfa result.store.now result.tables.now (Some A) }
    {
        self.tables.view(&self.store)
    }
}

fn store_of_a(alloc: Global) -> Result<Store, NoMemory>
    ensures one { IfOk result (λ nodes. length nodes ≡ 1) }
    ensures tree { IfOk result (λ nodes. tree nodes 0 ≡ Leaf 97) }
{
    let mut store = Store::new(alloc);
    let a = store.byte(b'a')?;
    if a.index != 0 || store.count() != 1 {
        return Err(NoMemory);
    }
    Ok(store)
}

fn dfa_of_x(alloc: Global) -> Result<Dfa, NoMemory>
    ensures { IfOk result (λ dfa. dfa.variables ≡ 1) }
{
    let dfa = automaton_of(alloc, b"$x{a}|a")?;
    if dfa.variables() != 1 {
        return Err(NoMemory);
    }
    Ok(dfa)
}

fn tables_of_a<L: Ledger>(
    alloc: Global,
    dfa: &Dfa,
    places: &mut Steps<L>,
) -> Result<Tables, NoMemory>
    ensures count { IfOk result (λ tables. count_of tables ≡ 1) }
    ensures table { IfOk result (λ tables. IsTable dfa.now (97 ∷ []) (table_of tables 0)) }
{
    let mut tables = Tables::new(alloc, dfa);
    let number = tables.keep(of_byte(alloc, dfa, b'a')?)?;
    tables.reserve(1)?;
    tables.push(number, places);
    Ok(tables)
}

/// These tables are those of the automaton.
fn ready(store: &Store, dfa: &Dfa, tables: &Tables)
    requires one { length store.now ≡ 1 }
    requires tree { tree store.now 0 ≡ Leaf 97 }
    requires count { count_of tables.now ≡ 1 }
    requires table { IsTable dfa.now (97 ∷ []) (table_of tables.now 0) }
    ensures { IsReady dfa.now store.now tables.now (Some (record { index = 0 })) }
{}

/// The span for the one variable.
pub fn spanned(start: u64, end: u64) -> Tuple
    requires positive { 1 ≤ start }
    requires ordered { start ≤ end }
    requires small { end ≤ 9 }
    ensures { length result ≡ 1 }
{
    Tuple::none(1).with_span(0, Some(Span { start, end }))
}
