//! What the caller of a line lends to it, apart from the runtime, the workers and the gate.
use span_types::Steps;
use std::sync::ledger::Ledger;

/// The sink that replies are written to, and the file store.
#[derive(Drop)]
pub struct Io<'o, 's, K, F> {
    pub out: &'o mut K,
    pub shelf: &'s mut F,
}

/// The counters of node constructions, of computed tables and of table lookups.
#[derive(Drop)]
pub struct Meters<'p, 't, 'l, P: Ledger, T: Ledger, L: Ledger> {
    pub pairs: &'p mut Steps<P>,
    pub places: &'t mut Steps<T>,
    pub looks: &'l mut Steps<L>,
}
