//! A session: named documents over one store, and the execution of a line.
ghost use Rattle.session_state.specs.Carried.{IsDone, IsStopped, outlet};
ghost use Rattle.session_state.specs.LineState.{seen};
ghost use Rattle.session_state.specs.SessionState.{IsSessionModel, nodes_of};
ghost use Rattle.span_language.specs.State.{nothing};
ghost use Rattle.std.specs.Prelude.{◌≡◌, ◌≤◌, ◌⊎◌, [], IfOk, IfErr};

use crate::carrying::carry_line;
use crate::lending::{Io, Meters};
use edge_io::{Shelf, Sink};
use session_state::{Context, Lent, SessionState};
use span_language::{Stop, Told};
use span_types::Steps;
use std::alloc::Global;
use std::marker::Model;
use std::sync::ledger::Ledger;
use std::thread::Threads;
use work_gate::Gate;

/// The number of states that each session allows.
const LEAST_STATES: u16 = 128;

/// Named documents, queries and versions over one store of nodes. Contracts see the documents as their texts. They also
/// see the store's nodes, the roots of the documents, those of the versions, and for each query the number of nodes
/// that have tables.
pub struct Session {
    state: SessionState,
}

// Written out, so that no crate above proves anew how each part is dropped.
impl Drop for Session {
    fn drop(self) {
        let Session { state: _state } = self;
    }
}

impl Model for Session {
    ghost use Rattle.span_session.specs.Codes.{model_code};
    ghost use Rattle.session_state.specs.SessionState.{SessionModel};

    ghost Value = { SessionModel };

    ghost coded = { model_code };

    ghost use Rattle.session_state.specs.SessionState.{IsConsistent, model_of};

    ghost view = { λ s. model_of s.state };

    ghost invariant = { λ s. IsConsistent s.state };
}

impl Session {
    /// A session without documents, queries, versions and nodes. The automaton of a query may have at most 128 states.
    pub fn new(alloc: Global) -> Session
        ensures state { result.state ≡ nothing 128 }
        ensures store { result.store ≡ [] }
        ensures covered { result.covered ≡ [] }
        ensures counted { result.counted ≡ [] }
        ensures model { IsSessionModel result }
    {
        Session::with_states(alloc, LEAST_STATES)
    }

    /// A session without documents, queries, versions and nodes. The automaton of a query may have at most `states`
    /// states, from 128 to 1,024.
    pub fn with_states(alloc: Global, states: u16) -> Session
        requires few { 128 ≤ states }
        requires many { states ≤ 1024 }
        ensures state { result.state ≡ nothing states }
        ensures store { result.store ≡ [] }
        ensures covered { result.covered ≡ [] }
        ensures counted { result.counted ≡ [] }
        ensures model { IsSessionModel result }
    {
        Session {
            state: SessionState::with_states(alloc, states),
        }
    }

    /// The number of nodes in the store.
    pub fn nodes(&self) -> usize
        ensures { result ≡ nodes_of self.now }
    {
        self.state.store.count()
    }

    /// Executes a line, and writes its reply. `number` is the line's number, for error replies. A rejected line leaves
    /// the state unchanged. When a line with a command returns `Ok`, everything written has been sent, also what the
    /// sink had buffered before. A line without a command doesn't use the sink.
    ///
    /// Tables are computed in at most `workers` pieces at once, 1 to 64. The gate is passed before the work on each
    /// node, and for `listall` before that on each document.
    ///
    /// # Errors
    ///
    /// - `OutFault` only if the line has a reply and the sink failed in this call.
    /// - `ShelfFault` only if the line is of the form `load`, `share`, `write`, `save` or `open`, and the file store
    ///   failed in this call. Nothing of the reply is then written.
    /// - `NoMemory` if allocation fails.
    ///
    /// After an error the state is that before the line or that after it.
    pub fn line<R: Threads + Sync, K: Sink, F: Shelf, G: Gate, P: Ledger, T: Ledger, L: Ledger>(
        &mut self,
        rt: &R,
        number: u64,
        line: &[u8],
        workers: u8,
        out: &mut K,
        shelf: &mut F,
        gate: &G,
        pairs: &mut Steps<P>,
        places: &mut Steps<T>,
        looks: &mut Steps<L>,
    ) -> Result<Told, Stop>
        requires least { 1 ≤ workers }
        requires most { workers ≤ 64 }
        ensures done { IfOk result (IsDone line.now number
            (seen self.old (F.files shelf.old) (F.faults shelf.old) looks.old pairs.old places.old)
            (outlet (K.written out.old) (K.faults out.old) (K.wants out.old))
            (seen self.new (F.files shelf.new) (F.faults shelf.new) looks.new pairs.new places.new)
            (outlet (K.written out.new) (K.faults out.new) (K.wants out.new))) }
        ensures stopped { IfErr result (IsStopped line.now number
            (seen self.old (F.files shelf.old) (F.faults shelf.old) looks.old pairs.old places.old)
            (outlet (K.written out.old) (K.faults out.old) (K.wants out.old))
            (seen self.new (F.files shelf.new) (F.faults shelf.new) looks.new pairs.new places.new)
            (outlet (K.written out.new) (K.faults out.new) (K.wants out.new))) }
        ensures gone { IfOk result (λ told. ((told ≡ Told.Quiet) × (out.new ≡ out.old)) ⊎ (K.kept out.new ≡ 0)) }
        ensures unsent { IfErr result (λ why. why ≡ Stop.ShelfFault → out.new ≡ out.old) }
        ensures model { IsSessionModel self.new }
    {
        let context = Context {
            lent: Lent { rt, workers, gate },
            number,
        };
        let mut io = Io { out, shelf };
        let mut meters = Meters {
            pairs,
            places,
            looks,
        };
        let told = carry_line(context, &mut self.state, line, &mut io, &mut meters);
        // States a property of the store: apart from pairs it has at most 256 nodes, one for each byte.
        let _ = self.state.store.count();
        told
    }
}
