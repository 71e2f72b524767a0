//! The execution of a script that arrives in pieces.
ghost use Rattle.script_driver.specs.Progress.{state_of, Does, Finishes, Hears, IsHalted, IsTalking, StopsAtEnd, StopsIn, StopsWithin};
ghost use Rattle.session_state.specs.SessionState.{IsSessionModel};
ghost use Rattle.span_language.specs.Runs.{is_refused, Outside};
ghost use Rattle.span_session.specs.Lending.{IsSameIo, IsSameMeters, outlet_through, outside_through};
ghost use Rattle.std.specs.Prelude.{◌≡◌, ◌+◌, ◌^◌, ◌≤◌, [], ◌||◌, IfOk, IfErr, MatchResult, OnOk, length};

use crate::lines::{cut_line, keep};
use edge_io::{Shelf, Sink};
use session_state::Lent;
use span_language::{Stop, Told};
use span_session::{Io, Meters, Session};
use std::alloc::Global;
use std::sync::ledger::Ledger;
use std::thread::Threads;
use work_gate::Gate;

/// The state after the lines so far, and the stored bytes of the line that has begun.
#[derive(Drop)]
pub struct Progress {
    pub session: Session,
    /// The first bytes of the line that has begun, at most 65,537.
    pub kept: Vec<u8>,
    /// The number of the line that has begun.
    pub number: u64,
    /// Whether a line was rejected.
    pub refused: bool,
}

/// Whether this line or one before it was rejected.
fn with_refusal(before: bool, told: Told) -> bool
    ensures { result ≡ (before || is_refused told) }
{
    before || matches!(told, Told::Refused)
}

impl Progress {
    /// A script of which nothing has come, over a session without documents, queries and versions. The automaton of a
    /// query may have at most `states` states, from 128 to 1,024.
    pub fn new(alloc: Global, states: u16) -> Progress
        requires few { 128 ≤ states }
        requires many { states ≤ 1024 }
        ensures model { IsSessionModel result.session }
        ensures next { result.number ≡ 1 }
        ensures empty { result.kept.items ≡ [] }
        ensures begins { (before : Outside) → IsTalking [] states before result.kept.items (state_of result before) }
    {
        Progress {
            session: Session::with_states(alloc, states),
            kept: Vec::new(alloc),
            number: 1,
            refused: false,
        }
    }

    /// Executes the lines that end in a piece, and stores the bytes after them. Apart from the lines themselves this
    /// takes time linear in the length of the piece.
    ///
    /// # Errors
    ///
    /// - `OutFault` and `ShelfFault` only if the sink or the file store failed in this call.
    /// - `NoMemory` if allocation fails.
    ///
    /// After an error, the script was stopped in one of the lines, and no further piece can be executed.
    pub fn feed<R: Threads + Sync, K: Sink, F: Shelf, G: Gate, P: Ledger, T: Ledger, L: Ledger>(
        &mut self,
        lent: Lent<'_, R, G>,
        piece: &[u8],
        io: &mut Io<'_, '_, K, F>,
        meters: &mut Meters<'_, '_, '_, P, T, L>,
    ) -> Result<(), Stop>
        requires model { IsSessionModel self.old.session }
        requires few { self.old.number + length piece.now ≤ 2 ^ 63 }
        requires kept { length self.old.kept.items ≤ 65537 }
        ensures same_io { IsSameIo io.old io.new }
        ensures same_meters { IsSameMeters meters.old meters.new }
        ensures model { IsSessionModel self.new.session }
        ensures next { OnOk result (self.new.number ≤ self.old.number + length piece.now) }
        ensures kept { OnOk result (length self.new.kept.items ≤ 65537) }
        ensures later { K.faults io.old.out.now ≤ K.faults io.new.out.now }
        ensures wants_later { K.wants io.old.out.now ≤ K.wants io.new.out.now }
        ensures shelf_later { F.faults io.old.shelf.now ≤ F.faults io.new.shelf.now }
        ensures done { OnOk result (Hears piece.now self.old.kept.items
            (state_of self.old (outside_through K.written F.files io.old meters.old)) self.new.kept.items
            (state_of self.new (outside_through K.written F.files io.new meters.new))) }
        ensures stopped { IfErr result (IsHalted (λ Ends. StopsWithin Ends piece.now self.old.kept.items
            (state_of self.old (outside_through K.written F.files io.old meters.old))
            (outside_through K.written F.files io.new meters.new))
            (outlet_through K.written K.faults K.wants io.old) (F.faults io.old.shelf.now)
            (outlet_through K.written K.faults K.wants io.new) (F.faults io.new.shelf.now)) }
        ensures sound { OnOk result ((K.faults io.new.out.now ≡ K.faults io.old.out.now) × (K.wants io.new.out.now ≡ K.wants io.old.out.now) × (F.faults io.new.shelf.now ≡ F.faults io.old.shelf.now)) }
        ensures gone { K.kept io.old.out.now ≡ 0 → MatchResult result (λ _. K.kept io.new.out.now ≡ 0) (λ why. why ≡ Stop.ShelfFault → K.kept io.new.out.now ≡ 0) }
    {
        let mut rest = piece;
        'lines: while let Some(parts) = cut_line(rest) {
            keep(&mut self.kept, parts.0)?;
            self.end_line(lent, io, meters)?;
            rest = parts.1;
        }
        keep(&mut self.kept, rest)?;
        Ok(())
    }

    /// Executes a last line without a newline, if there is one. Returns whether any line was rejected.
    ///
    /// # Errors
    ///
    /// As for `feed`, if there is such a line.
    pub fn finish<R: Threads + Sync, K: Sink, F: Shelf, G: Gate, P: Ledger, T: Ledger, L: Ledger>(
        &mut self,
        lent: Lent<'_, R, G>,
        io: &mut Io<'_, '_, K, F>,
        meters: &mut Meters<'_, '_, '_, P, T, L>,
    ) -> Result<bool, Stop>
        requires model { IsSessionModel self.old.session }
        requires few { self.old.number ≤ 2 ^ 63 }
        ensures same_io { IsSameIo io.old io.new }
        ensures same_meters { IsSameMeters meters.old meters.new }
        ensures done { IfOk result (λ refused. Finishes refused self.old.kept.items
            (state_of self.old (outside_through K.written F.files io.old meters.old))
            (outside_through K.written F.files io.new meters.new)) }
        ensures stopped { IfErr result (IsHalted (λ Ends. StopsAtEnd Ends self.old.kept.items
            (state_of self.old (outside_through K.written F.files io.old meters.old))
            (outside_through K.written F.files io.new meters.new))
            (outlet_through K.written K.faults K.wants io.old) (F.faults io.old.shelf.now)
            (outlet_through K.written K.faults K.wants io.new) (F.faults io.new.shelf.now)) }
        ensures sound { OnOk result ((K.faults io.new.out.now ≡ K.faults io.old.out.now) × (K.wants io.new.out.now ≡ K.wants io.old.out.now) × (F.faults io.new.shelf.now ≡ F.faults io.old.shelf.now)) }
        ensures gone { K.kept io.old.out.now ≡ 0 → MatchResult result (λ _. K.kept io.new.out.now ≡ 0) (λ why. why ≡ Stop.ShelfFault → K.kept io.new.out.now ≡ 0) }
    {
        if self.kept.is_empty() {
            return Ok(self.refused);
        }
        self.end_line(lent, io, meters)?;
        Ok(self.refused)
    }

    /// Executes the line that has begun, and begins the next one.
    fn end_line<R: Threads + Sync, K: Sink, F: Shelf, G: Gate, P: Ledger, T: Ledger, L: Ledger>(
        &mut self,
        lent: Lent<'_, R, G>,
        io: &mut Io<'_, '_, K, F>,
        meters: &mut Meters<'_, '_, '_, P, T, L>,
    ) -> Result<(), Stop>
        requires model { IsSessionModel self.old.session }
        requires few { self.old.number ≤ 2 ^ 63 }
        ensures same_io { IsSameIo io.old io.new }
        ensures same_meters { IsSameMeters meters.old meters.new }
        ensures model { IsSessionModel self.new.session }
        ensures next { OnOk result (self.new.number ≡ self.old.number + 1) }
        ensures empty { OnOk result (self.new.kept.items ≡ []) }
        ensures later { K.faults io.old.out.now ≤ K.faults io.new.out.now }
        ensures wants_later { K.wants io.old.out.now ≤ K.wants io.new.out.now }
        ensures shelf_later { F.faults io.old.shelf.now ≤ F.faults io.new.shelf.now }
        ensures done { OnOk result (Does self.old.kept.items
            (state_of self.old (outside_through K.written F.files io.old meters.old))
            (state_of self.new (outside_through K.written F.files io.new meters.new))) }
        ensures stopped { IfErr result (IsHalted (λ Ends. StopsIn Ends self.old.kept.items
            (state_of self.old (outside_through K.written F.files io.old meters.old))
            (outside_through K.written F.files io.new meters.new))
            (outlet_through K.written K.faults K.wants io.old) (F.faults io.old.shelf.now)
            (outlet_through K.written K.faults K.wants io.new) (F.faults io.new.shelf.now)) }
        ensures sound { OnOk result ((K.faults io.new.out.now ≡ K.faults io.old.out.now) × (K.wants io.new.out.now ≡ K.wants io.old.out.now) × (F.faults io.new.shelf.now ≡ F.faults io.old.shelf.now)) }
        ensures gone { K.kept io.old.out.now ≡ 0 → MatchResult result (λ _. K.kept io.new.out.now ≡ 0) (λ why. why ≡ Stop.ShelfFault → K.kept io.new.out.now ≡ 0) }
    {
        let told = self.session.line(
            lent.rt,
            self.number,
            &self.kept,
            lent.workers,
            io.out,
            io.shelf,
            lent.gate,
            meters.pairs,
            meters.places,
            meters.looks,
        )?;
        self.refused = with_refusal(self.refused, told);
        self.number += 1;
        self.kept.clear();
        Ok(())
    }
}
