//! A query's view and automaton, for callers that evaluate it themselves.
ghost use Rattle.marker_dfa.specs.Deterministic.{IsDeterministic};
ghost use Rattle.query_book.specs.Answers.{IsNamed};
ghost use Rattle.query_book.specs.Book.{IsMissing, queries_of};
ghost use Rattle.query_book.specs.Parts.{HasAnswersOf};
ghost use Rattle.query_book.specs.Serving.{Covers};
ghost use Rattle.state_tables.specs.Dictionary.{AreTables};
ghost use Rattle.std.specs.Prelude.{◌≡◌, IfOk, IfErr};

use crate::book::QueryBook;
use crate::refusal::BookRefusal;
use marker_dfa::Dfa;
use node_store::Store;
use state_tables::View;

impl QueryBook {
    /// The view of the store's nodes with their tables in the query with this name, and the query's automaton. The
    /// automaton has the query's variables, and on each text of at most 2^48 bytes it has the query's answers.
    ///
    /// Each node of the store must have its table. Allocates nothing. Takes time logarithmic in the number of queries.
    ///
    /// # Errors
    ///
    /// `NoSuchQuery` exactly if no query has the name.
    pub fn parts<'a>(
        &'a self,
        name: &[u8],
        store: &'a Store,
    ) -> Result<(View<'a>, &'a Dfa), BookRefusal>
        requires { Covers store.now self.now }
        ensures store { IfOk result (λ p. p.0.store.now ≡ store.now) }
        ensures tables { IfOk result (λ p. AreTables p.1.now p.0.store.now p.0.tables.now) }
        ensures automaton { IfOk result (λ p. IsDeterministic p.1.now) }
        ensures query { IfOk result (λ p. IsNamed (queries_of self.now) name.now (HasAnswersOf p.1.now)) }
        ensures missing { IfErr result (IsMissing (queries_of self.now) name.now) }
    {
        let ready = self.ready(name, store)?;
        Ok((ready.view(), ready.dfa()))
    }
}
