//! The state of a session.
ghost use Rattle.doc_book.specs.Texts.{plain};
ghost use Rattle.query_book.specs.Serving.{counted_of, covered_of};
ghost use Rattle.session_state.specs.DocumentReply.{IsDocument};
ghost use Rattle.session_state.specs.SessionState.{IsConsistent, state_of};
ghost use Rattle.span_language.specs.State.{nothing, value_of};
ghost use Rattle.std.specs.Prelude.{◌≡◌, ◌≤◌, [], IfErr, IfOk, None};

use doc_book::{Docs, Missing};
use doc_versions::Versions;
use node_store::Store;
use query_book::QueryBook;
use slp_model::NodeId;
use span_types::Name;
use std::alloc::Global;

/// Named documents, queries and versions over one store of nodes.
pub struct SessionState {
    pub alloc: Global,
    pub store: Store,
    pub docs: Docs,
    pub book: QueryBook,
    pub versions: Versions,
}

// Written out, so that no crate above proves anew how each part is dropped.
impl Drop for SessionState {
    fn drop(self) {
        let SessionState {
            alloc: _alloc,
            store: _store,
            docs: _docs,
            book: _book,
            versions: _versions,
        } = self;
    }
}

impl SessionState {
    /// No nodes, no documents, no queries and no versions. The automaton of a query may have at most `states` states, from
    /// 128 to 1,024.
    pub fn with_states(alloc: Global, states: u16) -> SessionState
        requires few { 128 ≤ states }
        requires many { states ≤ 1024 }
        ensures state { state_of result ≡ nothing states }
        ensures session { IsConsistent result }
        ensures store { result.store ≡ [] }
        ensures covered { covered_of result.book ≡ [] }
        ensures counted { counted_of result.book ≡ [] }
    {
        SessionState {
            alloc,
            store: Store::new(alloc),
            docs: Docs::new(alloc),
            book: QueryBook::with_states(alloc, states),
            versions: Versions::new(alloc),
        }
    }

    /// The root of the document with this name. Takes time logarithmic in the number of documents.
    ///
    /// # Errors
    ///
    /// `NoSuchDocument` exactly if no document has the name.
    pub fn root_of(&self, name: &Name) -> Result<Option<NodeId>, Missing>
        requires { IsConsistent self.now }
        ensures found { IfOk result (λ root. IsDocument self.now.store self.now.docs name.now root) }
        ensures missing { IfErr result (λ _. value_of (plain self.now.store self.now.docs) name.now ≡ None) }
    {
        self.docs.get(name.bytes())
    }

    /// Makes access to documents and versions by index take constant time, for a command that visits all of them.
    /// Changes nothing else, and allocates nothing. Takes constant time if nothing was removed since the last call, and
    /// otherwise O(n log n) time for n documents and versions.
    pub fn settle(&mut self)
        ensures { self.new ≡ self.old }
    {
        self.docs.settle();
        self.versions.settle();
    }
}
