//! Theorems about the definitions.
ghost use Rattle.query_book.specs.Laws.{StaysTrue};

/// The tables of a registry stay valid when nodes are added to the store.
pub fn stays_true()
    ensures { StaysTrue }
{}
