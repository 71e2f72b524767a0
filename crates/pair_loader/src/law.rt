//! Laws of the definitions.
ghost use Rattle.pair_loader.specs.Laws.{LoaderGrows};

/// A loader can still be used with its store after the store has grown, and was fed the same bytes.
pub fn loader_grows()
    ensures { LoaderGrows }
{}
