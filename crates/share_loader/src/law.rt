//! Laws of the definitions.
ghost use Rattle.share_loader.specs.Laws.{SharerGrows, SharerStarts};

/// A sharer may be used with its store after this has grown, was fed the same bytes, and may have cost as much.
pub fn sharer_grows()
    ensures { SharerGrows }
{}

/// What a sharer is before the first byte, and what all blocks of a text may cost beside one node construction for each
/// byte.
pub fn sharer_starts()
    ensures { SharerStarts }
{}
