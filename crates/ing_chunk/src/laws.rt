//! What holds of all entries, for the crates above.
ghost use Rattle.ing_chunk.specs.Chunks.{SpansBoundStamps, StampsRise};
ghost use Rattle.ing_chunk.specs.Restored.{PartsAreBlocks, RestoredGrow, RestoredWait};

/// Where the greatest stamp of entries is below the start of a range, or their least at its end or above, none of them is in
/// the range.
pub fn spans_bound_stamps()
    ensures { SpansBoundStamps }
{}

/// Of entries in order of stamp, then number, none has a lower stamp than one before it.
pub fn stamps_rise()
    ensures { StampsRise }
{}

/// Of a chunk made again from a log, whose blocks are parts of the numbers from its first on, and whose head has no line that
/// is too long: no block is empty; one that has an entry, less than 2^30 bytes and no reason grows, up to the number behind its
/// last entry; one that has a block, fewer than 2^32 entries, a reason and no head waits.
pub fn restored_chunks_stand()
    ensures blocks { PartsAreBlocks }
    ensures grow { RestoredGrow }
    ensures wait { RestoredWait }
{}
