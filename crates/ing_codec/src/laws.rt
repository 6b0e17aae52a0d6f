//! Laws of the bytes of objects, each the contract of a function with nothing to do.
ghost use Rattle.ing_codec.specs.Laws.{ChunksAreExact, RowsAreExact, FieldsAreExact};
ghost use Rattle.ing_codec.specs.WorkedObjects.{ChunkIsWorked};

/// Each chunk has one spelling, and each spelling is accepted from one chunk alone.
pub fn chunks_are_exact()
    ensures { ChunksAreExact }
{}

/// Each row has one spelling, and each spelling is accepted from one row alone.
pub fn rows_are_exact()
    ensures { RowsAreExact }
{}

/// Each field has one spelling: it is read again whatever stands after it, which remains; and what is read as
/// a field has its spelling in front.
pub fn fields_are_exact()
    ensures { FieldsAreExact }
{}

/// A chunk of two entries, byte by byte.
pub fn worked_objects()
    ensures { ChunkIsWorked }
{}
