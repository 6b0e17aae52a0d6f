//! A chunk and its row, and what becomes of reading and writing them when an allocation is refused.
use ing_codec::{
    CodecFault, IndexRow, StoredChunk, decode_chunk, decode_row, encode_chunk, encode_row,
};
use std::alloc::{AllocError, Global};
use std::process::Abort;
use std::test::Fail;

/// Tenant `t`, labels `{a="1"}`; number 1 at stamp 3 with `yz`, and number 0 at stamp 5 with `x`, in one
/// block.
pub(crate) const CHUNK: &[u8; 71] =
    b"INGC\x02\x01t\0\0\0\x07{a=\"1\"}\0\0\0\0\0\0\0\0\0\0\0\x01\0\0\0\x02\0\0\0\x01\0\0\0\0\0\0\0\x03\0\0\0\x02yz\0\0\0\0\0\0\0\0\0\0\0\0\x05\0\0\0\x01x\0";

/// Its row up to the key: from number 0 on 2 entries of 35 bytes, with stamps from 3 to 5.
pub(crate) const ROW_FRONT: &[u8; 54] =
    b"INGR\x01\x01t\0\0\0\x07{a=\"1\"}\0\0\0\0\0\0\0\0\0\0\0\x02\0\0\0\0\0\0\0\x23\0\0\0\0\0\0\0\x03\0\0\0\0\0\0\0\x05";

/// Tenant `acme`, 17 labels, and from number 7 on a block of 17 entries and one of 3.
const TWO_BLOCKS: &[u8; 565] = b"INGC\x02\x04acme\
    \0\0\0\x8d{application=\"a long\\nvalue\", b=\"1\", c=\"1\", d=\"1\", e=\"1\", f=\"1\", g=\"1\", h=\"1\", i=\"1\", j=\"1\", k=\"1\", l=\"1\", m=\"1\", n=\"1\", o=\"1\", p=\"1\", q=\"1\"}\
    \0\0\0\0\0\0\0\x07\0\0\0\x02\
    \0\0\0\x11\
    \0\0\0\x10\0\0\0\0\0\0\0\0\0\0\0\x01q\0\
    \0\0\0\x0f\0\0\0\0\0\0\0\x01\0\0\0\x01p\0\
    \0\0\0\x0e\0\0\0\0\0\0\0\x02\0\0\0\x01o\0\
    \0\0\0\x0d\0\0\0\0\0\0\0\x03\0\0\0\x01n\0\
    \0\0\0\x0c\0\0\0\0\0\0\0\x04\0\0\0\x01m\0\
    \0\0\0\x0b\0\0\0\0\0\0\0\x05\0\0\0\x01l\0\
    \0\0\0\x0a\0\0\0\0\0\0\0\x06\0\0\0\x01k\0\
    \0\0\0\x09\0\0\0\0\0\0\0\x07\0\0\0\x01j\0\
    \0\0\0\x08\0\0\0\0\0\0\0\x08\0\0\0\x01i\0\
    \0\0\0\x07\0\0\0\0\0\0\0\x09\0\0\0\x01h\0\
    \0\0\0\x06\0\0\0\0\0\0\0\x0a\0\0\0\x01g\0\
    \0\0\0\x05\0\0\0\0\0\0\0\x0b\0\0\0\x01f\0\
    \0\0\0\x04\0\0\0\0\0\0\0\x0c\0\0\0\x01e\0\
    \0\0\0\x03\0\0\0\0\0\0\0\x0d\0\0\0\x01d\0\
    \0\0\0\x02\0\0\0\0\0\0\0\x0e\0\0\0\x01c\0\
    \0\0\0\x01\0\0\0\0\0\0\0\x0f\0\0\0\x01b\0\
    \0\0\0\0\0\0\0\0\0\0\0\x10\0\0\0\x01a\0\
    \0\0\0\x03\
    \0\0\0\x12\0\0\0\0\0\0\0\x05\0\0\0\x01x\0\
    \0\0\0\x11\0\0\0\0\0\0\0\x09\0\0\0\x02yz\0\
    \0\0\0\x13\0\0\0\0\0\0\0\x09\0\0\0\x1ea line of thirty bytes in all.\0";

/// A row with the same tenant and labels, and a key of letters and digits.
const LONG_ROW: &[u8; 223] = b"INGR\x01\x04acme\
    \0\0\0\x8d{application=\"a long\\nvalue\", b=\"1\", c=\"1\", d=\"1\", e=\"1\", f=\"1\", g=\"1\", h=\"1\", i=\"1\", j=\"1\", k=\"1\", l=\"1\", m=\"1\", n=\"1\", o=\"1\", p=\"1\", q=\"1\"}\
    \0\0\0\0\0\0\0\x07\0\0\0\x14\
    \0\0\0\0\0\0\x01r\0\0\0\0\0\0\0\0\0\0\0\0\0\0\0\x10\
    0123456789abcdef0123456789abcdef";

/// What bytes are decoded as. Where memory was wanted, the same call is made again.
fn chunk_of(alloc: Global, bytes: &[u8]) -> Result<StoredChunk, CodecFault> {
    match decode_chunk(alloc, bytes) {
        Err(CodecFault::NoMemory) => decode_chunk(alloc, bytes),
        answer => answer,
    }
}

/// The same for a row.
fn row_of(alloc: Global, bytes: &[u8]) -> Result<IndexRow, CodecFault> {
    match decode_row(alloc, bytes) {
        Err(CodecFault::NoMemory) => decode_row(alloc, bytes),
        answer => answer,
    }
}

/// One allocation at most is refused in a run of this test (`rt try --test --fail-alloc N`), and none is the
/// test's own: a call may then answer want of memory and no other fault, and the same call then answers as if
/// none had been refused.
#[test]
fn a_refused_allocation_and_the_next_chunk(rt: HostRuntime) -> Result<(), Fail> {
    let alloc = rt.alloc();
    let mut bytes = *TWO_BLOCKS;
    let chunk = chunk_of(alloc, &bytes).ok().ok_or("a chunk")?;
    assert_eq!(rt;
        (chunk.blocks().len(), chunk.count(), chunk.size()),
        (2, 20, 370)
    );
    let again = match encode_chunk(alloc, &chunk.view()) {
        Ok(again) => again,
        Err(AllocError) => encode_chunk(alloc, &chunk.view())?,
    };
    assert!(rt; again.as_slice() == TWO_BLOCKS.as_slice());
    // The stamp of the last entry is now below that of the entry before it.
    bytes[529] = 4;
    assert_eq!(rt; chunk_of(alloc, &bytes).err(), Some(CodecFault::OutOfOrder));
    Ok(())
}

/// The same for a row.
#[test]
fn a_refused_allocation_and_the_next_row(rt: HostRuntime) -> Result<(), Fail> {
    let alloc = rt.alloc();
    let row = row_of(alloc, LONG_ROW).ok().ok_or("a row")?;
    let again = match encode_row(alloc, &row) {
        Ok(again) => again,
        Err(AllocError) => encode_row(alloc, &row)?,
    };
    assert!(rt; again.as_slice() == LONG_ROW.as_slice());
    Ok(())
}
