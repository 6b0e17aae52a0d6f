//! A chunk that was put into a store in memory, and is listed again by what was noted of it, or refused.
use ing_labels::Labels;
use ing_rows::{Entry, Line, Stamp, Tenant};
use ing_shard::{Listing, RelistFault, relist};
use ing_store::{
    Extent, Fuse, MemoryEnd, MemoryReceipt, MemoryStore, StoreEnd, chunk_name, decode_chunk,
    put_chunk,
};
use std::alloc::Global;
use std::process::Abort;
use std::sync::Wait;
use std::test::Fail;

/// The chunk of the tenant `t` and the stream `{a="1"}` with two entries: number 1, `yz` at stamp 3, and number 0, `x` at 5
/// (written by another program).
const CHUNK: [u8; 71] =
    *b"INGC\x02\x01t\0\0\0\x07{a=\"1\"}\0\0\0\0\0\0\0\0\0\0\0\x01\0\0\0\x02\0\0\0\x01\0\0\0\0\0\0\0\x03\0\0\0\x02yz\0\0\0\0\0\0\0\0\0\0\0\0\x05\0\0\0\x01x\0";

/// Its SHA-256 (computed by another program).
const KEY: [u8; 32] = [
    218, 100, 97, 251, 178, 150, 192, 230, 2, 147, 225, 136, 107, 126, 73, 64, 125, 70, 74, 167,
    94, 228, 81, 139, 10, 60, 101, 176, 99, 106, 221, 159,
];

/// The same chunk in the first version, and the SHA-256 of that.
const FIRST_CHUNK: [u8; 69] =
    *b"INGC\x01\x01t\0\0\0\x07{a=\"1\"}\0\0\0\0\0\0\0\0\0\0\0\x01\0\0\0\x02\0\0\0\x01\0\0\0\0\0\0\0\x03\0\0\0\x02yz\0\0\0\0\0\0\0\0\0\0\0\x05\0\0\0\x01x";

const FIRST_KEY: [u8; 32] = [
    167, 124, 250, 217, 151, 187, 123, 135, 242, 67, 141, 252, 208, 215, 176, 79, 246, 69, 122,
    105, 213, 201, 74, 75, 115, 252, 72, 59, 0, 159, 131, 242,
];

/// The extent of that chunk: two entries from number 0 on, of 35 bytes, from stamp 3 to 5.
fn extent() -> Result<Extent, Fail> {
    Ok(Extent {
        first: 0,
        count: 2,
        size: 35,
        least: Stamp::of_nanoseconds(3).ok_or("a stamp")?,
        greatest: Stamp::of_nanoseconds(5).ok_or("a stamp")?,
    })
}

/// Whose a chunk is said to be.
#[derive(Drop)]
struct Stream {
    tenant: Tenant,
    labels: Labels,
}

fn stream_of(alloc: Global, tenant: &str, labels: &str) -> Result<Stream, Fail> {
    Ok(Stream {
        tenant: Tenant::of_text(alloc, tenant)?,
        labels: Labels::parse_canonical(alloc, labels)?,
    })
}

/// Puts these bytes under the name of that chunk.
fn put_as_chunk<R: Wait>(
    alloc: Global,
    end: &mut MemoryEnd<'_, R>,
    bytes: &[u8],
) -> Result<(), Fail> {
    let name = chunk_name(alloc, &KEY)?;
    let _ = end.put(alloc, name.as_str(), bytes)?;
    Ok(())
}

/// Why a chunk is not listed again under that key, as one with this extent that ends with this entry.
fn fault_of<R: Wait>(
    alloc: Global,
    end: &mut MemoryEnd<'_, R>,
    stream: &Stream,
    extent: Extent,
    last: Option<&Entry>,
) -> Option<RelistFault> {
    relist(
        alloc,
        end,
        &stream.tenant,
        &stream.labels,
        extent,
        &KEY,
        last,
    )
    .err()
}

/// Puts that chunk: its key.
fn put_whole<R: Wait>(alloc: Global, end: &mut MemoryEnd<'_, R>) -> Result<[u8; 32], Fail> {
    let chunk = decode_chunk(alloc, &CHUNK)?;
    Ok(put_chunk(alloc, end, &chunk.view())?.key)
}

/// Whether a listing is of that chunk, and its receipt means the chunk.
fn is_of_chunk<'a, R: Wait>(
    alloc: Global,
    end: &mut MemoryEnd<'a, R>,
    listing: &Listing<MemoryReceipt<'a>>,
) -> Result<bool, Fail> {
    let bytes = end.get(alloc, listing.receipt())?;
    Ok(
        listing.key() == KEY
            && listing.tenant().as_str() == "t"
            && listing.labels().name() == "{a=\"1\"}"
            && listing.extent() == extent()?
            && bytes.as_slice() == CHUNK.as_slice(),
    )
}

/// Whether that chunk, which was put, is listed again.
fn is_listed_again<R: Wait>(
    alloc: Global,
    end: &mut MemoryEnd<'_, R>,
    stream: &Stream,
) -> Result<bool, Fail> {
    let listing = relist(
        alloc,
        end,
        &stream.tenant,
        &stream.labels,
        extent()?,
        &KEY,
        None,
    )?;
    is_of_chunk(alloc, end, &listing)
}

#[test]
fn a_stored_chunk_is_listed_again(rt: HostRuntime) -> Result<(), Fail> {
    let stream = stream_of(rt.alloc(), "t", "{a=\"1\"}")?;
    let store = MemoryStore::new(rt.alloc())?;
    let mut end = store.end(&rt, Fuse::None);
    assert!(rt; put_whole(rt.alloc(), &mut end)? == KEY);
    assert!(rt; is_listed_again(rt.alloc(), &mut end, &stream)?);
    assert!(rt; end.failures() == 0);
    Ok(())
}

/// What a log of the first version lists is of the first version, too, and stays as it is.
#[test]
fn a_chunk_of_the_first_version_is_listed_again(rt: HostRuntime) -> Result<(), Fail> {
    let alloc = rt.alloc();
    let stream = stream_of(alloc, "t", "{a=\"1\"}")?;
    let store = MemoryStore::new(alloc)?;
    let mut end = store.end(&rt, Fuse::None);
    let name = chunk_name(alloc, &FIRST_KEY)?;
    let _ = end.put(alloc, name.as_str(), &FIRST_CHUNK)?;
    let last = Entry {
        stamp: Stamp::of_nanoseconds(3).ok_or("a stamp")?,
        line: Line::of_text(alloc, "yz")?,
    };
    let (tenant, labels) = (&stream.tenant, &stream.labels);
    let listing = relist(
        alloc,
        &mut end,
        tenant,
        labels,
        extent()?,
        &FIRST_KEY,
        Some(&last),
    )?;
    assert!(rt; listing.key() == FIRST_KEY && listing.extent() == extent()?);
    assert!(rt; end.get(alloc, listing.receipt())?.as_slice() == FIRST_CHUNK.as_slice());
    Ok(())
}

/// No other extent is taken for that of the chunk, where one number differs.
fn takes_no_other<R: Wait>(
    rt: &impl Abort,
    alloc: Global,
    end: &mut MemoryEnd<'_, R>,
) -> Result<(), Fail> {
    let own = stream_of(alloc, "t", "{a=\"1\"}")?;
    let bad = Some(RelistFault::BadObject { key: KEY });
    let x = extent()?;
    let four = Stamp::of_nanoseconds(4).ok_or("a stamp")?;
    for other in [
        Extent { first: 1, ..x },
        Extent { count: 3, ..x },
        Extent { size: 36, ..x },
        Extent { least: four, ..x },
        Extent {
            greatest: four,
            ..x
        },
    ] {
        assert!(rt; fault_of(alloc, end, &own, other, None) == bad);
    }
    assert!(rt; fault_of(alloc, end, &own, x, None).is_none());
    Ok(())
}

/// The chunk is not taken for one of this tenant and stream.
fn is_of_another<R: Wait>(
    rt: &impl Abort,
    alloc: Global,
    end: &mut MemoryEnd<'_, R>,
    tenant: &str,
    labels: &str,
) -> Result<(), Fail> {
    let other = stream_of(alloc, tenant, labels)?;
    let fault = fault_of(alloc, end, &other, extent()?, None);
    assert!(rt; fault == Some(RelistFault::BadObject { key: KEY }));
    Ok(())
}

/// A chunk of another tenant, of another stream, and each extent that differs in one number.
#[test]
fn a_chunk_is_not_taken_for_another(rt: HostRuntime) -> Result<(), Fail> {
    let store = MemoryStore::new(rt.alloc())?;
    let mut end = store.end(&rt, Fuse::None);
    put_as_chunk(rt.alloc(), &mut end, &CHUNK)?;
    is_of_another(&rt, rt.alloc(), &mut end, "u", "{a=\"1\"}")?;
    is_of_another(&rt, rt.alloc(), &mut end, "t", "{a=\"2\"}")?;
    takes_no_other(&rt, rt.alloc(), &mut end)
}

/// Whether the chunk is listed again as one that ends with this entry; if not, it is a bad object.
fn ends_with<R: Wait>(
    rt: &impl Abort,
    alloc: Global,
    end: &mut MemoryEnd<'_, R>,
    stream: &Stream,
    stamp: u64,
    line: &str,
) -> Result<bool, Fail> {
    let extent = extent()?;
    let last = Entry {
        stamp: Stamp::of_nanoseconds(stamp).ok_or("a stamp")?,
        line: Line::of_text(alloc, line)?,
    };
    let fault = fault_of(alloc, end, stream, extent, Some(&last));
    assert!(rt; fault.is_none() || fault == Some(RelistFault::BadObject { key: KEY }));
    Ok(fault.is_none())
}

/// The last entry of that chunk is the one of number 1, `yz` at stamp 3.
fn ends_with_its_last<R: Wait>(
    rt: &impl Abort,
    alloc: Global,
    end: &mut MemoryEnd<'_, R>,
) -> Result<(), Fail> {
    let stream = stream_of(alloc, "t", "{a=\"1\"}")?;
    for (stamp, line, ends) in [
        (3, "yz", true),
        (4, "yz", false),
        (3, "y", false),
        (5, "x", false),
    ] {
        assert!(rt; ends_with(rt, alloc, end, &stream, stamp, line)? == ends);
    }
    Ok(())
}

#[test]
fn a_chunk_ends_with_its_last_entry(rt: HostRuntime) -> Result<(), Fail> {
    let store = MemoryStore::new(rt.alloc())?;
    let mut end = store.end(&rt, Fuse::None);
    put_as_chunk(rt.alloc(), &mut end, &CHUNK)?;
    ends_with_its_last(&rt, rt.alloc(), &mut end)
}

/// Why the chunk is not listed where a store has these bytes in its place.
fn fault_over<R: Wait>(
    rt: &R,
    alloc: Global,
    stream: &Stream,
    bytes: &[u8],
) -> Result<Option<RelistFault>, Fail> {
    let store = MemoryStore::new(alloc)?;
    let mut end = store.end(rt, Fuse::None);
    put_as_chunk(alloc, &mut end, bytes)?;
    Ok(fault_of(alloc, &mut end, stream, extent()?, None))
}

/// An object that has a byte changed, one that lacks its last, and the chunk in the first version, whose key is another.
#[test]
fn a_damaged_object_is_not_listed(rt: HostRuntime) -> Result<(), Fail> {
    let stream = stream_of(rt.alloc(), "t", "{a=\"1\"}")?;
    let mut changed = CHUNK;
    changed[69] = b'z';
    for bytes in [changed.as_slice(), &CHUNK[..70], &FIRST_CHUNK] {
        let fault = fault_over(&rt, rt.alloc(), &stream, bytes)?;
        assert!(rt; fault == Some(RelistFault::BadObject { key: KEY }));
    }
    Ok(())
}

#[test]
fn what_a_store_has_not_is_not_listed(rt: HostRuntime) -> Result<(), Fail> {
    let stream = stream_of(rt.alloc(), "t", "{a=\"1\"}")?;
    let store = MemoryStore::new(rt.alloc())?;
    let mut end = store.end(&rt, Fuse::None);
    let missing = fault_of(rt.alloc(), &mut end, &stream, extent()?, None);
    assert!(rt; missing == Some(RelistFault::Missing { key: KEY }));
    Ok(())
}

/// The store has the chunk.
#[test]
fn a_store_that_fails_lists_nothing(rt: HostRuntime) -> Result<(), Fail> {
    let stream = stream_of(rt.alloc(), "t", "{a=\"1\"}")?;
    let store = MemoryStore::new(rt.alloc())?;
    put_as_chunk(rt.alloc(), &mut store.end(&rt, Fuse::None), &CHUNK)?;
    let mut dead = store.dead_end(&rt, 0);
    let failed = fault_of(rt.alloc(), &mut dead, &stream, extent()?, None);
    assert!(rt; failed == Some(RelistFault::Failed { key: KEY }));
    assert!(rt; dead.failures() == 1);
    Ok(())
}
