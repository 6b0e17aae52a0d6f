//! A store in memory by its ends: what stands is found and got, and calls fail as their fuse says.
use crate::codec::{CHUNK, ROW_FRONT};
use ing_codec::{chunk_key, decode_chunk, decode_row};
use ing_store::{Fuse, MemoryStore, StoreEnd, StoreFault, put_chunk, put_row};
use std::alloc::Global;
use std::process::Abort;
use std::sync::Wait;
use std::test::Fail;
use std::thread;

/// The name of the object of that chunk.
const CHUNK_NAME: &str = "c-da6461fbb296c0e60293e1886b7e49407d464aa75ee4518b0a3c65b0636add9f";

/// The name of the row's object.
const ROW_NAME: &str =
    "r-23908dbe68dd19f9-da6461fbb296c0e60293e1886b7e49407d464aa75ee4518b0a3c65b0636add9f";

/// Whether an object of this name with these bytes is found, by an end that does not fail.
fn has<R: Wait>(rt: &R, store: &MemoryStore, alloc: Global, name: &str, bytes: &[u8]) -> bool {
    let mut end = store.end(rt, Fuse::None);
    let Ok(Some(receipt)) = end.find(alloc, name) else {
        return false;
    };
    match end.get(alloc, &receipt) {
        Ok(got) => got.as_slice() == bytes,
        Err(_) => false,
    }
}

/// What an end answers to the putting of an object.
fn answer<S: StoreEnd>(end: &mut S, alloc: Global, name: &str) -> Option<StoreFault> {
    end.put(alloc, name, b"xyz").err()
}

#[test]
fn what_is_put_is_found(rt: HostRuntime) -> Result<(), Fail> {
    let store = MemoryStore::new(rt.alloc())?;
    let mut end = store.end(&rt, Fuse::None);
    assert_eq!(rt; answer(&mut end, rt.alloc(), "a"), None);
    assert!(rt; has(&rt, &store, rt.alloc(), "a", b"xyz"));
    assert!(rt; !has(&rt, &store, rt.alloc(), "b", b"xyz"));
    Ok(())
}

#[test]
fn equal_bytes_are_written_once(rt: HostRuntime) -> Result<(), Fail> {
    let store = MemoryStore::new(rt.alloc())?;
    let mut end = store.end(&rt, Fuse::None);
    assert_eq!(rt; answer(&mut end, rt.alloc(), "a"), None);
    assert_eq!(rt; answer(&mut end, rt.alloc(), "a"), None);
    assert_eq!(rt; store.written(), 1);
    assert_eq!(rt; answer(&mut end, rt.alloc(), "b"), None);
    assert_eq!(rt; store.written(), 2);
    Ok(())
}

#[test]
fn what_was_written_stays(rt: HostRuntime) -> Result<(), Fail> {
    let store = MemoryStore::new(rt.alloc())?;
    let mut end = store.end(&rt, Fuse::None);
    let receipt = end.put(rt.alloc(), "a", b"first").ok().ok_or("stored")?;
    assert_eq!(rt; answer(&mut end, rt.alloc(), "a"), None);
    assert!(rt; has(&rt, &store, rt.alloc(), "a", b"xyz"));
    let bytes = end.get(rt.alloc(), &receipt).ok().ok_or("got")?;
    assert!(rt; bytes.as_slice() == b"first".as_slice());
    Ok(())
}

/// One allocation at most is refused in a run of this test: a refused put leaves no object, with a name
/// or without, and the same put then succeeds.
#[test]
fn a_refused_put_leaves_no_object(rt: HostRuntime) -> Result<(), Fail> {
    let store = MemoryStore::new(rt.alloc())?;
    let mut end = store.end(&rt, Fuse::None);
    for (name, before, after) in [("a", 0, 1), ("b", 1, 2)] {
        if let Some(fault) = answer(&mut end, rt.alloc(), name) {
            assert_eq!(rt; fault, StoreFault::NoMemory);
            assert_eq!(rt; store.written(), before, "{name}");
            assert!(rt; end.find(rt.alloc(), name)?.is_none(), "{name}");
            assert_eq!(rt; answer(&mut end, rt.alloc(), name), None, "{name}");
        }
        assert_eq!(rt; store.written(), after, "{name}");
        assert!(rt; end.find(rt.alloc(), name)?.is_some(), "{name}");
    }
    Ok(())
}

#[test]
fn a_fuse_fails_one_call(rt: HostRuntime) -> Result<(), Fail> {
    let store = MemoryStore::new(rt.alloc())?;
    let mut end = store.end(&rt, Fuse::Failed(1));
    assert_eq!(rt; answer(&mut end, rt.alloc(), "a"), None);
    assert_eq!(rt; answer(&mut end, rt.alloc(), "b"), Some(StoreFault::Failed));
    assert_eq!(rt; end.failures(), 1);
    assert!(rt; !has(&rt, &store, rt.alloc(), "b", b"xyz"));
    assert_eq!(rt; answer(&mut end, rt.alloc(), "b"), None);
    Ok(())
}

#[test]
fn a_failed_put_may_have_stored(rt: HostRuntime) -> Result<(), Fail> {
    let store = MemoryStore::new(rt.alloc())?;
    let mut end = store.end(&rt, Fuse::StoredYetFailed(0));
    assert_eq!(rt; answer(&mut end, rt.alloc(), "a"), Some(StoreFault::Failed));
    assert_eq!(rt; end.failures(), 1);
    assert!(rt; has(&rt, &store, rt.alloc(), "a", b"xyz"));
    Ok(())
}

#[test]
fn a_dead_end_fails_from_a_call_on(rt: HostRuntime) -> Result<(), Fail> {
    let store = MemoryStore::new(rt.alloc())?;
    let mut end = store.dead_end(&rt, 1);
    assert_eq!(rt; answer(&mut end, rt.alloc(), "a"), None);
    assert_eq!(rt; answer(&mut end, rt.alloc(), "a"), Some(StoreFault::Failed));
    assert!(rt; end.find(rt.alloc(), "a").is_err());
    assert_eq!(rt; end.failures(), 2);
    Ok(())
}

#[test]
fn a_chunk_is_put_under_its_name(rt: HostRuntime) -> Result<(), Fail> {
    let store = MemoryStore::new(rt.alloc())?;
    let chunk = decode_chunk(rt.alloc(), CHUNK).ok().ok_or("a chunk")?;
    let mut end = store.end(&rt, Fuse::None);
    assert!(rt; put_chunk(rt.alloc(), &mut end, &chunk.view()).is_ok());
    assert!(rt; has(&rt, &store, rt.alloc(), CHUNK_NAME, CHUNK));
    Ok(())
}

#[test]
fn a_row_is_put_under_its_name(rt: HostRuntime) -> Result<(), Fail> {
    let store = MemoryStore::new(rt.alloc())?;
    let mut bytes = Vec::from_slice(rt.alloc(), ROW_FRONT)?;
    bytes.extend_from_slice(&chunk_key(CHUNK))?;
    let row = decode_row(rt.alloc(), &bytes).ok().ok_or("a row")?;
    let mut end = store.end(&rt, Fuse::None);
    assert!(rt; put_row(rt.alloc(), &mut end, &row).is_ok());
    assert!(rt; has(&rt, &store, rt.alloc(), ROW_NAME, &bytes));
    Ok(())
}

#[test]
fn two_threads_put_one_object(rt: HostRuntime) -> Result<(), Fail> {
    let store = MemoryStore::new(rt.alloc())?;
    let alloc = rt.alloc();
    let mut one = store.end(&rt, Fuse::None);
    let mut two = store.end(&rt, Fuse::None);
    let answers = thread::join(
        &rt,
        || answer(&mut one, alloc, "a"),
        || answer(&mut two, alloc, "a"),
    );
    assert_eq!(rt; answers, (None, None));
    assert!(rt; has(&rt, &store, alloc, "a", b"xyz"));
    assert_eq!(rt; store.written(), 1);
    Ok(())
}
