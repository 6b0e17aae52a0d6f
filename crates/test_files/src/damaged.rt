//! Objects in files that are damaged or lost.
use crate::files::Shelf;
use crate::files_end::FilesEnd;
use ing_store::{DigestReceipt, StoreEnd, StoreFault};
use std::alloc::Global;
use std::process::Abort;
use std::test::Fail;

/// A receipt means what was read for it: the bytes that lie there now are read by the receipt of the name.
fn found_now(
    rt: &impl Abort,
    alloc: Global,
    end: &mut FilesEnd<Shelf>,
) -> Result<DigestReceipt, Fail> {
    let (now, bytes) = end.found(alloc, "a")?.ok_or("a file")?;
    assert_eq!(rt; bytes.as_slice(), b"xy{".as_slice());
    assert_eq!(rt; end.get(alloc, &now)?.as_slice(), b"xy{".as_slice());
    Ok(now)
}

/// Bytes of another digest are never given for a receipt.
fn are_damaged(rt: &impl Abort, alloc: Global, end: &mut FilesEnd<Shelf>) -> Result<(), Fail> {
    let put = end.put(alloc, "a", b"xyz")?;
    assert_eq!(rt; end.get(alloc, &put)?.as_slice(), b"xyz".as_slice());
    end.files.damage();
    assert_eq!(rt; end.get(alloc, &put).err(), Some(StoreFault::Damaged));
    assert_eq!(rt; end.failures(), 1);
    Ok(())
}

/// A file that is lost is not found, and nothing is given for its receipt.
fn are_lost(rt: &impl Abort, alloc: Global, end: &mut FilesEnd<Shelf>) -> Result<(), Fail> {
    let now = found_now(rt, alloc, end)?;
    end.files.lose();
    assert_eq!(rt; end.get(alloc, &now).err(), Some(StoreFault::Failed));
    assert_eq!(rt; end.failures(), 2);
    assert!(rt; end.found(alloc, "a")?.is_none());
    assert!(rt; end.find(alloc, "a")?.is_none());
    Ok(())
}

#[test]
fn objects_lie_in_files(rt: HostRuntime) -> Result<(), Fail> {
    let mut end = FilesEnd::of(Shelf::new(rt.alloc()));
    are_damaged(&rt, rt.alloc(), &mut end)?;
    are_lost(&rt, rt.alloc(), &mut end)
}
