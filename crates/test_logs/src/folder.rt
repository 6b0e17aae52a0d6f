//! A store and a log in a folder for temporary files, whose files are then damaged and removed.
use ing_folder::{FolderFault, FolderLog, FolderStore};
use ing_store::{DigestReceipt, StoreEnd, StoreFault};
use ing_wal::{LogDisk, ReadFault, replace, write_unless_torn};
use std::alloc::Global;
use std::process::Abort;
use std::rt::Files;
use std::test::Fail;
use std::{env, fs, process};

/// A folder of this test alone, which is not there yet.
fn temporary(rt: &HostRuntime, name: &str) -> Result<String, Fail> {
    let folder = env::temp_dir(rt)?;
    let number = process::id(rt.process());
    Ok(format!(in rt.alloc(); "{}/sarymbeu-{name}-{number}", folder.as_str())?)
}

/// Whether an end gives the object back by the receipt, and finds no other.
fn gives_back<R: Files + AllocGlobal>(
    alloc: Global,
    end: &mut FolderStore<'_, R>,
    receipt: &DigestReceipt,
) -> Result<bool, Fail> {
    let is_given = end.get(alloc, receipt)?.as_slice() == b"xyz".as_slice();
    Ok(is_given && end.find(alloc, "c-2")?.is_none() && end.failures() == 0)
}

/// Puts an object: its receipt, and whether it is given back by that.
fn put_and_get<R: Files + AllocGlobal>(
    alloc: Global,
    end: &mut FolderStore<'_, R>,
) -> Result<(DigestReceipt, bool), Fail> {
    let put = end.put(alloc, "c-1", b"xyz")?;
    match gives_back(alloc, end, &put) {
        Ok(given) => Ok((put, given)),
        Err(fault) => Err(fault),
    }
}

/// Puts an object by an end of its own.
fn put_one<R: Files + AllocGlobal>(rt: &R, folder: &str) -> Result<(DigestReceipt, bool), Fail> {
    let alloc = rt.alloc();
    let mut end = FolderStore::open(rt, alloc, folder, 0)?;
    put_and_get(alloc, &mut end)
}

/// Another end of the folder finds the bytes that the object has now, or none.
fn bytes_found<R: Files + AllocGlobal>(rt: &R, folder: &str) -> Result<Option<Vec<u8>>, Fail> {
    let alloc = rt.alloc();
    let mut end = FolderStore::open(rt, alloc, folder, 1)?;
    Ok(end.found(alloc, "c-1")?.map(|(_, bytes)| bytes))
}

/// Why another end does not give what the receipt means.
fn refused<R: Files + AllocGlobal>(
    rt: &R,
    folder: &str,
    receipt: &DigestReceipt,
) -> Result<Option<StoreFault>, Fail> {
    let alloc = rt.alloc();
    let mut end = FolderStore::open(rt, alloc, folder, 1)?;
    let fault = end.get(alloc, receipt).err();
    Ok(fault.filter(|_| end.failures() == 1))
}

/// An object is put, and is the only file in the folder: its receipt.
fn put_alone<R: Files + AllocGlobal + Abort + Clone + Drop>(
    rt: &R,
    folder: &str,
) -> Result<DigestReceipt, Fail> {
    let (receipt, given) = put_one(rt, folder)?;
    let is_alone = fs::read_dir(rt, folder)?.count() == 1;
    assert!(rt; given && is_alone);
    Ok(receipt)
}

/// One that was changed is damaged, one that was removed is not there.
fn goes_away<R: Files + AllocGlobal + Abort>(
    rt: &R,
    folder: &str,
    path: &str,
    receipt: &DigestReceipt,
) -> Result<(), Fail> {
    fs::write(rt, path, "xy{")?;
    assert!(rt; refused(rt, folder, receipt)? == Some(StoreFault::Damaged));
    fs::remove_file(rt, path)?;
    assert!(rt; refused(rt, folder, receipt)? == Some(StoreFault::Failed));
    assert!(rt; bytes_found(rt, folder)?.is_none());
    Ok(())
}

/// Whether another end finds the object with its bytes.
fn is_found<R: Files + AllocGlobal>(rt: &R, folder: &str) -> Result<bool, Fail> {
    Ok(bytes_found(rt, folder)?.is_some_and(|bytes| bytes.as_slice() == b"xyz".as_slice()))
}

/// An object is a file, and no other lies beside it; then it is changed, and removed.
fn is_a_file<R: Files + AllocGlobal + Abort + Clone + Drop>(
    rt: &R,
    folder: &str,
    path: &str,
) -> Result<(), Fail> {
    let receipt = put_alone(rt, folder)?;
    assert!(rt; is_found(rt, folder)?);
    goes_away(rt, folder, path, &receipt)
}

#[test]
fn an_object_is_a_file(rt: HostRuntime) -> Result<(), Fail> {
    let folder = temporary(&rt, "objects")?;
    let path = format!(in rt.alloc(); "{}/c-1", folder.as_str())?;
    is_a_file(&rt, folder.as_str(), path.as_str())?;
    fs::remove_dir(&rt, folder.as_str())?;
    Ok(())
}

/// A name that would lead out of the folder is refused.
#[test]
fn a_name_stays_in_the_folder(rt: HostRuntime) -> Result<(), Fail> {
    let folder = temporary(&rt, "names")?;
    let mut end = FolderStore::open(&rt, rt.alloc(), folder.as_str(), 0)?;
    for name in ["", "..", "../c-1", ".c-1", "a/b"] {
        assert!(rt; end.put(rt.alloc(), name, b"x").err() == Some(StoreFault::Failed));
    }
    assert_eq!(rt; end.failures(), 5);
    fs::remove_dir(&rt, folder.as_str())?;
    Ok(())
}

/// The text of the log, opened anew.
fn text_of<R: Files + AllocGlobal>(rt: &R, folder: &str) -> Result<Vec<u8>, Fail> {
    let mut log = FolderLog::open(rt, rt.alloc(), folder, "wal-0")?;
    Ok(log.read_all(rt.alloc())?)
}

/// Whether this is the text of the log, opened anew.
fn has_text<R: Files + AllocGlobal>(rt: &R, folder: &str, text: &[u8]) -> Result<bool, Fail> {
    Ok(text_of(rt, folder)?.as_slice() == text)
}

/// A text is written at the end, and replaced, and is there for the next that opens the file; no other lies beside it.
fn takes_texts<R: Files + AllocGlobal + Abort + Clone + Drop>(
    rt: &R,
    folder: &str,
    log: &mut FolderLog<'_, R>,
) -> Result<(), Fail> {
    assert!(rt; !write_unless_torn(log, false, b"one"));
    assert!(rt; has_text(rt, folder, b"one")?);
    assert!(rt; replace(log, b"two").is_ok());
    assert!(rt; !write_unless_torn(log, false, b", three"));
    assert!(rt; has_text(rt, folder, b"two, three")?);
    assert!(rt; fs::read_dir(rt, folder)?.count() == 1);
    Ok(())
}

#[test]
fn a_log_is_a_file(rt: HostRuntime) -> Result<(), Fail> {
    let folder = temporary(&rt, "log")?;
    let mut log = FolderLog::open(&rt, rt.alloc(), folder.as_str(), "wal-0")?;
    takes_texts(&rt, folder.as_str(), &mut log)?;
    fs::remove_dir_all(&rt, folder.as_str())?;
    Ok(())
}

/// The folder goes away below an open log.
#[test]
fn a_log_without_a_folder_fails(rt: HostRuntime) -> Result<(), Fail> {
    let folder = temporary(&rt, "gone")?;
    let mut log = FolderLog::open(&rt, rt.alloc(), folder.as_str(), "wal-0")?;
    fs::remove_dir_all(&rt, folder.as_str())?;
    assert!(rt; log.read_all(rt.alloc()) == Err(ReadFault::LogFault));
    assert!(rt; replace(&mut log, b"x").is_err());
    assert!(rt; write_unless_torn(&mut log, false, b"y"));
    assert_eq!(rt; log.failures(), 3);
    Ok(())
}

#[test]
fn a_file_is_no_folder(rt: HostRuntime) -> Result<(), Fail> {
    let path = temporary(&rt, "file")?;
    fs::write(&rt, path.as_str(), "x")?;
    let store = FolderStore::open(&rt, rt.alloc(), path.as_str(), 0).err();
    let log = FolderLog::open(&rt, rt.alloc(), path.as_str(), "wal-0").err();
    fs::remove_file(&rt, path.as_str())?;
    assert_eq!(rt; store, Some(FolderFault::Failed));
    assert_eq!(rt; log, Some(FolderFault::Failed));
    Ok(())
}
