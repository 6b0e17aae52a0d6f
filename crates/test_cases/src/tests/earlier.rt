//! A folder of the first version, as a program of before leaves it: two shards with chunks that are stored, one that is sealed and
//! waits, and ones that grow; the second log is cut off in its last record.
use super::FLUSH;
use super::folders::{CHECKPOINT, Places, places_of, remove, written};
use ing_program::Disk;
use std::fs;
use std::process::Abort;
use std::test::Fail;

/// The settings of which it was begun.
const SETTINGS: &str = "shards = 2\nchunk_block_size = 60\nchunk_target_size = 120\n";

/// Its files, by their names.
const FILES: [(&str, &[u8]); 9] = [
    (
        "lock",
        b"format = 1\x0ashards = 2\x0achunk_block_size = 60\x0achunk_target_size = 120\x0a",
    ),
    (
        "objects/c-3630930769a1e51c4d33e9873d0f51c2881a354f34469267f5c18aa7c76b90f5",
        b"INGC\x01\x04acme\0\0\0\x0b{app=\"web\"}\0\0\0\0\0\0\0\0\0\0\0\x02\0\0\0\x04\0\0\0\0\0\0\0\0\0\0\x03\xe8\0\0\0\x03one\0\0\0\x02\0\0\0\0\0\0\x03\xe9\0\0\0\x04late\0\0\0\x01\0\0\0\0\0\0\x03\xed\0\0\0\x03two\0\0\0\x03\0\0\0\0\0\0\x03\xed\0\0\0\x09two again\0\0\0\x01\0\0\0\x04\0\0\0\0\0\0\x03\xed\0\0\0\x03two",
    ),
    (
        "objects/c-71421b471903904f22c3fdae89ec36814923200539e91cc34527c6acea4d2422",
        b"INGC\x01\x04acme\0\0\0\x0a{app=\"db\"}\0\0\0\0\0\0\0\0\0\0\0\x01\0\0\0\x01\0\0\0\0\0\0\0\0\0\0\x07\xd0\0\0\0\x05start",
    ),
    (
        "objects/c-80bac56bc341af326169a433faa2be8ee4daadc548476216226faf101c0b00b8",
        b"INGC\x01\x04acme\0\0\0${app=\"mail\", host=\"a \\\"b\\\" \\\\ c\\nd\"}\0\0\0\0\0\0\0\0\0\0\0\x01\0\0\0\x01\0\0\0\0\0\0\0\0\0\0\x0b\xb8\0\0\0\x0atab\x09and \xc3\xa9",
    ),
    (
        "objects/r-474a517892547ea9-3630930769a1e51c4d33e9873d0f51c2881a354f34469267f5c18aa7c76b90f5",
        b"INGR\x01\x04acme\0\0\0\x0b{app=\"web\"}\0\0\0\0\0\0\0\0\0\0\0\x05\0\0\0\0\0\0\0f\0\0\0\0\0\0\x03\xe8\0\0\0\0\0\0\x03\xed60\x93\x07i\xa1\xe5\x1cM3\xe9\x87=\x0fQ\xc2\x88\x1a5O4F\x92g\xf5\xc1\x8a\xa7\xc7k\x90\xf5",
    ),
    (
        "objects/r-c2665739507b2c8d-80bac56bc341af326169a433faa2be8ee4daadc548476216226faf101c0b00b8",
        b"INGR\x01\x04acme\0\0\0${app=\"mail\", host=\"a \\\"b\\\" \\\\ c\\nd\"}\0\0\0\0\0\0\0\0\0\0\0\x01\0\0\0\0\0\0\0\x1a\0\0\0\0\0\0\x0b\xb8\0\0\0\0\0\0\x0b\xb8\x80\xba\xc5k\xc3A\xaf2ai\xa43\xfa\xa2\xbe\x8e\xe4\xda\xad\xc5HGb\x16\"o\xaf\x10\x1c\x0b\0\xb8",
    ),
    (
        "objects/r-c55850e19d5f5ee4-71421b471903904f22c3fdae89ec36814923200539e91cc34527c6acea4d2422",
        b"INGR\x01\x04acme\0\0\0\x0a{app=\"db\"}\0\0\0\0\0\0\0\0\0\0\0\x01\0\0\0\0\0\0\0\x15\0\0\0\0\0\0\x07\xd0\0\0\0\0\0\0\x07\xd0qB\x1bG\x19\x03\x90O\"\xc3\xfd\xae\x89\xec6\x81I# \x059\xe9\x1c\xc3E'\xc6\xac\xeaM$\"",
    ),
    (
        "wal-0",
        b"\0\0\0\0\0\0\0\x1e\xff\xff\xff\xff\xff\xff\xff\xe1\x04\x01\0\0\0\0\0\0\0\x02\0\0\0\0\0\0\0<\0\0\0\0\0\0\0x\0\0\0\0\x09\x0c\xc9~\xff\xbd\x81\x0f\0\0\0\0\0\0\0O\xff\xff\xff\xff\xff\xff\xff\xb0\x01\0\0\0\0\0\0\x03\xe8\x04acme\0\0\0\x0b{app=\"web\"}\0\0\0\x03\0\0\0\0\0\0\x03\xe8\0\0\0\x03one\0\0\0\0\0\0\x03\xed\0\0\0\x03two\0\0\0\0\0\0\x03\xe9\0\0\0\x04late\x7f\xfa\xd5h\xe6\xdf\xd5D\0\0\0\0\0\0\0E\xff\xff\xff\xff\xff\xff\xff\xba\x01\0\0\0\0\0\0\x03\xe9\x04acme\0\0\0\x0b{app=\"web\"}\0\0\0\x02\0\0\0\0\0\0\x03\xed\0\0\0\x09two again\0\0\0\0\0\0\x03\xed\0\0\0\x03two'(\x99\xffsY]V\0\0\0\0\0\0\0\x1a\xff\xff\xff\xff\xff\xff\xff\xe5\x02\0\0\0\x01\x04acme\0\0\0\x0b{app=\"web\"}\x04q\xa3\"xfbM\xce\0\0\0\0\0\0\0=\xff\xff\xff\xff\xff\xff\xff\xc2\x03\x04acme\0\0\0\x0b{app=\"web\"}\0\0\0\0\0\0\0\060\x93\x07i\xa1\xe5\x1cM3\xe9\x87=\x0fQ\xc2\x88\x1a5O4F\x92g\xf5\xc1\x8a\xa7\xc7k\x90\xf5\x1be\xd7VI!\xc8K\0\0\0\0\0\0\0M\xff\xff\xff\xff\xff\xff\xff\xb2\x01\0\0\0\0\0\0\x07\xd0\x04acme\0\0\0\x0b{app=\"web\"}\0\0\0\x03\0\0\0\0\0\0\x03\xeb\0\0\0\x05later\0\0\0\0\0\0\x03\xf2\0\0\0\0\0\0\0\0\0\0\x03\xf2\0\0\0\x03endK\x84&\x82\x1b\x0e(\0",
    ),
    (
        "wal-1",
        b"\0\0\0\0\0\0\0\x1e\xff\xff\xff\xff\xff\xff\xff\xe1\x04\x01\0\0\0\x01\0\0\0\x02\0\0\0\0\0\0\0<\0\0\0\0\0\0\0x\0\0\0\0\x85{\x1d\xc6\xe6P\xc4\xa2\0\0\0\0\0\0\01\xff\xff\xff\xff\xff\xff\xff\xce\x01\0\0\0\0\0\0\x03\xe8\x04acme\0\0\0\x0a{app=\"db\"}\0\0\0\x01\0\0\0\0\0\0\x07\xd0\0\0\0\x05start\xaa\x1e{\xc3@\x0aX\xaa\0\0\0\0\0\0\0P\xff\xff\xff\xff\xff\xff\xff\xaf\x01\0\0\0\0\0\0\x03\xe9\x04acme\0\0\0${app=\"mail\", host=\"a \\\"b\\\" \\\\ c\\nd\"}\0\0\0\x01\0\0\0\0\0\0\x0b\xb8\0\0\0\x0atab\x09and \xc3\xa9g\xf3\x86+G<W\xff\0\0\0\0\0\0\0G\xff\xff\xff\xff\xff\xff\xff\xb8\x02\0\0\0\x02\x04acme\0\0\0\x0a{app=\"db\"}\x04\x04acme\0\0\0${app=\"mail\", host=\"a \\\"b\\\" \\\\ c\\nd\"}\x04!\x1aA\xac\xb2c\xf5&\0\0\0\0\0\0\0<\xff\xff\xff\xff\xff\xff\xff\xc3\x03\x04acme\0\0\0\x0a{app=\"db\"}\0\0\0\0\0\0\0\0qB\x1bG\x19\x03\x90O\"\xc3\xfd\xae\x89\xec6\x81I# \x059\xe9\x1c\xc3E'\xc6\xac\xeaM$\"bXf\x8cX\xb6\xb6Z\0\0\0\0\0\0\0V\xff\xff\xff\xff\xff\xff\xff\xa9\x03\x04acme\0\0\0${app=\"mail\", host=\"a \\\"b\\\" \\\\ c\\nd\"}\0\0\0\0\0\0\0\0\x80\xba\xc5k\xc3A\xaf2ai\xa43\xfa\xa2\xbe\x8e\xe4\xda\xad\xc5HGb\x16\"o\xaf\x10\x1c\x0b\0\xb8]y8\xa5]I\xafX\0\0\0\0\0\0\02\xff\xff\xff\xff\xff\xff\xff\xcd\x01\0\0\0\0\0\0\x07\xd0\x04acme\0\0\0\x0a{app=\"db\"}\0\0\0\x01\0\0\0\0\0\0\x07\xcf\0\0\0\x06before\x10S6'\xc0\x86\xfd\x1e\0\0\0\0\0\0\0;\xff\xff\xff\xff\xff\xff\xff\xc4\x01\0\0\0\0\0\0\0\x05\x01t\0\0\0\x0b{app=\"web\"}\0\0\0\x01\0\0\0\0\0\0\0\x05\0\0\0\x11of another tenantGCD\xa8\x0el\xab\xc4\0\0\0\0\0\0\0\x19\xff\xff\xff\xff\xff\xff\xff\xe6\x02\0\0\0\x01\x04acme\0\0\0\x0a{app=\"db\"}\x04\xba\xc2\x1e\xd2\x90\xa7\x06\x1b\0\0\0\0\0\0\01\xff\xff\xff\xff\xff\xff\xff\xce\x01\0\0\0\0\0\0\x13\x88\x04acme\0\0\0\x0b{app=\"",
    ),
];

/// Queries of two of its streams.
const QUERIES: &str =
    "{\"cmd\":\"query\",\"direction\":\"forward\",\"query\":\"{app=\\\"web\\\"}\",\"tenant\":\"acme\"}\n\
    {\"cmd\":\"query\",\"direction\":\"forward\",\"query\":\"{app=\\\"web\\\"}\",\"tenant\":\"t\"}\n";

/// What is found: each entry once.
const FOUND: &str =
    "{\"query\":{\"entries\":[{\"line\":\"one\",\"stamp\":\"1000\",\"stream\":\"{app=\\\"web\\\"}\"},{\"line\":\"late\",\"stamp\":\"1001\",\"stream\":\"{app=\\\"web\\\"}\"},{\"line\":\"later\",\"stamp\":\"1003\",\"stream\":\"{app=\\\"web\\\"}\"},{\"line\":\"two\",\"stamp\":\"1005\",\"stream\":\"{app=\\\"web\\\"}\"},{\"line\":\"two again\",\"stamp\":\"1005\",\"stream\":\"{app=\\\"web\\\"}\"},{\"line\":\"two\",\"stamp\":\"1005\",\"stream\":\"{app=\\\"web\\\"}\"},{\"line\":\"\",\"stamp\":\"1010\",\"stream\":\"{app=\\\"web\\\"}\"},{\"line\":\"end\",\"stamp\":\"1010\",\"stream\":\"{app=\\\"web\\\"}\"}],\"fronts\":[8,4]}}\n{\"query\":{\"entries\":[{\"line\":\"of another tenant\",\"stamp\":\"5\",\"stream\":\"{app=\\\"web\\\"}\"}],\"fronts\":[8,4]}}\n";

/// What is reported of it in the end.
const REPORT: &str =
    "{\"report\":[{\"accepted\":0,\"kept\":0,\"recovered\":8,\"stored\":8},{\"accepted\":0,\"kept\":0,\"recovered\":4,\"stored\":4}]}\n";

/// Puts it there.
fn put(rt: &HostRuntime, places: &Places) -> Result<(), Fail> {
    fs::write(rt, places.settings.as_str(), SETTINGS)?;
    let folder = places.folder.as_str();
    let objects = format!(in rt.alloc(); "{folder}/objects")?;
    fs::create_dir_all(rt, objects.as_str())?;
    for (name, bytes) in &FILES {
        let path = format!(in rt.alloc(); "{folder}/{name}")?;
        fs::write(rt, path.as_str(), *bytes)?;
    }
    Ok(())
}

/// Whether both logs are of this version, as the second byte of their first payload tells.
fn are_of_version(rt: &HostRuntime, places: &Places, version: u8) -> Result<bool, Fail> {
    for shard in 0..2u32 {
        let path = format!(in rt.alloc(); "{}/wal-{shard}", places.folder.as_str())?;
        if fs::read(rt, path.as_str())?.get(17) != Some(&version) {
            return Ok(false);
        }
    }
    Ok(true)
}

/// It is made again, queried, flushed, and made again of the second version, each entry once.
#[test]
fn a_folder_of_the_first_version_goes_on(rt: HostRuntime) -> Result<(), Fail> {
    let places = places_of(&rt, "earlier")?;
    let disk = Disk::new(&rt);
    put(&rt, &places)?;
    assert!(rt; are_of_version(&rt, &places, 1)?);
    assert!(rt;
        written(&rt, &disk, &places, QUERIES)?
            .as_str()
            .starts_with(FOUND)
    );
    assert!(rt; are_of_version(&rt, &places, 2)?);
    let input = format!(in rt.alloc(); "{FLUSH}{QUERIES}{CHECKPOINT}{QUERIES}")?;
    let flushed = written(&rt, &disk, &places, input.as_str())?;
    assert!(rt; flushed.as_str().matches(FOUND).count() == 2);
    let again = written(&rt, &disk, &places, QUERIES)?;
    assert!(rt; again.as_str().starts_with(FOUND));
    assert!(rt; again.as_str().ends_with(REPORT));
    remove(&rt, &places)
}
