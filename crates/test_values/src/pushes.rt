//! Which lines are read as pushes without a copy of their texts: no clause says of any that it is.
use ing_pushes::usual_push;
use json::Scratch;
use std::alloc::Global;
use std::test::Fail;

/// How many streams and entries the push has that is read of a line, if one is.
fn counts(
    alloc: Global,
    scratch: &mut Scratch,
    line: &str,
) -> Result<Option<(usize, usize)>, Fail> {
    let Some(push) = usual_push(alloc, line.as_bytes(), scratch)? else {
        return Ok(None);
    };
    let mut entries = 0usize;
    for stream in &push.streams {
        entries = entries.saturating_add(stream.entries.len());
    }
    Ok(Some((push.streams.len(), entries)))
}

#[test]
fn pushes_in_the_usual_form_are_taken(rt: HostRuntime) -> Result<(), Fail> {
    let mut scratch = Scratch::new(rt.alloc());
    for (line, wanted) in [
        (
            "{\"cmd\":\"push\",\"tenant\":\"t\",\"now\":\"1\",\"streams\":[{\"stream\":{\"a\":\"1\",\"b\":\"2\"},\"values\":[[\"1\",\"x\"],[\"2\",\"\\\"y\\\"\"]]}]}",
            Some((1, 2)),
        ),
        (
            "{ \"cmd\": \"push\", \"tenant\": \"t\", \"now\": \"1\", \"streams\": [] }",
            Some((0, 0)),
        ),
        // Members and labels in other orders.
        (
            "{\"streams\":[{\"values\":[],\"stream\":{\"b\":\"1\",\"c\":\"2\",\"a\":\"3\"}}],\"now\":\"1\",\"tenant\":\"t\",\"cmd\":\"push\"}",
            Some((1, 0)),
        ),
        // A further member, one twice and one too few, a name twice, metadata, a stamp that is none, and what is no push.
        (
            "{\"cmd\":\"push\",\"tenant\":\"t\",\"now\":\"1\",\"streams\":[],\"more\":1}",
            None,
        ),
        (
            "{\"cmd\":\"push\",\"tenant\":\"t\",\"now\":\"1\",\"streams\":[],\"now\":\"2\"}",
            None,
        ),
        ("{\"cmd\":\"push\",\"tenant\":\"t\",\"streams\":[]}", None),
        (
            "{\"cmd\":\"push\",\"tenant\":\"t\",\"now\":\"1\",\"streams\":[{\"stream\":{\"a\":\"1\",\"a\":\"2\"},\"values\":[]}]}",
            None,
        ),
        (
            "{\"cmd\":\"push\",\"tenant\":\"t\",\"now\":\"1\",\"streams\":[{\"stream\":{\"a\":\"1\"},\"values\":[[\"1\",\"x\",{}]]}]}",
            None,
        ),
        (
            "{\"cmd\":\"push\",\"tenant\":\"t\",\"now\":\"x\",\"streams\":[]}",
            None,
        ),
        ("{\"cmd\":\"sweep\",\"now\":\"1\"}", None),
    ] {
        assert!(rt; counts(rt.alloc(), &mut scratch, line)? == wanted, "{line}");
    }
    Ok(())
}
