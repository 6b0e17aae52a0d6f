//! The replies, and the lines that they are written as.
ghost use Rattle.std.specs.Prelude.{◌≡◌, ◌++◌, OnOk, OnErr, codes, decimal, map, option_map, string_bytes};
ghost use Rattle.ing_rows.specs.Facets.{facet_view};
ghost use Rattle.ing_session.specs.Replies.{catalog_data, verdict_data, verdicts_data, fault_data, judged_data, push_data, sweep_data, flush_data, gauge_data, gauges_data, tenant_data, board_data, counts_data, checkpoint_data, entry_data, last_of, next_members, place_data, query_data, texts_data, shard_data, report_data, channels_data, line_text, count};
ghost use Rattle.ing_session.specs.Runs.{lines_text};
ghost use Rattle.ing_session.specs.Views.{stream_data, text_data, reply_data};
ghost use Rattle.ing_session.specs.Written.{Adds, last_tokens, member_tokens, data_tokens, tokens_of_each};
ghost use Rattle.serde_json.specs.Data.{array, boolean, string, object, no_members, member};
ghost use Rattle.serde_json.specs.View.{items_of};
ghost use Rattle.ing_labels.specs.Canonical.{canonical_of};

use ing_labels::Labels;
use ing_query::Found;
use ing_refusals::Refusal;
use ing_rows::{Facet, Gauge, Gauges, Verdict};
use ing_tally::{Counts, ShardReport};
use json::Writer;
use std::alloc::{AllocError, Global};

/// The reply to a line, or the report.
#[derive(Drop)]
pub enum Reply {
    /// The line is refused.
    Fault(Refusal),
    /// One reply for each stream of a push.
    Push(Vec<StreamReply>),
    /// How many operations a sweep queued, and how many chunks it sealed.
    Sweep {
        queued: u64,
        sealed: u64,
    },
    /// How many uploads of a flush failed, how many chunks were sealed for it, and how many were stored.
    Flush {
        failed: u64,
        sealed: u64,
        stored: u64,
    },
    /// What each shard counts of a tenant, by the shard's number.
    Gauges(Vec<Gauges>),
    /// What each shard accepted and stored, by the shard's number.
    Board(Vec<Counts>),
    /// Whether a checkpoint of each shard has replaced its log, by the shard's number.
    Checkpoint(Vec<bool>),
    /// The text of a query is refused, with the place at fault where there is one.
    Refused {
        refusal: Refusal,
        at: Option<usize>,
    },
    /// What a query gives, how many entries each shard had accepted, by the shard's number, and how many entries a page has at most,
    /// where one is asked for.
    Query {
        found: Vec<Found>,
        fronts: Vec<u64>,
        page: Option<usize>,
    },
    /// The names of streams.
    Series(Vec<String>),
    /// The names of labels, or the values of one.
    Labels(Vec<String>),
    /// What is reported of each shard, by its number.
    Report(Vec<ShardReport>),
    /// The same of a run of several channels, and how many of these broke.
    Channels {
        broken: u64,
        shards: Vec<ShardReport>,
    },
}

/// The reply to one stream of a push.
#[derive(Debug, Drop)]
pub enum StreamReply {
    /// The stream is refused, with the place at fault where there is one.
    Fault {
        refusal: Refusal,
        at: Option<usize>,
    },
    /// Its entries are judged.
    Judged {
        labels: Labels,
        durable: bool,
        verdicts: Vec<Verdict>,
    },
}

/// Room that most replies fit into, in bytes.
const REPLY_ROOM: usize = 1024;

impl Reply {
    /// The reply to a question for a catalog of this facet.
    pub fn of_catalog(facet: Facet<'_>, texts: Vec<String>) -> Reply
        ensures { reply_data result ≡ catalog_data (facet_view facet.entry) (map string_bytes texts.items) }
    {
        match facet {
            Facet::Series => Reply::Series(texts),
            Facet::Labels | Facet::Values(_) => Reply::Labels(texts),
        }
    }
}

/// Puts a reply behind the others, as one line. It is written in a buffer of its own, since the writer clears as much ahead
/// as the buffer that it is given has.
pub fn add_line(alloc: Global, replies: &mut Vec<u8>, reply: &Reply) -> Result<(), AllocError>
    ensures text { OnOk result
        (replies.new.items ≡ replies.old.items ++ line_text (reply_data reply.now)) }
    ensures err { OnErr result (replies.new.items ≡ replies.old.items) }
{
    let mut out = Writer::new(Vec::with_capacity(alloc, REPLY_ROOM)?);
    write_reply(alloc, &mut out, reply)?;
    let mut line = out.into_inner();
    line.push(b'\n')?;
    replies.extend_from_slice(&line)?;
    Ok(())
}

/// Puts replies behind the others, each as one line: all of them, or none where memory runs out.
pub fn add_lines(alloc: Global, replies: &mut Vec<u8>, told: &[Reply]) -> Result<(), AllocError>
    ensures text { OnOk result
        (replies.new.items ≡ replies.old.items ++ lines_text (map reply_data told.now)) }
    ensures err { OnErr result (replies.new.items ≡ replies.old.items) }
{
    let before = replies.len();
    for reply in told {
        match add_line(alloc, replies, reply) {
            Ok(()) => {}
            Err(error) => {
                replies.truncate(before);
                return Err(error);
            }
        }
    }
    Ok(())
}

fn write_reply(alloc: Global, out: &mut Writer, reply: &Reply) -> Result<(), AllocError>
    ensures tokens { OnOk result (Adds out.old out.new (data_tokens (reply_data reply.now))) }
    ensures before { out.new.before ≡ out.old.before }
{
    match reply {
        Reply::Fault(refusal) => write_fault(out, *refusal, None),
        Reply::Push(streams) => write_push(out, streams),
        Reply::Sweep { queued, sealed } => write_sweep(out, *queued, *sealed),
        Reply::Flush {
            failed,
            sealed,
            stored,
        } => write_flush(out, *failed, *sealed, *stored),
        Reply::Gauges(gauges) => write_gauges(alloc, out, gauges),
        Reply::Board(shards) => write_board(out, shards),
        Reply::Checkpoint(shards) => write_checkpoint(out, shards),
        Reply::Refused { refusal, at } => write_fault(out, *refusal, *at),
        Reply::Query {
            found,
            fronts,
            page,
        } => write_query(out, found, fronts, *page),
        Reply::Series(names) => write_texts(out, "series", names),
        Reply::Labels(texts) => write_texts(out, "labels", texts),
        Reply::Report(shards) => write_report(out, shards),
        Reply::Channels { broken, shards } => write_channels(out, *broken, shards),
    }
}

/// Writes a member that is a count.
fn write_count(out: &mut Writer, name: &str, number: u64) -> Result<(), AllocError>
    ensures tokens { OnOk result (Adds out.old out.new (member_tokens name.now (count number))) }
    ensures before { out.new.before ≡ out.old.before }
{
    out.key(name)?;
    out.u64(number)?;
    Ok(())
}

/// Writes a member that is a number as a text, for readers that hold numbers as doubles.
fn write_digits(out: &mut Writer, name: &str, number: u64) -> Result<(), AllocError>
    ensures tokens { OnOk result
        (Adds out.old out.new (member_tokens name.now (string (decimal number)))) }
    ensures before { out.new.before ≡ out.old.before }
{
    out.key(name)?;
    out.quoted_u64(number)?;
    Ok(())
}

/// Writes a member that is a text.
fn write_text(out: &mut Writer, name: &str, text: &str) -> Result<(), AllocError>
    ensures tokens { OnOk result (Adds out.old out.new (member_tokens name.now (string text.now))) }
    ensures before { out.new.before ≡ out.old.before }
{
    out.key(name)?;
    out.string(text)?;
    Ok(())
}

/// Writes a refusal with its name, its number, and the place at fault where it has one.
fn write_fault(out: &mut Writer, refusal: Refusal, at: Option<usize>) -> Result<(), AllocError>
    ensures tokens { OnOk result (Adds out.old out.new (data_tokens (fault_data refusal at))) }
    ensures before { out.new.before ≡ out.old.before }
{
    out.begin_object()?;
    if let Some(at) = at {
        write_count(out, "at", at as u64)?;
    }
    write_text(out, "error", refusal.name())?;
    write_count(out, "number", u64::from(refusal.number()))?;
    out.end_object()?;
    Ok(())
}

/// Writes the reply to a push: one for each stream.
fn write_push(out: &mut Writer, streams: &[StreamReply]) -> Result<(), AllocError>
    ensures tokens { OnOk result (Adds out.old out.new
        (data_tokens (push_data (map stream_data streams.now)))) }
    ensures before { out.new.before ≡ out.old.before }
{
    out.begin_object()?;
    out.key("push")?;
    out.begin_array()?;
    write_each_stream(out, streams)?;
    out.end_array()?;
    out.end_object()?;
    Ok(())
}

fn write_each_stream(out: &mut Writer, streams: &[StreamReply]) -> Result<(), AllocError>
    ensures tokens { OnOk result (Adds out.old out.new
        (tokens_of_each (map stream_data streams.now))) }
    ensures before { out.new.before ≡ out.old.before }
{
    for stream in streams {
        write_stream(out, stream)?;
    }
    Ok(())
}

fn write_stream(out: &mut Writer, stream: &StreamReply) -> Result<(), AllocError>
    ensures tokens { OnOk result (Adds out.old out.new (data_tokens (stream_data stream.now))) }
    ensures before { out.new.before ≡ out.old.before }
{
    match stream {
        StreamReply::Fault { refusal, at } => write_fault(out, *refusal, *at),
        StreamReply::Judged {
            labels,
            durable,
            verdicts,
        } => write_judged(out, labels, *durable, verdicts),
    }
}

/// Writes the stream by its canonical name, and the verdict of each entry.
fn write_judged(
    out: &mut Writer,
    labels: &Labels,
    durable: bool,
    verdicts: &[Verdict],
) -> Result<(), AllocError>
    ensures tokens { OnOk result (Adds out.old out.new (data_tokens (judged_data (canonical_of labels.now) durable verdicts.now))) }
    ensures before { out.new.before ≡ out.old.before }
{
    out.begin_object()?;
    out.key("durable")?;
    out.boolean(durable)?;
    write_text(out, "stream", labels.name())?;
    out.key("verdicts")?;
    write_verdicts(out, verdicts)?;
    out.end_object()?;
    Ok(())
}

fn write_verdicts(out: &mut Writer, verdicts: &[Verdict]) -> Result<(), AllocError>
    ensures tokens { OnOk result (Adds out.old out.new (data_tokens (verdicts_data verdicts.now))) }
    ensures before { out.new.before ≡ out.old.before }
{
    out.begin_array()?;
    write_each_verdict(out, verdicts)?;
    out.end_array()?;
    Ok(())
}

fn write_each_verdict(out: &mut Writer, verdicts: &[Verdict]) -> Result<(), AllocError>
    ensures tokens { OnOk result (Adds out.old out.new
        (tokens_of_each (map verdict_data verdicts.now))) }
    ensures before { out.new.before ≡ out.old.before }
{
    for verdict in verdicts {
        write_verdict(out, *verdict)?;
    }
    Ok(())
}

fn write_verdict(out: &mut Writer, verdict: Verdict) -> Result<(), AllocError>
    ensures tokens { OnOk result (Adds out.old out.new (data_tokens (verdict_data verdict))) }
    ensures before { out.new.before ≡ out.old.before }
{
    match verdict {
        Verdict::Accepted { number } => write_counted(out, "accepted", number),
        Verdict::Duplicate => out.string("duplicate"),
        Verdict::LineTooLong => out.string("line_too_long"),
        Verdict::TooFarBehind { limit } => write_quoted(out, "too_far_behind", limit),
        Verdict::TooManyStreams { live } => write_counted(out, "too_many_streams", live),
    }
}

/// Writes an object of one member that is a count.
fn write_counted(out: &mut Writer, name: &str, number: u64) -> Result<(), AllocError>
    ensures tokens { OnOk result (Adds out.old out.new (data_tokens (object (member name.now (count number) no_members)))) }
    ensures before { out.new.before ≡ out.old.before }
{
    out.begin_object()?;
    write_count(out, name, number)?;
    out.end_object()?;
    Ok(())
}

/// Writes an object of one member that is a number as a text.
fn write_quoted(out: &mut Writer, name: &str, number: u64) -> Result<(), AllocError>
    ensures tokens { OnOk result (Adds out.old out.new
        (data_tokens (object (member name.now (string (decimal number)) no_members)))) }
    ensures before { out.new.before ≡ out.old.before }
{
    out.begin_object()?;
    write_digits(out, name, number)?;
    out.end_object()?;
    Ok(())
}

/// Writes the reply to a sweep.
fn write_sweep(out: &mut Writer, queued: u64, sealed: u64) -> Result<(), AllocError>
    ensures tokens { OnOk result (Adds out.old out.new (data_tokens (sweep_data queued sealed))) }
    ensures before { out.new.before ≡ out.old.before }
{
    out.begin_object()?;
    out.key("sweep")?;
    out.begin_object()?;
    write_count(out, "queued", queued)?;
    write_count(out, "sealed", sealed)?;
    out.end_object()?;
    out.end_object()?;
    Ok(())
}

/// Writes the reply to a flush.
fn write_flush(out: &mut Writer, failed: u64, sealed: u64, stored: u64) -> Result<(), AllocError>
    ensures tokens { OnOk result
        (Adds out.old out.new (data_tokens (flush_data failed sealed stored))) }
    ensures before { out.new.before ≡ out.old.before }
{
    out.begin_object()?;
    out.key("flush")?;
    out.begin_object()?;
    write_count(out, "failed", failed)?;
    write_count(out, "sealed", sealed)?;
    write_count(out, "stored", stored)?;
    out.end_object()?;
    out.end_object()?;
    Ok(())
}

/// Writes the gauges of a tenant in each shard.
fn write_gauges(alloc: Global, out: &mut Writer, gauges: &[Gauges]) -> Result<(), AllocError>
    ensures tokens { OnOk result (Adds out.old out.new (data_tokens (gauges_data gauges.now))) }
    ensures before { out.new.before ≡ out.old.before }
{
    out.begin_object()?;
    out.key("gauges")?;
    out.begin_array()?;
    write_each_tenant(alloc, out, gauges)?;
    out.end_array()?;
    out.end_object()?;
    Ok(())
}

fn write_each_tenant(alloc: Global, out: &mut Writer, gauges: &[Gauges]) -> Result<(), AllocError>
    ensures tokens { OnOk result (Adds out.old out.new
        (tokens_of_each (map tenant_data gauges.now))) }
    ensures before { out.new.before ≡ out.old.before }
{
    for of_shard in gauges {
        write_tenant(alloc, out, of_shard)?;
    }
    Ok(())
}

/// Writes what a shard counts of a tenant.
fn write_tenant(alloc: Global, out: &mut Writer, gauges: &Gauges) -> Result<(), AllocError>
    ensures tokens { OnOk result (Adds out.old out.new (data_tokens (tenant_data gauges.now))) }
    ensures before { out.new.before ≡ out.old.before }
{
    out.begin_object()?;
    write_gauge(alloc, out, "block", &gauges.block)?;
    write_gauge(alloc, out, "flight", &gauges.flight)?;
    write_gauge(alloc, out, "head", &gauges.head)?;
    write_gauge(alloc, out, "stored", &gauges.stored)?;
    write_count(out, "streams", gauges.streams)?;
    out.end_object()?;
    Ok(())
}

/// Writes a member that is a gauge.
fn write_gauge(alloc: Global, out: &mut Writer, name: &str, gauge: &Gauge) -> Result<(), AllocError>
    ensures tokens { OnOk result
        (Adds out.old out.new (member_tokens name.now (gauge_data gauge.now))) }
    ensures before { out.new.before ≡ out.old.before }
{
    out.key(name)?;
    out.begin_object()?;
    write_bytes(alloc, out, gauge.bytes)?;
    write_count(out, "entries", gauge.entries)?;
    out.end_object()?;
    Ok(())
}

/// Writes how many bytes a gauge counts, as a text.
fn write_bytes(alloc: Global, out: &mut Writer, bytes: u128) -> Result<(), AllocError>
    ensures tokens { OnOk result
        (Adds out.old out.new (member_tokens (codes "bytes") (string (decimal bytes)))) }
    ensures before { out.new.before ≡ out.old.before }
{
    let text = format!(in alloc; "{bytes}")?;
    write_text(out, "bytes", text.as_str())
}

/// Writes what each shard counts.
fn write_board(out: &mut Writer, shards: &[Counts]) -> Result<(), AllocError>
    ensures tokens { OnOk result (Adds out.old out.new (data_tokens (board_data shards.now))) }
    ensures before { out.new.before ≡ out.old.before }
{
    out.begin_object()?;
    out.key("board")?;
    out.begin_array()?;
    write_each_counts(out, shards)?;
    out.end_array()?;
    out.end_object()?;
    Ok(())
}

fn write_each_counts(out: &mut Writer, shards: &[Counts]) -> Result<(), AllocError>
    ensures tokens { OnOk result (Adds out.old out.new
        (tokens_of_each (map counts_data shards.now))) }
    ensures before { out.new.before ≡ out.old.before }
{
    for counts in shards {
        write_counts(out, *counts)?;
    }
    Ok(())
}

/// Writes how many entries a shard accepted, and how many of them are stored.
fn write_counts(out: &mut Writer, counts: Counts) -> Result<(), AllocError>
    ensures tokens { OnOk result (Adds out.old out.new (data_tokens (counts_data counts))) }
    ensures before { out.new.before ≡ out.old.before }
{
    out.begin_object()?;
    write_count(out, "accepted", counts.accepted)?;
    write_count(out, "stored", counts.stored)?;
    out.end_object()?;
    Ok(())
}

/// Writes of each shard whether a checkpoint of it has replaced its log.
fn write_checkpoint(out: &mut Writer, shards: &[bool]) -> Result<(), AllocError>
    ensures tokens { OnOk result (Adds out.old out.new (data_tokens (checkpoint_data shards.now))) }
    ensures before { out.new.before ≡ out.old.before }
{
    out.begin_object()?;
    out.key("checkpoint")?;
    out.begin_array()?;
    write_each_boolean(out, shards)?;
    out.end_array()?;
    out.end_object()?;
    Ok(())
}

fn write_each_boolean(out: &mut Writer, booleans: &[bool]) -> Result<(), AllocError>
    ensures tokens { OnOk result (Adds out.old out.new
        (tokens_of_each (map boolean booleans.now))) }
    ensures before { out.new.before ≡ out.old.before }
{
    for is_so in booleans {
        out.boolean(*is_so)?;
    }
    Ok(())
}

/// Writes what a query gives.
fn write_query(
    out: &mut Writer,
    found: &[Found],
    fronts: &[u64],
    page: Option<usize>,
) -> Result<(), AllocError>
    ensures tokens { OnOk result
        (Adds out.old out.new (data_tokens (query_data page found.now fronts.now))) }
    ensures before { out.new.before ≡ out.old.before }
{
    out.begin_object()?;
    out.key("query")?;
    out.begin_object()?;
    write_entries(out, found)?;
    write_fronts(out, fronts)?;
    end_with_next(out, last_of(found, page))?;
    out.end_object()?;
    Ok(())
}

/// The last entry of a page that has as many as it may, where one is asked for.
fn last_of(found: &[Found], page: Option<usize>) -> Option<&Found>
    ensures { option_map (λ last. last.now) result ≡ last_of page found.now }
{
    match page {
        Some(most) => found.get(most.saturating_sub(1)),
        None => None,
    }
}

/// Writes the place behind which the next page begins, where there is one, and ends the object.
fn end_with_next(out: &mut Writer, last: Option<&Found>) -> Result<(), AllocError>
    ensures tokens { OnOk result (Adds out.old out.new
        (last_tokens (next_members (option_map (λ found. found.now) last.entry)))) }
    ensures before { out.new.before ≡ out.old.before }
{
    if let Some(found) = last {
        out.key("next")?;
        write_place(out, found)?;
    }
    out.end_object()?;
    Ok(())
}

/// Writes the place of an entry.
fn write_place(out: &mut Writer, found: &Found) -> Result<(), AllocError>
    ensures tokens { OnOk result (Adds out.old out.new (data_tokens (place_data found.now))) }
    ensures before { out.new.before ≡ out.old.before }
{
    out.begin_object()?;
    write_count(out, "number", found.number)?;
    write_digits(out, "stamp", found.entry.stamp.nanoseconds())?;
    write_text(out, "stream", found.name.as_str())?;
    out.end_object()?;
    Ok(())
}

/// Writes how many entries each shard had accepted.
fn write_fronts(out: &mut Writer, fronts: &[u64]) -> Result<(), AllocError>
    ensures tokens { OnOk result (Adds out.old out.new
        (member_tokens (codes "fronts") (array (items_of (map count fronts.now))))) }
    ensures before { out.new.before ≡ out.old.before }
{
    out.key("fronts")?;
    out.begin_array()?;
    write_each_front(out, fronts)?;
    out.end_array()?;
    Ok(())
}

fn write_each_front(out: &mut Writer, fronts: &[u64]) -> Result<(), AllocError>
    ensures tokens { OnOk result (Adds out.old out.new (tokens_of_each (map count fronts.now))) }
    ensures before { out.new.before ≡ out.old.before }
{
    for front in fronts {
        out.u64(*front)?;
    }
    Ok(())
}

/// Writes the entries that a query gives.
fn write_entries(out: &mut Writer, found: &[Found]) -> Result<(), AllocError>
    ensures tokens { OnOk result (Adds out.old out.new
        (member_tokens (codes "entries") (array (items_of (map entry_data found.now))))) }
    ensures before { out.new.before ≡ out.old.before }
{
    out.key("entries")?;
    out.begin_array()?;
    write_each_entry(out, found)?;
    out.end_array()?;
    Ok(())
}

fn write_each_entry(out: &mut Writer, found: &[Found]) -> Result<(), AllocError>
    ensures tokens { OnOk result (Adds out.old out.new
        (tokens_of_each (map entry_data found.now))) }
    ensures before { out.new.before ≡ out.old.before }
{
    for entry in found {
        write_entry(out, entry)?;
    }
    Ok(())
}

/// Writes an entry that a query gives.
fn write_entry(out: &mut Writer, found: &Found) -> Result<(), AllocError>
    ensures tokens { OnOk result (Adds out.old out.new (data_tokens (entry_data found.now))) }
    ensures before { out.new.before ≡ out.old.before }
{
    out.begin_object()?;
    write_text(out, "line", found.entry.line.as_str())?;
    write_digits(out, "stamp", found.entry.stamp.nanoseconds())?;
    write_text(out, "stream", found.name.as_str())?;
    out.end_object()?;
    Ok(())
}

/// Writes an object of one member that is a list of texts.
fn write_texts(out: &mut Writer, name: &str, texts: &[String]) -> Result<(), AllocError>
    ensures tokens { OnOk result (Adds out.old out.new
        (data_tokens (texts_data name.now (map string_bytes texts.now)))) }
    ensures before { out.new.before ≡ out.old.before }
{
    out.begin_object()?;
    out.key(name)?;
    out.begin_array()?;
    write_each_text(out, texts)?;
    out.end_array()?;
    out.end_object()?;
    Ok(())
}

fn write_each_text(out: &mut Writer, texts: &[String]) -> Result<(), AllocError>
    ensures tokens { OnOk result (Adds out.old out.new
        (tokens_of_each (map text_data texts.now))) }
    ensures before { out.new.before ≡ out.old.before }
{
    for text in texts {
        out.string(text.as_str())?;
    }
    Ok(())
}

/// Writes the report of each shard.
fn write_report(out: &mut Writer, shards: &[ShardReport]) -> Result<(), AllocError>
    ensures tokens { OnOk result (Adds out.old out.new (data_tokens (report_data shards.now))) }
    ensures before { out.new.before ≡ out.old.before }
{
    out.begin_object()?;
    out.key("report")?;
    out.begin_array()?;
    write_each_shard(out, shards)?;
    out.end_array()?;
    out.end_object()?;
    Ok(())
}

/// Writes how many channels broke, and the report of each shard.
fn write_channels(out: &mut Writer, broken: u64, shards: &[ShardReport]) -> Result<(), AllocError>
    ensures tokens { OnOk result (Adds out.old out.new (data_tokens (channels_data broken shards.now))) }
    ensures before { out.new.before ≡ out.old.before }
{
    out.begin_object()?;
    write_count(out, "broken", broken)?;
    out.key("report")?;
    out.begin_array()?;
    write_each_shard(out, shards)?;
    out.end_array()?;
    out.end_object()?;
    Ok(())
}

fn write_each_shard(out: &mut Writer, shards: &[ShardReport]) -> Result<(), AllocError>
    ensures tokens { OnOk result (Adds out.old out.new (tokens_of_each (map shard_data shards.now))) }
    ensures before { out.new.before ≡ out.old.before }
{
    for shard in shards {
        write_shard(out, shard)?;
    }
    Ok(())
}

/// Writes what is reported of a shard.
fn write_shard(out: &mut Writer, shard: &ShardReport) -> Result<(), AllocError>
    ensures tokens { OnOk result (Adds out.old out.new (data_tokens (shard_data shard.now))) }
    ensures before { out.new.before ≡ out.old.before }
{
    out.begin_object()?;
    write_count(out, "accepted", shard.accepted)?;
    write_count(out, "kept", shard.kept)?;
    write_count(out, "recovered", shard.recovered)?;
    write_count(out, "stored", shard.stored)?;
    out.end_object()?;
    Ok(())
}
