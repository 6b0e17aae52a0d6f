//! Runs over shards that nobody shares.
ghost use Rattle.std.specs.Prelude.{◌≡◌, ⊤, [], IfOk, IfSome, false, map, replicate};
ghost use Rattle.ing_durable.specs.Kept.{whose};
ghost use Rattle.ing_session.specs.Causes.{GoesOn};
ghost use Rattle.ing_session.specs.FlushCalls.{ObeysFlush};
ghost use Rattle.ing_session.specs.Runs.{HasWritten};
ghost use Rattle.ing_service.specs.ByShards.{by_shards};
ghost use Rattle.ing_service.specs.Clocks.{heard_by};
ghost use Rattle.ing_service.specs.Ends.{NeverFail, failures_in};
ghost use Rattle.ing_service.specs.Held.{AreShardsOf, begun_new, held_in, new_shard, shard_held};

use crate::beginning::Beginning;
use crate::ends::Ends;
use crate::owned::OwnShards;
use crate::seat::Seat;
use crate::seats::let_each_go;
use ing_commands::Flush;
use ing_limits::Settings;
use ing_session::{Ending, NoTicker, Ticker, serve_all};
use ing_store::{Receipt, StoreEnd};
use ing_wal::{LogDisk, NoLog};
use std::alloc::{AllocError, Global};
use std::io::{Read, Write};
use std::marker::Brand;
use std::thread::Threads;

/// Reads commands line by line, answers each in a line, and writes a report at the end of input, over new shards of these settings,
/// which have no logs; flushes put into the store by `ends`, and queries read by them. Where the settings have
/// a `flush_check_period` the clock is asked, and what it says between lines is done, too. What the shards hold at the end is left to the
/// system, since the program ends then. As `serve_all`. (Own.)
pub fn run<
    H: Threads + Sync,
    I: Read,
    W: Write,
    R: Receipt + Send + Sync,
    S: StoreEnd<Receipt = R> + Send,
    P: Ticker,
>(
    rt: &H,
    alloc: Global,
    reader: &mut I,
    writer: &mut W,
    ends: &mut Ends<S>,
    ticker: &mut P,
    settings: Settings,
) -> Result<(), Ending>
    requires unsaid { IfSome (P.said ticker.old) (λ said. said ≡ []) }
    // What is written is, line for line, what the model answers to the lines read, by how the uploads ended; and each that
    // failed has a cause of its own. What the clock says between the lines, where it is asked, is done, and not replied to.
    ensures written { HasWritten (by_shards S.is_honest (begun_new settings.shards)) settings record {
      input = I.remaining reader.old;
      rest = I.remaining reader.new;
      ticks = heard_by settings (P.said ticker.new);
      before = failures_in S.failure_count ends.old;
      after = failures_in S.failure_count ends.new;
      old = W.contents writer.old;
      new = W.contents writer.new;
    } result }
    ensures end { GoesOn (NeverFail S.never_fails) (failures_in S.failure_count) ends.old ends.new }
{
    let seats = new_seats(alloc, &settings)?;
    run_own::<Brand, H, I, W, NoLog, R, S, P>(
        rt, alloc, reader, writer, ends, ticker, settings, seats, false,
    )
}

/// Runs over shards of these settings to which nothing was said yet, over logs or without; N has to name them. As `run`; what is told
/// durable outlives a crash from then on, as `DurableShard::push` says, and the report tells as recovered what each shard began with. (Own.)
pub fn run_own<
    N: Beginning,
    H: Threads + Sync,
    I: Read,
    W: Write,
    D: LogDisk + Drop,
    R: Receipt + Send + Sync,
    S: StoreEnd<Receipt = R> + Send,
    P: Ticker,
>(
    rt: &H,
    alloc: Global,
    reader: &mut I,
    writer: &mut W,
    ends: &mut Ends<S>,
    ticker: &mut P,
    settings: Settings,
    seats: Vec<Seat<D, R>>,
    is_logged: bool,
) -> Result<(), Ending>
    requires unsaid { IfSome (P.said ticker.old) (λ said. said ≡ []) }
    requires shards { AreShardsOf settings (map (λ seat. whose seat.shard.memory) seats.items) }
    requires logged { N.begun.logged ≡ is_logged }
    requires held { N.begun.shards ≡ map (λ seat. shard_held seat.shard) seats.items }
    ensures written { HasWritten (by_shards S.is_honest N.begun) settings record {
      input = I.remaining reader.old;
      rest = I.remaining reader.new;
      ticks = heard_by settings (P.said ticker.new);
      before = failures_in S.failure_count ends.old;
      after = failures_in S.failure_count ends.new;
      old = W.contents writer.old;
      new = W.contents writer.new;
    } result }
    ensures end { GoesOn (NeverFail S.never_fails) (failures_in S.failure_count) ends.old ends.new }
{
    let is_quiet = settings.flush_check_period() == 0;
    let own: OwnShards<N, D, R> = OwnShards::of(alloc, settings, seats, is_logged)?;
    let flush = |own: &mut OwnShards<N, D, R>, ends: &mut Ends<S>, said: Flush|
        ensures { ObeysFlush (by_shards S.is_honest N.begun)
            (λ own held. held ≡ held_in (map (λ seat. shard_held seat.shard) own.seats.items) own.ops.items) (λ _ _. ⊤)
            (λ own. own.settings) (failures_in S.failure_count) (NeverFail S.never_fails) said own.entry.now own.exit.now
            ends.entry.now ends.exit.now result }
    { own.flush(rt, ends, said) };
    if is_quiet {
        return serve_all(alloc, reader, writer, ends, own, &flush, &mut NoTicker);
    }
    serve_all(alloc, reader, writer, ends, own, &flush, ticker)
}

/// New shards of these settings, without logs.
fn new_seats<R: Receipt>(
    alloc: Global,
    settings: &Settings,
) -> Result<Vec<Seat<NoLog, R>>, AllocError>
    ensures shards { IfOk result (λ seats. AreShardsOf settings.now (map (λ seat. whose seat.shard.memory) seats.items)) }
    ensures held { IfOk result (λ seats.
        map (λ seat. shard_held seat.shard) seats.items ≡ replicate settings.now.shards new_shard) }
{
    let mut seats = Vec::with_capacity(alloc, settings.shards() as usize)?;
    for number in 0..settings.shards() {
        match new_seat(alloc, settings, number) {
            Ok(seat) => seats.push_reserved(seat),
            Err(error) => {
                let_each_go(seats);
                return Err(error);
            }
        }
    }
    Ok(seats)
}

/// The new shard of this number, without a log.
fn new_seat<R: Receipt>(
    alloc: Global,
    settings: &Settings,
    number: u32,
) -> Result<Seat<NoLog, R>, AllocError>
    ensures same { IfOk result (λ seat. whose seat.shard.memory ≡ record { settings = settings.now; number = number }) }
    ensures held { IfOk result (λ seat. shard_held seat.shard ≡ new_shard) }
{
    let settings = settings.try_clone()?;
    Seat::fresh(alloc, settings, number, NoLog::new())
}
