//! Runs over shards that nobody shares, as their logs say.
ghost use Rattle.std.specs.Prelude.{◌≡◌, ◌≤◌, ◌⊎◌, [], All, IfErr, IfSome, IsErrOf, IsTrue, List, OnOk, map, reverse, true, vec_capacity, vec_len};
ghost use Rattle.ing_lanes.specs.RecoverFault.{RecoverFault};
ghost use Rattle.ing_lanes.specs.Recovering.{AreOwnLogs, IsLowestRefused};
ghost use Rattle.ing_service.specs.ByShards.{by_shards};
ghost use Rattle.ing_service.specs.Clocks.{heard_by};
ghost use Rattle.ing_service.specs.Ends.{NeverFail, failures_in};
ghost use Rattle.ing_service.specs.Held as held;
ghost use Rattle.ing_service.specs.Held.{BeginsOver, shard_held};
ghost use Rattle.ing_lanes.specs.Causes.{GoesOn};
ghost use Rattle.ing_lanes.specs.Endings.{IsNotRecovered, is_of_run};
ghost use Rattle.ing_lanes.specs.Runs.{HasWritten, IsUnbegun};

use ing_lanes::{Begun, Ending, Shards, Ticker};
use ing_limits::Settings;
use ing_service::{Beginning, Ends, Seat, run_own};
use ing_store::{Receipt, StoreEnd};
use ing_wal::LogDisk;
use std::alloc::Global;
use std::io::{Read, Write};
use std::marker::Brand;
use std::thread::Threads;

/// Runs over the shards that these logs, one of each shard, are of, as `Shards::recover`, which nobody shares: what they accept and store is
/// written to their logs. Flushes put into the store by `ends`; the stored chunks are looked for by `finders`, one of each shard. As `run`;
/// what is told durable outlives a crash from then on, as `DurableShard::push` says, and the report tells as recovered what the logs had.
/// `NotRecovered` where a shard is not made again, with the fault of the lowest, before anything is read. (Own.)
pub fn run_over<
    H: Threads + Sync,
    I: Read,
    W: Write,
    D: LogDisk + Drop + Send,
    R: Receipt + Send + Sync,
    S: StoreEnd<Receipt = R> + Send,
    F: StoreEnd<Receipt = R> + Drop + Send,
    P: Ticker,
>(
    rt: &H,
    alloc: Global,
    reader: &mut I,
    writer: &mut W,
    ends: &mut Ends<S>,
    ticker: &mut P,
    settings: Settings,
    logs: Vec<D>,
    finders: Vec<F>,
) -> Result<(), Ending>
    requires unsaid { IfSome (P.said ticker.old) (λ said. said ≡ []) }
    requires logs { vec_len logs ≡ settings.shards }
    requires finders { vec_len finders ≡ settings.shards }
    // Either nothing was begun, or what is written is, over what the logs replay to, as `run` says.
    ensures written { IsUnbegun writer.old writer.new result ⊎ ((begun : held.Begun)
        × BeginsOver D.is_honest settings (map (λ log. (D.seen log).now.bytes) logs.items) begun
        × HasWritten (by_shards S.is_honest begun) settings record {
          input = I.remaining reader.old;
          rest = I.remaining reader.new;
          ticks = heard_by settings (P.said ticker.new);
          before = failures_in S.failure_count ends.old;
          after = failures_in S.failure_count ends.new;
          old = W.contents writer.old;
          new = W.contents writer.new;
        } result) }
    ensures end { GoesOn (NeverFail S.never_fails) (failures_in S.failure_count) ends.old ends.new }
    ensures ending { IfErr result (λ e. IsTrue (is_of_run e) ⊎ IsNotRecovered e) }
    // Each log is that of its shard, and each of its records fits those before it; or the lowest shard that is refused says why.
    ensures fits { OnOk result (AreOwnLogs D.is_honest D.seen settings logs.items) }
    ensures refused { (fault : RecoverFault) → IsErrOf result (Ending.NotRecovered fault) →
        (backs : List D) × IsLowestRefused D.is_honest D.seen D.failure_count settings logs.items fault backs }
{
    match Shards::recover(rt, alloc, settings, logs, finders) {
        Ok(shards) => {
            run_begun::<Brand, H, I, W, D, R, S, P>(rt, alloc, reader, writer, ends, ticker, shards)
        }
        Err((fault, _logs)) => Err(Ending::from(fault)),
    }
}

/// Runs over shards over their logs, which N has to name. As `run_own`.
fn run_begun<
    N: Beginning,
    H: Threads + Sync,
    I: Read,
    W: Write,
    D: LogDisk + Drop,
    R: Receipt + Send + Sync,
    S: StoreEnd<Receipt = R> + Send,
    P: Ticker,
>(
    rt: &H,
    alloc: Global,
    reader: &mut I,
    writer: &mut W,
    ends: &mut Ends<S>,
    ticker: &mut P,
    shards: Shards<D, R>,
) -> Result<(), Ending>
    requires unsaid { IfSome (P.said ticker.old) (λ said. said ≡ []) }
    requires logged { N.begun.logged ≡ true }
    requires held { N.begun.shards ≡ map (λ begun. shard_held begun.shard) (reverse shards.last_first.items) }
    ensures written { HasWritten (by_shards S.is_honest N.begun) shards.settings record {
      input = I.remaining reader.old;
      rest = I.remaining reader.new;
      ticks = heard_by shards.settings (P.said ticker.new);
      before = failures_in S.failure_count ends.old;
      after = failures_in S.failure_count ends.new;
      old = W.contents writer.old;
      new = W.contents writer.new;
    } result }
    ensures end { GoesOn (NeverFail S.never_fails) (failures_in S.failure_count) ends.old ends.new }
{
    let Ok(room) = Vec::with_capacity(alloc, shards.settings().shards() as usize) else {
        shards.abandon();
        return Err(Ending::NoMemory);
    };
    let (settings, last_first) = shards.into_parts();
    let seats = seats_of(room, last_first);
    run_own::<N, H, I, W, D, R, S, P>(
        rt, alloc, reader, writer, ends, ticker, settings, seats, true,
    )
}

/// Puts shards in the order of their numbers into a list that has room for them. Takes no memory.
fn seats_of<D: LogDisk + Drop, R: Receipt>(
    mut seats: Vec<Seat<D, R>>,
    mut last_first: Vec<Begun<D, R>>,
) -> Vec<Seat<D, R>>
    requires none { vec_len seats ≡ 0 }
    requires room { vec_len last_first ≤ vec_capacity seats }
    requires own { All (λ begun. (begun.accepted.book ≡ begun.shard.memory.books.accepted.name)
        × (begun.stored.book ≡ begun.shard.memory.books.stored.name)) (reverse last_first.items) }
    ensures { map (λ seat. seat.shard) result.items ≡ map (λ begun. begun.shard) (reverse last_first.items) }
{
    while let Some(begun) = last_first.pop() {
        seats.push_reserved(Seat::over(begun.into_recovered()));
    }
    last_first.destroy_empty();
    seats
}
