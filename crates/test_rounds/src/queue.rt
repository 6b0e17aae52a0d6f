//! A queue of one place.
ghost use Rattle.std.specs.Prelude.{◌≡◌};

use ing_flush::{FlushQueue, QueueFull};
use ing_limits::Settings;
use ing_node::{Flushing, NodeName, Swept};
use ing_postings::StreamNo;
use ing_shard::Op;
use std::alloc::{AllocError, Global};
use std::marker::Brand;
use std::process::Abort;
use std::sync::Wait;
use std::test::Fail;

fn op(stream: u64) -> Op {
    Op {
        shard: 0,
        stream: StreamNo::new(stream),
    }
}

/// What found the queue full comes back, and is not in it; what stands in it is taken once, by whatever pass.
#[test]
fn a_full_queue_gives_the_operation_back(rt: HostRuntime) -> Result<(), Fail> {
    let (queue, mut first) = FlushQueue::open(rt.alloc(), 1)?;
    let mut second = queue.another(&mut first);
    assert_eq!(rt; queue.put(&rt, &mut first, op(1)), Ok(()));
    assert_eq!(rt;
        queue.put(&rt, &mut second, op(2)),
        Err(QueueFull { op: op(2) })
    );
    assert_eq!(rt; queue.take(&rt, &mut second), Some(op(1)));
    assert_eq!(rt; queue.take(&rt, &mut first), None);
    assert_eq!(rt; queue.put(&rt, &mut second, op(2)), Ok(()));
    assert_eq!(rt; queue.take(&rt, &mut first), Some(op(2)));
    Ok(())
}

/// What a sweep's operations come to in the queue of an ingester with these settings.
fn swept<N: NodeName, W: Wait>(
    rt: &W,
    alloc: Global,
    settings: &Settings,
    ops: Vec<Op>,
) -> Result<Swept, AllocError>
    requires { settings.now ≡ N.settings }
{
    let (flushing, mut sweeper) = Flushing::<N>::open(alloc, settings)?;
    Ok(flushing.queue_left(rt, &mut sweeper, ops))
}

/// Of three operations the first finds room, and the others are left, in their order.
#[test]
fn operations_without_room_are_left(rt: HostRuntime) -> Result<(), Fail> {
    let settings = Settings::from_toml(rt.alloc(), "flush_queue_length = 1\n")?;
    let ops = vec![in rt.alloc(); op(1), op(2), op(3)]?;
    let swept = swept::<Brand, HostRuntime>(&rt, rt.alloc(), &settings, ops)?;
    assert_eq!(rt; swept.queued, 1);
    assert_eq!(rt; swept.left.as_slice(), [op(2), op(3)].as_slice());
    Ok(())
}
