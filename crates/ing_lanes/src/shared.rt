//! What the channels of a run share.
ghost use Rattle.std.specs.Prelude.{◌≡◌, ◌<◌, IfOk, false, reverse};
ghost use Rattle.std.specs.Coded.{Coded-set};
ghost use Rattle.std.specs.List.{AllByRecursion};
ghost use Rattle.ing_limits.specs.Coded.{settings_code};
ghost use Rattle.ing_node.specs.Begun.{HasTornLog};
ghost use Rattle.ing_node.specs.Earlier.{earlier_of};
ghost use Rattle.ing_node.specs.Names.{AreNamed};

use ing_limits::Settings;
use ing_node::{Earlier, Flushing, Ingester, NodeName, Shards, Sweeper};
use ing_store::Receipt;
use ing_wal::LogDisk;
use std::alloc::{AllocError, Global};
use std::sync::atomic::AtomicU64;

/// An ingester and its flush queue, through which all channels of a run go, and the settings.
#[derive(Drop)]
pub struct Shared<N: NodeName, D: LogDisk, R: Receipt> {
    pub(crate) ingester: Ingester<N, D, R>,
    pub(crate) flushing: Flushing<N>,
    pub(crate) settings: Settings,
    /// Whether the shards may have logs.
    pub(crate) has_logs: bool,
    /// How many channels have pushes at hand now that they are not through with: a hint for those that are.
    pub(crate) pushing: AtomicU64,
    ghost logs: { has_logs ≡ N.has_logs },
    ghost judges: { settings ≡ N.settings } by { Coded-set settings_code settings N.settings },
}

/// What channels are to share, and beside it the shares of what the shards began with, and who sweeps them. It cannot be dropped.
pub(crate) struct Opened<N: NodeName, D: LogDisk, R: Receipt> {
    pub(crate) shared: Shared<N, D, R>,
    pub(crate) earlier: Earlier<N>,
    pub(crate) sweeper: Sweeper,
}

impl<N: NodeName, D: LogDisk + Drop, R: Receipt> Shared<N, D, R> {
    /// Opens an ingester of these shards, which N has to name, and its flush queue. Where memory runs out the shards are let go.
    pub(crate) fn open(
        alloc: Global,
        shards: Shards<D, R>,
        has_logs: bool,
    ) -> Result<Opened<N, D, R>, AllocError>
        requires settings { shards.settings ≡ N.settings }
        requires named { AreNamed N.books (reverse shards.last_first.items) }
        requires earlier { N.earlier ≡ earlier_of (reverse shards.last_first.items) }
        requires logs { has_logs ≡ N.has_logs }
        requires torn { N.has_logs ≡ false → AllByRecursion HasTornLog (reverse shards.last_first.items) }
        ensures sweeper { IfOk result (λ opened. opened.sweeper.pass.queue ≡ opened.shared.flushing.queue.name) }
    {
        let settings = match shards.settings().try_clone() {
            Ok(settings) => settings,
            Err(error) => {
                shards.abandon();
                return Err(error);
            }
        };
        let (ingester, earlier) = match Ingester::<N, D, R>::open(alloc, shards) {
            Ok(opened) => opened,
            Err(shards) => {
                shards.abandon();
                return Err(AllocError);
            }
        };
        match Flushing::open(alloc, &settings) {
            Ok((flushing, sweeper)) => Ok(Opened {
                shared: Shared {
                    ingester,
                    flushing,
                    settings,
                    has_logs,
                    pushing: AtomicU64::new(0),
                },
                earlier,
                sweeper,
            }),
            Err(error) => {
                earlier.strand();
                Err(error)
            }
        }
    }
}
