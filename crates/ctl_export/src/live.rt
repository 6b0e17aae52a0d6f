//! When a flush has to come between streams.
use crate::fault::ExportFault;
use std::alloc::Global;
use std::collections::BTreeMap;
use std::io::Write;

/// What stores all that was pushed, so that no stream is live.
const FLUSH: &str = "{\"cmd\":\"flush\"}\n";

/// Of each tenant how many streams were written since the last flush, in all shards: so many are live in the `ingestd` that takes
/// the commands. (Own.)
#[derive(Drop)]
pub struct Live {
    alloc: Global,
    streams: BTreeMap<String, u64>,
    /// Whether a tenant has as many of them as may be live.
    is_full: bool,
}

impl Live {
    /// No stream was written.
    pub fn new(alloc: Global) -> Live {
        Live {
            alloc,
            streams: BTreeMap::new(alloc),
            is_full: false,
        }
    }

    /// Writes a flush where a tenant has as many live streams as may be: after it none is live. `OutputFault` where a write failed.
    pub(crate) fn make_room<W: Write>(&mut self, writer: &mut W) -> Result<(), ExportFault> {
        if self.is_full {
            if writer.write_all(FLUSH.as_bytes()).is_err() {
                return Err(ExportFault::OutputFault);
            }
            self.streams = BTreeMap::new(self.alloc);
            self.is_full = false;
        }
        Ok(())
    }

    /// Counts one more stream of a tenant, of which so many may be live. `NoMemory` where memory ran out.
    pub(crate) fn add(&mut self, tenant: &str, most: u64) -> Result<(), ExportFault> {
        let live = self
            .streams
            .get(tenant)
            .copied()
            .unwrap_or(0)
            .saturating_add(1);
        let tenant = String::from_str(self.alloc, tenant)?;
        if self.streams.insert(tenant, live).is_err() {
            return Err(ExportFault::NoMemory);
        }
        self.is_full = self.is_full || live >= most;
        Ok(())
    }
}
