//! What hands have done.
use crate::fault::LifeFault;
use ing_rows::Verdict;

/// What hands have done, by their own count.
#[derive(Clone, Copy, Debug, Default, PartialEq, Eq)]
pub struct Done {
    /// How many entries were pushed.
    pub pushed: u64,
    /// How many of them were told as accepted.
    pub accepted: u64,
    /// How many chunks were stored.
    pub chunks: u64,
    /// How many of them were stored by flushers that work a queue off, which do not tell their entries.
    pub queued: u64,
    /// How many entries the others had.
    pub stored: u64,
    /// How many flushes failed.
    pub failed: u64,
    /// How many found that another hand had the chunk.
    pub nothing: u64,
    /// How many queries were answered.
    pub queries: u64,
    /// How often the counts of a shard were read without a lock.
    pub readings: u64,
    /// Why a hand stopped early.
    pub fault: Option<LifeFault>,
}

impl Done {
    /// Counts the verdicts on a push.
    pub fn judged(&mut self, verdicts: &[Verdict]) {
        for verdict in verdicts {
            self.pushed = self.pushed.saturating_add(1);
            if let Verdict::Accepted { .. } = verdict {
                self.accepted = self.accepted.saturating_add(1);
            }
        }
    }

    /// Adds what another hand has done.
    pub fn add(&mut self, other: &Done) {
        self.pushed = self.pushed.saturating_add(other.pushed);
        self.accepted = self.accepted.saturating_add(other.accepted);
        self.chunks = self.chunks.saturating_add(other.chunks);
        self.queued = self.queued.saturating_add(other.queued);
        self.stored = self.stored.saturating_add(other.stored);
        self.failed = self.failed.saturating_add(other.failed);
        self.nothing = self.nothing.saturating_add(other.nothing);
        self.queries = self.queries.saturating_add(other.queries);
        self.readings = self.readings.saturating_add(other.readings);
        if self.fault.is_none() {
            self.fault = other.fault;
        }
    }
}
