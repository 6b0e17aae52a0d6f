//! What is given up.
use crate::earlier::Earlier;
use crate::ingester::Ingester;
use crate::names::NodeName;
use crate::pusher::Pusher;
use ing_flush::FlusherTally;
use ing_store::Receipt;
use ing_wal::LogDisk;

impl<N: NodeName, D: LogDisk + Drop, R: Receipt> Ingester<N, D, R> {
    /// Gives the ingester up, with shares of what it began with, pushers and tallies of it, which stay out: for what comes back from a
    /// closing that was refused. Takes no memory. (Own.)
    pub fn abandon(self, earlier: Earlier<N>, pushers: Vec<Pusher<N>>, tallies: Vec<FlusherTally>) {
        earlier.strand();
        strand_pushers(pushers);
        strand_tallies(tallies);
    }
}

/// Gives the shares of pushers up, which stay out. Takes no memory. (Own.)
pub fn strand_pushers<N: NodeName>(mut pushers: Vec<Pusher<N>>) {
    while let Some(pusher) = pushers.pop() {
        pusher.strand();
    }
    pushers.destroy_empty();
}

/// Gives the shares of tallies up, which stay out. Takes no memory. (Own.)
pub fn strand_tallies(mut tallies: Vec<FlusherTally>) {
    while let Some(tally) = tallies.pop() {
        tally.strand();
    }
    tallies.destroy_empty();
}
