//! Lists of events by lot.
use crate::act::{Act, Logged};
use anyhow::Result;
use ing_parts::Question;
use ing_rows::Order;
use ing_world::{Object, Outcome};
use std::alloc::Global;

/// Numbers by lot, the same in each run (xorshift of 64 bits), the time, how many claims there were, and how many tenants there
/// are.
#[derive(Drop)]
struct Lots {
    state: u64,
    now: u64,
    claims: u64,
    tenants: u64,
}

impl Lots {
    /// A number below this one, which is not 0.
    fn below(&mut self, count: u64) -> u64 {
        let mut state = self.state;
        state ^= state << 13;
        state ^= state >> 7;
        state ^= state << 17;
        self.state = state;
        state.checked_rem(count).unwrap_or(0)
    }

    /// An entry, at most 29 nanoseconds old.
    fn logged(&mut self) -> Logged {
        let behind = match self.below(2) {
            0 => 0,
            _ => self.below(30),
        };
        Logged {
            stamp: self.now.saturating_sub(behind),
            line: self.below(4) as usize,
        }
    }

    fn push(&mut self) -> Act {
        Act::Push {
            tenant: self.below(self.tenants) as usize,
            stream: self.below(3) as usize,
            now: self.now,
            entries: [self.logged(), self.logged(), self.logged()],
            count: match self.below(8) {
                0 => 0,
                1..=3 => 1,
                4..=6 => 2,
                _ => 3,
            },
        }
    }

    fn claim(&mut self) -> Act {
        self.claims = self.claims.saturating_add(1);
        Act::Claim(self.below(4))
    }

    /// One of the tickets, if a third of the claims gave one, or the next.
    fn ticket(&mut self) -> usize {
        self.below((self.claims / 3).saturating_add(1)) as usize
    }

    fn outcome(&mut self) -> Outcome {
        match self.below(6) {
            0 => Outcome::Failed,
            1 => Outcome::StoredYetFailed,
            _ => Outcome::Stored,
        }
    }

    fn put(&mut self) -> Act {
        let object = match self.below(2) {
            0 => Object::Chunk,
            _ => Object::Row,
        };
        Act::Put(self.ticket(), object, self.outcome())
    }

    /// All that lists a chunk as stored, unless a put fails or there is no such ticket.
    fn flush(&mut self) -> [Act; 3] {
        let ticket = self.ticket();
        [
            Act::Put(ticket, Object::Chunk, self.outcome()),
            Act::Put(ticket, Object::Row, self.outcome()),
            Act::Finish(ticket),
        ]
    }

    fn query(&mut self) -> Act {
        let start = self.now.saturating_sub(self.below(120));
        let question = Question {
            start,
            end: start.saturating_add(self.below(60)),
            order: match self.below(2) {
                0 => Order::Forward,
                _ => Order::Backward,
            },
            limit: self.below(12) as usize,
            after: None,
        };
        Act::Query {
            tenant: self.below(self.tenants) as usize,
            selector: self.below(4) as usize,
            question,
        }
    }

    /// An event of a list in which no chunk is claimed.
    fn act_in_memory(&mut self) -> Act {
        self.now = self.now.saturating_add(self.below(4));
        match self.below(24) {
            0..=15 => self.push(),
            16..=19 => Act::Sweep(self.now),
            20 => Act::SealAll,
            _ => self.query(),
        }
    }

    /// An event of any other list.
    fn act(&mut self) -> Act {
        self.now = self.now.saturating_add(self.below(4));
        match self.below(24) {
            0..=7 => self.push(),
            8 => Act::Sweep(self.now),
            9 if self.below(8) == 0 => Act::Checkpoint,
            9 => Act::SealAll,
            10..=12 => self.claim(),
            13..=18 => self.put(),
            19 | 20 => Act::Finish(self.ticket()),
            21 => Act::GiveBack(self.ticket()),
            _ => self.query(),
        }
    }
}

/// Whether no chunk is claimed in the list of this number, so that all entries stay in memory. Both tenants are pushed to there,
/// and else the first alone: `Plain`, which stores nothing, would take a stream for live whose chunks are all stored.
pub fn is_in_memory(list: u32) -> bool {
    list % 8 == 7
}

/// The list of this number: up to 200 events.
pub fn drawn(alloc: Global, list: u32) -> Result<Vec<Act>> {
    let in_memory = is_in_memory(list);
    let mut lots = Lots {
        state: 0x2026_1124_9e37_79b9 ^ (u64::from(list) << 20),
        now: 100,
        claims: 0,
        tenants: if in_memory { 2 } else { 1 },
    };
    // The last flush may bring two events more.
    let count = lots.below(199) as usize;
    let mut acts = Vec::new(alloc);
    for _ in 0..count {
        if acts.len() >= count {
            break;
        }
        if in_memory {
            acts.push(lots.act_in_memory())?;
        } else if lots.below(6) == 0 {
            acts.extend(lots.flush())?;
        } else {
            acts.push(lots.act())?;
        }
    }
    Ok(acts)
}
