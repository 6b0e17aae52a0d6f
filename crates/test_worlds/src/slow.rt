//! The slow program: `Plain` judges and seals, and beside it stand lists of chunks, tickets and accepted entries.
use crate::act::{
    AGE, Act, IDLE, Logged, SELECTORS, SETTINGS, TARGET, TENANTS, entries, labels, size_of, tenant,
};
use anyhow::{Context, Result, bail};
use ing_limits::Settings;
use ing_parts::Question;
use ing_plain::Plain;
use ing_rows::{Gauge, Gauges, Order, Rules, Tenant, Verdict};
use ing_world::{Object, Outcome};
use std::alloc::Global;

/// An entry that was accepted, or found: its stamp, its stream, its number, and which of the lines it has. They are ordered as an
/// answer is.
pub type Kept = (u64, usize, u64, usize);

/// A stream: which of the tenants it is of, and which of the sets of labels it has.
type Key = (usize, usize);

/// Where a chunk is.
#[derive(Clone, Copy, Debug, PartialEq, Eq)]
enum At {
    Memory,
    Flight,
    Stored,
}

/// A chunk: its stream, its first number, what it counts, when it was added to last, its span, whether it is sealed.
#[derive(Clone, Copy)]
struct SlowChunk {
    key: Key,
    first: u64,
    count: Gauge,
    updated: u64,
    least: u64,
    greatest: u64,
    is_sealed: bool,
    at: At,
}

/// A ticket: its chunk, and of which of its objects it has a receipt.
#[derive(Clone, Copy)]
struct SlowTicket {
    chunk: usize,
    is_open: bool,
    has_chunk: bool,
    has_row: bool,
}

/// What has to be answered.
#[derive(Drop)]
pub enum Wanted {
    Pushed(Vec<Verdict>),
    TooManyEntries,
    Sealed(u64),
    Claimed(u64),
    Stored,
    Failed,
    Finished,
    GivenBack,
    Found(Vec<Kept>),
    NoCheckpoint,
    Nothing,
}

/// What the slow program knows after the events so far.
#[derive(Drop)]
pub struct Slow {
    alloc: Global,
    tenants: Vec<Owned>,
    plain: Plain,
    /// The streams in the order of their numbers.
    listed: Vec<Key>,
    chunks: Vec<SlowChunk>,
    tickets: Vec<SlowTicket>,
}

/// A tenant, its rules, and its accepted entries.
#[derive(Drop)]
struct Owned {
    tenant: Tenant,
    rules: Rules,
    kept: Vec<Kept>,
}

impl Slow {
    /// Before any event.
    pub fn new(alloc: Global) -> Result<Slow> {
        let settings = Settings::from_toml(alloc, SETTINGS)?;
        let mut tenants = Vec::new(alloc);
        for index in 0..TENANTS.len() {
            let tenant = tenant(alloc, index)?;
            let rules = *settings.for_tenant(&tenant);
            tenants.push(Owned {
                tenant,
                rules,
                kept: Vec::new(alloc),
            })?;
        }
        Ok(Slow {
            alloc,
            tenants,
            plain: Plain::new(alloc),
            listed: Vec::new(alloc),
            chunks: Vec::new(alloc),
            tickets: Vec::new(alloc),
        })
    }

    /// What has to be answered to this, after all before it.
    pub fn answer(&mut self, act: Act) -> Result<Wanted> {
        Ok(match act {
            Act::Push {
                tenant,
                stream,
                now,
                entries: logged,
                count,
            } => self.push((tenant, stream), now, &logged, count)?,
            Act::Sweep(now) => self.sweep(now)?,
            Act::SealAll => self.seal_all()?,
            Act::Claim(number) => self.claim(number)?,
            Act::Put(ticket, object, outcome) => self.put(ticket, object, outcome),
            Act::Finish(ticket) => self.finish(ticket),
            Act::GiveBack(ticket) => self.give_back(ticket),
            Act::Query {
                tenant,
                selector,
                question,
            } => self.query(tenant, selector, question)?,
            Act::Checkpoint => Wanted::NoCheckpoint,
        })
    }

    fn push(&mut self, key: Key, now: u64, logged: &[Logged; 3], count: usize) -> Result<Wanted> {
        let owned = self.tenants.get(key.0).context("a tenant")?;
        if count as u64 > owned.rules.max_entries_per_push {
            return Ok(Wanted::TooManyEntries);
        }
        let labels = labels(self.alloc, key.1)?;
        let all = entries(self.alloc, logged, count)?;
        let verdicts = self.plain.push(
            self.alloc,
            &owned.rules,
            &owned.tenant,
            labels.name(),
            all,
            now,
        )?;
        for (verdict, one) in verdicts.iter().zip(logged) {
            if let Verdict::Accepted { number } = verdict {
                self.accept(key, now, *one, *number)?;
            }
        }
        Ok(Wanted::Pushed(verdicts))
    }

    /// Puts an accepted entry into the growing chunk of its stream, or into a new one.
    fn accept(&mut self, key: Key, now: u64, one: Logged, number: u64) -> Result<()> {
        if number == 0 {
            self.listed.push(key)?;
        }
        let owned = self.tenants.get_mut(key.0).context("a tenant")?;
        owned.kept.push((one.stamp, key.1, number, one.line))?;
        let size = size_of(one);
        for chunk in &mut self.chunks {
            if chunk.key == key && !chunk.is_sealed {
                chunk.add(now, one.stamp, size);
                return Ok(());
            }
        }
        let mut chunk = SlowChunk {
            key,
            first: number,
            count: Gauge::default(),
            updated: now,
            least: one.stamp,
            greatest: one.stamp,
            is_sealed: false,
            at: At::Memory,
        };
        chunk.add(now, one.stamp, size);
        self.chunks.push(chunk)?;
        Ok(())
    }

    fn sweep(&mut self, now: u64) -> Result<Wanted> {
        let mut sealed = 0u64;
        for chunk in &mut self.chunks {
            if !chunk.is_sealed && chunk.is_due(now) {
                chunk.is_sealed = true;
                sealed = sealed.saturating_add(1);
            }
        }
        let owned = self.tenants.first().context("a tenant")?;
        if self.plain.sweep(&owned.rules, now) != sealed {
            bail!("the slow programs seal otherwise");
        }
        Ok(Wanted::Sealed(sealed))
    }

    fn seal_all(&mut self) -> Result<Wanted> {
        let mut sealed = 0u64;
        for chunk in &mut self.chunks {
            if !chunk.is_sealed {
                chunk.is_sealed = true;
                sealed = sealed.saturating_add(1);
            }
        }
        if self.plain.seal_all() != sealed {
            bail!("the slow programs seal otherwise");
        }
        Ok(Wanted::Sealed(sealed))
    }

    fn claim(&mut self, number: u64) -> Result<Wanted> {
        let Some(key) = self.listed.get(number as usize).copied() else {
            return Ok(Wanted::Nothing);
        };
        for (index, chunk) in self.chunks.iter_mut().enumerate() {
            if chunk.key == key && chunk.is_sealed && chunk.at == At::Memory {
                chunk.at = At::Flight;
                self.tickets.push(SlowTicket {
                    chunk: index,
                    is_open: true,
                    has_chunk: false,
                    has_row: false,
                })?;
                return Ok(Wanted::Claimed(chunk.first));
            }
        }
        Ok(Wanted::Nothing)
    }

    fn put(&mut self, ticket: usize, object: Object, outcome: Outcome) -> Wanted {
        match self.tickets.get_mut(ticket) {
            Some(open) if open.is_open => {
                if outcome != Outcome::Stored {
                    return Wanted::Failed;
                }
                match object {
                    Object::Chunk => open.has_chunk = true,
                    Object::Row => open.has_row = true,
                }
                Wanted::Stored
            }
            _ => Wanted::Nothing,
        }
    }

    /// Closes a ticket, and lets its chunk go there.
    fn close(&mut self, ticket: usize, at: At) {
        if let Some(open) = self.tickets.get_mut(ticket) {
            open.is_open = false;
            if let Some(chunk) = self.chunks.get_mut(open.chunk) {
                chunk.at = at;
            }
        }
    }

    fn finish(&mut self, ticket: usize) -> Wanted {
        match self.tickets.get(ticket) {
            Some(open) if open.is_open && open.has_chunk && open.has_row => {}
            _ => return Wanted::Nothing,
        }
        self.close(ticket, At::Stored);
        Wanted::Finished
    }

    fn give_back(&mut self, ticket: usize) -> Wanted {
        match self.tickets.get(ticket) {
            Some(open) if open.is_open => {}
            _ => return Wanted::Nothing,
        }
        self.close(ticket, At::Memory);
        Wanted::GivenBack
    }

    /// Filter, order and cut of what was accepted.
    fn query(&self, tenant: usize, selector: usize, question: Question<'static>) -> Result<Wanted> {
        let picks = SELECTORS.get(selector).context("a selector")?.1;
        let mut found = Vec::new(self.alloc);
        for kept in &self.tenants.get(tenant).context("a tenant")?.kept {
            if picks[kept.1 % 3] && question.start <= kept.0 && kept.0 < question.end {
                found.push(*kept)?;
            }
        }
        found.as_mut_slice().sort_unstable();
        if question.order == Order::Backward {
            found.as_mut_slice().reverse();
        }
        found.truncate(question.limit);
        Ok(Wanted::Found(found))
    }

    /// The gauges of a tenant. What `Plain` has in blocks stands in blocks, in flight or in the store.
    pub fn gauges(&self, tenant: usize) -> Result<Gauges> {
        let owned = self.tenants.get(tenant).context("a tenant")?;
        let mut gauges = self.plain.gauges(&owned.tenant);
        let mut live = [false; 3];
        for chunk in &self.chunks {
            if chunk.key.0 != tenant {
                continue;
            }
            match chunk.at {
                At::Memory => {}
                At::Flight => moved(&mut gauges.block, &mut gauges.flight, chunk.count),
                At::Stored => moved(&mut gauges.block, &mut gauges.stored, chunk.count),
            }
            if chunk.at != At::Stored {
                if let Some(is_live) = live.get_mut(chunk.key.1) {
                    *is_live = true;
                }
            }
        }
        gauges.streams = 0;
        for is_live in live {
            if is_live {
                gauges.streams = gauges.streams.saturating_add(1);
            }
        }
        Ok(gauges)
    }
}

/// Takes so much off one gauge and puts it on another.
fn moved(from: &mut Gauge, to: &mut Gauge, count: Gauge) {
    from.entries = from.entries.saturating_sub(count.entries);
    from.bytes = from.bytes.saturating_sub(count.bytes);
    to.entries = to.entries.saturating_add(count.entries);
    to.bytes = to.bytes.saturating_add(count.bytes);
}

impl SlowChunk {
    fn add(&mut self, now: u64, stamp: u64, size: u64) {
        self.count.entries = self.count.entries.saturating_add(1);
        self.count.bytes = self.count.bytes.saturating_add(u128::from(size));
        self.updated = now;
        self.least = self.least.min(stamp);
        self.greatest = self.greatest.max(stamp);
        self.is_sealed = self.count.bytes >= u128::from(TARGET);
    }

    /// Whether a sweep at this time seals it.
    fn is_due(&self, now: u64) -> bool {
        now.saturating_sub(self.updated) > IDLE || self.greatest.saturating_sub(self.least) > AGE
    }
}
