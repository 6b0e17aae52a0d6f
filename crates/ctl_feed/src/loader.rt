//! Lines of text made into push commands, one command's entries at a time.
ghost use Rattle.std.specs.Prelude.{◌≡◌, ℕ, ◌^◌, ◌<◌, Option};
ghost use Rattle.std.specs.Option.{SomeIff};
ghost use Rattle.ctl_feed.specs.Loads.{stamp_for};

use crate::labels::Labels;
use crate::load_fault::LoadFault;
use crate::push::push_line;
use crate::size::{MAX_BYTES, size_in_bounds};
use crate::tally::Tally;
use ing_rows::{Entry, Line, Stamp, Tenant};
use std::alloc::{AllocError, Global};
use std::marker::Model;
use std::mem;

/// How many values a command has at most.
pub const MAX_VALUES: usize = 5000;

/// Lines for one stream, of which so many wait as fit into a command.
#[derive(Drop)]
pub struct Loader {
    tenant: Tenant,
    now: Stamp,
    labels: Labels,
    /// The stamp of the last line.
    last: Option<Stamp>,
    /// The entries that wait.
    entries: Vec<Entry>,
    /// What they take in a command, in bytes.
    size: usize,
    /// What is told at the end.
    tally: Tally,
}

impl Model for Loader {
    ghost use Rattle.ctl_feed.specs.Loads.{Load, IsLoad};

    ghost Value = { Load };

    ghost view = { λ loader. record {
      tenant = loader.tenant;
      now = loader.now;
      labels = loader.labels;
      last = loader.last;
      entries = loader.entries.items;
    } };

    ghost invariant = { λ loader.
        IsLoad loader.tenant loader.now loader.labels loader.size loader.entries.items };
}

impl Loader {
    ghost use Rattle.std.specs.Prelude.{◌≡◌, ◌≢◌, ◌+◌, ◌<◌, ◌≤◌, IfOk, IfErr, OnOk, [], None, Err, Ok};
    ghost use Rattle.std.specs.Prelude.{length, option_map};
    ghost use Rattle.ing_rows.specs.declared.entry.Entry.{Entry};
    ghost use Rattle.ctl_feed.specs.Loads.{Finishes, IsWaiting, MakesRoom, Takes, entry_of, head_size};
    ghost use Rattle.ctl_feed.specs.Loads.{size_of, sizes_of, with_entry};

    /// A loader of lines for a tenant's stream with these labels, where none waits yet. `now` is the time of
    /// the pushes, and the stamp of the first line where that has no time. `LabelsTooLong` exactly where a
    /// command with no entry takes more than `MAX_BYTES`. (Own.)
    pub fn new(
        alloc: Global,
        tenant: Tenant,
        now: Stamp,
        labels: Labels,
    ) -> Result<Loader, LoadFault>
        ensures empty { IfOk result (λ loader. loader ≡ record {
          tenant = tenant;
          now = now;
          labels = labels;
          last = None;
          entries = [];
        }) }
        ensures small { OnOk result (head_size tenant now labels ≤ MAX_BYTES) }
        ensures fault { IfErr result (λ fault. fault ≢ LoadFault.NoMemory
            → (fault ≡ LoadFault.LabelsTooLong) × (MAX_BYTES < head_size tenant now labels)) }
    {
        let line = push_line(alloc, &tenant, now, &labels, Vec::new(alloc))?;
        if line.as_slice().len() > MAX_BYTES {
            return Err(LoadFault::LabelsTooLong);
        }
        Ok(Loader {
            tenant,
            now,
            labels,
            last: None,
            entries: Vec::new(alloc),
            size: 0,
            tally: Tally::empty(),
        })
    }

    /// Takes one more line, which has this time, if it has one. Bytes that are no UTF-8 are replaced by
    /// U+FFFD. Its stamp is its time where that is above the stamp of the line before, and else a nanosecond
    /// above that. Gives the line of a push, without a line feed, of the entries that waited, where there was
    /// no room for one more beside them: they are `MAX_VALUES`, or would take more than `MAX_BYTES` with it.
    ///
    /// `TooLong` where the line has more than `MAX_BYTES` bytes; else `NoStamp` exactly where the line before
    /// has the greatest stamp, 2^63-1; else `TooLong` exactly where the line takes more than `MAX_BYTES` of a
    /// command by itself. Then all is as before. After `NoMemory` entries may be lost. (Own.)
    pub fn take(
        &mut self,
        alloc: Global,
        line: &[u8],
        time: Option<Stamp>,
    ) -> Result<Option<Vec<u8>>, LoadFault>
        ensures taken { IfOk result (λ command. (entry : Entry)
            × (entry_of self.old time line.now ≡ Ok entry)
            × Takes self.old self.new entry (option_map (λ text. text.items) command)) }
        ensures fault { IfErr result (λ fault. fault ≢ LoadFault.NoMemory
            → (entry_of self.old time line.now ≡ Err fault) × (self.new ≡ self.old)) }
    {
        let (entry, size) = self.sized_entry(alloc, line, time)?;
        let command = self.make_room(alloc, size)?;
        self.add(entry, size)?;
        self.tally = self.tally.with_line(line, time.is_some());
        Ok(command)
    }

    /// Takes an entry as it is, with its own stamp, which need not be above that of the one before.
    /// Gives the line of a push as `take` does.
    ///
    /// `TooLong` exactly where the entry takes more than `MAX_BYTES` of a command by itself. Then
    /// all is as before. After `NoMemory` entries may be lost. (Own.)
    pub fn take_entry(&mut self, alloc: Global, entry: Entry) -> Result<Option<Vec<u8>>, LoadFault>
        ensures taken { IfOk result (λ command.
            Takes self.old self.new entry (option_map (λ text. text.items) command)) }
        ensures fault { IfErr result (λ fault. fault ≢ LoadFault.NoMemory
            → (fault ≡ LoadFault.TooLong) × (MAX_BYTES < size_of entry) × (self.new ≡ self.old)) }
    {
        let Some(size) = size_in_bounds(&entry) else {
            return Err(LoadFault::TooLong);
        };
        let command = self.make_room(alloc, size)?;
        self.add(entry, size)?;
        Ok(command)
    }

    /// How many entries wait for a command. Takes no memory.
    pub fn waiting(&self) -> usize
        ensures { result ≡ length self.entry.now.entries }
    {
        self.entries.len()
    }

    /// The line of a push, without a line feed, of the entries that wait, or `None` where none does. None
    /// waits then. It fails only where memory runs out, and then the entries are lost. (Own.)
    pub fn finish(&mut self, alloc: Global) -> Result<Option<Vec<u8>>, AllocError>
        ensures { IfOk result (λ command.
            Finishes self.old self.new (option_map (λ text. text.items) command)) }
    {
        if self.entries.is_empty() {
            return Ok(None);
        }
        Ok(Some(self.take_command(alloc)?))
    }

    /// What was taken so far, and made of it. Takes no memory.
    pub fn tally(&self) -> Tally {
        self.tally
    }

    /// The entry of a line of this time, and what it takes in a command.
    fn sized_entry(
        &self,
        alloc: Global,
        line: &[u8],
        time: Option<Stamp>,
    ) -> Result<(Entry, usize), LoadFault>
        ensures entry { IfOk result (λ made. entry_of self.entry.now time line.now ≡ Ok made.0) }
        ensures size { IfOk result (λ made. (made.1 ≡ size_of made.0) × (made.1 ≤ MAX_BYTES)) }
        ensures fault { IfErr result (λ fault. fault ≢ LoadFault.NoMemory
            → entry_of self.entry.now time line.now ≡ Err fault) }
    {
        if line.len() > MAX_BYTES {
            return Err(LoadFault::TooLong);
        }
        let Some(stamp) = stamp_for(self.now, self.last, time) else {
            return Err(LoadFault::NoStamp);
        };
        let text = String::from_utf8_lossy(alloc, line)?;
        let entry = Entry {
            stamp,
            line: Line::of_string(text),
        };
        let Some(size) = size_in_bounds(&entry) else {
            return Err(LoadFault::TooLong);
        };
        Ok((entry, size))
    }

    /// Makes room for an entry of this size: the line of a push of those that wait, where there is none
    /// beside them.
    fn make_room(&mut self, alloc: Global, size: usize) -> Result<Option<Vec<u8>>, AllocError>
        requires { size ≤ MAX_BYTES }
        ensures { IfOk result (λ command. (entry : Entry) → size ≡ size_of entry
            → MakesRoom self.old self.new entry (option_map (λ text. text.items) command)) }
    {
        if self.entries.len() < MAX_VALUES && self.size + size <= MAX_BYTES {
            return Ok(None);
        }
        Ok(Some(self.take_command(alloc)?))
    }

    /// Puts an entry of this size behind those that wait.
    fn add(&mut self, entry: Entry, size: usize) -> Result<(), AllocError>
        requires size { size ≡ size_of entry }
        requires few { length self.old.entries < MAX_VALUES }
        requires small { sizes_of self.old.entries + size ≤ MAX_BYTES }
        ensures { OnOk result (self.new ≡ with_entry self.old entry) }
    {
        let stamp = entry.stamp;
        self.entries.push(entry)?;
        self.size += size;
        self.last = Some(stamp);
        Ok(())
    }

    /// The line of a push of the entries that wait. None waits then.
    fn take_command(&mut self, alloc: Global) -> Result<Vec<u8>, AllocError>
        requires { 0 < length self.old.entries }
        ensures line { IfOk result (λ line. IsWaiting self.old line.items) }
        ensures none { OnOk result (self.new ≡ record self.old { entries = [] }) }
    {
        let entries = mem::replace(&mut self.entries, Vec::new(alloc));
        self.size = 0;
        self.tally = self.tally.with_command();
        push_line(alloc, &self.tenant, self.now, &self.labels, entries)
    }
}

/// The stamp of a line of this time, if it has one, behind one with the stamp `last`. `None` where that has
/// the greatest stamp. Takes no memory.
fn stamp_for(now: Stamp, last: Option<Stamp>, time: Option<Stamp>) -> Option<Stamp>
    ensures { SomeIff result (stamp_for now last time < 2 ^ 63) (stamp_for now last time) }
{
    match last {
        None => Some(time.unwrap_or(now)),
        Some(last) => {
            let least = last.nanoseconds() + 1;
            let wanted = time.map_or(0, Stamp::nanoseconds);
            Stamp::of_nanoseconds(least.max(wanted))
        }
    }
}
