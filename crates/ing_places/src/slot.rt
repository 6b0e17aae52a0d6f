//! The place of one stream.
ghost use Rattle.std.specs.Prelude.{◌≡◌, ◌<◌, IfSome, None, Some};
ghost use Rattle.ing_rows.specs.Placement as placement;
ghost use Rattle.ing_places.specs.Slots.{IsOwn, name_in, tenant_in};

use ing_rows::{Tenant, shard_of};
use std::alloc::Global;

/// A stream and its shard, or nothing, and the mark of the stream that was asked for last. The buffer stays for the streams that
/// come after.
#[derive(Debug, Drop)]
pub(crate) struct Slot {
    /// The stream's tenant, and its name behind it: one text, so that a look-up reads one place.
    text: String,
    /// How many bytes the tenant has.
    split: usize,
    shard: Option<u32>,
    asked: u32,
}

impl Slot {
    /// One that keeps nothing. Takes no memory.
    pub(crate) fn new(alloc: Global) -> Slot
        ensures { result.shard ≡ None }
    {
        Slot {
            text: String::new(alloc),
            split: 0,
            shard: None,
            asked: 0,
        }
    }

    /// The shard of a stream with this mark, of so many: the one that it keeps of this stream, or else by the digest. The stream
    /// that it keeps gives way to one that is asked for twice in turn, so that many in turn do not replace each other.
    pub(crate) fn of(&mut self, tenant: &Tenant, name: &str, mark: u32, shards: u32) -> u32
        requires some { 0 < shards }
        requires own { IsOwn shards self.old }
        ensures shard { result ≡ placement.shard_of tenant.now name.now shards }
        ensures own { IsOwn shards self.new }
    {
        let is_again = self.asked == mark;
        self.asked = mark;
        if let Some(shard) = self.kept(tenant, name) {
            return shard;
        }
        let shard = shard_of(tenant, name, shards);
        if is_again || self.shard.is_none() {
            self.keep(tenant, name, shard);
        }
        shard
    }

    /// The shard that it keeps, if it keeps this stream: all bytes are compared. Takes no memory.
    pub(crate) fn kept(&self, tenant: &Tenant, name: &str) -> Option<u32>
        ensures { IfSome result (λ shard. (self.now.shard ≡ Some shard)
            × (tenant_in self.now ≡ tenant.now) × (name_in self.now ≡ name.now)) }
    {
        let (kept_tenant, kept_name) = self.text.as_bytes().split_at_checked(self.split)?;
        if kept_name == name.as_bytes() && kept_tenant == tenant.as_str().as_bytes() {
            self.shard
        } else {
            None
        }
    }

    /// Keeps a stream and its shard in place of what it kept. Where memory runs out it keeps nothing.
    fn keep(&mut self, tenant: &Tenant, name: &str, shard: u32)
        ensures { IfSome self.new.shard (λ kept. (kept ≡ shard)
            × (tenant_in self.new ≡ tenant.now) × (name_in self.new ≡ name.now)) }
    {
        self.shard = None;
        self.text.clear();
        let written = self.text.push_str(tenant.as_str());
        self.split = self.text.len();
        if written.is_ok() && self.text.push_str(name).is_ok() {
            self.shard = Some(shard);
        }
    }
}
