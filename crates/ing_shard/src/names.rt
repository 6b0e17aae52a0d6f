//! The streams of a tenant by their names.
ghost use Rattle.std.specs.Prelude.{◌≡◌, ℕ, List, OnOk, OnErr, None, Some, bytes_eq, if◌then◌else◌};
ghost use Rattle.ing_labels.specs.Canonical.{canonical_of};
ghost use Rattle.ing_labels.specs.Labels.{IsLabelSet};
ghost use Rattle.ing_shard.specs.Names.{find_hashed, find_in, name_hash};

use ing_labels::Labels;
use std::alloc::{AllocError, Global};
use std::collections::BTreeMap;
use std::hash::{FoldHasher, Hasher};

/// A stream under its name, which its labels hold.
#[derive(Debug, Drop)]
pub struct Named {
    /// Its labels.
    pub labels: Labels,
    /// Its number.
    pub number: usize,
}

/// The numbers of a tenant's streams by their canonical names. A name is looked up by a 64-bit hash, and is
/// then compared once. A second name of the same hash goes to an ordered map, so that no choice of names
/// makes a look-up slower than this and one in that map. (Own.)
#[derive(Debug, Drop)]
pub struct StreamNames {
    /// One stream for each hash.
    pub by_hash: BTreeMap<u64, Named>,
    /// The number of each stream that came when another had the hash of its name.
    pub others: BTreeMap<String, usize>,
}

impl StreamNames {
    /// No name. Takes no memory. (Own.)
    #[tactic(auto, unfolding(crate::specs::Names::find_in))]
    pub fn new(alloc: Global) -> StreamNames
        ensures { (n : List ℕ) → find_in result n ≡ None }
    {
        StreamNames {
            by_hash: BTreeMap::new(alloc),
            others: BTreeMap::new(alloc),
        }
    }

    /// The number of the stream of this name. Takes no memory. (Own.)
    #[tactic(auto, unfolding(crate::specs::Names::find_in))]
    pub fn find(&self, name: &str) -> Option<usize>
        ensures { result ≡ find_in self.now name.now }
    {
        match self.find_hashed(name) {
            Some(number) => Some(number),
            None => self.others.get(name).copied(),
        }
    }

    /// The number of the stream of this name, where it is kept under the name's hash.
    fn find_hashed(&self, name: &str) -> Option<usize>
        ensures { result ≡ find_hashed self.now name.now }
    {
        let named = self.by_hash.get(&hash_of(name))?;
        if named.labels.name() == name {
            Some(named.number)
        } else {
            None
        }
    }

    /// Takes in a name that is not found. All or nothing: `AllocError` where there is no memory for it, and
    /// then each name is found as before. (Own.)
    #[tactic(auto, unfolding(crate::specs::Names::find_in))]
    pub fn insert(
        &mut self,
        alloc: Global,
        labels: &Labels,
        number: usize,
    ) -> Result<(), AllocError>
        requires { find_in self.old (canonical_of labels.now) ≡ None }
        ensures ok { OnOk result ((n : List ℕ) → find_in self.new n ≡
            (if bytes_eq (canonical_of labels.now) n then Some number else find_in self.old n)) }
        ensures err { OnErr result ((n : List ℕ) → find_in self.new n ≡ find_in self.old n) }
        // Each `Labels` is a stream's.
        ensures label_set { IsLabelSet labels.now }
    {
        let name = labels.name();
        let hash = hash_of(name);
        // What is there has another name: this one is not found.
        if self.by_hash.contains_key(&hash) {
            let other = String::from_str(alloc, name)?;
            self.others.insert(other, number)?;
            return Ok(());
        }
        let named = Named {
            labels: labels.clone()?,
            number,
        };
        self.by_hash.insert(hash, named)?;
        Ok(())
    }

    /// Takes a name out, if it is there. (Own.)
    pub fn remove(&mut self, name: &str)
        ensures { (n : List ℕ) → find_in self.new n ≡
            (if bytes_eq name.now n then None else find_in self.old n) }
    {
        // Under the hash there may be another name.
        if self.find_hashed(name).is_some() {
            self.by_hash.remove(&hash_of(name));
        }
        self.others.remove(name);
    }
}

/// The hash of a name by the standard library's fast hasher, which takes 16 bytes a step. It has no secret:
/// two names of one hash are told apart by comparison, so that it does no harm if such are easy to find.
fn hash_of(name: &str) -> u64
    ensures { result ≡ name_hash name.now }
{
    let mut hasher = FoldHasher::default();
    hasher.write(name.as_bytes());
    hasher.finish()
}
