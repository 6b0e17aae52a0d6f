//! A store in memory, and what lies in it.
ghost use Rattle.std.specs.Prelude.{◌≡◌, IfOk, IfSome, IsSome};
ghost use Rattle.std.specs.BTreeMap.{get_by_text};
ghost use Rattle.ing_store.specs.MemoryEnds.{new_end};
ghost use Rattle.ing_store.specs.StoredObjects.{stored_object};

use crate::memory_end::{Fuse, MemoryEnd};
use crate::store_end::Receipt;
use std::alloc::{AllocError, Global};
use std::collections::BTreeMap;
use std::collections::btree_map::Entry;
use std::marker::Model;
use std::sync::{Mutex, Wait};

/// Where the objects are, by name.
type Places = BTreeMap<String, usize>;

/// A store of objects in memory, which threads share through a `&`. An object that it has is never changed
/// and never moved. (Own.)
#[derive(Drop)]
pub struct MemoryStore {
    objects: boxcar::Vec<MemoryObject>,
    places: Mutex<Places>,
}

impl MemoryStore {
    /// A store without objects. `AllocError` where memory ran out.
    pub fn new(alloc: Global) -> Result<MemoryStore, AllocError> {
        Ok(MemoryStore {
            objects: boxcar::Vec::new(alloc)?,
            places: Mutex::new(BTreeMap::new(alloc)),
        })
    }

    /// An end of this store that was given no call, and of which these calls fail. It is honest, and its
    /// calls may wait. Takes no memory.
    pub fn end<'a, R: Wait>(&'a self, rt: &'a R, fuse: Fuse) -> MemoryEnd<'a, R>
        ensures { result ≡ new_end fuse }
    {
        MemoryEnd::of(rt, self, fuse)
    }

    /// An end of which the call of this number and each later one fail. Takes no memory.
    pub fn dead_end<'a, R: Wait>(&'a self, rt: &'a R, from: u64) -> MemoryEnd<'a, R>
        ensures { result ≡ new_end (Fuse.FailedFrom from) }
    {
        self.end(rt, Fuse::FailedFrom(from))
    }

    /// How many objects were written, those too whose names were written again since. No contract says what
    /// it is. Takes no memory.
    pub fn written(&self) -> usize {
        self.objects.count()
    }

    /// The object at the place that is listed for this name.
    fn listed(&self, places: &Places, name: &str) -> Option<&MemoryObject>
        ensures { IfSome result (λ o. o.now.name ≡ name.now) }
    {
        let place = *places.get(name)?;
        self.objects.get(place).filter(|o| o.name() == name)
    }

    /// The object of this name that was written last.
    pub(crate) fn object<R: Wait>(&self, rt: &R, name: &str) -> Option<&MemoryObject>
        ensures { IfSome result (λ o. o.now.name ≡ name.now) }
    {
        let places = self.places.lock(rt);
        self.listed(&places, name)
    }

    /// Writes an object, unless one of this name with these bytes is there. Where memory ran out, the
    /// store is as it was.
    pub(crate) fn write<R: Wait>(
        &self,
        rt: &R,
        alloc: Global,
        name: &str,
        bytes: &[u8],
    ) -> Result<&MemoryObject, AllocError>
        ensures { IfOk result (λ o. o.now ≡ stored_object name.now bytes.now) }
    {
        let mut places = self.places.lock(rt);
        if let Some(object) = self.listed(&places, name) {
            if object.bytes() == bytes {
                return Ok(object);
            }
        }
        self.write_new(rt, alloc, &mut places, name, bytes)
    }

    /// Writes an object and lists it. Where memory ran out, nothing is written, and what is listed
    /// stays. No contract says so: none sees how many objects there are, nor what a map holds once an
    /// entry of it was given up.
    fn write_new<R: Wait>(
        &self,
        rt: &R,
        alloc: Global,
        places: &mut Places,
        name: &str,
        bytes: &[u8],
    ) -> Result<&MemoryObject, AllocError>
        ensures object { IfOk result (λ o. o.now ≡ stored_object name.now bytes.now) }
        ensures listed { IfOk result (λ _. IsSome (get_by_text places.new name.now)) }
    {
        let key = String::from_str(alloc, name)?;
        let object = MemoryObject::of(alloc, name, bytes)?;
        // Room for the name comes first: an object that is pushed is listed without further memory.
        let entry = places.entry(key)?;
        let Ok(pushed) = self.objects.push_shown(rt, object) else {
            return Err(AllocError);
        };
        match entry {
            Entry::Occupied(mut listed) => {
                listed.insert(pushed.index());
            }
            Entry::Vacant(unlisted) => {
                unlisted.insert(pushed.index());
            }
        }
        Ok(self.objects.value(&pushed))
    }
}

/// An object of a store in memory. Contracts see its name and its bytes.
#[derive(Debug, Drop)]
pub struct MemoryObject {
    name: String,
    bytes: Vec<u8>,
}

impl Model for MemoryObject {
    ghost use Rattle.std.specs.Prelude.{string_bytes};
    ghost use Rattle.ing_store.specs.StoredObjects.{StoredObject, stored_object};

    ghost Value = { StoredObject };

    ghost view = { λ o. stored_object (string_bytes o.name) o.bytes.items };
}

impl MemoryObject {
    /// An object of this name with these bytes, both copied.
    pub(crate) fn of(alloc: Global, name: &str, bytes: &[u8]) -> Result<MemoryObject, AllocError>
        ensures { IfOk result (λ o. o ≡ stored_object name.now bytes.now) }
    {
        let name = String::from_str(alloc, name)?;
        let bytes = bytes.to_vec(alloc)?;
        Ok(MemoryObject { name, bytes })
    }

    /// Its name. Takes no memory.
    pub fn name(&self) -> &str
        ensures { result.now ≡ self.now.name }
    {
        self.name.as_str()
    }

    /// Its bytes. Takes no memory.
    pub fn bytes(&self) -> &[u8]
        ensures { result.now ≡ self.now.bytes }
    {
        &self.bytes
    }
}

/// What a store in memory gives for an object: the object, for as long as the store is lent (own).
#[derive(Clone, Copy, Debug)]
pub struct MemoryReceipt<'a> {
    /// The object.
    pub object: &'a MemoryObject,
}

impl<'a> Receipt for MemoryReceipt<'a> {
    ghost name = { λ r. r.object.now.name };

    ghost bytes = { λ r. r.object.now.bytes };
}
