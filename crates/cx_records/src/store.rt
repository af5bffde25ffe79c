ghost use Rattle.std.specs.Prelude.{◌≡◌, ◌<◌, ◌^◌, [], length, slice_get, IfOk};
ghost use Rattle.cx_type_defs.specs.Tables.{Tables};
ghost use Rattle.cx_records.specs.Fits.{Fits};
ghost use Rattle.cx_store.specs.Stores.{IsPresent, Tells};
ghost use Rattle.cx_records.specs.Records.{objects_of, forms_in, path_in};

use crate::place::{End, Place};
use crate::record::Record;
use cx_base::Memory;
use cx_store::{RootView, StoreMark};
use std::alloc::Global;

/// Objects as records, each at its number. An object of 2^62 parts and more is refused as `Memory`.
#[derive(Drop)]
pub struct Records {
    pub alloc: Global,
    pub records: Vec<Record>,
    /// The cells of the records that count.
    pub live: u32,
    ghost few: { length records.items < 2 ^ 32 },
}

impl Records {
    /// No objects.
    pub fn new(alloc: Global) -> Result<Records, Memory>
        ensures none { IfOk result (λ s. objects_of s.records.items ≡ []) }
        ensures fit { IfOk result (λ s. (t : Tables) → Fits t s.records.items s.live) }
    {
        Ok(Records {
            alloc,
            records: Vec::new(alloc),
            live: 0,
        })
    }

    /// The record of the object that a place is in.
    pub fn record(&self, at: Place) -> &Record
        requires { at.object < length self.now.records.items }
        ensures { slice_get self.now.records.items at.object ≡ Some result.now }
    {
        &self.records[at.object as usize]
    }

    /// The object that a place is in.
    pub fn root_at(&self, at: Place) -> RootView<Place>
        requires { IsPresent (objects_of self.now.records.items) (path_in (forms_in self.now.records.items) at) }
        ensures { Tells (objects_of self.now.records.items) (path_in (forms_in self.now.records.items)) at result }
    {
        let record = self.record(at);
        RootView {
            place: Place {
                object: at.object,
                part: 0,
                end: End::At,
            },
            number: at.object,
            kind: record.kind,
            birth: record.birth,
            released: record.released,
            length: record.count,
            past: at.end != End::At,
        }
    }

    /// How many numbers were drawn.
    pub fn drawn(&self) -> StoreMark
        ensures { result.objects ≡ length (objects_of self.now.records.items) }
    {
        StoreMark {
            objects: self.records.len() as u32,
        }
    }
}
