//! Whole objects: their release, and the birth that they are kept with ([basic.stc], [expr.const]).

ghost use Rattle.std.specs.Prelude.{◌≡◌, ◌<◌, ◌≤◌, ◌^◌, length, option_map, Some, slice_get};
ghost use Rattle.cx_type_defs.specs.Tables.{Tables};
ghost use Rattle.cx_state.specs.Steps as steps;
ghost use Rattle.cx_state.specs.Counts as counts;
ghost use Rattle.cx_state.specs.Forms.{HoldsBelow};
ghost use Rattle.cx_store.specs.Stores as says;
ghost use Rattle.cx_store.specs.Stores.{Changed};
ghost use Rattle.cx_records.specs.Records.{objects_of, forms_in, path_in};
ghost use Rattle.cx_records.specs.Fits.{Fits, live_of};
ghost use Rattle.cx_records.specs.Writes.{IsGivenUp, cells_counted};

use crate::make::cells_live;
use crate::place::Place;
use crate::record::{Contents, Record};
use crate::store::Records;
use cx_base::Rule;
use cx_state::{Birth, Phase};
use cx_store::StoreMark;

impl Records {
    /// Ends the storage of an object.
    pub fn release_at(&mut self, at: Place) -> Result<(), Rule>
        requires present { says.IsPresent (objects_of self.old.records.items) (path_in (forms_in self.old.records.items) at) }
        ensures changed { Changed (steps.release (objects_of self.old.records.items) (path_in (forms_in self.old.records.items) at)) (objects_of self.old.records.items) (objects_of self.new.records.items) result }
        ensures paths { forms_in self.new.records.items ≡ forms_in self.old.records.items }
        ensures fit { (t : Tables) → Fits t self.old.records.items self.old.live → Fits t self.new.records.items self.new.live }
    {
        if self.record(at).released {
            return Err(Rule::Dangling);
        }
        self.give_up(at);
        Ok(())
    }

    fn give_up(&mut self, at: Place)
        requires { at.object < length self.old.records.items }
        ensures given { IsGivenUp self.old.records.items self.old.live self.new.records.items self.new.live at.object }
    {
        let cells = cells_counted(self.record(at));
        let record = &mut self.records[at.object as usize];
        record.released = true;
        record.contents = Contents::Same(Phase::Ended);
        self.live = self.live.saturating_sub(cells);
    }

    /// Gives an object that was made here the birth that it is kept with.
    pub fn settle_at(&mut self, at: Place, birth: Birth)
        requires present { says.IsPresent (objects_of self.old.records.items) (path_in (forms_in self.old.records.items) at) }
        requires here { says.IsHereAt (objects_of self.old.records.items) (path_in (forms_in self.old.records.items) at) }
        ensures changed { objects_of self.new.records.items ≡ steps.settle (objects_of self.old.records.items) (path_in (forms_in self.old.records.items) at) birth }
        ensures paths { forms_in self.new.records.items ≡ forms_in self.old.records.items }
        ensures fit { (t : Tables) → Fits t self.old.records.items self.old.live → Fits t self.new.records.items self.new.live }
    {
        let record = &mut self.records[at.object as usize];
        record.birth = birth;
    }

    /// Takes away the objects with numbers from the mark's on.
    pub fn cut_at(&mut self, mark: StoreMark)
        requires within { mark.objects ≤ length (objects_of self.old.records.items) }
        requires free { HoldsBelow (objects_of self.old.records.items) mark.objects }
        ensures cut { objects_of self.new.records.items ≡ steps.cut (objects_of self.old.records.items) mark.objects }
        ensures paths { says.PathsBelow mark.objects (path_in (forms_in self.old.records.items)) (path_in (forms_in self.new.records.items)) }
        ensures fit { (t : Tables) → Fits t self.old.records.items self.old.live → Fits t self.new.records.items self.new.live }
    {
        let most = self.live;
        self.records.truncate(mark.objects as usize);
        self.live = total_live(&self.records, most);
    }

    /// The cells of all counted objects that aren't released.
    pub fn cells_live(&self) -> u32
        ensures { (t : Tables) → Fits t self.now.records.items self.now.live → result ≡ counts.live_cells t (objects_of self.now.records.items) }
    {
        self.live
    }
}

fn cells_counted(kept: &Record) -> u32
    ensures { result ≡ cells_counted kept.now }
{
    if kept.counted { kept.cells } else { 0 }
}

/// The cells of the records that count, where they are no more than `most`.
fn total_live(records: &[Record], most: u32) -> u32
    ensures { live_of records.now ≤ most → result ≡ live_of records.now }
{
    let mut total: u64 = 0;
    for kept in records {
        total = (total + u64::from(cells_live(kept))).min(u64::from(most));
    }
    total as u32
}
