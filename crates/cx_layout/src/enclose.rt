//! What encloses a part.

ghost use Rattle.std.specs.Prelude.{◌≡◌, false};
ghost use Rattle.cx_layout.specs.Places.{IsPlace};
ghost use Rattle.cx_layout.specs.Described.{IsTable, columns_form};
ghost use Rattle.cx_layout.specs.Walks.{Encloses, kind_is};

use crate::columns::{Columns, Kind, Node};
use crate::place::Place;
use cx_types::{ClassId, Step};

impl Columns {
    /// The place of the nearest object of the class among the one at the place and those that it is a base of. It takes
    /// time by how many of them there are.
    pub(crate) fn outer(&self, at: Place, class: ClassId) -> Option<Place>
        requires table { IsTable self.now }
        requires here { at.past ≡ false }
        requires place { IsPlace (columns_form self.now) at }
        ensures { Encloses (columns_form self.now) at class result }
    {
        let row = self.node(at.node);
        if row.is_class(class) {
            return Some(at);
        }
        if at.node == 0 {
            return None;
        }
        match row.under.step {
            Step::Base(_) => {
                let outer = Place {
                    block: at.block,
                    slot: at.slot - row.under.offset,
                    node: row.under.parent,
                    past: false,
                };
                self.outer(outer, class)
            }
            _ => None,
        }
    }
}

impl Node {
    fn is_class(&self, class: ClassId) -> bool
        ensures { result ≡ kind_is class self.now.kind }
    {
        match self.kind {
            Kind::Class(parts) => parts.class.0 == class.0,
            _ => false,
        }
    }
}
