//! Steps from a place to its parts.

ghost use Rattle.std.specs.Prelude.{◌≡◌, ℕ, ◌+◌, ◌*◌, ◌^◌, ◌<◌, ◌≤◌, false, List, length, slice_get, Some};
ghost use Rattle.cx_layout.specs.Places.{Leads, HasStep, place_of};
ghost use Rattle.cx_layout.specs.Described.{IsTable, columns_form};
ghost use Rattle.cx_layout.specs.Stepping.{PartRoom, IsPartAt, ElementRoom, IsElementAt, LeadsOn, has_step};

use crate::columns::{Columns, Kind, Node};
use crate::place::Place;
use cx_types::Step;

impl Columns {
    /// A node.
    pub fn node(&self, n: u32) -> Node
        requires { n < length self.now.nodes.items }
        ensures { slice_get self.now.nodes.items n ≡ Some result }
    {
        self.nodes[n as usize]
    }

    /// A base or a member that is listed at `index` behind `from`.
    fn part(&self, at: Place, from: u32, index: u32) -> Place
        requires { PartRoom self.now.nodes.items self.now.parts.items at from index }
        ensures { IsPartAt self.now.nodes.items self.now.parts.items at from index result }
    {
        let node = self.parts[from as usize + index as usize];
        Place {
            block: at.block,
            slot: at.slot + self.node(node).under.offset,
            node,
            past: false,
        }
    }

    /// An element, or the place past the last one.
    fn element(&self, at: Place, kind: Kind, index: u32) -> Place
        requires { ElementRoom self.now.nodes.items at index }
        ensures { IsElementAt self.now.nodes.items at kind index result }
    {
        let node = at.node + 1;
        Place {
            block: at.block,
            slot: at.slot + index * self.node(node).cells,
            node,
            past: match kind {
                Kind::Array(count) => index == count,
                _ => false,
            },
        }
    }

    /// The place one step on. It takes the same time whatever the siblings, the elements and the nodes before it.
    pub(crate) fn step(&self, at: Place, step: Step) -> Place
        requires table { IsTable self.now }
        requires here { at.past ≡ false }
        requires step { HasStep (columns_form self.now) at step }
        ensures { LeadsOn (columns_form self.now) at step result }
    {
        let row = self.node(at.node);
        match step {
            Step::Base(index) => self.part(at, row.bases_from, index),
            Step::Field(index) => self.part(at, row.members_from, index),
            Step::Elem(index) => self.element(at, row.kind, index),
        }
    }

    /// The place at the end of steps: none exactly where they don't fit.
    pub(crate) fn place_of(&self, block: u32, steps: &[Step]) -> Option<Place>
        requires { IsTable self.now }
        ensures { result ≡ place_of (columns_form self.now) block steps.now }
    {
        let mut at = Place {
            block,
            slot: 0,
            node: 0,
            past: false,
        };
        for i in 0..steps.len() {
            let step = steps[i];
            if at.past || !self.node(at.node).kind.has_step(step) {
                return None;
            }
            at = self.step(at, step);
        }
        Some(at)
    }
}

impl Kind {
    /// Whether one can step so from there; the place past the last element of an array is among them.
    fn has_step(self, step: Step) -> bool
        ensures { result ≡ has_step self step }
    {
        match (self, step) {
            (Kind::Array(count), Step::Elem(index)) => index <= count,
            (Kind::Class(parts), Step::Base(index)) => index < parts.bases,
            (Kind::Class(parts), Step::Field(index)) => index < parts.members,
            _ => false,
        }
    }
}
