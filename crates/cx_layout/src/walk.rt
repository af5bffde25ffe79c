//! From places to the steps that lead to them.

ghost use Rattle.std.specs.Prelude.{◌≡◌, IfOk, length, ◌<◌};
ghost use Rattle.cx_layout.specs.Places.{IsPlace, Leads};
ghost use Rattle.cx_layout.specs.Described.{IsTable, columns_form};
ghost use Rattle.cx_layout.specs.Walks.{IsIn, Walks, count_of, is_past_elements};

use crate::columns::{Columns, Kind, Node};
use crate::place::Place;
use cx_base::{List, Memory};
use cx_types::Step;
use std::alloc::Global;

impl Columns {
    /// Writes the steps to the part of a node in which a cell lies, and gives the part's first cell. It takes time and
    /// native stack by the depth of the node.
    fn write_steps(&self, node: u32, slot: u32, steps: &mut List<Step>) -> Result<u32, Memory>
        requires { IsIn self.now.nodes.items self.now.parts.items (columns_form self.now) node slot }
        ensures { IfOk result (λ start. Walks (columns_form self.now) node slot start steps.old steps.new) }
    {
        if node == 0 {
            return Ok(0);
        }
        let row = self.node(node);
        let start = self.write_steps(row.under.parent, slot, steps)?;
        match row.under.step {
            Step::Elem(_) => {
                let index = (slot - start) / row.cells;
                steps.push(Step::Elem(index))?;
                Ok(start + index * row.cells)
            }
            step => {
                steps.push(step)?;
                Ok(start + row.under.offset)
            }
        }
    }

    /// The steps to a place, with the array's length as the last one for the place past its last element. It takes time
    /// and native stack by the depth of the node.
    pub(crate) fn path(&self, alloc: Global, at: Place) -> Result<List<Step>, Memory>
        requires table { IsTable self.now }
        requires place { IsPlace (columns_form self.now) at }
        ensures { IfOk result (λ ss. Leads (columns_form self.now) ss at) }
    {
        let mut steps = List::new(alloc);
        let row = self.node(at.node);
        if row.is_past_elements(at) {
            let count = self.node(row.under.parent).count();
            self.write_steps(row.under.parent, at.slot - count * row.cells, &mut steps)?;
            steps.push(Step::Elem(count))?;
            return Ok(steps);
        }
        self.write_steps(at.node, at.slot, &mut steps)?;
        Ok(steps)
    }
}

impl Node {
    /// Whether a place at this node is the one past the last element of an array.
    fn is_past_elements(&self, at: Place) -> bool
        ensures { result ≡ is_past_elements self.now at }
    {
        at.past
            && at.node > 0
            && match self.under.step {
                Step::Elem(_) => true,
                _ => false,
            }
    }

    /// How many elements it has.
    fn count(&self) -> u32
        ensures { result ≡ count_of self.now.kind }
    {
        match self.kind {
            Kind::Array(count) => count,
            _ => 0,
        }
    }
}
