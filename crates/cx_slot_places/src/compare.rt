//! Comparing places of one object ([expr.eq], [expr.rel]).

ghost use Rattle.std.specs.Prelude.{◌≡◌, ℕ, false, List, nat_lt};
ghost use Rattle.cx_type_defs.specs.declared.ids.Step.{Step as StepOf};
ghost use Rattle.cx_layout.specs.Described.{IsTable, columns_form};
ghost use Rattle.cx_layout.specs.Places.{IsPlace, Leads};
ghost use Rattle.cx_slot_places.specs.Pointers.{are_in_union, comes_before, equal_of, less_of, path_to};
ghost use Rattle.cx_slot_places.specs.Walks.{seen};

use crate::meet::{Fork, Meeting, part_ways};
use crate::seat::{same_seat, seat_at};
use cx_base::Rule;
use cx_layout::{Columns, Place};
use cx_types::Step;

/// Whether the first of two parts comes before the other: elements of an array by index, members of a class that isn't a
/// union by declaration.
fn comes_before(fork: Fork) -> Option<bool>
    ensures { result ≡ comes_before (seen fork) }
{
    match (fork.left, fork.right, fork.in_union) {
        (Step::Elem(i), Step::Elem(j), _) => Some(i < j),
        (Step::Field(i), Step::Field(j), false) => Some(i < j),
        _ => None,
    }
}

/// Whether two parts are in two members of one union.
fn are_in_union(fork: Fork) -> bool
    ensures { result ≡ are_in_union (seen fork) }
{
    match (fork.left, fork.right) {
        (Step::Field(_), Step::Field(_)) => fork.in_union,
        _ => false,
    }
}

/// Whether two places of one object are one ([expr.eq]). It takes time and native stack by their depth.
pub fn equal_at(columns: &Columns, a: Place, b: Place) -> Result<bool, Rule>
    requires table { IsTable columns.now }
    requires place { IsPlace (columns_form columns.now) a }
    requires other { IsPlace (columns_form columns.now) b }
    requires one { a.block ≡ b.block }
    ensures { (ss us : List StepOf) → Leads (columns_form columns.now) ss a → Leads (columns_form columns.now) us b → result ≡ equal_of (columns_form columns.now) (path_to a ss) (path_to b us) }
{
    let x = seat_at(columns, a);
    let y = seat_at(columns, b);
    if same_seat(x, y) {
        return Ok(x.index == y.index);
    }
    if a.past || b.past {
        return Err(Rule::UnspecifiedCompare);
    }
    match part_ways(columns, a.node, a.slot, b.node, b.slot) {
        Meeting::Same(_) => Ok(true),
        Meeting::Inner(_) => Err(Rule::UnspecifiedCompare),
        Meeting::Outer(_) => Err(Rule::UnspecifiedCompare),
        Meeting::Apart(fork) => {
            if are_in_union(fork) {
                return Err(Rule::UnspecifiedCompare);
            }
            Ok(false)
        }
    }
}

/// Whether one place of an object comes before another of it ([expr.rel]). It takes time and native stack by their depth.
pub fn less_at(columns: &Columns, a: Place, b: Place) -> Result<bool, Rule>
    requires table { IsTable columns.now }
    requires place { IsPlace (columns_form columns.now) a }
    requires other { IsPlace (columns_form columns.now) b }
    requires one { a.block ≡ b.block }
    ensures { (ss us : List StepOf) → Leads (columns_form columns.now) ss a → Leads (columns_form columns.now) us b → result ≡ less_of (columns_form columns.now) (path_to a ss) (path_to b us) }
{
    let x = seat_at(columns, a);
    let y = seat_at(columns, b);
    if same_seat(x, y) {
        return Ok(x.index < y.index);
    }
    if a.past || b.past {
        return Err(Rule::UnspecifiedCompare);
    }
    match part_ways(columns, a.node, a.slot, b.node, b.slot) {
        Meeting::Apart(fork) => match comes_before(fork) {
            Some(answer) => Ok(answer),
            None => Err(Rule::UnspecifiedCompare),
        },
        _ => Err(Rule::UnspecifiedCompare),
    }
}
