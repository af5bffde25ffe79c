//! One call of a case on a store.
ghost use Rattle.cx_store_cases.specs.Seats.{IsSeat, Stands};

use crate::change::change;
use crate::make::{cut_at, make_at};
use crate::reach::reach;
use crate::sample::Sample;
use crate::seat::{Desk, Seat};
use crate::stop::Stop;
use crate::tell::{path_text, tell};
use crate::words::{name, number, word};
use cx_base::Limits;
use cx_store::Store;
use cx_types::Types;
use std::alloc::Global;

/// The name for a new place, which no other has.
fn new_name<P: Copy + Drop>(desk: &Desk<P>, text: &str) -> Result<u8, Stop> {
    let name = name(text)?;
    for seat in &desk.seats {
        if seat.name == name {
            return Err(Stop::NotAsked);
        }
    }
    Ok(name)
}

/// Keeps a place under its name, and tells it.
fn given<S: Store>(
    alloc: Global,
    store: &S,
    types: &Types,
    desk: &mut Desk<S::Place>,
    seat: Seat<S::Place>,
) -> Result<String, Stop>
    requires stands { Stands (S.fits store.now types.now) types.now (S.objects store.now) (S.path store.now) desk.old }
    requires seat { IsSeat types.now (S.objects store.now) (S.path store.now) seat }
    ensures { Stands (S.fits store.now types.now) types.now (S.objects store.now) (S.path store.now) desk.new }
{
    if desk.seats.push(seat).is_err() {
        return Err(Stop::Memory);
    }
    path_text(alloc, store, types, seat.place)
}

fn limited(limits: Limits, words: &[&str]) -> Result<Limits, Stop> {
    Ok(Limits {
        objects: number(word(words, 1))?,
        cells: number(word(words, 2))?,
        ..limits
    })
}

fn made<S: Store>(
    alloc: Global,
    sample: &Sample,
    store: &mut S,
    desk: &mut Desk<S::Place>,
    words: &[&str],
) -> Result<String, Stop>
    requires { Stands (S.fits store.old sample.now.types) sample.now.types (S.objects store.old) (S.path store.old) desk.old }
    ensures { Stands (S.fits store.new sample.now.types) sample.now.types (S.objects store.new) (S.path store.new) desk.new }
{
    let name = new_name(desk, word(words, 1))?;
    let seat = make_at(sample, store, desk, name, words)?;
    given(alloc, store, &sample.types, desk, seat)
}

fn reached<S: Store>(
    alloc: Global,
    sample: &Sample,
    store: &S,
    desk: &mut Desk<S::Place>,
    words: &[&str],
) -> Result<String, Stop>
    requires { Stands (S.fits store.now sample.now.types) sample.now.types (S.objects store.now) (S.path store.now) desk.old }
    ensures { Stands (S.fits store.now sample.now.types) sample.now.types (S.objects store.now) (S.path store.now) desk.new }
{
    let name = new_name(desk, word(words, 1))?;
    let seat = reach(sample, store, desk, name, words)?;
    given(alloc, store, &sample.types, desk, seat)
}

/// The answer to one call.
pub(crate) fn ask<S: Store>(
    alloc: Global,
    sample: &Sample,
    store: &mut S,
    desk: &mut Desk<S::Place>,
    words: &[&str],
) -> Result<String, Stop>
    requires { Stands (S.fits store.old sample.now.types) sample.now.types (S.objects store.old) (S.path store.old) desk.old }
    ensures { Stands (S.fits store.new sample.now.types) sample.now.types (S.objects store.new) (S.path store.new) desk.new }
{
    match word(words, 0) {
        "make" => return made(alloc, sample, store, desk, words),
        "field" | "base" | "elem" | "add" | "follow" | "outer" => {
            return reached(alloc, sample, store, desk, words);
        }
        "cut" => cut_at(alloc, store, &sample.types, desk, word(words, 1))?,
        "limits" => desk.limits = limited(desk.limits, words)?,
        "init" | "store" | "advance" | "activate" | "deactivate" | "release" | "settle" => {
            change(store, &sample.types, desk, words)?;
        }
        _ => return tell(alloc, sample, store, desk, words),
    }
    Ok(String::from_str(alloc, "ok")?)
}
