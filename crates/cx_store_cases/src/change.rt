//! The calls that change what is at a place.
ghost use Rattle.cx_store_cases.specs.Seats.{IsSeat, Stands};

use crate::parts::{field_kind, plain_class, union_of};
use crate::seat::{Desk, Seat, find};
use crate::stop::{Stop, done};
use crate::value::{mark_for, value_of};
use crate::words::{BIRTHS, PHASES, choice, number, word};
use cx_store::{Birth, Store};
use cx_types::Types;

/// Gives a scalar or reference its first value, or another one.
fn write<S: Store>(
    store: &mut S,
    types: &Types,
    desk: &mut Desk<S::Place>,
    at: Seat<S::Place>,
    words: &[&str],
) -> Result<(), Stop>
    requires stands { Stands (S.fits store.old types.now) types.now (S.objects store.old) (S.path store.old) desk.old }
    requires seat { IsSeat types.now (S.objects store.old) (S.path store.old) at }
    ensures { Stands (S.fits store.new types.now) types.now (S.objects store.new) (S.path store.new) desk.new }
{
    let value = value_of(store, types, desk, at, word(words, 2))?;
    let mark = mark_for(store, types, at, value, desk.safe)?;
    desk.safe = mark;
    match word(words, 0) {
        "init" => done(store.init(types, at.place, value)),
        _ => done(store.store(types, at.place, value)),
    }
}

/// Makes a member of a union the active one.
fn activate<S: Store>(
    store: &mut S,
    types: &Types,
    desk: &Desk<S::Place>,
    at: Seat<S::Place>,
    words: &[&str],
) -> Result<(), Stop>
    requires stands { Stands (S.fits store.old types.now) types.now (S.objects store.old) (S.path store.old) desk.now }
    requires seat { IsSeat types.now (S.objects store.old) (S.path store.old) at }
    ensures { Stands (S.fits store.new types.now) types.now (S.objects store.new) (S.path store.new) desk.now }
{
    let member = number(word(words, 2))?;
    let alive = word(words, 3) == "alive";
    union_of(store, types, at)?;
    field_kind(store, types, at, member)?;
    done(store.activate(types, at.place, member, alive))
}

/// A call that changes what is at a place: `VERB PLACE ..`.
pub(crate) fn change<S: Store>(
    store: &mut S,
    types: &Types,
    desk: &mut Desk<S::Place>,
    words: &[&str],
) -> Result<(), Stop>
    requires { Stands (S.fits store.old types.now) types.now (S.objects store.old) (S.path store.old) desk.old }
    ensures { Stands (S.fits store.new types.now) types.now (S.objects store.new) (S.path store.new) desk.new }
{
    let at = find(store, types, desk, word(words, 1))?;
    match word(words, 0) {
        "advance" => {
            let phase = choice(&PHASES, word(words, 2))?;
            plain_class(store, types, at)?;
            done(store.advance(types, at.place, phase))
        }
        "activate" => activate(store, types, desk, at, words),
        "deactivate" => {
            union_of(store, types, at)?;
            done(store.deactivate(types, at.place))
        }
        "release" => done(store.release(at.place)),
        "settle" => {
            let birth = choice(&BIRTHS, word(words, 2))?;
            match store.root(at.place).birth {
                Birth::Here => {
                    store.settle(at.place, birth);
                    Ok(())
                }
                _ => Err(Stop::NotAsked),
            }
        }
        _ => write(store, types, desk, at, words),
    }
}
