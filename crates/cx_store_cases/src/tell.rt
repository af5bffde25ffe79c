//! What calls answer, as text.
ghost use Rattle.cx_state.specs.Forms.{Knows, KnowsIn};
ghost use Rattle.cx_store.specs.Stores.{seen};
ghost use Rattle.cx_store_cases.specs.Seats.{IsSeat, Stands};

use crate::parts::{plain_class, union_of};
use crate::reach::load_at;
use crate::sample::Sample;
use crate::seat::{Desk, Seat, find};
use crate::stop::Stop;
use crate::words::{number, word};
use cx_base::{Rule, rule_tag};
use cx_store::{Birth, Kind, Scalar, Store};
use cx_types::{Step, Types};
use std::alloc::Global;

/// The rule's word.
pub(crate) fn rule_word(rule: Rule) -> &'static str {
    match rule_tag(rule).split_once(' ') {
        Some((_, word)) => word,
        None => "no rule",
    }
}

fn kind_word(kind: Kind) -> &'static str {
    match kind {
        Kind::Static => "static",
        Kind::Auto => "auto",
        Kind::Temp => "temp",
        Kind::Heap => "heap",
        Kind::HeapArray => "array",
        Kind::Literal => "literal",
    }
}

fn birth_word(birth: Birth) -> &'static str {
    match birth {
        Birth::Here => "here",
        Birth::Usable => "usable",
        Birth::Opaque => "opaque",
    }
}

fn step_text(alloc: Global, step: Step) -> Result<String, Stop> {
    let text = match step {
        Step::Base(i) => format!(in alloc; "b{i}"),
        Step::Field(i) => format!(in alloc; "f{i}"),
        Step::Elem(i) => format!(in alloc; "e{i}"),
    };
    Ok(text?)
}

/// A place: its object's number, its steps, and a mark where it is past an end.
pub(crate) fn path_text<S: Store>(
    alloc: Global,
    store: &S,
    types: &Types,
    at: S::Place,
) -> Result<String, Stop>
    requires fits { S.fits store.now types.now }
    requires known { Knows types.now (S.objects store.now) (S.path store.now at) }
{
    let view = store.root(at);
    let number = view.number;
    let mut text = format!(in alloc; "{number}")?;
    for k in 0..1000 {
        match store.step(types, at, k) {
            Some(step) => {
                let step = step_text(alloc, step)?;
                text.push_str(".")?;
                text.push_str(step.as_str())?;
            }
            None => {
                if view.past {
                    text.push_str("+")?;
                }
                return Ok(text);
            }
        }
    }
    Err(Stop::NotAsked)
}

fn value_text<S: Store>(
    alloc: Global,
    store: &S,
    types: &Types,
    value: Scalar<S::Place>,
) -> Result<String, Stop>
    requires fits { S.fits store.now types.now }
    requires known { KnowsIn types.now (S.objects store.now) (seen (S.path store.now) value) }
{
    match value {
        Scalar::Int(int) => {
            let number = int.value;
            Ok(format!(in alloc; "{number}")?)
        }
        Scalar::Null => Ok(String::from_str(alloc, "null")?),
        Scalar::Place(place) => {
            let path = path_text(alloc, store, types, place)?;
            Ok(format!(in alloc; "&{path}")?)
        }
        Scalar::Indeterminate => Ok(String::from_str(alloc, "indeterminate")?),
    }
}

/// What is told of the object that a place is in.
fn root_text<S: Store>(
    alloc: Global,
    store: &S,
    types: &Types,
    at: Seat<S::Place>,
) -> Result<String, Stop>
    requires fits { S.fits store.now types.now }
    requires seat { IsSeat types.now (S.objects store.now) (S.path store.now) at }
{
    let view = store.root(at.place);
    let place = path_text(alloc, store, types, view.place)?;
    let number = view.number;
    let kind = kind_word(view.kind);
    let birth = birth_word(view.birth);
    let released = if view.released { " released" } else { "" };
    let past = if view.past { " past" } else { "" };
    let text = match view.length {
        Some(n) => format!(in alloc; "{number} {kind} {birth}{released} x{n}{past} at {place}"),
        None => format!(in alloc; "{number} {kind} {birth}{released}{past} at {place}"),
    };
    Ok(text?)
}

/// The class that decides what a virtual call reaches, and its object.
fn dynamic_text<S: Store>(
    alloc: Global,
    sample: &Sample,
    store: &S,
    at: Seat<S::Place>,
) -> Result<String, Stop>
    requires fits { S.fits store.now sample.now.types }
    requires seat { IsSeat sample.now.types (S.objects store.now) (S.path store.now) at }
{
    plain_class(store, &sample.types, at)?;
    match store.dynamic_class(&sample.types, at.place) {
        Ok((class, place)) => {
            let path = path_text(alloc, store, &sample.types, place)?;
            let word = sample.class_word(class);
            Ok(format!(in alloc; "{word} {path}")?)
        }
        Err(rule) => Err(Stop::Rule(rule)),
    }
}

/// How two places compare.
fn compared<S: Store>(
    alloc: Global,
    store: &S,
    types: &Types,
    verb: &str,
    a: Seat<S::Place>,
    b: Seat<S::Place>,
) -> Result<String, Stop>
    requires fits { S.fits store.now types.now }
    requires left { IsSeat types.now (S.objects store.now) (S.path store.now) a }
    requires right { IsSeat types.now (S.objects store.now) (S.path store.now) b }
{
    let told = match verb {
        "distance" => match store.distance(types, a.place, b.place) {
            Ok(number) => return Ok(format!(in alloc; "{number}")?),
            Err(rule) => Err(rule),
        },
        "equal" => store.equal(types, a.place, b.place),
        "less" => store.less(types, a.place, b.place),
        _ => return Err(Stop::NotAsked),
    };
    match told {
        Ok(holds) => Ok(format!(in alloc; "{holds}")?),
        Err(rule) => Err(Stop::Rule(rule)),
    }
}

/// The active member at a place.
fn active_text<S: Store>(
    alloc: Global,
    store: &S,
    types: &Types,
    at: Seat<S::Place>,
) -> Result<String, Stop>
    requires fits { S.fits store.now types.now }
    requires seat { IsSeat types.now (S.objects store.now) (S.path store.now) at }
{
    union_of(store, types, at)?;
    match store.active(types, at.place) {
        Ok(Some(member)) => Ok(format!(in alloc; "{member}")?),
        Ok(None) => Ok(String::from_str(alloc, "none")?),
        Err(rule) => Err(Stop::Rule(rule)),
    }
}

/// A call that only tells: `VERB PLACE ..`, or `cells` and `mark`, which tell of all objects.
pub(crate) fn tell<S: Store>(
    alloc: Global,
    sample: &Sample,
    store: &S,
    desk: &Desk<S::Place>,
    words: &[&str],
) -> Result<String, Stop>
    requires { Stands (S.fits store.now sample.now.types) sample.now.types (S.objects store.now) (S.path store.now) desk.now }
{
    let types = &sample.types;
    let verb = word(words, 0);
    if verb == "cells" || verb == "mark" {
        let count = if verb == "cells" {
            store.live_cells()
        } else {
            store.mark().objects
        };
        return Ok(format!(in alloc; "{count}")?);
    }
    let at = find(store, types, desk, word(words, 1))?;
    match verb {
        "root" => root_text(alloc, store, types, at),
        "step" => match store.step(types, at.place, number(word(words, 2))?) {
            Some(step) => step_text(alloc, step),
            None => Ok(String::from_str(alloc, "none")?),
        },
        "load" => {
            let value = load_at(store, types, at)?;
            value_text(alloc, store, types, value)
        }
        "active" => active_text(alloc, store, types, at),
        "call" => match store.call_on(types, at.place) {
            Ok(()) => Ok(String::from_str(alloc, "ok")?),
            Err(rule) => Err(Stop::Rule(rule)),
        },
        "dynamic" => dynamic_text(alloc, sample, store, at),
        _ => {
            let other = find(store, types, desk, word(words, 2))?;
            compared(alloc, store, types, verb, at, other)
        }
    }
}
