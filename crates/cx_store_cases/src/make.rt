//! Making objects and cutting them off.
ghost use Rattle.std.specs.Prelude.{◌≡◌, ◌<◌, true, length, [], IfOk};
ghost use Rattle.cx_store.specs.Stores.{IsWhole};
ghost use Rattle.cx_store_cases.specs.Seats.{IsSeat, AreSeats, Stands, AreKept, IsWholeKind};

use crate::sample::Sample;
use crate::seat::{Desk, Seat};
use crate::stop::Stop;
use crate::words::{BIRTHS, KINDS, choice, number, word};
use cx_store::{Birth, Kind, Store, StoreAnswer, StoreMark};
use cx_types::{TypeId, TypeKind, Types};
use std::alloc::Global;

/// What is made of a type.
#[derive(Clone, Copy)]
struct Making {
    count: Option<u32>,
    kind: Kind,
    konst: bool,
    birth: Birth,
}

/// What is made with one more word: a kind, a length as `x3`, `const` or a birth.
fn with_word(made: Making, text: &str) -> Result<Making, Stop> {
    if let Ok(kind) = choice(&KINDS, text) {
        return Ok(Making { kind, ..made });
    }
    if let Some(count) = text.strip_prefix('x') {
        return Ok(Making {
            count: Some(number(count)?),
            kind: Kind::HeapArray,
            ..made
        });
    }
    if text == "const" {
        return Ok(Making {
            konst: true,
            ..made
        });
    }
    Ok(Making {
        birth: choice(&BIRTHS, text)?,
        ..made
    })
}

fn made_of(words: &[&str]) -> Result<Making, Stop> {
    let mut made = Making {
        count: None,
        kind: Kind::Auto,
        konst: false,
        birth: Birth::Here,
    };
    for text in words.iter().skip(3) {
        made = with_word(made, text)?;
    }
    Ok(made)
}

/// Whether the type is complete, and so many of it have no more than 2^30 cells.
fn is_whole(types: &Types, ty: TypeId, count: Option<u32>) -> bool
    requires { ty.0 < length types.now.rows }
    ensures { result ≡ true → IsWhole types.now ty count }
{
    match types.cells(ty) {
        Ok(cells) => u64::from(count.unwrap_or(1)) * u64::from(cells) <= 1_073_741_824,
        Err(_) => false,
    }
}

/// The form of the whole object.
fn whole_kind(types: &Types, ty: TypeId, count: Option<u32>) -> TypeKind
    requires { ty.0 < length types.now.rows }
    ensures { IsWholeKind types.now ty count result }
{
    match count {
        Some(many) => TypeKind::Array(ty, many),
        None => types.row(ty).kind,
    }
}

/// The place of a new object.
pub(crate) fn make_at<S: Store>(
    sample: &Sample,
    store: &mut S,
    desk: &Desk<S::Place>,
    name: u8,
    words: &[&str],
) -> Result<Seat<S::Place>, Stop>
    requires { Stands (S.fits store.old sample.now.types) sample.now.types (S.objects store.old) (S.path store.old) desk.now }
    ensures stands { Stands (S.fits store.new sample.now.types) sample.now.types (S.objects store.new) (S.path store.new) desk.now }
    ensures seat { IfOk result (λ s. IsSeat sample.now.types (S.objects store.new) (S.path store.new) s) }
{
    let types = &sample.types;
    let ty = sample.named(word(words, 2))?;
    let made = made_of(words)?;
    if !is_whole(types, ty, made.count) {
        return Err(Stop::NotAsked);
    }
    let kind = whole_kind(types, ty, made.count);
    match store.make(
        types,
        ty,
        made.count,
        made.kind,
        made.konst,
        made.birth,
        &desk.limits,
    ) {
        Ok(place) => Ok(Seat {
            name,
            place,
            kind: Some(kind),
        }),
        Err(StoreAnswer::Rule(rule)) => Err(Stop::Rule(rule)),
        Err(StoreAnswer::Memory) => Err(Stop::Memory),
    }
}

fn keep<S: Store>(
    store: &S,
    types: &Types,
    kept: &mut Vec<Seat<S::Place>>,
    seat: Seat<S::Place>,
    mark: u32,
) -> Result<(), Stop>
    requires kept { AreKept types.now (S.objects store.now) (S.path store.now) mark kept.old.items }
    requires seat { IsSeat types.now (S.objects store.now) (S.path store.now) seat }
    ensures { AreKept types.now (S.objects store.now) (S.path store.now) mark kept.new.items }
{
    if store.root(seat.place).number >= mark {
        return Ok(());
    }
    match kept.push(seat) {
        Ok(()) => Ok(()),
        Err(_) => Err(Stop::Memory),
    }
}

/// The places in objects with numbers below the mark.
fn kept_below<S: Store>(
    alloc: Global,
    store: &S,
    types: &Types,
    seats: &[Seat<S::Place>],
    mark: u32,
) -> Result<Vec<Seat<S::Place>>, Stop>
    requires { AreSeats types.now (S.objects store.now) (S.path store.now) seats.now }
    ensures { IfOk result (λ v. AreKept types.now (S.objects store.now) (S.path store.now) mark v.items) }
{
    let mut kept = Vec::new(alloc);
    for seat in seats {
        keep(store, types, &mut kept, *seat, mark)?;
    }
    Ok(kept)
}

/// Takes away the objects with numbers from the mark's on.
pub(crate) fn cut_at<S: Store>(
    alloc: Global,
    store: &mut S,
    types: &Types,
    desk: &mut Desk<S::Place>,
    text: &str,
) -> Result<(), Stop>
    requires { Stands (S.fits store.old types.now) types.now (S.objects store.old) (S.path store.old) desk.old }
    ensures { Stands (S.fits store.new types.now) types.now (S.objects store.new) (S.path store.new) desk.new }
{
    let mark = number(text)?;
    if mark < desk.safe || mark > store.mark().objects {
        return Err(Stop::NotAsked);
    }
    let kept = kept_below(alloc, store, types, desk.seats.as_slice(), mark)?;
    store.cut(StoreMark { objects: mark });
    desk.seats = kept;
    Ok(())
}

/// Takes all objects away.
pub(crate) fn clear<S: Store>(store: &mut S, types: &Types)
    requires { S.fits store.old types.now }
    ensures fit { S.fits store.new types.now }
    ensures none { S.objects store.new ≡ [] }
{
    store.cut(StoreMark { objects: 0 });
}
