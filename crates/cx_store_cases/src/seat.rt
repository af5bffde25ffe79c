//! The places that a case has given names to.
ghost use Rattle.std.specs.Prelude.{◌≡◌, IfOk, Some};
ghost use Rattle.cx_store_cases.specs.Seats.{IsSeat, AreSeats};

use crate::stop::Stop;
use crate::words::name;
use cx_base::Limits;
use cx_store::Store;
use cx_types::{TypeKind, Types};

/// A place, its name in the case, one letter, and the form of the type of what is there, where that is told.
#[derive(Clone, Copy)]
pub struct Seat<P> {
    pub name: u8,
    pub place: P,
    pub kind: Option<TypeKind>,
}

/// A case's places, its limits, and a number below which lie the objects that others hold places in.
#[derive(Drop)]
pub struct Desk<P> {
    pub seats: Vec<Seat<P>>,
    pub limits: Limits,
    pub safe: u32,
}

/// Ample limits.
pub const AMPLE: Limits = Limits {
    depth: 512,
    exprs: 1000,
    turns: 1000,
    cells: 1_048_576,
    objects: 1000,
};

/// The place that a word names.
pub(crate) fn find<S: Store>(
    store: &S,
    types: &Types,
    desk: &Desk<S::Place>,
    text: &str,
) -> Result<Seat<S::Place>, Stop>
    requires { AreSeats types.now (S.objects store.now) (S.path store.now) desk.now.seats.items }
    ensures { IfOk result (λ s. IsSeat types.now (S.objects store.now) (S.path store.now) s) }
{
    let name = name(text)?;
    for seat in &desk.seats {
        if seat.name == name {
            return Ok(*seat);
        }
    }
    Err(Stop::NotAsked)
}

/// The form that is told.
pub(crate) fn told(kind: Option<TypeKind>) -> Result<TypeKind, Stop>
    ensures { IfOk result (λ k. kind ≡ Some k) }
{
    kind.ok_or(Stop::NotAsked)
}
