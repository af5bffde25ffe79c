//! Small functions over any store, as the machine will use one: they stand on the trait's promises alone.
#![tactic(auto)]

ghost use Rattle.std.specs.Prelude.{◌≡◌, suc, length, IfOk, Some};
ghost use Rattle.cx_state.specs.Forms.{Knows};
ghost use Rattle.cx_state.specs.Steps as steps;
ghost use Rattle.cx_store.specs.Stores as says;
ghost use Rattle.cx_store.specs.Stores.{seen};
ghost use Rattle.use_store.specs.Uses as uses;

use cx_base::{Limits, Rule};
use cx_ints::{BinOp, Int, binary};
use cx_store::{Birth, Kind, Scalar, Store, StoreAnswer};
use cx_types::{TypeId, Types};

/// The integer that a scalar holds.
fn integer<P: Drop>(value: Scalar<P>) -> Option<Int>
    ensures { result ≡ uses.integer value }
{
    match value {
        Scalar::Int(i) => Some(i),
        _ => None,
    }
}

/// The sum of the integers at two places; None where one holds none.
pub fn sum<S: Store>(
    store: &S,
    types: &Types,
    a: S::Place,
    b: S::Place,
) -> Result<Option<Int>, Rule>
    requires fits { S.fits store.now types.now }
    requires left { Knows types.now (S.objects store.now) (S.path store.now a) }
    requires left_scalar { says.IsScalarAt types.now (S.objects store.now) (S.path store.now a) }
    requires right { Knows types.now (S.objects store.now) (S.path store.now b) }
    requires right_scalar { says.IsScalarAt types.now (S.objects store.now) (S.path store.now b) }
    ensures { result ≡ uses.sum (steps.load types.now (S.objects store.now) (S.path store.now a)) (steps.load types.now (S.objects store.now) (S.path store.now b)) }
{
    let left = integer(store.load(types, a)?);
    let right = integer(store.load(types, b)?);
    match (left, right) {
        (Some(x), Some(y)) => Ok(Some(binary(BinOp::Add, x, y)?)),
        _ => Ok(None),
    }
}

/// Writes an integer to a member of what a pointer leads to, and says whether it leads anywhere.
pub fn write_member<S: Store>(
    store: &mut S,
    types: &Types,
    pointer: S::Place,
    member: u32,
    value: Int,
) -> Result<bool, Rule>
    requires fits { S.fits store.old types.now }
    requires known { Knows types.now (S.objects store.old) (S.path store.old pointer) }
    requires scalar { says.IsScalarAt types.now (S.objects store.old) (S.path store.old pointer) }
    requires leads { uses.Leads types.now (S.objects store.old) member value (steps.load types.now (S.objects store.old) (S.path store.old pointer)) }
    ensures written { uses.Writes types.now (S.objects store.old) (S.objects store.new) member value (steps.load types.now (S.objects store.old) (S.path store.old pointer)) result }
    ensures paths { S.path store.new ≡ S.path store.old }
{
    match store.load(types, pointer)? {
        Scalar::Place(place) => {
            let part = store.field(types, place, member)?;
            store.store(types, part, Scalar::Int(value))?;
            Ok(true)
        }
        _ => Ok(false),
    }
}

/// Stores through a pointer, as `*to = from` does: what is at `from` goes to where the pointer at `to` leads. False where it
/// leads nowhere. What is given may be a pointer itself.
pub fn assign_through<S: Store>(
    store: &mut S,
    types: &Types,
    to: S::Place,
    from: S::Place,
) -> Result<bool, Rule>
    requires fits { S.fits store.old types.now }
    requires to_known { Knows types.now (S.objects store.old) (S.path store.old to) }
    requires from_known { Knows types.now (S.objects store.old) (S.path store.old from) }
    requires same { uses.PointsToSame types.now (S.objects store.old) (S.path store.old to) (S.path store.old from) }
    ensures assigned { uses.Assigns types.now (S.objects store.old) (S.objects store.new) (steps.load types.now (S.objects store.old) (S.path store.old from)) (steps.load types.now (S.objects store.old) (S.path store.old to)) result }
    ensures paths { S.path store.new ≡ S.path store.old }
{
    let value = store.load(types, from)?;
    match store.load(types, to)? {
        Scalar::Place(target) => {
            store.store(types, target, value)?;
            Ok(true)
        }
        _ => Ok(false),
    }
}

/// Makes an object of a type while a place is held, and reads there what stood there before.
pub fn make_and_read<S: Store>(
    store: &mut S,
    types: &Types,
    held: S::Place,
    ty: TypeId,
    limits: &Limits,
) -> Result<Scalar<S::Place>, StoreAnswer>
    requires fits { S.fits store.old types.now }
    requires known { Knows types.now (S.objects store.old) (S.path store.old held) }
    requires scalar { says.IsScalarAt types.now (S.objects store.old) (S.path store.old held) }
    requires whole { says.IsWhole types.now ty None }
    ensures read { IfOk result (λ v. Ok (seen (S.path store.new) v) ≡ steps.load types.now (S.objects store.old) (S.path store.old held)) }
    ensures knows { says.StillKnows (S.objects store.old) (S.objects store.new) }
{
    let _ = store.make(types, ty, None, Kind::Auto, false, Birth::Here, limits)?;
    match store.load(types, held) {
        Ok(value) => Ok(value),
        Err(rule) => Err(StoreAnswer::Rule(rule)),
    }
}

/// Gives each of an array's integers its first value.
fn fill<S: Store>(
    store: &mut S,
    types: &Types,
    array: S::Place,
    of: TypeId,
    count: u32,
    value: Int,
) -> Result<(), Rule>
    requires fits { S.fits store.old types.now }
    requires array { uses.IsArray types.now (S.objects store.old) (S.path store.old array) of count }
    requires known { Knows types.now (S.objects store.old) (S.path store.old array) }
    requires takes { uses.IsOfInts types.now of value }
    ensures fit { S.fits store.new types.now }
    ensures knows { says.StillKnows (S.objects store.old) (S.objects store.new) }
    ensures paths { S.path store.new ≡ S.path store.old }
    ensures number { length (S.objects store.new) ≡ length (S.objects store.old) }
{
    let mut next: u32 = 0;
    while next < count {
        let element = store.elem(types, array, next)?;
        store.init(types, element, Scalar::Int(value))?;
        next += 1;
    }
    Ok(())
}

/// Makes an array of integers by the rules of a new-expression, gives each the value, and releases it.
pub fn make_fill_release<S: Store>(
    store: &mut S,
    types: &Types,
    of: TypeId,
    count: u32,
    value: Int,
    limits: &Limits,
) -> Result<(), StoreAnswer>
    requires fits { S.fits store.old types.now }
    requires whole { says.IsWhole types.now of (Some count) }
    requires takes { uses.IsOfInts types.now of value }
    ensures fit { S.fits store.new types.now }
    ensures knows { says.StillKnows (S.objects store.old) (S.objects store.new) }
    ensures one { IfOk result (λ _. length (S.objects store.new) ≡ suc (length (S.objects store.old))) }
{
    let array = store.make(
        types,
        of,
        Some(count),
        Kind::HeapArray,
        false,
        Birth::Here,
        limits,
    )?;
    match fill(store, types, array, of, count, value) {
        Ok(()) => {}
        Err(rule) => return Err(StoreAnswer::Rule(rule)),
    }
    match store.release(array) {
        Ok(()) => Ok(()),
        Err(rule) => Err(StoreAnswer::Rule(rule)),
    }
}
