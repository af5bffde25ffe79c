//! The candidates of a call.
ghost use Rattle.std.specs.Prelude.{◌≡◌, OnOk, IfErr};
ghost use Rattle.cx_scopes.specs.Candidates.{united, with_candidate};

use crate::kinds::{Entity, Found, LookAnswer};
use crate::steps::is_one_of;

/// Puts an entity behind those that were found, unless it is among them.
fn put_once(found: &mut Found, entity: Entity) -> Result<(), LookAnswer>
    ensures ok { OnOk result (found.new ≡ with_candidate found.old entity) }
    ensures memory { IfErr result (λ e. e ≡ LookAnswer.Memory) }
{
    if is_one_of(entity, found.as_slice()) {
        return Ok(());
    }
    match found.push(entity) {
        Ok(()) => Ok(()),
        Err(_) => Err(LookAnswer::Memory),
    }
}

/// Puts what a second lookup found behind what a first one did, each entity once: a function that a call finds by its
/// name and by its arguments is one candidate ([basic.lookup.argdep], [over.match.funcs]). It takes the product of both
/// lengths in steps.
pub fn unite(found: &mut Found, others: &Found) -> Result<(), LookAnswer>
    ensures ok { OnOk result (found.new ≡ united found.old others.now) }
    ensures memory { IfErr result (λ e. e ≡ LookAnswer.Memory) }
{
    for entity in others.as_slice() {
        put_once(found, *entity)?;
    }
    Ok(())
}
