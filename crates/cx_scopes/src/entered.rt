//! The scopes that are entered.
ghost use Rattle.std.specs.Prelude.{◌≡◌, ◌≢◌, [], reverse, OnOk, OnErr};
ghost use Rattle.cx_scopes.specs.Scopes.{innermost, place_of};
ghost use Rattle.cx_scopes.specs.Steps.{with_own};

use crate::kinds::{Entity, ScopeId, ScopeKind};
use crate::table::NameTable;
use cx_base::Memory;
use std::alloc::Global;

/// The global namespace.
pub const GLOBAL: ScopeId = ScopeId::Space(0);

/// A scope that is entered: its kind; which namespace, class or enumeration it is, if it is one; the innermost
/// namespace around it; and a function's or block's own names.
#[derive(Drop)]
pub struct Entered {
    pub kind: ScopeKind,
    pub scope: Option<ScopeId>,
    pub space: u32,
    pub own: NameTable,
}

/// A scope that is entered, without names of its own yet.
pub fn new_scope(alloc: Global, kind: ScopeKind, scope: Option<ScopeId>, space: u32) -> Entered
    ensures { result ≡ record { kind = kind; scope = scope; space = space; own = [] } }
{
    Entered {
        kind,
        scope,
        space,
        own: NameTable::new(alloc),
    }
}

/// The innermost namespace, of scopes from the outermost to the innermost.
pub fn space_around(entered: &[Entered]) -> u32
    ensures { result ≡ innermost (reverse entered.now) }
{
    match entered.last() {
        None => 0,
        Some(last) => match last.scope {
            Some(ScopeId::Space(n)) => n,
            _ => last.space,
        },
    }
}

/// The innermost scope, if it is a namespace, class or enumeration.
pub fn place(entered: &[Entered]) -> Option<ScopeId>
    ensures { result ≡ place_of (reverse entered.now) }
{
    match entered.last() {
        None => Some(GLOBAL),
        Some(last) => last.scope,
    }
}

/// Gives a name one more meaning among the innermost scope's own names. A refusal changes nothing.
pub fn add_own(
    alloc: Global,
    entered: &mut Vec<Entered>,
    name: &[u8],
    entity: Entity,
) -> Result<(), Memory>
    requires { entered.old.items ≢ [] }
    ensures ok { OnOk result (reverse entered.new.items ≡ with_own (reverse entered.old.items) name.now entity) }
    ensures err { OnErr result (entered.new.items ≡ entered.old.items) }
{
    let at = entered.len() - 1;
    let last = &mut entered[at];
    last.own.add(alloc, name, entity)
}
