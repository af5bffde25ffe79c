//! The names that the places of a list of tokens make names of types.
ghost use Rattle.std.specs.Prelude.{◌≡◌, ◌∷◌, [], drop, IfOk, OnOk};
ghost use Rattle.cx_type_names.specs.Names.{type_names};
ghost use Rattle.cx_type_names.specs.Walk.{known_of, rest_of};

use crate::behind::Behind;
use crate::name_set::NameSet;
use cx_base::{List, Memory};
use cx_token_defs::Token;
use std::alloc::Global;

// The names that are always there.
fn standard_names(alloc: Global) -> Result<NameSet, Memory>
    ensures { IfOk result (λ names. names ≡ type_names []) }
{
    let mut names = NameSet::new(alloc);
    names.add(alloc, b"nullptr_t")?;
    names.add(alloc, b"ptrdiff_t")?;
    names.add(alloc, b"size_t")?;
    Ok(names)
}

// Goes a token towards the front, and adds the name that this token makes a type's.
fn step<'a>(
    alloc: Global,
    names: &mut NameSet,
    behind: &mut Behind<'a>,
    front: &'a [Token],
) -> Result<(), Memory>
    requires behind { behind.old ≡ known_of (rest_of front.now) }
    requires names { names.old ≡ type_names (rest_of front.now) }
    ensures behind { OnOk result (behind.new ≡ known_of front.now) }
    ensures names { OnOk result (names.new ≡ type_names front.now) }
{
    match behind.step(front) {
        Ok(Some(token)) => names.add(alloc, token.text.as_slice()),
        Ok(None) => Ok(()),
        Err(Memory) => Err(Memory),
    }
}

/// The names of types of a list of tokens: `size_t`, `ptrdiff_t`, `nullptr_t`, and each identifier that stands, attribute groups passed
/// over, behind `struct`, `class`, `union` or `enum`, between `using` and `=`, or directly before the first `;` behind `typedef`
/// ([class.pre], [dcl.enum], [dcl.typedef]). Each token is looked at once, from the last to the first. `Memory` is the only error.
pub fn type_names(alloc: Global, tokens: &List<Token>) -> Result<NameSet, Memory>
    ensures { IfOk result (λ names. names ≡ type_names tokens.now) }
{
    let tokens = tokens.as_slice();
    let mut names = standard_names(alloc)?;
    let mut at = tokens.len();
    let mut behind = Behind::new(alloc, &tokens[at..]);
    'places: while at > 0 {
        at -= 1;
        let (_, front) = tokens.split_at(at);
        step(alloc, &mut names, &mut behind, front)?;
    }
    Ok(names)
}
