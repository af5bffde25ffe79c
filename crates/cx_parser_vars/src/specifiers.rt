//! Specifiers before a declarator ([dcl.spec]).

ghost use Rattle.std.specs.Prelude.{◌≡◌};
ghost use Rattle.cx_grammar.specs.Reads.{Reads};
ghost use Rattle.cx_syntax.specs.Values as values;
ghost use Rattle.cx_syntax_vars.specs.Readers as spec;

use cx_ahead::{AnyName, Id, StartsTyped, Type};
use cx_base::List;
use cx_grammar::{Cursor, ParseStop, Test};
use cx_parser_names::{modifiers, typed};
use cx_syntax::{Class, Lexeme, span_of};
use cx_tree::{Modifier, Specs, SpecsType};
use std::alloc::Global;

/// A test whether a type follows the modifiers of a declaration.
pub trait Follows {
    ghost use Rattle.std.specs.Prelude.{Bool, List as Seq};
    ghost use Rattle.cx_syntax.specs.declared.lexeme.Lexeme.{Lexeme as Token};

    ghost holds: { Self → Seq Token → Bool };

    /// Whether a type follows.
    fn follows(&self, tokens: &Cursor<'_, Lexeme>) -> bool
        ensures { result ≡ holds self.now tokens.now };
}

// What a type begins with where a name may be declared: all but an ID.
struct LeadsType;

impl Test<Lexeme> for LeadsType {
    ghost use Rattle.cx_syntax.specs.Classes.{class_at};
    ghost use Rattle.cx_syntax_vars.specs.Sets.{leads_type};

    ghost holds = { λ _ t. leads_type (class_at t) };

    fn test(&self, token: &Lexeme) -> bool {
        StartsTyped.test(token) && !Id.test(token)
    }
}

/// What only a type begins with, or a name with `::` behind it.
pub struct TypeNext;

impl Follows for TypeNext {
    ghost use Rattle.cx_syntax_vars.specs.Ahead.{type_next};

    ghost holds = { λ _ ts. type_next ts };

    fn follows(&self, tokens: &Cursor<'_, Lexeme>) -> bool {
        tokens.sees(&LeadsType) || tokens.sees_two(&AnyName, &Class::ColonColon)
    }
}

/// The same in a typedef: what a type begins with, but for a TYPE with `;` behind it, which is declared.
pub struct AliasedNext;

impl Follows for AliasedNext {
    ghost use Rattle.cx_syntax_vars.specs.Ahead.{aliased_next};

    ghost holds = { λ _ ts. aliased_next ts };

    fn follows(&self, tokens: &Cursor<'_, Lexeme>) -> bool {
        tokens.sees(&StartsTyped) && !tokens.sees_two(&Type, &Class::Semicolon)
    }
}

// The type behind modifiers, if one follows; without modifiers it must.
fn type_behind<F: Follows>(
    alloc: Global,
    tokens: &mut Cursor<'_, Lexeme>,
    follows: &F,
    modifiers: &List<Modifier>,
) -> Result<Option<SpecsType>, ParseStop>
    ensures { Reads (spec.type_behind (F.holds follows.now) modifiers.now tokens.old) result tokens.new }
{
    if !modifiers.as_slice().is_empty() && !follows.follows(tokens) {
        return Ok(None);
    }
    Ok(Some(typed(alloc, tokens)?))
}

fn type_or_none(ty: Option<SpecsType>) -> SpecsType
    ensures { result ≡ values.type_or_none ty }
{
    match ty {
        Some(ty) => ty,
        None => SpecsType::Missing,
    }
}

/// Specifiers before a declarator, whose type is there where the test says that it follows ([dcl.spec]).
#[inline(never)]
#[tactic(auto, unfolding(cx_syntax_vars::specs::Readers::specs_before))]
pub fn specs_before<F: Follows>(
    alloc: Global,
    tokens: &mut Cursor<'_, Lexeme>,
    follows: &F,
) -> Result<Specs, ParseStop>
    ensures { Reads (spec.specs_before (F.holds follows.now) tokens.old) result tokens.new }
{
    let from = tokens.rest();
    let modifiers = modifiers(alloc, tokens)?;
    let ty = type_behind(alloc, tokens, follows, &modifiers)?;
    Ok(Specs {
        modifiers,
        ty: type_or_none(ty),
        span: span_of(tokens.since(from)),
    })
}
