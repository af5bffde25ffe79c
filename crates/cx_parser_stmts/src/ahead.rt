//! What the tokens ahead tell of a statement ([stmt.ambig], [dcl.enum]).

ghost use Rattle.std.specs.Prelude.{◌≡◌, option_map};
ghost use Rattle.cx_syntax_stmts.specs.Ahead as spec;

use crate::sets::{FollowsEnum, FollowsEnumName};
use cx_ahead::{AnyTypeWord, Type, behind, qtype_end, sees};
use cx_syntax::{Class, Lexeme};

// What is left behind the word or the name of a type, if one stands there.
#[tactic(auto, unfolding(cx_syntax_stmts::specs::Ahead::type_end))]
fn type_end(tokens: &[Lexeme]) -> Option<&[Lexeme]>
    ensures { option_map (λ t. t.now) result ≡ spec.type_end tokens.now }
{
    if sees(&AnyTypeWord, tokens) {
        return Some(behind(tokens));
    }
    qtype_end(tokens)
}

/// How many tokens there are from the `(` behind a type on, if the tokens begin with these two ([dcl.ambig.res]).
pub fn call_at(tokens: &[Lexeme]) -> Option<usize>
    ensures { result ≡ spec.call_at tokens.now }
{
    let rest = type_end(tokens)?;
    if !sees(&Class::OpenParen, rest) {
        return None;
    }
    Some(rest.len())
}

/// Whether an enumeration comes next, and no variable of one ([dcl.enum]).
pub fn enum_ahead(tokens: &[Lexeme]) -> bool
    ensures { result ≡ spec.enum_ahead tokens.now }
{
    if !sees(&Class::Enum, tokens) {
        return false;
    }
    let rest = behind(tokens);
    sees(&FollowsEnum, rest) || (sees(&Type, rest) && sees(&FollowsEnumName, behind(rest)))
}
