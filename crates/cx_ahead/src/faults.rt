//! The fault where the levels end, and an expression stands where only a type may.

ghost use Rattle.std.specs.Prelude.{◌≡◌, if◌then◌else◌, false};
ghost use Rattle.cx_grammar.specs.Reading as reading;
ghost use Rattle.cx_grammar.specs.Sets.{of};
ghost use Rattle.cx_syntax.specs.Classes.{class_at};
ghost use Rattle.cx_syntax.specs.Sets.{starts_unary, is_type, starts_given, follows_name};
ghost use Rattle.cx_ahead.specs.Stops.{Stops, going};
ghost use Rattle.cx_syntax.specs.Ahead as spec;

use crate::ahead::{behind, sees};
use crate::sets::{
    AnyName, AnyTypeWord, FollowsName, OperatorWord, StartsAssign, StartsGiven, StartsUnary, Type,
};
use cx_base::Rule;
use cx_grammar::{ParseStop, Test};
use cx_syntax::{Class, Lexeme};

/// What an expression goes on with.
#[derive(Clone, Copy)]
enum Goes {
    /// Behind a type.
    Given,
    /// Behind another name.
    Name,
    /// Behind `::`.
    Operator,
    /// Where it begins.
    Expression,
}

fn goes_on(goes: Goes, tokens: &[Lexeme]) -> bool
    ensures { result ≡ reading.sees (of class_at (going goes)) tokens.now }
{
    match goes {
        Goes::Given => sees(&StartsGiven, tokens),
        Goes::Name => sees(&FollowsName, tokens),
        Goes::Operator => sees(&OperatorWord, tokens),
        Goes::Expression => sees(&StartsAssign, tokens),
    }
}

fn fault_by(goes_on: bool, left: usize) -> ParseStop
    ensures { result ≡ ParseStop.Fault (if goes_on then Rule.Nesting else Rule.Syntax) left }
{
    if goes_on {
        ParseStop::Fault(Rule::Nesting, left)
    } else {
        ParseStop::Fault(Rule::Syntax, left)
    }
}

fn fault_at(goes: Goes, tokens: &[Lexeme]) -> ParseStop
    ensures { Stops (spec.fault_at (going goes) tokens.now) result }
{
    fault_by(goes_on(goes, tokens), tokens.len())
}

fn goes_behind(name: &Lexeme) -> Goes
    ensures { going result ≡ (if is_type name.now.class then starts_given else follows_name) }
{
    if Type.test(name) {
        Goes::Given
    } else {
        Goes::Name
    }
}

// From where a name may stand on.
fn name_fault(goes: Goes, tokens: &[Lexeme]) -> ParseStop
    ensures { Stops (spec.name_fault false (going goes) tokens.now) result }
{
    let mut goes = goes;
    let mut rest = tokens;
    while let [name, colons, others @ ..] = rest {
        if !(AnyName.test(name) && Class::ColonColon.test(colons)) {
            break;
        }
        goes = Goes::Operator;
        rest = others;
    }
    match rest {
        [name, others @ ..] if AnyName.test(name) => fault_at(goes_behind(name), others),
        _ => fault_at(goes, rest),
    }
}

/// The fault in parentheses in which only a type may stand, from the token behind the first parenthesis on.
pub fn type_fault(tokens: &[Lexeme]) -> ParseStop
    ensures { Stops (spec.type_fault tokens.now) result }
{
    if sees(&AnyTypeWord, tokens) {
        return fault_at(Goes::Given, behind(tokens));
    }
    if sees(&Class::ColonColon, tokens) {
        return name_fault(Goes::Operator, behind(tokens));
    }
    name_fault(Goes::Expression, tokens)
}

/// The fault where an operand may not stand since the levels end.
pub fn operand_fault(tokens: &[Lexeme]) -> ParseStop
    ensures { Stops (spec.fault_at starts_unary tokens.now) result }
{
    fault_by(sees(&StartsUnary, tokens), tokens.len())
}
