//! What comes of a judgement ([dcl.constexpr], [dcl.pre]).

ghost use Rattle.std.specs.Prelude.{◌≡◌, [], IfOk, IfErr};
ghost use Rattle.cx_exprs.specs.declared.answer.ElabAnswer.TheVariants as answer;
ghost use Rattle.cx_exprs.specs.Desks.{IsFault, world_of};
ghost use Rattle.cx_exprs.specs.Typing.{Good};
ghost use Rattle.cx_decls.specs.Variables.{concluded};
ghost use Rattle.cx_decls.specs.Walk.{asserted};

use cx_base::{Diag, List, Rule, Span, Text};
use cx_exprs::{Elab, ElabAnswer};
use cx_tree::Ident;
use cx_typed::{Judge, LineKind, Outcome, Value};
use std::alloc::Global;

/// A constexpr variable adds a line, or ends typing where it has no value; a const variable may have none.
pub fn conclude<J: Judge>(
    elab: &mut Elab<J>,
    is_constexpr: bool,
    name: &Ident,
    outcome: Outcome,
) -> Result<(), ElabAnswer>
    ensures program { elab.new.program ≡ elab.old.program }
    ensures ended { elab.new.ended ≡ elab.old.ended }
    ensures ok { IfOk result (λ u. concluded is_constexpr name.now outcome (world_of elab.old) ≡ Good tt (world_of elab.new)) }
    ensures fault { IfErr result (λ a. IsFault a (concluded is_constexpr name.now outcome (world_of elab.old))) }
{
    if !is_constexpr {
        return Ok(());
    }
    match outcome {
        Outcome::Violation(diag) => Err(ElabAnswer::Fault(diag)),
        Outcome::Value(value) => match name.text.copy() {
            Ok(text) => elab.add_line(name.span.start, LineKind::Constexpr, text, value),
            Err(_) => Err(ElabAnswer::Memory),
        },
    }
}

/// A condition that holds adds a line.
pub fn conclude_assertion<J: Judge>(
    elab: &mut Elab<J>,
    alloc: Global,
    span: Span,
    outcome: Outcome,
) -> Result<(), ElabAnswer>
    ensures program { elab.new.program ≡ elab.old.program }
    ensures ended { elab.new.ended ≡ elab.old.ended }
    ensures ok { IfOk result (λ u. asserted span outcome (world_of elab.old) ≡ Good tt (world_of elab.new)) }
    ensures fault { IfErr result (λ a. IsFault a (asserted span outcome (world_of elab.old))) }
{
    let value = match outcome {
        Outcome::Violation(diag) => return Err(ElabAnswer::Fault(diag)),
        Outcome::Value(value) => value,
    };
    let Value::Int(int) = value;
    if int.value == 0 {
        return Err(broken(alloc, Rule::AssertFailed, span));
    }
    match Text::from_slice(alloc, b"-") {
        Ok(name) => elab.add_line(span.start, LineKind::Assert, name, value),
        Err(_) => Err(ElabAnswer::Memory),
    }
}

/// A rule that is broken.
fn broken(alloc: Global, rule: Rule, span: Span) -> ElabAnswer
    ensures { result ≡ answer.Fault (record { span = span; rule = rule; frames = [] }) }
{
    ElabAnswer::Fault(Diag {
        span,
        rule,
        frames: List::new(alloc),
    })
}
