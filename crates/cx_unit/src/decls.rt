//! What is found of the declarations of a unit ([dcl.constexpr]).

ghost use Rattle.std.specs.Prelude.{◌≡◌, ◌++◌, ◌∷◌, [], IfOk, OnOk, option_map};
ghost use Rattle.std.specs.Fmt.{signed_decimal};
ghost use Rattle.cx_unit.specs.Decls as spec;

use crate::exprs::found_in;
use crate::found::{Broken, Found};
use crate::names::Names;
use cx_base::{Diag, Limits, List, Memory, Rule, Span, Text};
use cx_report::{Line, LineKind, Value, Verdict};
use cx_tree::{
    Decl, DeclKind, Entity, EntityKind, Expr, Ident, InitKind, ModifierWord, Specs, SpecsType,
    TypeWord, Unit, Var,
};
use itoa::Buffer;
use std::alloc::Global;

// `constexpr int`, and no word more ([dcl.constexpr], [dcl.type.simple]).
fn is_constexpr_int(specs: &Specs) -> bool
    ensures { result ≡ spec.is_constexpr_int specs.now }
{
    let [modifier] = specs.modifiers.as_slice() else {
        return false;
    };
    match &specs.ty {
        SpecsType::Words(TypeWord::Int, others) => {
            modifier.word == ModifierWord::Constexpr && others.len() == 0
        }
        _ => false,
    }
}

// `NAME = e`.
fn constant_var(var: &Var) -> Option<(&Ident, &Expr)>
    ensures { option_map (λ c. (c.0.now, c.1.now)) result ≡ spec.var_in var.now }
{
    if var.ptrs.stars.len() != 0 || var.ptrs.is_reference || var.bounds.len() != 0 {
        return None;
    }
    let Some(init) = &var.init else {
        return None;
    };
    match &init.kind {
        InitKind::Equals(value) => Some((&var.name, value)),
        _ => None,
    }
}

// The constant that an entity declares, if it has the one form.
fn constant_in(entity: &Entity) -> Option<(&Ident, &Expr)>
    ensures { option_map (λ c. (c.0.now, c.1.now)) result ≡ spec.constant_in entity.now }
{
    if !is_constexpr_int(&entity.specs) {
        return None;
    }
    let EntityKind::Vars(vars) = &entity.kind else {
        return None;
    };
    match vars.as_slice() {
        [var] => constant_var(var),
        _ => None,
    }
}

// The same of a declaration.
fn constant(decl: &Decl) -> Option<(&Ident, &Expr)>
    ensures { option_map (λ c. (c.0.now, c.1.now)) result ≡ (spec.form_of decl.now).constant }
{
    match &decl.kind {
        DeclKind::Entity(entity) => constant_in(entity),
        _ => None,
    }
}

// The value of an initializer, or the rule that is broken in it.
fn value_in(found: Found) -> Result<i32, Broken>
    ensures { result ≡ spec.value_in found }
{
    match found {
        Found::Wrong(broken) => Err(broken),
        Found::OutOfRange(span) => Err(Broken {
            rule: Rule::Overflow,
            span,
        }),
        Found::Value(value) => Ok(value),
    }
}

// The value of a constant, or the rule that its declaration breaks ([basic.scope]).
fn declared(values: &Names<i32>, name: &Ident, value: &Expr) -> Result<i32, Broken>
    ensures { result ≡ spec.declared values.now (name.now, value.now) }
{
    if values.value(name.text.as_slice()).is_some() {
        return Err(Broken {
            rule: Rule::Redeclared,
            span: name.span,
        });
    }
    value_in(found_in(values, value))
}

fn decimal_text(alloc: Global, n: i32) -> Result<Text, Memory>
    ensures { IfOk result (λ text. text ≡ signed_decimal n) }
{
    let mut buffer = Buffer::new();
    Text::from_slice(alloc, buffer.format(n).as_bytes())
}

fn line_of(alloc: Global, name: &Ident, value: i32) -> Result<Line, Memory>
    ensures { IfOk result (λ line. line ≡ spec.line_of name.now value) }
{
    Ok(Line {
        start: name.span.start,
        kind: LineKind::Constexpr,
        name: name.text.copy()?,
        value: Value::Int(i128::from(value)),
        text: decimal_text(alloc, value)?,
    })
}

/// The verdict of a rule that is broken.
pub fn refused(alloc: Global, broken: Broken) -> Verdict
    ensures { result ≡ spec.refused broken }
{
    Verdict::Refused(Diag {
        span: broken.span,
        rule: broken.rule,
        frames: List::new(alloc),
    })
}

// The verdict of a declaration whose form no constant has.
fn left_out(alloc: Global, span: Span) -> Verdict
    ensures { result ≡ spec.refused (spec.broken Rule.LeftOutForm span) }
{
    refused(
        alloc,
        Broken {
            rule: Rule::LeftOutForm,
            span,
        },
    )
}

/// The verdict of a unit: a line for each constant, or the first rule that a declaration breaks.
#[tactic(auto, unfolding(crate::specs::Decls::walked))]
pub fn verdict_of(alloc: Global, unit: &Unit, _limits: Limits) -> Result<Verdict, Memory>
    ensures { IfOk result (λ verdict. verdict ≡ spec.verdict_of _limits unit.now) }
{
    let mut values = Names::new(alloc);
    let mut lines = List::new(alloc);
    let mut rest = unit.decls.as_slice();
    while let [decl, behind @ ..] = rest {
        let Some((name, value)) = constant(decl) else {
            return Ok(left_out(alloc, decl.span));
        };
        let value = match declared(&values, name, value) {
            Ok(value) => value,
            Err(broken) => return Ok(refused(alloc, broken)),
        };
        lines.push(line_of(alloc, name, value)?)?;
        values.declare(alloc, name.text.as_slice(), value)?;
        rest = behind;
    }
    Ok(Verdict::Accepted(lines))
}
