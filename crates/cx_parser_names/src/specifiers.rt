//! Specifiers and pointers ([dcl.spec], [dcl.ptr]).

ghost use Rattle.std.specs.Prelude.{◌≡◌};
ghost use Rattle.cx_grammar.specs.Reads.{Reads};
ghost use Rattle.cx_parser_names.specs.Parts as parts;
ghost use Rattle.cx_syntax.specs.Readers as spec;
ghost use Rattle.cx_syntax.specs.Values as values;

use crate::names::{is_there, maybe_one, qtype};
use crate::repeats::Taken;
use cx_ahead::{
    AnyElaboration, AnyModifier, AnyTypeWord, ElaborationIn, ModifierIn, ModifierOrTypeWord,
    StartsTyped, TypeWordIn, WordOrModifierIn,
};
use cx_base::List;
use cx_grammar::{Cursor, ParseStop, Part, read_many, read_upto};
use cx_syntax::{Class, Lexeme, span_of};
use cx_tree::{Elaboration, Modifier, Named, Ptrs, Specs, SpecsType, Star, WordOrModifier};
use std::alloc::Global;

fn elaboration(tokens: &mut Cursor<'_, Lexeme>) -> Result<Option<Elaboration>, ParseStop>
    ensures { Reads (spec.elaboration tokens.old) result tokens.new }
{
    if !tokens.sees(&AnyElaboration) {
        return Ok(None);
    }
    Ok(Some(tokens.take(&ElaborationIn)?))
}

#[tactic(auto, unfolding(cx_syntax::specs::Readers::named))]
fn named(alloc: Global, tokens: &mut Cursor<'_, Lexeme>) -> Result<Named, ParseStop>
    ensures { Reads (spec.named tokens.old) result tokens.new }
{
    let word = elaboration(tokens)?;
    let name = qtype(alloc, tokens)?;
    Ok(Named { word, name })
}

/// Modifiers, any number.
#[inline(never)]
pub fn modifiers(
    alloc: Global,
    tokens: &mut Cursor<'_, Lexeme>,
) -> Result<List<Modifier>, ParseStop>
    ensures { Reads (spec.modifiers tokens.old) result tokens.new }
{
    read_many(alloc, tokens, &AnyModifier, &Taken { pick: ModifierIn })
}

fn words_behind(
    alloc: Global,
    tokens: &mut Cursor<'_, Lexeme>,
) -> Result<List<WordOrModifier>, ParseStop>
    ensures { Reads (spec.words_behind tokens.old) result tokens.new }
{
    read_many(
        alloc,
        tokens,
        &ModifierOrTypeWord,
        &Taken {
            pick: WordOrModifierIn,
        },
    )
}

#[tactic(auto, unfolding(cx_syntax::specs::Readers::words_type))]
fn words_type(alloc: Global, tokens: &mut Cursor<'_, Lexeme>) -> Result<SpecsType, ParseStop>
    ensures { Reads (spec.words_type tokens.old) result tokens.new }
{
    let word = tokens.take(&TypeWordIn)?;
    let others = words_behind(alloc, tokens)?;
    Ok(SpecsType::Words(word.word, others))
}

#[tactic(auto, unfolding(cx_syntax::specs::Readers::name_type))]
fn name_type(alloc: Global, tokens: &mut Cursor<'_, Lexeme>) -> Result<SpecsType, ParseStop>
    ensures { Reads (spec.name_type tokens.old) result tokens.new }
{
    let named = named(alloc, tokens)?;
    let others = modifiers(alloc, tokens)?;
    Ok(SpecsType::Named(named, others))
}

/// The type among specifiers.
#[inline(never)]
pub fn typed(alloc: Global, tokens: &mut Cursor<'_, Lexeme>) -> Result<SpecsType, ParseStop>
    ensures { Reads (spec.typed tokens.old) result tokens.new }
{
    if tokens.sees(&AnyTypeWord) {
        words_type(alloc, tokens)
    } else {
        name_type(alloc, tokens)
    }
}

fn maybe_typed(
    alloc: Global,
    tokens: &mut Cursor<'_, Lexeme>,
) -> Result<Option<SpecsType>, ParseStop>
    ensures { Reads (parts.maybe_typed tokens.old) result tokens.new }
{
    if !tokens.sees(&StartsTyped) {
        return Ok(None);
    }
    Ok(Some(typed(alloc, tokens)?))
}

fn is_specified(modifiers: &List<Modifier>, ty: &Option<SpecsType>) -> bool
    ensures { result ≡ values.is_specified (modifiers.now, ty.now) }
{
    match ty {
        Some(_) => true,
        None => !modifiers.as_slice().is_empty(),
    }
}

fn type_or_none(ty: Option<SpecsType>) -> SpecsType
    ensures { result ≡ values.type_or_none ty }
{
    match ty {
        Some(ty) => ty,
        None => SpecsType::Missing,
    }
}

fn specs_parts(
    alloc: Global,
    tokens: &mut Cursor<'_, Lexeme>,
) -> Result<(List<Modifier>, Option<SpecsType>), ParseStop>
    ensures { Reads (parts.specs_parts tokens.old) result tokens.new }
{
    let modifiers = modifiers(alloc, tokens)?;
    let ty = maybe_typed(alloc, tokens)?;
    if !is_specified(&modifiers, &ty) {
        return Err(tokens.refuse());
    }
    Ok((modifiers, ty))
}

/// Specifiers, at least one.
#[inline(never)]
#[tactic(auto, unfolding(cx_syntax::specs::Readers::specs))]
pub fn specs(alloc: Global, tokens: &mut Cursor<'_, Lexeme>) -> Result<Specs, ParseStop>
    ensures { Reads (spec.specs tokens.old) result tokens.new }
{
    let from = tokens.rest();
    let (modifiers, ty) = specs_parts(alloc, tokens)?;
    Ok(Specs {
        modifiers,
        ty: type_or_none(ty),
        span: span_of(tokens.since(from)),
    })
}

#[tactic(auto, unfolding(cx_syntax::specs::Readers::star))]
fn star(tokens: &mut Cursor<'_, Lexeme>) -> Result<Star, ParseStop>
    ensures { Reads (spec.star tokens.old) result tokens.new }
{
    let from = tokens.rest();
    tokens.expect(&Class::Star)?;
    let word = maybe_one(tokens, Class::Const)?;
    Ok(Star {
        is_const: is_there(word),
        span: span_of(tokens.since(from)),
    })
}

struct StarPart;

impl Part<Lexeme> for StarPart {
    type Value = Star;

    ghost ready = { λ _. Unit {0} };

    ghost reader = { λ _. spec.star };

    fn read(&self, tokens: &mut Cursor<'_, Lexeme>) -> Result<Star, ParseStop> {
        star(tokens)
    }
}

/// Up to 64 `*`, each with `const` or without.
#[inline(never)]
pub fn stars(alloc: Global, tokens: &mut Cursor<'_, Lexeme>) -> Result<List<Star>, ParseStop>
    ensures { Reads (spec.stars tokens.old) result tokens.new }
{
    read_upto(alloc, tokens, 64, &Class::Star, &StarPart)
}

/// The same, and perhaps `&`.
#[inline(never)]
#[tactic(auto, unfolding(cx_syntax::specs::Readers::ptrs))]
pub fn ptrs(alloc: Global, tokens: &mut Cursor<'_, Lexeme>) -> Result<Ptrs, ParseStop>
    ensures { Reads (spec.ptrs tokens.old) result tokens.new }
{
    let stars = stars(alloc, tokens)?;
    let amp = maybe_one(tokens, Class::Amp)?;
    Ok(Ptrs {
        stars,
        is_reference: is_there(amp),
    })
}
