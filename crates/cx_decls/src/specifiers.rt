//! The specifiers of a declaration beside its type ([dcl.spec]).

ghost use Rattle.std.specs.Prelude.{◌≡◌};
ghost use Rattle.cx_decls.specs.Specifiers.{again, specifiers, type_specifiers, with_parts, with_word, with_words};

use cx_tree::{Modifier, ModifierWord, Specs, SpecsType, WordOrModifier};

/// How often a specifier stands.
#[derive(Clone, Copy)]
pub enum Times {
    Never,
    Once,
    Twice,
}

/// How often `constexpr` and `const` stand, and whether others do.
#[derive(Clone, Copy)]
pub struct Specifiers {
    pub constexpr: Times,
    pub konst: Times,
    pub others: bool,
}

fn again(times: Times) -> Times
    ensures { result ≡ again times }
{
    match times {
        Times::Never => Times::Once,
        _ => Times::Twice,
    }
}

fn with_word(word: ModifierWord, specifiers: Specifiers) -> Specifiers
    ensures { result ≡ with_word word specifiers }
{
    match word {
        ModifierWord::Constexpr => Specifiers {
            constexpr: again(specifiers.constexpr),
            konst: specifiers.konst,
            others: specifiers.others,
        },
        ModifierWord::Const => Specifiers {
            constexpr: specifiers.constexpr,
            konst: again(specifiers.konst),
            others: specifiers.others,
        },
        _ => Specifiers {
            constexpr: specifiers.constexpr,
            konst: specifiers.konst,
            others: true,
        },
    }
}

fn with_words(specifiers: Specifiers, modifiers: &[Modifier]) -> Specifiers
    ensures { result ≡ with_words specifiers modifiers.now }
{
    let mut all = specifiers;
    for modifier in modifiers {
        all = with_word(modifier.word, all);
    }
    all
}

fn with_parts(specifiers: Specifiers, parts: &[WordOrModifier]) -> Specifiers
    ensures { result ≡ with_parts specifiers parts.now }
{
    let mut all = specifiers;
    for part in parts {
        match part {
            WordOrModifier::Word(_) => {}
            WordOrModifier::Modifier(modifier) => all = with_word(modifier.word, all),
        }
    }
    all
}

/// The specifiers of a declaration, before its type and behind it.
pub fn specifiers_of(specs: &Specs) -> Specifiers
    ensures { result ≡ specifiers specs.now }
{
    let first = with_words(
        Specifiers {
            constexpr: Times::Never,
            konst: Times::Never,
            others: false,
        },
        specs.modifiers.as_slice(),
    );
    match &specs.ty {
        SpecsType::Missing => first,
        SpecsType::Words(_, parts) => with_parts(first, parts.as_slice()),
        SpecsType::Named(_, modifiers) => with_words(first, modifiers.as_slice()),
    }
}
