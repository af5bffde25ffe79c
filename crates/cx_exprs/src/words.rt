//! Integer types as they are written ([dcl.type.simple], [dcl.type.cv]).

ghost use Rattle.std.specs.Prelude.{◌≡◌};
ghost use Rattle.cx_exprs.specs.TypeWords.{alone, char_named, consts_of, int_in, int_named, modifiers_in, named_by, named_type, named_words, no_words, specifiers, with_core, with_modifier, with_modifiers, with_part, with_parts, with_sign, with_word};
ghost use Rattle.cx_exprs.specs.Typing.{first_rule};

use cx_base::{IntType, Rule};
use cx_tree::{Modifier, ModifierWord, Specs, SpecsType, TypeWord, WordOrModifier};

/// One of the words that stand once.
#[derive(Clone, Copy)]
pub enum Core {
    Missing,
    Void,
    Bool,
    Char,
    Int,
    Auto,
}

/// `signed` or `unsigned`.
#[derive(Clone, Copy)]
pub enum Sign {
    Missing,
    Signed,
    Unsigned,
}

/// `short`, `long` or `long long`.
#[derive(Clone, Copy)]
pub enum Length {
    Missing,
    Short,
    Long,
    LongLong,
}

/// The words of a type, in any order ([dcl.type.simple]).
#[derive(Clone, Copy)]
pub struct Words {
    pub core: Core,
    pub sign: Sign,
    pub length: Length,
}

/// What the words or the name among specifiers name.
#[derive(Clone, Copy)]
pub enum Named {
    /// No type.
    Nothing,
    Int(IntType),
    Auto,
    /// A type that isn't built.
    Other,
}

/// How often `const` stands, and whether other specifiers do.
#[derive(Clone, Copy)]
pub enum Consts {
    Missing,
    Once,
    Wrong,
}

/// No words yet.
const NO_WORDS: Words = Words {
    core: Core::Missing,
    sign: Sign::Missing,
    length: Length::Missing,
};

fn with_core(core: Core, words: Words) -> Option<Words>
    ensures { result ≡ with_core core words }
{
    match words.core {
        Core::Missing => Some(Words {
            core,
            sign: words.sign,
            length: words.length,
        }),
        _ => None,
    }
}

fn with_sign(sign: Sign, words: Words) -> Option<Words>
    ensures { result ≡ with_sign sign words }
{
    match words.sign {
        Sign::Missing => Some(Words {
            core: words.core,
            sign,
            length: words.length,
        }),
        _ => None,
    }
}

fn with_length(length: Length, words: Words) -> Words
    ensures { result ≡ record words { length = length } }
{
    Words {
        core: words.core,
        sign: words.sign,
        length,
    }
}

/// The words with one more, if it may stand with them.
fn with_word(word: TypeWord, words: Words) -> Option<Words>
    ensures { result ≡ with_word word words }
{
    match word {
        TypeWord::Void => with_core(Core::Void, words),
        TypeWord::Bool => with_core(Core::Bool, words),
        TypeWord::Char => with_core(Core::Char, words),
        TypeWord::Int => with_core(Core::Int, words),
        TypeWord::Auto => with_core(Core::Auto, words),
        TypeWord::Signed => with_sign(Sign::Signed, words),
        TypeWord::Unsigned => with_sign(Sign::Unsigned, words),
        TypeWord::Short => match words.length {
            Length::Missing => Some(with_length(Length::Short, words)),
            _ => None,
        },
        TypeWord::Long => match words.length {
            Length::Missing => Some(with_length(Length::Long, words)),
            Length::Long => Some(with_length(Length::LongLong, words)),
            _ => None,
        },
    }
}

fn int_named(sign: Sign, length: Length) -> IntType
    ensures { result ≡ int_named sign length }
{
    match sign {
        Sign::Unsigned => match length {
            Length::Missing => IntType::UInt,
            Length::Short => IntType::UShort,
            Length::Long => IntType::ULong,
            Length::LongLong => IntType::ULongLong,
        },
        _ => match length {
            Length::Missing => IntType::Int,
            Length::Short => IntType::Short,
            Length::Long => IntType::Long,
            Length::LongLong => IntType::LongLong,
        },
    }
}

fn char_named(sign: Sign) -> IntType
    ensures { result ≡ char_named sign }
{
    match sign {
        Sign::Missing => IntType::Char,
        Sign::Signed => IntType::SChar,
        Sign::Unsigned => IntType::UChar,
    }
}

fn alone(named: Named, words: Words) -> Named
    ensures { result ≡ alone named words.sign words.length }
{
    match words.sign {
        Sign::Missing => match words.length {
            Length::Missing => named,
            _ => Named::Nothing,
        },
        _ => Named::Nothing,
    }
}

/// What words name ([dcl.type.simple]).
fn named_by(words: Words) -> Named
    ensures { result ≡ named_by words.core words.sign words.length }
{
    match words.core {
        Core::Missing => match words.sign {
            Sign::Missing => match words.length {
                Length::Missing => Named::Nothing,
                length => Named::Int(int_named(words.sign, length)),
            },
            sign => Named::Int(int_named(sign, words.length)),
        },
        Core::Int => Named::Int(int_named(words.sign, words.length)),
        Core::Char => match words.length {
            Length::Missing => Named::Int(char_named(words.sign)),
            _ => Named::Nothing,
        },
        Core::Bool => alone(Named::Int(IntType::Bool), words),
        Core::Void => alone(Named::Other, words),
        Core::Auto => alone(Named::Auto, words),
    }
}

fn named_words(words: Option<Words>) -> Named
    ensures { result ≡ named_words words }
{
    match words {
        Some(words) => named_by(words),
        None => Named::Nothing,
    }
}

fn with_part(words: Option<Words>, part: WordOrModifier) -> Option<Words>
    ensures { result ≡ with_part words part }
{
    match part {
        WordOrModifier::Word(word) => match words {
            Some(words) => with_word(word, words),
            None => None,
        },
        WordOrModifier::Modifier(_) => words,
    }
}

fn with_parts(first: Option<Words>, parts: &[WordOrModifier]) -> Option<Words>
    ensures { result ≡ with_parts first parts.now }
{
    let mut words = first;
    for part in parts {
        words = with_part(words, *part);
    }
    words
}

/// What one word names.
pub fn word_named(word: TypeWord) -> Named
    ensures { result ≡ named_words (with_word word no_words) }
{
    named_words(with_word(word, NO_WORDS))
}

/// What the type among specifiers names.
pub fn named_type(ty: &SpecsType) -> Named
    ensures { result ≡ named_type ty.now }
{
    match ty {
        SpecsType::Missing => Named::Nothing,
        SpecsType::Words(word, parts) => {
            named_words(with_parts(with_word(*word, NO_WORDS), parts.as_slice()))
        }
        SpecsType::Named(_, _) => Named::Other,
    }
}

fn with_modifier(consts: Consts, modifier: Modifier) -> Consts
    ensures { result ≡ with_modifier consts modifier }
{
    match modifier.word {
        ModifierWord::Const => match consts {
            Consts::Missing => Consts::Once,
            _ => Consts::Wrong,
        },
        _ => Consts::Wrong,
    }
}

fn with_modifiers(first: Consts, modifiers: &[Modifier]) -> Consts
    ensures { result ≡ with_modifiers first modifiers.now }
{
    let mut consts = first;
    for modifier in modifiers {
        consts = with_modifier(consts, *modifier);
    }
    consts
}

fn modifiers_in(first: Consts, parts: &[WordOrModifier]) -> Consts
    ensures { result ≡ modifiers_in first parts.now }
{
    let mut consts = first;
    for part in parts {
        if let WordOrModifier::Modifier(modifier) = part {
            consts = with_modifier(consts, *modifier);
        }
    }
    consts
}

/// How often `const` stands among specifiers, and whether others do.
pub fn consts_of(specs: &Specs) -> Consts
    ensures { result ≡ consts_of specs.now }
{
    let consts = with_modifiers(Consts::Missing, specs.modifiers.as_slice());
    match &specs.ty {
        SpecsType::Missing => consts,
        SpecsType::Words(_, parts) => modifiers_in(consts, parts.as_slice()),
        SpecsType::Named(_, modifiers) => with_modifiers(consts, modifiers.as_slice()),
    }
}

/// The first rule that specifiers of a type without a name break.
pub fn specifiers_rule(named: Named, consts: Consts) -> Option<Rule>
    ensures { result ≡ first_rule (specifiers named consts).tests }
{
    if matches!(named, Named::Nothing | Named::Auto) {
        return Some(Rule::BadType);
    }
    if matches!(consts, Consts::Wrong) {
        return Some(Rule::BadSpecifier);
    }
    if matches!(named, Named::Other) {
        return Some(Rule::LeftOutForm);
    }
    None
}

/// The integer type that is named.
pub fn int_in(named: Named) -> IntType
    ensures { result ≡ int_in named }
{
    match named {
        Named::Int(ty) => ty,
        _ => IntType::Int,
    }
}
