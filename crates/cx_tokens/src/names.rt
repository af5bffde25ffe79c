//! Identifiers, words, and operators that words spell.
ghost use Rattle.std.specs.Prelude.{◌≡◌};
ghost use Rattle.std.specs.List.{list_any};
ghost use Rattle.std.specs.Str.{bytes_eq};
ghost use Rattle.cx_tokens.specs.Names.{alternatives, encoding_prefixes, is_among, is_left_out_name, is_quote, name, name_kind, name_with, operator_in, spells_in, words, words_left_out};
ghost use Rattle.cx_tokens.specs.Shapes.{shape_of};

use crate::TokenKind;
use crate::bytes::{byte_at, front_of, rest_from};
use crate::scan::{Stop, place_of};
use crate::shapes::{Shape, broken};
use cx_base::Rule;

const LONGEST_NAME: usize = 1_024;

static WORDS: [&str; 54] = [
    "alignof",
    "auto",
    "bool",
    "break",
    "case",
    "char",
    "class",
    "const",
    "consteval",
    "constexpr",
    "constinit",
    "const_cast",
    "continue",
    "default",
    "delete",
    "do",
    "else",
    "enum",
    "explicit",
    "extern",
    "false",
    "for",
    "if",
    "inline",
    "int",
    "long",
    "namespace",
    "new",
    "noexcept",
    "nullptr",
    "operator",
    "private",
    "protected",
    "public",
    "reinterpret_cast",
    "return",
    "short",
    "signed",
    "sizeof",
    "static",
    "static_assert",
    "static_cast",
    "struct",
    "switch",
    "this",
    "throw",
    "true",
    "typedef",
    "union",
    "unsigned",
    "using",
    "virtual",
    "void",
    "while",
];

static LEFT_OUT: [&str; 27] = [
    "alignas",
    "asm",
    "catch",
    "char8_t",
    "char16_t",
    "char32_t",
    "concept",
    "co_await",
    "co_return",
    "co_yield",
    "decltype",
    "double",
    "dynamic_cast",
    "export",
    "float",
    "friend",
    "goto",
    "mutable",
    "register",
    "requires",
    "template",
    "thread_local",
    "try",
    "typeid",
    "typename",
    "volatile",
    "wchar_t",
];

static ALTERNATIVES: [&str; 11] = [
    "and", "or", "not", "bitand", "bitor", "xor", "compl", "and_eq", "or_eq", "xor_eq", "not_eq",
];

static ENCODING_PREFIXES: [&str; 9] = ["u8", "u", "U", "L", "R", "u8R", "uR", "UR", "LR"];

pub fn is_quote(b: u8) -> bool
    ensures { result ≡ is_quote b }
{
    b == b'\'' || b == b'"'
}

pub fn is_among(text: &[u8], words: &[&str]) -> bool
    ensures { result ≡ list_any (λ word. bytes_eq text.now word.now) words.now }
{
    for word in words {
        if text == word.as_bytes() {
            return true;
        }
    }
    false
}

#[tactic(auto, unfolding(crate::specs::Names::words))]
fn is_word(text: &[u8]) -> bool
    ensures { result ≡ is_among words text.now }
{
    is_among(text, &WORDS)
}

#[tactic(auto, unfolding(crate::specs::Names::words_left_out))]
fn is_word_left_out(text: &[u8]) -> bool
    ensures { result ≡ is_among words_left_out text.now }
{
    is_among(text, &LEFT_OUT)
}

#[tactic(auto, unfolding(crate::specs::Names::encoding_prefixes))]
fn is_encoding_prefix(text: &[u8]) -> bool
    ensures { result ≡ is_among encoding_prefixes text.now }
{
    is_among(text, &ENCODING_PREFIXES)
}

#[tactic(auto, unfolding(crate::specs::Names::alternatives))]
fn spells_operator(text: &[u8]) -> bool
    ensures { result ≡ spells_in alternatives text.now }
{
    is_among(text, &ALTERNATIVES)
}

// The operator that a word spells, or the text itself.
#[tactic(auto, unfolding(crate::specs::Names::alternatives))]
pub fn operator_of(text: &[u8]) -> &[u8]
    ensures { result.now ≡ operator_in alternatives text.now }
{
    if text == b"and".as_slice() {
        b"&&".as_slice()
    } else if text == b"or".as_slice() {
        b"||".as_slice()
    } else if text == b"not".as_slice() {
        b"!".as_slice()
    } else if text == b"bitand".as_slice() {
        b"&".as_slice()
    } else if text == b"bitor".as_slice() {
        b"|".as_slice()
    } else if text == b"xor".as_slice() {
        b"^".as_slice()
    } else if text == b"compl".as_slice() {
        b"~".as_slice()
    } else if text == b"and_eq".as_slice() {
        b"&=".as_slice()
    } else if text == b"or_eq".as_slice() {
        b"|=".as_slice()
    } else if text == b"xor_eq".as_slice() {
        b"^=".as_slice()
    } else if text == b"not_eq".as_slice() {
        b"!=".as_slice()
    } else {
        text
    }
}

fn name_kind(text: &[u8]) -> TokenKind
    ensures { result ≡ name_kind text.now }
{
    if spells_operator(text) {
        TokenKind::Punct
    } else if is_word(text) {
        TokenKind::Word
    } else {
        TokenKind::Ident
    }
}

fn is_left_out_name(text: &[u8], behind: u8) -> bool
    ensures { result ≡ is_left_out_name text.now behind }
{
    is_word_left_out(text) || (is_quote(behind) && is_encoding_prefix(text))
}

#[tactic(auto, unfolding(crate::specs::Names::name_with))]
fn name_with(size: usize, text: &[u8], behind: u8) -> Shape
    ensures { result ≡ shape_of (name_with size text.now behind) }
{
    if size > LONGEST_NAME {
        broken(size, Rule::LongName)
    } else if is_left_out_name(text, behind) {
        broken(size, Rule::LeftOut)
    } else {
        Shape::Token(size, name_kind(text))
    }
}

#[tactic(auto, unfolding(crate::specs::Names::name))]
pub fn name(rest: &[u8]) -> Shape
    ensures { result ≡ shape_of (name rest.now) }
{
    let size = 1 + place_of(Stop::NotName, rest_from(rest, 1));
    let text = front_of(rest, size);
    name_with(size, text, byte_at(rest, size))
}
