//! Character and string literals.
ghost use Rattle.std.specs.Prelude.{◌≡◌, ◌<◌, ◌≤◌, length, IfOk};
ghost use Rattle.cx_tokens.specs.Bytes.{is_octal};
ghost use Rattle.cx_tokens.specs.Numbers.{value_of};
ghost use Rattle.cx_tokens.specs.Scanning.{flaw_from, flaw_in};
ghost use Rattle.cx_tokens.specs.Literals.{bad_escape, begins_escape, byte_flaw, byte_of, ends, escape_size, escape_value, is_bad_byte, is_character, is_one_character, part_size, part_value, simple_escape, inner_size, string_bytes};

use crate::bytes::{byte_at, front_of, is_blank, is_octal, is_splice, rest_from};
use crate::numbers::value_of;
use crate::scan::{Stop, place_of, place_within};
use crate::shapes::Flaw;
use cx_base::{Memory, Rule, Text};
use std::alloc::Global;

#[tactic(auto, unfolding(crate::specs::Literals::begins_escape))]
fn begins_escape(rest: &[u8]) -> bool
    ensures { result ≡ begins_escape rest.now }
{
    byte_at(rest, 0) == b'\\' && !is_splice(rest)
}

#[tactic(auto, unfolding(crate::specs::Literals::escape_size))]
fn escape_size(rest: &[u8]) -> usize
    ensures { result ≡ escape_size rest.now }
{
    if is_octal(byte_at(rest, 1)) {
        1 + place_within(Stop::NotOctal, rest_from(rest, 1), 3)
    } else if byte_at(rest, 1) == b'x' {
        2 + place_of(Stop::NotHex, rest_from(rest, 2))
    } else {
        rest.len().min(2)
    }
}

fn simple_escape(b: u8) -> Option<u8>
    ensures { result ≡ simple_escape b }
{
    match b {
        b'\'' | b'"' | b'?' | b'\\' => Some(b),
        b'a' => Some(7),
        b'b' => Some(8),
        b'f' => Some(12),
        b'n' => Some(10),
        b'r' => Some(13),
        b't' => Some(9),
        b'v' => Some(11),
        _ => None,
    }
}

// The value of some digits, where it is a byte's.
fn byte_of(radix: u8, digits: &[u8]) -> Option<u8>
    requires { 0 < radix }
    ensures { result ≡ byte_of (value_of radix digits.now) }
{
    match value_of(radix, digits) {
        Some(value) => { if value < 256 { Some(value as u8) } else { None } }
        None => None,
    }
}

#[tactic(auto, unfolding(crate::specs::Literals::escape_value))]
fn escape_value(rest: &[u8]) -> Option<u8>
    ensures { result ≡ escape_value rest.now }
{
    if is_octal(byte_at(rest, 1)) {
        let digits = rest_from(rest, 1);
        return byte_of(8, front_of(digits, place_within(Stop::NotOctal, digits, 3)));
    }
    if byte_at(rest, 1) != b'x' {
        return simple_escape(byte_at(rest, 1));
    }
    let digits = rest_from(rest, 2);
    let size = place_of(Stop::NotHex, digits);
    if size == 0 {
        None
    } else {
        byte_of(16, front_of(digits, size))
    }
}

#[tactic(auto, using(crate::proofs::Parts::escape_some, crate::proofs::Parts::escape_below), unfolding(crate::specs::Literals::part_size))]
fn part_size(rest: &[u8]) -> usize
    requires { 0 < length rest.now }
    ensures size { result ≡ part_size rest.now }
    ensures some { 0 < result }
    ensures within { result ≤ length rest.now }
{
    if begins_escape(rest) {
        escape_size(rest)
    } else {
        1
    }
}

#[tactic(auto, unfolding(crate::specs::Literals::part_value))]
pub fn part_value(rest: &[u8]) -> u8
    ensures { result ≡ part_value rest.now }
{
    if begins_escape(rest) {
        escape_value(rest).unwrap_or(0)
    } else {
        byte_at(rest, 0)
    }
}

fn ends(quote: u8, b: u8) -> bool
    ensures { result ≡ ends quote b }
{
    b == quote || b == b'\n'
}

#[tactic(auto, unfolding(crate::specs::Literals::is_bad_byte))]
fn is_bad_byte(quote: u8, b: u8) -> bool
    ensures { result ≡ is_bad_byte quote b }
{
    if quote == b'"' {
        b < 32 && !(b == 9 || (b == 11 || b == 12))
    } else {
        (b < 32 && !is_blank(b)) || 128 <= b
    }
}

fn is_character(rest: &[u8]) -> bool
    ensures { result ≡ is_character rest.now }
{
    begins_escape(rest)
        || (32 <= byte_at(rest, 0)
            && (byte_at(rest, 0) <= 126
                && !(byte_at(rest, 0) == b'\\' || byte_at(rest, 0) == b'\'')))
}

#[tactic(auto, unfolding(crate::specs::Literals::is_one_character))]
pub fn is_one_character(body: &[u8]) -> bool
    ensures { result ≡ is_one_character body.now }
{
    !body.is_empty() && (is_character(body) && byte_at(body, part_size(body)) == b'\'')
}

// How many bytes stand before the literal's end.
#[tactic(auto, using(crate::proofs::Parts::inner_step, crate::proofs::Parts::inner_end))]
pub fn inner_size(quote: u8, body: &[u8]) -> usize
    ensures size { result ≡ inner_size quote body.now }
    ensures within { result ≤ length body.now }
{
    let mut at = 0;
    'parts: while at < body.len() {
        let rest = rest_from(body, at);
        if ends(quote, byte_at(rest, 0)) {
            return at;
        }
        at += part_size(rest);
    }
    at
}

/// What is looked for in a literal.
#[derive(Clone, Copy)]
pub enum Look {
    Escapes,
    Bytes,
}

#[tactic(auto, unfolding(crate::specs::Literals::bad_escape))]
fn bad_escape(start: usize, rest: &[u8]) -> Option<Flaw>
    ensures { result ≡ bad_escape start rest.now }
{
    if begins_escape(rest) && escape_value(rest).is_none() {
        let size = escape_size(rest);
        Some(Flaw {
            start,
            size,
            rule: Rule::BadEscape,
        })
    } else {
        None
    }
}

#[tactic(auto, unfolding(crate::specs::Literals::byte_flaw))]
fn byte_flaw(quote: u8, start: usize, rest: &[u8]) -> Option<Flaw>
    ensures { result ≡ byte_flaw quote start rest.now }
{
    if is_splice(rest) {
        Some(Flaw {
            start,
            size: 1,
            rule: Rule::LeftOut,
        })
    } else if is_bad_byte(quote, byte_at(rest, 0)) {
        Some(Flaw {
            start,
            size: 1,
            rule: Rule::BadByte,
        })
    } else {
        None
    }
}

fn flaw_in(look: Look, quote: u8, start: usize, rest: &[u8]) -> Option<Flaw>
    ensures { result ≡ flaw_in look quote start rest.now }
{
    match look {
        Look::Escapes => bad_escape(start, rest),
        Look::Bytes => byte_flaw(quote, start, rest),
    }
}

#[tactic(auto, using(crate::proofs::Parts::flaw_step, crate::proofs::Parts::flaw_end))]
pub fn first_flaw(look: Look, quote: u8, body: &[u8]) -> Option<Flaw>
    ensures { result ≡ flaw_from look quote body.now body.now }
{
    let mut at = 0;
    'parts: while at < body.len() {
        let rest = rest_from(body, at);
        if ends(quote, byte_at(rest, 0)) {
            return None;
        }
        if let Some(flaw) = flaw_in(look, quote, 1 + at, rest) {
            return Some(flaw);
        }
        at += part_size(rest);
    }
    None
}

// The bytes of a string, given its spelling.
#[tactic(auto, using(crate::proofs::Parts::values_step, crate::proofs::Parts::values_end))]
pub fn string_bytes(alloc: Global, spelling: &[u8]) -> Result<Text, Memory>
    ensures { IfOk result (λ text. text ≡ string_bytes spelling.now) }
{
    let body = rest_from(spelling, 1);
    let mut text = Text::new(alloc);
    let mut at = 0;
    'parts: while at < body.len() {
        let rest = rest_from(body, at);
        if ends(b'"', byte_at(rest, 0)) {
            return Ok(text);
        }
        text.push(part_value(rest))?;
        at += part_size(rest);
    }
    Ok(text)
}
