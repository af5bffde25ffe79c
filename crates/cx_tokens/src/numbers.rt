//! Numbers: the longest run that may be one, and its value.
ghost use Rattle.std.specs.Prelude.{◌≡◌, ◌<◌, ◌≤◌, length, fold};
ghost use Rattle.cx_tokens.specs.Numbers.{are_digits, are_separated, begins_number, body_of, digit_value, digits_of, goes_on, is_digit_in, is_digit_or_quote, is_exponent, is_l, is_sign, is_u, literal, number, number_more, number_type, of_digits, prefix_size, radix_of, suffix_of, suffix_of_one, suffix_of_three, suffix_of_two, suffixed, tail_of, typed, value_of};
ghost use Rattle.cx_tokens.specs.Shapes.{shape_of};
ghost use Rattle.cx_tokens.specs.Values.{checked_digit, fits64};

use crate::TokenKind;
use crate::bytes::{byte_at, front_of, is_digit, is_hex, is_name_byte, rest_from};
use crate::scan::{Stop, place_of};
use crate::shapes::{Shape, broken};
use cx_base::{IntType, Rule};
use cx_ints::{Literal, Suffix, literal_type};

pub fn begins_number(rest: &[u8]) -> bool
    ensures { result ≡ begins_number rest.now }
{
    is_digit(byte_at(rest, 0)) || (byte_at(rest, 0) == b'.' && is_digit(byte_at(rest, 1)))
}

fn is_sign(b: u8) -> bool
    ensures { result ≡ is_sign b }
{
    b == b'+' || b == b'-'
}

fn is_exponent(b: u8) -> bool
    ensures { result ≡ is_exponent b }
{
    (b == b'e' || b == b'E') || (b == b'p' || b == b'P')
}

fn goes_on(before: u8, last: u8, rest: &[u8]) -> bool
    ensures { result ≡ goes_on before last rest.now }
{
    is_name_byte(byte_at(rest, 0))
        || (byte_at(rest, 0) == b'.'
            || ((byte_at(rest, 0) == b'\'' && is_name_byte(byte_at(rest, 1)))
                || (is_sign(byte_at(rest, 0)) && (is_exponent(last) && !(before == b'\'')))))
}

// How many bytes go on with a run behind its first byte.
fn number_more(first: u8, bytes: &[u8]) -> usize
    ensures more { result ≡ number_more 0 first bytes.now }
    ensures within { result ≤ length bytes.now }
{
    let mut before = 0;
    let mut last = first;
    let mut at = 0;
    'run: while at < bytes.len() {
        if !goes_on(before, last, rest_from(bytes, at)) {
            return at;
        }
        before = last;
        last = bytes[at];
        at += 1;
    }
    at
}

fn digit_value(b: u8) -> u8
    ensures { result ≡ digit_value b }
{
    if b <= b'9' {
        b.saturating_sub(48)
    } else if b <= b'F' {
        b - 55
    } else {
        b.saturating_sub(87)
    }
}

fn is_digit_in(radix: u8, b: u8) -> bool
    ensures { result ≡ is_digit_in radix b }
{
    is_hex(b) && digit_value(b) < radix
}

pub fn is_digit_or_quote(radix: u8, b: u8) -> bool
    ensures { result ≡ is_digit_or_quote radix b }
{
    is_digit_in(radix, b) || b == b'\''
}

fn radix_of(run: &[u8]) -> u8
    ensures { result ≡ radix_of run.now }
{
    if byte_at(run, 0) == b'0' {
        if byte_at(run, 1) == b'x' || byte_at(run, 1) == b'X' {
            16
        } else if byte_at(run, 1) == b'b' || byte_at(run, 1) == b'B' {
            2
        } else {
            8
        }
    } else {
        10
    }
}

fn prefix_size(radix: u8) -> usize
    ensures { result ≡ prefix_size radix }
{
    if radix == 16 || radix == 2 { 2 } else { 0 }
}

fn body_of(run: &[u8]) -> &[u8]
    ensures { result.now ≡ body_of run.now }
{
    rest_from(run, prefix_size(radix_of(run)))
}

fn digits_of(run: &[u8]) -> &[u8]
    ensures { result.now ≡ digits_of run.now }
{
    let body = body_of(run);
    front_of(body, place_of(Stop::NotDigit(radix_of(run)), body))
}

fn tail_of(run: &[u8]) -> &[u8]
    ensures { result.now ≡ tail_of run.now }
{
    let body = body_of(run);
    rest_from(body, place_of(Stop::NotDigit(radix_of(run)), body))
}

// A digit at least, and quotes only between digits.
fn are_digits(digits: &[u8]) -> bool
    ensures { result ≡ are_digits digits.now }
{
    let mut last = b'\'';
    for b in digits {
        if *b == b'\'' && last == b'\'' {
            return false;
        }
        last = *b;
    }
    last != b'\''
}

fn checked_digit(radix: u8, value: Option<u64>, b: u8) -> Option<u64>
    ensures { result ≡ checked_digit radix value b }
{
    if b == b'\'' {
        return value;
    }
    match value {
        Some(value) => match u64::from(radix).checked_mul(value) {
            Some(product) => product.checked_add(u64::from(digit_value(b))),
            None => None,
        },
        None => None,
    }
}

// The value of some digits, where it takes no more than 64 bits.
pub fn value_of(radix: u8, digits: &[u8]) -> Option<u64>
    requires { 0 < radix }
    ensures { result ≡ fits64 (value_of radix digits.now) }
{
    let mut value = Some(0);
    'digits: for b in digits {
        value = checked_digit(radix, value, *b);
    }
    value
}

fn is_u(b: u8) -> bool
    ensures { result ≡ is_u b }
{
    b == b'u' || b == b'U'
}

fn is_l(b: u8) -> bool
    ensures { result ≡ is_l b }
{
    b == b'l' || b == b'L'
}

fn suffix_of_one(tail: &[u8]) -> Option<Suffix>
    ensures { result ≡ suffix_of_one tail.now }
{
    if is_u(byte_at(tail, 0)) {
        Some(Suffix::U)
    } else if is_l(byte_at(tail, 0)) {
        Some(Suffix::L)
    } else {
        None
    }
}

fn suffix_of_two(tail: &[u8]) -> Option<Suffix>
    ensures { result ≡ suffix_of_two tail.now }
{
    let (first, second) = (byte_at(tail, 0), byte_at(tail, 1));
    if is_l(first) && second == first {
        Some(Suffix::LL)
    } else if (is_u(first) && is_l(second)) || (is_l(first) && is_u(second)) {
        Some(Suffix::UL)
    } else {
        None
    }
}

fn suffix_of_three(tail: &[u8]) -> Option<Suffix>
    ensures { result ≡ suffix_of_three tail.now }
{
    let (first, second, third) = (byte_at(tail, 0), byte_at(tail, 1), byte_at(tail, 2));
    if (is_u(first) && (is_l(second) && third == second))
        || (is_l(first) && (second == first && is_u(third)))
    {
        Some(Suffix::ULL)
    } else {
        None
    }
}

fn suffix_of(tail: &[u8]) -> Option<Suffix>
    ensures { result ≡ suffix_of tail.now }
{
    match tail.len() {
        0 => Some(Suffix::None),
        1 => suffix_of_one(tail),
        2 => suffix_of_two(tail),
        3 => suffix_of_three(tail),
        _ => None,
    }
}

fn number_type(value: u64, radix: u8, suffix: Suffix) -> Option<IntType>
    ensures { result ≡ number_type value radix suffix }
{
    literal_type(value, radix == 10, suffix)
}

fn typed(size: usize, value: u64, ty: Option<IntType>) -> Shape
    ensures { result ≡ shape_of (typed size value ty) }
{
    match ty {
        Some(ty) => Shape::Token(size, TokenKind::Number(Literal::new(ty, value))),
        None => broken(size, Rule::NumberRange),
    }
}

fn of_digits(size: usize, radix: u8, digits: &[u8], suffix: Suffix) -> Shape
    requires { 0 < radix }
    ensures { result ≡ shape_of (of_digits size radix digits.now suffix) }
{
    if !are_digits(digits) {
        return broken(size, Rule::BadNumber);
    }
    match value_of(radix, digits) {
        Some(value) => typed(size, value, number_type(value, radix, suffix)),
        None => broken(size, Rule::NumberRange),
    }
}

fn literal(size: usize, run: &[u8]) -> Shape
    ensures { result ≡ shape_of (literal size run.now) }
{
    match suffix_of(tail_of(run)) {
        Some(suffix) => of_digits(size, radix_of(run), digits_of(run), suffix),
        None => broken(size, Rule::BadNumber),
    }
}

#[tactic(auto, unfolding(crate::specs::Numbers::number))]
pub fn number(rest: &[u8]) -> Shape
    ensures { result ≡ shape_of (number rest.now) }
{
    let size = 1 + number_more(byte_at(rest, 0), rest_from(rest, 1));
    literal(size, front_of(rest, size))
}
