//! Walks over bytes up to the first place where a test holds.
ghost use Rattle.std.specs.Prelude.{◌≡◌, ◌≤◌, min, length};
ghost use Rattle.cx_tokens.specs.Bytes.{place_where};
ghost use Rattle.cx_tokens.specs.Scanning.{stops_at};

use crate::bytes::{
    byte_at, is_hex, is_name_byte, is_octal, is_space_or_tab, is_splice, rest_from,
};
use crate::numbers::is_digit_or_quote;

/// Where a scan stops.
#[derive(Clone, Copy)]
pub enum Stop {
    LineFeed,
    CommentEnd,
    Splice,
    NotSpaceOrTab,
    NotName,
    NotOctal,
    NotHex,
    NotDigit(u8),
}

fn stops_at(stop: Stop, rest: &[u8]) -> bool
    ensures { result ≡ stops_at stop rest.now }
{
    match stop {
        Stop::LineFeed => byte_at(rest, 0) == b'\n',
        Stop::CommentEnd => byte_at(rest, 0) == b'*' && byte_at(rest, 1) == b'/',
        Stop::Splice => is_splice(rest),
        Stop::NotSpaceOrTab => !is_space_or_tab(byte_at(rest, 0)),
        Stop::NotName => !is_name_byte(byte_at(rest, 0)),
        Stop::NotOctal => !is_octal(byte_at(rest, 0)),
        Stop::NotHex => !is_hex(byte_at(rest, 0)),
        Stop::NotDigit(radix) => !is_digit_or_quote(radix, byte_at(rest, 0)),
    }
}

// How many bytes stand before the first place where it stops, but no more than `most`.
pub fn place_within(stop: Stop, bytes: &[u8], most: usize) -> usize
    ensures { result ≡ min most (place_where (stops_at stop) bytes.now) }
{
    let mut at = 0;
    'places: while at < most && at < bytes.len() {
        if stops_at(stop, rest_from(bytes, at)) {
            return at;
        }
        at += 1;
    }
    at
}

// How many bytes stand before the first place where it stops, all where it doesn't.
#[tactic(auto, using(crate::proofs::Places::place_below))]
pub fn place_of(stop: Stop, bytes: &[u8]) -> usize
    ensures place { result ≡ place_where (stops_at stop) bytes.now }
    ensures within { result ≤ length bytes.now }
{
    place_within(stop, bytes, bytes.len())
}
