//! Classes of bytes.
ghost use Rattle.std.specs.Prelude.{◌≡◌, ◌≤◌, length, take, drop};
ghost use Rattle.cx_tokens.specs.Bytes.{byte_at, is_blank, is_space_or_tab, is_digit, is_octal, is_hex, begins_name, is_name_byte, is_splice};

// The byte at a place, and 0 past the end.
pub fn byte_at(bytes: &[u8], i: usize) -> u8
    ensures { result ≡ byte_at bytes.now i }
{
    if i < bytes.len() { bytes[i] } else { 0 }
}

// What stands from a place on, and nothing past the end.
pub fn rest_from(bytes: &[u8], at: usize) -> &[u8]
    ensures { result.now ≡ drop at bytes.now }
{
    let (_, rest) = bytes.split_at(at.min(bytes.len()));
    rest
}

// So many bytes from the front on, or all where there are fewer.
pub fn front_of(bytes: &[u8], size: usize) -> &[u8]
    ensures { result.now ≡ take size bytes.now }
{
    if size <= bytes.len() {
        let (front, _) = bytes.split_at(size);
        front
    } else {
        bytes
    }
}

pub fn is_blank(b: u8) -> bool
    ensures { result ≡ is_blank b }
{
    b == b' ' || (9 <= b && b <= 13)
}

pub fn is_space_or_tab(b: u8) -> bool
    ensures { result ≡ is_space_or_tab b }
{
    b == b' ' || b == b'\t'
}

pub fn is_digit(b: u8) -> bool
    ensures { result ≡ is_digit b }
{
    b'0' <= b && b <= b'9'
}

pub fn is_octal(b: u8) -> bool
    ensures { result ≡ is_octal b }
{
    b'0' <= b && b <= b'7'
}

pub fn is_hex(b: u8) -> bool
    ensures { result ≡ is_hex b }
{
    is_digit(b) || ((b'A' <= b && b <= b'F') || (b'a' <= b && b <= b'f'))
}

pub fn begins_name(b: u8) -> bool
    ensures { result ≡ begins_name b }
{
    (b'a' <= b && b <= b'z') || ((b'A' <= b && b <= b'Z') || b == b'_')
}

pub fn is_name_byte(b: u8) -> bool
    ensures { result ≡ is_name_byte b }
{
    begins_name(b) || is_digit(b)
}

pub fn is_splice(rest: &[u8]) -> bool
    ensures { result ≡ is_splice rest.now }
{
    byte_at(rest, 0) == b'\\'
        && (byte_at(rest, 1) == b'\n' || (byte_at(rest, 1) == b'\r' && byte_at(rest, 2) == b'\n'))
}
