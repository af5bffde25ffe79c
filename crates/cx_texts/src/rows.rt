//! The rows of a table.

use std::alloc::{AllocError, Global};
use std::str;

/// How a row's text is taken.
#[derive(Clone, Copy, Debug, PartialEq, Eq)]
pub enum Kind {
    /// A unit whose tree or first fault is asked for.
    Tree,
    /// A unit whose report is asked for.
    Report,
    /// A unit, each front of whose tokens is asked for its tree or first fault.
    Fronts,
    /// No unit: the table of rules is asked for.
    Rules,
    /// The five parts of a unit, with `@` between them. The second and the fourth stand in the unit so many times.
    Nest(u16),
}

/// A row of a table.
#[derive(Drop)]
pub struct Row<'a> {
    pub kind: Kind,
    /// Empty where no row has begun.
    pub name: &'a str,
    pub text: Vec<u8>,
}

fn kind_of(word: &str) -> Kind {
    match word {
        "report" => Kind::Report,
        "fronts" => Kind::Fronts,
        "rules" => Kind::Rules,
        _ => match word.parse() {
            Ok(times) => Kind::Nest(times),
            Err(_) => Kind::Tree,
        },
    }
}

/// The kind and the name of the row that begins with a line, if one does.
pub fn heading(line: &[u8]) -> Option<&str> {
    str::from_utf8(line).ok()?.strip_prefix("===== ")
}

impl<'a> Row<'a> {
    /// A row with no text yet.
    pub fn new(alloc: Global, heading: &'a str) -> Row<'a> {
        let (word, name) = heading.split_once(' ').unwrap_or(("", ""));
        Row {
            kind: kind_of(word),
            name: name.trim_end(),
            text: Vec::new(alloc),
        }
    }

    /// The text without the line feed behind it.
    pub fn source(&self) -> &[u8] {
        let text = self.text.as_slice();
        text.strip_suffix(b"\n".as_slice()).unwrap_or(text)
    }
}

/// The unit that parts with `@` between them make.
pub fn nested(alloc: Global, parts: &[u8], times: u16) -> Result<Vec<u8>, AllocError> {
    let mut unit = Vec::new(alloc);
    for (place, part) in parts.split(|byte| *byte == b'@').enumerate() {
        let count = if place % 2 == 1 { times } else { 1 };
        for _ in 0..count {
            unit.extend_from_slice(part)?;
        }
    }
    Ok(unit)
}
