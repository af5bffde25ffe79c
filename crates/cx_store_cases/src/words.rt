//! The words of a call.

use crate::stop::Stop;
use cx_store::{Birth, Kind, Phase};

/// The words for the phases of a class's life.
pub(crate) const PHASES: [(&str, Phase); 7] = [
    ("unborn", Phase::Unborn),
    ("bases", Phase::Bases),
    ("body", Phase::Body),
    ("alive", Phase::Alive),
    ("ending", Phase::Ending),
    ("ending-bases", Phase::EndingBases),
    ("ended", Phase::Ended),
];

/// The words for births.
pub(crate) const BIRTHS: [(&str, Birth); 3] = [
    ("here", Birth::Here),
    ("usable", Birth::Usable),
    ("opaque", Birth::Opaque),
];

/// The words for kinds of objects.
pub(crate) const KINDS: [(&str, Kind); 6] = [
    ("static", Kind::Static),
    ("auto", Kind::Auto),
    ("temp", Kind::Temp),
    ("heap", Kind::Heap),
    ("array", Kind::HeapArray),
    ("literal", Kind::Literal),
];

/// A word of a call, counted from 0; behind the last one the empty word.
pub(crate) fn word<'a>(words: &[&'a str], i: usize) -> &'a str {
    match words.get(i) {
        Some(word) => word,
        None => "",
    }
}

/// What a word stands for.
pub(crate) fn choice<T: Copy + Drop>(table: &[(&str, T)], text: &str) -> Result<T, Stop> {
    for entry in table {
        if entry.0 == text {
            return Ok(entry.1);
        }
    }
    Err(Stop::NotAsked)
}

/// The name that a word is: one letter.
pub(crate) fn name(text: &str) -> Result<u8, Stop> {
    match text.as_bytes() {
        [letter] => Ok(*letter),
        _ => Err(Stop::NotAsked),
    }
}

/// The number that a word is.
pub(crate) fn number(text: &str) -> Result<u32, Stop> {
    match text.parse::<u32>() {
        Ok(number) => Ok(number),
        Err(_) => Err(Stop::NotAsked),
    }
}

/// The whole number that a word is.
pub(crate) fn integer(text: &str) -> Result<i128, Stop> {
    match text.parse::<i128>() {
        Ok(number) => Ok(number),
        Err(_) => Err(Stop::NotAsked),
    }
}
