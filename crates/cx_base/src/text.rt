ghost use Rattle.std.specs.Prelude.{◌≡◌, ◌<◌, ◌↔◌, [], ◌∷◌, ◌++◌, length, slice_index, IsTrue, IfOk, OnOk, OnErr};

use crate::Memory;
use std::alloc::Global;
use std::marker::Model;

/// How many bytes a text holds without an allocation: most names and all operators are shorter.
const SHORT: usize = 14;

#[derive(Debug, Drop)]
struct Short {
    len: u8,
    bytes: [u8; 14],
}

#[derive(Debug, Drop)]
enum Held {
    Short(Short),
    Long(Box<Vec<u8>>),
}

/// Bytes of text, that contracts see as a list.
#[derive(Debug, Drop)]
pub struct Text {
    alloc: Global,
    held: Held,
}

impl Model for Text {
    ghost use Rattle.std.specs.Prelude.{List as Seq, ℕ};
    ghost use Rattle.cx_base.specs.Texts.{held_bytes, IsHeld};

    ghost Value = { Seq ℕ };

    ghost view = { λ t. held_bytes t.held };

    ghost invariant = { λ t. IsHeld t.held };
}

impl Text {
    /// No bytes.
    pub fn new(alloc: Global) -> Text
        ensures { result ≡ [] }
    {
        Text {
            alloc,
            held: Held::Short(Short {
                len: 0,
                bytes: [0; 14],
            }),
        }
    }

    /// A copy of these bytes.
    pub fn from_slice(alloc: Global, bytes: &[u8]) -> Result<Text, Memory>
        ensures { IfOk result (λ text. text ≡ bytes.now) }
    {
        if bytes.len() <= SHORT {
            let mut short = [0; 14];
            short[..bytes.len()].copy_from_slice(bytes);
            let held = Held::Short(Short {
                len: bytes.len() as u8,
                bytes: short,
            });
            return Ok(Text { alloc, held });
        }
        let held = Held::Long(long(alloc, bytes)?);
        Ok(Text { alloc, held })
    }

    /// The bytes.
    pub fn as_slice(&self) -> &[u8]
        ensures { result.now ≡ self.now }
    {
        match &self.held {
            Held::Short(short) => &short.bytes[..short.len as usize],
            Held::Long(bytes) => bytes.as_slice(),
        }
    }

    /// Puts a byte at the end. A refused push changes nothing.
    pub fn push(&mut self, item: u8) -> Result<(), Memory>
        ensures ok { OnOk result (self.new ≡ self.old ++ item ∷ []) }
        ensures err { OnErr result (self.new ≡ self.old) }
    {
        match &mut self.held {
            Held::Short(short) => {
                let len = short.len as usize;
                if len < SHORT {
                    short.bytes[len] = item;
                    short.len += 1;
                    return Ok(());
                }
                let mut more = long(self.alloc, short.bytes.as_slice())?;
                if more.push(item).is_err() {
                    return Err(Memory);
                }
                self.held = Held::Long(more);
                Ok(())
            }
            Held::Long(bytes) => match bytes.push(item) {
                Ok(()) => Ok(()),
                Err(_) => Err(Memory),
            },
        }
    }

    /// How many bytes.
    pub fn len(&self) -> usize
        ensures { result ≡ length self.now }
    {
        self.as_slice().len()
    }

    /// The byte at a place, from 0.
    pub fn at(&self, i: usize) -> u8
        requires { i < length self.now }
        ensures { result ≡ slice_index self.now i }
    {
        self.as_slice()[i]
    }

    /// The bytes are equal.
    pub fn same(&self, other: &Text) -> bool
        ensures { IsTrue result ↔ (self.now ≡ other.now) }
    {
        self.as_slice() == other.as_slice()
    }

    /// A text with the same bytes.
    pub fn copy(&self) -> Result<Text, Memory>
        ensures { IfOk result (λ text. text ≡ self.now) }
    {
        Text::from_slice(self.alloc, self.as_slice())
    }
}

fn long(alloc: Global, bytes: &[u8]) -> Result<Box<Vec<u8>>, Memory>
    ensures { IfOk result (λ long. long.value.items ≡ bytes.now) }
{
    let Ok(held) = Vec::from_slice(alloc, bytes) else {
        return Err(Memory);
    };
    match Box::new(alloc, held) {
        Ok(long) => Ok(long),
        Err(_) => Err(Memory),
    }
}
