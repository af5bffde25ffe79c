//! The text of a value.

ghost use Rattle.std.specs.Prelude.{◌≡◌, IfOk};
ghost use Rattle.cx_typed.specs.Texts.{value_text_of};

use crate::judge::Value;
use cx_base::{IntType, Memory, Text};
use itoa::Buffer;
use std::alloc::Global;

/// The text of a value: `true` and `false` of a bool, and another number in decimal.
pub fn value_text(alloc: Global, value: Value) -> Result<Text, Memory>
    ensures { IfOk result (λ text. text ≡ value_text_of value) }
{
    let Value::Int(int) = value;
    if matches!(int.ty, IntType::Bool) {
        let word = if int.value == 0 { "false" } else { "true" };
        return Text::from_slice(alloc, word.as_bytes());
    }
    let mut buffer = Buffer::new();
    Text::from_slice(alloc, buffer.format(int.value).as_bytes())
}
