ghost use Rattle.std.specs.Prelude.{◌≡◌, ◌+◌, ◌++◌, ◌^◌, ◌<◌, ◌≤◌, length, IfOk, OnOk};
ghost use Rattle.cx_made.specs.Unit.{first_line, line, next_state, unit};

use cx_append::{append, append_number};
use cx_base::Memory;
use std::alloc::Global;

fn first_line() -> &'static str
    ensures { result.now ≡ first_line }
{
    "constexpr unsigned f(unsigned n) { unsigned t = n; for (unsigned i = 0u; i < 8u; ++i) t = t * 3u + i; return t; }\n"
}

fn next_state(state: u32) -> u32
    ensures { result ≡ next_state state }
{
    ((u64::from(state) * 1_103_515_245 + 12_345) % 2_147_483_648) as u32
}

// A constant more, numbered so.
#[tactic(auto, using(std::proofs::lemmas::List::append_assoc), unfolding(crate::specs::Unit::line))]
fn append_line(text: &mut Vec<u8>, number: u32, state: u32) -> Result<(), Memory>
    ensures { OnOk result (text.new.items ≡ text.old.items ++ line number state) }
{
    append(text, b"constexpr unsigned v")?;
    append_number(text, number as u64)?;
    append(text, b" = f(")?;
    append_number(text, state as u64)?;
    append(text, b"u);\n")
}

/// The unit of a seed with so many constants: a function, and constants that call it with the states of a generator
/// of numbers, which begins with the seed.
pub fn made_unit(alloc: Global, seed: u32, count: u32) -> Result<Vec<u8>, Memory>
    requires { count ≤ 10_000 }
    ensures unit { IfOk result (λ text. text.items ≡ unit seed count) }
    ensures short { IfOk result (λ text. length text.items ≤ 4_194_304) }
{
    let mut text = Vec::new(alloc);
    append(&mut text, first_line().as_bytes())?;
    let mut state = seed;
    'lines: for number in 0..count {
        state = next_state(state);
        append_line(&mut text, number + 1, state)?;
    }
    Ok(text)
}
