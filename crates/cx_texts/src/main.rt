//! Reads a table of units, and tells of each what the evaluator says of it.
//!
//! A row begins with a line `===== KIND NAME`; the lines below it, up to the next such line, are its text.
#![tactic(auto)]

mod answers;
mod rows;

use anyhow::Result;
use rows::{Row, heading};
use std::io::{self, BufWriter, Read, Write};

fn main(rt: HostRuntime) -> Result<()> {
    let alloc = rt.alloc();
    let mut input = Vec::new(alloc);
    rt.reader().read_to_end(&mut input)?;
    let mut out = BufWriter::new(alloc, io::writer(&rt))?;
    let mut row = Row::new(alloc, "");
    for line in input.as_slice().split_inclusive(|byte| *byte == b'\n') {
        match heading(line) {
            Some(heading) => {
                answers::tell(alloc, &row, &mut out)?;
                row = Row::new(alloc, heading);
            }
            None => row.text.extend_from_slice(line)?,
        }
    }
    answers::tell(alloc, &row, &mut out)?;
    out.flush()?;
    Ok(())
}
