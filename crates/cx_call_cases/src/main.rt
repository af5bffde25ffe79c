//! Calls the operations on numbers, and tells what they answered, a line a call.
#![tactic(auto)]

mod operations;

use std::io::{self, BufWriter, Write};

fn main(rt: HostRuntime) -> io::Result<()> {
    let mut out = BufWriter::new(rt.alloc(), io::writer(&rt))?;
    operations::tell(&mut out)?;
    out.flush()
}
