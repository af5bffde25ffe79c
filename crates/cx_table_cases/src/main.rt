//! Calls the calls on types, classes and derived classes, and tells what they answered, a line a call.
#![tactic(auto)]

mod classes;
mod derived;
mod make;
mod stop;
mod types;

use std::alloc::Global;
use std::io::{self, BufWriter, Write};
use stop::Stop;

fn tell<W: Write>(alloc: Global, out: &mut W) -> Result<(), Stop> {
    types::tell(alloc, out)?;
    classes::tell(alloc, out)?;
    derived::tell(alloc, out)
}

fn main(rt: HostRuntime) -> io::Result<()> {
    let mut out = BufWriter::new(rt.alloc(), io::writer(&rt))?;
    if let Err(stop) = tell(rt.alloc(), &mut out) {
        writeln!(out, "stopped: {stop:?}")?;
    }
    out.flush()
}
