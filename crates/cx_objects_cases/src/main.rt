//! Runs the lists of store calls on standard input on both stores, and writes what each call answered and whether both
//! answered alike. Of the cases behind two empty lines, which a generator drew, it writes only how many calls they are.
//! Last it writes what the slots of one object of flat blocks show.
//!
//! The first lines declare types, each with a word for it, up to an empty line. A case ends at an empty line and begins
//! with no objects. A line is a call, or a remark behind `--`. Places have names of one letter, which the calls that
//! give one name first: `make NAME TYPE`, `field`, `base` and `elem` with an index, `add` with a number, `outer` with a
//! class, and `follow` from a pointer. A place is told by its object's number, its steps, and `+` where it is past an
//! end.
#![tactic(auto)]

mod table;

ghost use Rattle.cx_type_defs.specs.Tables.{Tables};

use crate::table::slots_shown;
use cx_blocks::Blocks;
use cx_objects::TreeStore;
use cx_store::Store;
use cx_store_cases::{Sample, Stop, Tried, run};
use std::alloc::Global;
use std::io;

fn tried<S: Store>(alloc: Global, types: &str, script: &str, store: &mut S) -> Result<Tried, Stop>
    requires { (t : Tables) → S.fits store.old t }
{
    let sample = Sample::read(alloc, types)?;
    run(alloc, &sample, store, script)
}

/// What the plain store answers, and whether flat blocks answer the same.
fn both(alloc: Global, types: &str, script: &str) -> Result<(Tried, bool), Stop> {
    let Ok(mut plain) = TreeStore::new(alloc) else {
        return Err(Stop::Memory);
    };
    let Ok(mut flat) = Blocks::new(alloc) else {
        return Err(Stop::Memory);
    };
    let first = tried(alloc, types, script, &mut plain)?;
    let second = tried(alloc, types, script, &mut flat)?;
    let same = first.report == second.report;
    Ok((first, same))
}

/// What is written.
fn report(alloc: Global, text: &str) -> Result<String, Stop> {
    let Some((types, cases)) = text.split_once("\n\n") else {
        return Err(Stop::NotAsked);
    };
    let Some((told, drawn)) = cases.split_once("\n\n\n") else {
        return Err(Stop::NotAsked);
    };
    let (told, told_same) = both(alloc, types, told)?;
    let (drawn, drawn_same) = both(alloc, types, drawn)?;
    let slots = slots_shown(alloc)?;
    let text = format!(in alloc;
        "{}{} calls tried, flat blocks answer the same: {told_same}\n{} calls drawn, flat blocks answer the same: {drawn_same}\n\n{slots}",
        told.report, told.calls, drawn.calls
    );
    Ok(text?)
}

fn main(rt: HostRuntime) -> io::Result<()> {
    let text = io::read_to_string(rt.alloc(), rt.reader())?;
    match report(rt.alloc(), text.as_str()) {
        Ok(written) => print!(rt; "{written}"),
        Err(_) => println!(rt; "no report"),
    }
}
