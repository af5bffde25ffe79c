//! What the slots of an object show as its unions change.

use crate::tried;
use cx_blocks::Blocks;
use cx_store_cases::Stop;
use std::alloc::Global;

/// A class with a union that has another union as its second member.
const TYPES: &str = "int int\nV union int int\nU union int V\nO struct U";

/// Calls on an object of it, each list behind those before it.
const CALLS: [&str; 5] = [
    "make o O\nfield u o 0\nfield k u 0\nfield v u 1\nfield x v 1\n",
    "activate u 0 alive\ninit k 1\n",
    "activate u 1 alive\n",
    "activate v 1 alive\ninit x 3\n",
    "release o\n",
];

/// A line for the state after each list of calls: the four slots of the object, what stands behind them, and what stands
/// where there is no object.
pub(crate) fn slots_shown(alloc: Global) -> Result<String, Stop> {
    let mut script = String::new(alloc);
    let mut text = String::new(alloc);
    for calls in &CALLS {
        script.push_str(calls)?;
        let Ok(mut blocks) = Blocks::new(alloc) else {
            return Err(Stop::Memory);
        };
        tried(alloc, TYPES, script.as_str(), &mut blocks)?;
        for i in 0..5 {
            let slot = blocks.slot(0, i);
            let shown = format!(in alloc; "{slot:?} ")?;
            text.push_str(shown.as_str())?;
        }
        let other = blocks.slot(1, 0);
        let shown = format!(in alloc; "{other:?}\n")?;
        text.push_str(shown.as_str())?;
    }
    Ok(text)
}
