//! Sources and sinks over several calls, and whole reads and writes over them.
#![tactic(auto)]

#[cfg(test)]
mod memory_tests;
#[cfg(test)]
mod std_tests;
