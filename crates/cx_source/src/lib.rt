//! Where bytes come from and go to: sources and sinks that count their faults, what is fed by pieces, and whole reads
//! and writes over them.
#![tactic(auto)]

mod feed;
mod mem_sink;
mod mem_source;
mod null_sink;
mod plain_source;
mod read;
mod std_sink;
mod std_source;
mod traits;
mod write;

pub use feed::Feed;
pub use mem_sink::MemSink;
pub use mem_source::MemSource;
pub use null_sink::NullSink;
pub use plain_source::PlainSource;
pub use read::{ReadAnswer, feed_all, read_all};
pub use std_sink::StdSink;
pub use std_source::StdSource;
pub use traits::{Failed, Sink, Source};
pub use write::{WriteFault, write_all};
