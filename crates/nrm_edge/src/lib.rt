//! Where bytes come from, where they go, and files; what the bytes mean is known to the crates above. Each is a trait with a count
//! of faults; there are implementations in memory, which tell their bytes, and over std, which count their failures, and a sink
//! that gathers before another one.
//!
//! A caller makes its outside by `StdSource::new`, `StdSink::new` and `DirFiles::new`, or in memory by `MemSource::new`,
//! `MemSink::new` and `MemFiles::new`, and may set a `GatheringSink::new` before a sink. Then it calls `Files::fetch`,
//! `Source::take`, `put_all`, which is made of `Sink::put`, and `Sink::flush`, and sees what went out by `MemSink::held`, behind a
//! gathering sink through `GatheringSink::sink`. The test `a_gathering_sink_sends_on_in_few_pieces` runs one.
#![tactic(auto)]

mod dir_files;
mod files;
mod gathering;
mod mem_files;
mod mem_streams;
mod sink;
mod source;
mod std_streams;

pub use dir_files::DirFiles;
pub use files::{Fetched, FileFault, Files};
pub use gathering::GatheringSink;
pub use mem_files::MemFiles;
pub use mem_streams::{MemSink, MemSource};
pub use sink::{Sink, put_all};
pub use source::{Failed, Source};
pub use std_streams::{StdSink, StdSource};
