//! What a tool reads and writes: files that are taken whole, and sinks that bytes are put into.
#![tactic(auto)]

mod disk_files;
mod files;
mod mem_files;
mod mem_sink;
mod named_file;
mod noted_sink;
mod print_sinks;
mod sink;
mod sure_files;
mod sure_sink;

pub use disk_files::DiskFiles;
pub use files::{Files, TakeFault};
pub use mem_files::MemFiles;
pub use mem_sink::MemSink;
pub use noted_sink::NotedSink;
pub use print_sinks::{NoteSink, OutSink};
pub use sink::{Failed, Sink};
pub use sure_files::SureFiles;
pub use sure_sink::SureSink;
