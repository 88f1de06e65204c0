//! Shelves, from which files are read, and sinks, to which text is written.
#![tactic(auto)]

mod disk;
mod memory_shelf;
mod memory_sink;
mod read;
mod shelf;
mod sink;
mod sure;
mod write;

pub use disk::{FileShelf, OutSink};
pub use memory_shelf::MemoryShelf;
pub use memory_sink::MemorySink;
pub use read::{LONGEST_FILE, NotRead, read_file};
pub use shelf::{Shelf, ShelfFailed};
pub use sink::{Sink, SinkFailed};
pub use sure::{SureShelf, SureSink};
pub use write::write_all;
