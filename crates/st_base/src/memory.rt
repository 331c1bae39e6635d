// Sources, sinks, files and a clock in memory, which do at each call what they are made to.
mod clock;
mod reader;
mod schedule;
mod sink;
mod slice;
mod source;

pub use clock::MemClock;
pub use reader::{MemReader, copy_at};
pub use sink::{MemSink, SureSink};
pub use slice::SliceReader;
pub use source::{MemSource, SureSource};
