//! The outside: where files are read from, and where the answer is written to; both in memory,
//! where their bytes are told, and both of the system, where none are.
#![tactic(auto)]

mod failing_calls;
mod files;
mod memory_inputs;
mod memory_sink;
mod reads;
mod writer_sink;
mod writes;

pub use files::{FileInputs, Opens, SystemFiles};
pub use memory_inputs::MemoryInputs;
pub use memory_sink::MemorySink;
pub use reads::{Inputs, ReadFault};
pub use writer_sink::{StdoutSink, WriterSink};
pub use writes::{Failed, Sink, write_whole};
