//! The outside as traits: what is read, what is written, which files there are; and numbers as text.
//!
//! A source, a sink and a store have meanings that only contracts see: what is left, what was written,
//! what a file holds, and counts of what failed. A function over the traits says what it does to them,
//! and each of its answers `Failed` has its cause in a count that rose. In memory the outside is exact,
//! with faults where a test asks for them; the standard streams and the current folder are the edge
//! where the system's word is trusted.
#![tactic(auto)]

mod adapters;
mod bytes;
mod causes;
mod counts;
mod digits;
mod dir_store;
mod listed;
mod memory_sink;
mod memory_source;
mod memory_store;
mod null;
mod places;
mod saves;
mod schedule;
mod sink;
mod source;
mod store;

pub use adapters::{StdSink, StdSource};
pub use bytes::{Bytes, Name};
pub use causes::{Failed, NoMemory};
pub use digits::{put_dec, put_hex};
pub use dir_store::DirStore;
pub use listed::Listed;
pub use memory_sink::MemSink;
pub use memory_source::MemSource;
pub use memory_store::MemStore;
pub use null::{NullSink, NullSource};
pub use sink::Sink;
pub use source::Source;
pub use store::{LoadErr, Store};
