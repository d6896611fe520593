//! Reading and writing named files, and writing to a stream, behind two traits.
//!
//! A [`Desk`] holds files by name and works on one of them at a time. A [`Sink`] takes bytes.
//! Both say in ghost members what they hold and how often they have failed, so that code over
//! them can say which bytes it read and wrote, and that it gave up only after a failure.
#![tactic(auto)]

mod desk;
mod fault;
mod folder_desk;
mod memory_desk;
mod memory_files;
mod numbers;
mod sink;
mod whole_file;

pub use desk::Desk;
pub use fault::{Failed, IoFault};
pub use folder_desk::FolderDesk;
pub use memory_desk::MemoryDesk;
pub use sink::{MemorySink, Sink, StreamSink};
pub use whole_file::{ReadAllFault, read_all, write_file};
