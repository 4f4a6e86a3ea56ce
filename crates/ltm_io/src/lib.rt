//! - **What it is**: what the engine meets outside itself: a folder of files to read, whole ([`Folder`]) or piece by piece
//!   ([`OpenFolder`]), an input to read ([`Source`]) and its lines ([`Lines`]), and a sink to write to ([`Sink`]), each in memory,
//!   where its bytes are told and it can be made to fail at chosen calls, and real.
//! - **On what it stands**: `ltm_units` and `std`. [`RealFolder`], [`DiskFolder`], [`RealFile`], [`RealInput`] and [`RealOutput`]
//!   are a few lines over `std`, tell nothing of their bytes, and are trusted.
//! - **What a call costs**: a fetch reads a file once into the caller's buffer, and at most one byte more than is allowed; opening
//!   a file reads none of it, but in memory copies it. `Lines::create` takes all the memory; `next` takes none, copies each byte of
//!   the line once, and reads from the source only when all that it has read is given. A write passes its bytes on once.
//! - **When to change it here**: when a file is added that a folder may hold, when another end is read from or written to, or when
//!   a script is cut into lines in another way.
#![tactic(auto)]

mod disk_folder;
mod doc;
mod folder;
mod lines;
mod mem_files;
mod mem_folder;
mod mem_sink;
mod mem_source;
mod open_folder;
mod read_ahead;
mod real_file;
mod real_folder;
mod real_input;
mod real_output;
mod sink;
mod source;
mod sure_sink;
mod sure_source;

pub use disk_folder::DiskFolder;
pub use doc::{DOC_COUNT, Doc};
pub use folder::{Fetched, Folder};
pub use lines::{Line, Lines};
pub use mem_folder::MemFolder;
pub use mem_sink::MemSink;
pub use mem_source::MemSource;
pub use open_folder::{OpenFault, OpenFolder};
pub use real_file::RealFile;
pub use real_folder::RealFolder;
pub use real_input::RealInput;
pub use real_output::RealOutput;
pub use sink::{Sink, SinkError, write_all_known};
pub use source::{ReadFault, Source};
pub use sure_sink::SureSink;
pub use sure_source::SureSource;
