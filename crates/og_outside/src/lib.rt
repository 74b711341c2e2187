//! The edge to the outside: files that are opened by name, a writer of output, the words of the command line and the exit
//! status. Each part is proved over whatever keeps the contracts of reading, seeking and writing of std.
#![tactic(auto)]

mod edge;
mod file_store;
mod folder;
mod in_memory;
mod words;
mod writer_sink;

pub use edge::{carry_out, run};
pub use file_store::FileStore;
pub use folder::{Disk, Folder};
pub use in_memory::MemoryFolder;
pub use words::words_after_name;
pub use writer_sink::{Output, WriterSink};
