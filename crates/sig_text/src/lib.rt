//! The files and sinks of the outside, as traits whose contracts say what they hold and count the
//! faults, with two loops over them that read a whole file and write all bytes. Objects in memory
//! tell their bytes; those over real files and streams only count. It stands on sig_base,
//! of which it takes `Text`.
#![tactic(auto)]

mod calls;
mod files;
mod gate;
mod host_files;
mod host_sink;
mod mem_files;
mod mem_sink;
mod put;
mod quiet_sink;
mod read;
mod sink;

pub use calls::MemAnswer;
pub use files::{Begun, Files, ReadStep};
pub use gate::Gate;
pub use host_files::HostFiles;
pub use host_sink::HostSink;
pub use mem_files::MemFiles;
pub use mem_sink::{MemSink, mem_sink_tells_bytes};
pub use put::put_all;
pub use quiet_sink::QuietSink;
pub use read::{ReadAnswer, read_all};
pub use sink::{Sink, WriteFault, Wrote};
