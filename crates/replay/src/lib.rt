// What the parts of the program replays share (oracle/ANSWERS.md): reading a record, numbers out of it, parts of buffers, counts.
#![tactic(auto)]

pub mod buffers;
pub mod counts;
pub mod files;
pub mod record;
pub mod stored;

pub use buffers::{cut, holds, part};
pub use counts::Counts;
pub use files::{LONGEST, read_full};
pub use record::Record;
pub use stored::Stored;
