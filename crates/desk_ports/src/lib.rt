//! The one way to the outside: inputs to read, outputs to write, and the desks that provide them.
#![tactic(auto)]

mod ahead;
mod calls;
mod desk;
mod file;
mod laws;
mod log;
mod memory;
mod part;
mod progress;
mod quiet;
mod read_faults;
mod row;
mod sink;
mod source;
mod transfer;
mod turns;
mod write_faults;
mod written;

pub use ahead::{MOST_AHEAD, ReadAhead};
pub use calls::Call;
pub use desk::{Desk, Failed, Inlet, Outlet};
pub use file::FileDesk;
pub use laws::{
    faults_count_once, finished_is_held, pieces_join, quiet_desks_never_fail,
    runs_follow_their_course, writes_go_by_their_answer,
};
pub use memory::MemDesk;
pub use quiet::QuietDesk;
pub use row::{ROW_BYTES, Row};
pub use transfer::{fill, write_all};
pub use turns::{Run, Turn, drive};
