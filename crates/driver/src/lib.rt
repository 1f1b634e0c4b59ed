// What a session does to a camera, over any bus: sending a command, polling the status register, fetching an attribute's
// words.
#![tactic(auto)]

mod access;
mod polling;
mod transfer;

pub use polling::{Awaited, poll};
pub use transfer::{check_command, fetch, send};
