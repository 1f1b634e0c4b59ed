// A simulated camera head: a bus that keeps the camera's state itself.
#![tactic(auto)]

mod access;
mod execution;
mod inner;
mod making;
mod memory;
mod picture;
mod questions;
mod rejection;
mod settings;
mod slices;
mod table;

pub use memory::Head;
pub use questions::HeadReport;
pub use settings::{BadSettings, HeadSettings};
