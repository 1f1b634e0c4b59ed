// A panel's session with a camera, over any bus.
#![tactic(auto)]

mod collecting;
mod commands;
mod orders;
mod states;
mod steps;

pub use states::{Asleep, InFlight, Parked, Ready, Session};
