// The camera behind a bus: its registers, its attributes and command words, and what an access does to its state.
#![tactic(auto)]

mod attribute;
mod bank;
mod bus;
mod command;
mod directory;
mod fault;
mod laws;
mod limits;
mod mode;
mod register;

pub use attribute::{
    Attribute, COLOUR_TABLE, COLUMNS, FPA_TEMPERATURE, FRAME_MEAN, Kind, Kinds, Limits, Name,
    RESTORE, ROWS, SERIAL_NUMBER, STATUS, USER_DEFAULTS, is_saved, is_settable, size_of,
};
pub use bank::Bank;
pub use bus::Bus;
pub use command::Command;
pub use fault::Fault;
pub use laws::{defaults_come_back, faults_keep_addresses, gets_change_none, sets_change_one};
pub use limits::{all_at_most, word_at};
pub use mode::Mode;
pub use register::{Register, decode};
