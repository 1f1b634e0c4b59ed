// What a panel's calls do: the refusals of a call, the outcome of every call in every state of a session, call sequences,
// and the laws that hold of every one of them. This crate has the definitions and the proofs; the calls themselves are
// made by the session, against these definitions.
#![tactic(auto)]

mod laws;
mod refusal;
mod stage;

pub use laws::{
    commands_are_answered, eights_are_unacknowledged, laws_of_sequences, sequences_split,
    still_busy_means_spent,
};
pub use refusal::Refusal;
pub use stage::Stage;
