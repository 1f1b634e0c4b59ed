// A packet link: a bus that carries each access as a packet to a bus below it.
#![tactic(auto)]

mod answers;
mod ends;
mod laws;
mod packet_link;

pub use answers::Answer;
pub use ends::{answer_to, ask, carry_out, serve};
pub use laws::accesses_cross;
pub use packet_link::PacketLink;
