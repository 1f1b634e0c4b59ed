// The link itself: both ends, with a bus below.
ghost use Rattle.std.specs.Prelude.{◌≡◌, ◌≤◌, length, take, Ok};
ghost use Rattle.camera.specs.Steps.{ended};
ghost use Rattle.link.specs.Ends.{answered};
ghost use Rattle.link.specs.Line.{carried};
ghost use Rattle.packet.specs.Layout.{request_packet, room};

use crate::answers::Answer;
use crate::ends::{answer_to, ask, serve};
use camera::{Bus, Fault};
use packet::{Access, ROOM};
use std::marker::Model;

// A bus that carries each access as a packet to the bus below it.
#[derive(Drop)]
pub struct PacketLink<B> {
    below: B,
}

// In clauses a link is the bus below it.
impl<B> Model for PacketLink<B> {
    ghost Value = { B };

    ghost view = { λ link. link.below };
}

impl<B: Bus> PacketLink<B> {
    // Lays a link over a bus.
    pub fn over(below: B) -> PacketLink<B>
        ensures value { result ≡ below }
    {
        PacketLink { below }
    }

    // The bus below, to ask it what its accesses do not tell.
    pub fn below(&self) -> &B
        ensures value { result.now ≡ self.now }
    {
        &self.below
    }

    // Takes the link off again.
    pub fn into_bus(self) -> B
        ensures value { result ≡ self }
    {
        self.below
    }

    // Carries out an access on the bus below: as a request to the far end, and as a reply back.
    fn exchange(&mut self, access: Access) -> Result<Answer, Fault>
        ensures outcome { ended result (B.Bus.state self.new) ≡ carried access (B.Bus.state self.old) }
    {
        let mut request = [0; ROOM];
        let mut reply = [0; ROOM];
        let asked = ask(access, &mut request).unwrap();
        let replied = serve(&mut self.below, &request[..asked], &mut reply).unwrap();
        answer_to(access, &reply[..replied]).unwrap()
    }
}

impl<B: Bus> Bus for PacketLink<B> {
    ghost state = { B.Bus.state };

    ghost possible = { B.Bus.possible };

    fn read(&mut self, address: u16) -> Result<u16, Fault> {
        match self.exchange(Access::Read { address })? {
            Answer::Word(word) => Ok(word),
            Answer::Done => unreachable!(),
        }
    }

    fn write(&mut self, address: u16, word: u16) -> Result<(), Fault> {
        match self.exchange(Access::Write { address, word })? {
            Answer::Done => Ok(()),
            Answer::Word(_) => unreachable!(),
        }
    }
}
