// The two ends of a line that carries accesses as packets. Each end works on bytes alone, so that they can stand in two
// programs.
ghost use Rattle.std.specs.Prelude.{◌≡◌, ◌≤◌, length, Ok, Err, OnErr};
ghost use Rattle.camera.specs.Steps.{ended};
ghost use Rattle.link.specs.Ends.{OnlyReplies, OnlyRequests, answered, far_end, reply_read, reply_to, served};
ghost use Rattle.link.specs.Line.{carried};
ghost use Rattle.packet.specs.Layout.{buffer_after, over, reply_packet, request_packet, room, written};
ghost use Rattle.packet.specs.Reading.{RequestStands, request_of};

use crate::answers::{Answer, answer_in, reply_for};
use camera::{Bus, Fault};
use packet::{
    Access, PacketRefusal, ROOM, Reply, pack_reply, pack_request, unpack_reply, unpack_request,
};

// The near end, before the line: writes the request for an access to the front of a buffer of at least 14 bytes, and says
// how many bytes it has. It is `pack_request` under the name of its place, so that the near end before the line has a
// function of its own, as the near end behind it and the far end have.
pub fn ask(access: Access, buffer: &mut [u8]) -> Result<usize, PacketRefusal>
    ensures answer { result ≡ written (request_packet access) buffer.old }
    ensures after { buffer.new ≡ buffer_after (request_packet access) buffer.old }
    ensures stands { RequestStands access }
{
    pack_request(access, buffer)
}

// Carries out an access on a bus.
pub fn carry_out<B: Bus>(bus: &mut B, access: Access) -> Result<Answer, Fault>
    ensures outcome { ended result (B.Bus.state bus.new) ≡ carried access (B.Bus.state bus.old) }
{
    match access {
        Access::Read { address } => Ok(Answer::Word(bus.read(address)?)),
        Access::Write { address, word } => {
            bus.write(address, word)?;
            Ok(Answer::Done)
        }
    }
}

// Carries out an access that was asked for, writes the reply to the front of a buffer, and says how many bytes it has.
fn reply_to<B: Bus>(bus: &mut B, access: Access, buffer: &mut [u8; ROOM]) -> usize
    ensures outcome { ended (Ok result) (far_end buffer.new (B.Bus.state bus.new)) ≡ reply_to access (carried access (B.Bus.state bus.old)) buffer.old }
{
    let answer = carry_out(bus, access);
    pack_reply(reply_for(access.function(), answer), buffer).unwrap()
}

// The far end: reads a request, carries out its access on a bus, writes the reply to the front of a buffer of at least 14
// bytes, and says how many bytes it has. Bytes that are no request, and a buffer that is too small, are refused, and
// nothing is carried out.
pub fn serve<B: Bus>(bus: &mut B, request: &[u8], buffer: &mut [u8]) -> Result<usize, PacketRefusal>
    ensures outcome { ended result (far_end buffer.new (B.Bus.state bus.new)) ≡ served request.now (far_end buffer.old (B.Bus.state bus.old)) }
    ensures untouched { OnErr result (bus.new ≡ bus.old) }
    ensures whole { OnlyRequests request.now }
{
    let access = unpack_request(request)?;
    let front = buffer
        .first_chunk_mut::<ROOM>()
        .ok_or(PacketRefusal::Buffer)?;
    Ok(reply_to(bus, access, front))
}

// The near end, behind the line: what the reply to an access answers.
#[tactic(auto, unfolding(crate::specs::Ends::reply_read))]
pub fn answer_to(access: Access, bytes: &[u8]) -> Result<Result<Answer, Fault>, PacketRefusal>
    ensures value { result ≡ answered access bytes.now }
    ensures whole { OnlyReplies access bytes.now }
{
    let reply = unpack_reply(access.function(), bytes)?;
    Ok(answer_in(access.address(), reply))
}
