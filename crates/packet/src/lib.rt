// Packets: a register access, and the reply to it, as bytes on a serial line.
#![tactic(auto)]

mod access;
mod parts;
mod refusal;

ghost use Rattle.std.specs.Prelude.{◌≡◌};
ghost use Rattle.packet.specs.Layout.{buffer_after, reply_packet, request_packet, written};
ghost use Rattle.packet.specs.Reading.{ReplyStands, RequestStands, reply_of, request_of};

pub use access::{Access, Denial, Function, Reply};
pub use parts::ROOM;
use parts::{NO_DENIAL, Parts};
pub use refusal::PacketRefusal;

// Requests and replies have a function each, both ways: they differ in what they carry, in what refuses them and in their
// laws, and what they share is `Parts`.

// Reads a byte string as a request.
pub fn unpack_request(packet: &[u8]) -> Result<Access, PacketRefusal>
    ensures answer { result ≡ request_of packet.now }
{
    let parts = Parts::open(packet)?;
    parts.access()
}

// Reads a byte string as the reply to a request with a function.
pub fn unpack_reply(function: Function, packet: &[u8]) -> Result<Reply, PacketRefusal>
    ensures answer { result ≡ reply_of function packet.now }
{
    let parts = Parts::open(packet)?;
    parts.reply(function)
}

// Writes the packet of a request to the front of a buffer of at least 14 bytes, and says how many bytes it has. The buffer is
// the caller's, here and in the link: no packet lies on the heap, so what is answered is a number of bytes and no vector.
#[tactic(auto, using(crate::proofs::Checksums::sent))]
pub fn pack_request(access: Access, buffer: &mut [u8]) -> Result<usize, PacketRefusal>
    ensures answer { result ≡ written (request_packet access) buffer.old }
    ensures after { buffer.new ≡ buffer_after (request_packet access) buffer.old }
    ensures stands { RequestStands access }
{
    match access {
        Access::Read { address } => {
            let arguments = address.to_be_bytes();
            Parts::new(NO_DENIAL, Function::Read, &arguments).write(buffer)
        }
        Access::Write { address, word } => {
            let [address_high, address_low] = address.to_be_bytes();
            let [word_high, word_low] = word.to_be_bytes();
            let arguments = [address_high, address_low, word_high, word_low];
            Parts::new(NO_DENIAL, Function::Write, &arguments).write(buffer)
        }
    }
}

// Writes the packet of a reply to the front of a buffer of at least 14 bytes, and says how many bytes it has.
pub fn pack_reply(reply: Reply, buffer: &mut [u8]) -> Result<usize, PacketRefusal>
    ensures answer { result ≡ written (reply_packet reply) buffer.old }
    ensures after { buffer.new ≡ buffer_after (reply_packet reply) buffer.old }
    ensures stands { ReplyStands reply }
{
    match reply {
        Reply::Read(Ok(word)) => {
            let bytes = word.to_be_bytes();
            Parts::new(NO_DENIAL, Function::Read, &bytes).write(buffer)
        }
        Reply::Read(Err(denial)) => Parts::new(denial.into(), Function::Read, &[]).write(buffer),
        Reply::Write(Ok(())) => Parts::new(NO_DENIAL, Function::Write, &[]).write(buffer),
        Reply::Write(Err(denial)) => {
            Parts::new(denial.into(), Function::Write, &[]).write(buffer)
        }
    }
}
