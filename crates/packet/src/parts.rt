// What a packet says, read out of its bytes and written into them.
ghost use Rattle.std.specs.Prelude.{◌≡◌, ◌+◌, ◌-◌, ◌≤◌, [], IfOk, Ok, length, take};
ghost use Rattle.crc.specs.Crc.{crc_bytes, crc_of};
ghost use Rattle.packet.specs.Layout.{buffer_after, content, denial_status, function_code, packet, with_checksum, written};
ghost use Rattle.packet.specs.Reading.{access_of, answer_of, content_of, ends_in_checksum, then};
ghost use Rattle.packet.specs.Views.{known, opened_content, parts_content};

use crate::access::{Access, Denial, Function, Reply};
use crate::refusal::PacketRefusal;
use crc::checksum;

// The process code, with which every packet starts.
const PROCESS_CODE: u8 = 0x6E;

// The status of a packet that carries no denial: of a request, and of a reply to an access that was carried out.
pub(crate) const NO_DENIAL: u8 = 0;

// What a buffer has to hold: the largest packet, a write request.
pub const ROOM: usize = 14;

// What a packet says. A status that is no denial's is refused only behind the test on the function: it stays a byte here.
#[derive(Clone, Copy)]
pub(crate) struct Parts<'a> {
    pub(crate) status: u8,
    pub(crate) function: Function,
    pub(crate) arguments: &'a [u8],
}

impl<'a> Parts<'a> {
    // What a packet with a status, a function and arguments says.
    pub(crate) fn new(status: u8, function: Function, arguments: &'a [u8]) -> Parts<'a>
        ensures value { result ≡ record { status = status; function = function; arguments = arguments.entry } }
    {
        Parts {
            status,
            function,
            arguments,
        }
    }

    // Takes a packet apart, or refuses it by the first of its tests that fails; the last is that its function is known.
    pub(crate) fn open(packet: &'a [u8]) -> Result<Parts<'a>, PacketRefusal>
        ensures value { opened_content result ≡ then (content_of packet.now) known }
        ensures content { IfOk result (λ parts. content_of packet.now ≡ Ok (parts_content parts)) }
    {
        let [
            start,
            status,
            reserved,
            function,
            high,
            low,
            _,
            _,
            arguments @ ..,
            _,
            _,
        ] = packet
        else {
            return Err(PacketRefusal::Length);
        };
        if *start != PROCESS_CODE {
            return Err(PacketRefusal::Start);
        }
        if !ends_in_checksum(&packet[..8]) {
            return Err(PacketRefusal::FrontChecksum);
        }
        if arguments.len() != usize::from(u16::from_be_bytes([*high, *low])) {
            return Err(PacketRefusal::Length);
        }
        if !ends_in_checksum(packet) {
            return Err(PacketRefusal::Checksum);
        }
        if *reserved != 0 {
            return Err(PacketRefusal::Reserved);
        }
        let function = Function::try_from(*function)?;
        Ok(Parts::new(*status, function, arguments))
    }

    // What the packet of a request asks for.
    pub(crate) fn access(self) -> Result<Access, PacketRefusal>
        ensures value { result ≡ access_of (parts_content self.entry) }
    {
        match (self.function, self.status, self.arguments) {
            (Function::Read, NO_DENIAL, [high, low]) => Ok(Access::Read {
                address: u16::from_be_bytes([*high, *low]),
            }),
            (Function::Write, NO_DENIAL, [high, low, word_high, word_low]) => Ok(Access::Write {
                address: u16::from_be_bytes([*high, *low]),
                word: u16::from_be_bytes([*word_high, *word_low]),
            }),
            _ => Err(PacketRefusal::Fields),
        }
    }

    // What the packet of a reply says to a request with a function.
    pub(crate) fn reply(self, function: Function) -> Result<Reply, PacketRefusal>
        ensures value { result ≡ answer_of function (parts_content self.entry) }
    {
        if self.function != function {
            return Err(PacketRefusal::WrongFunction);
        }
        match (function, self.status, self.arguments) {
            (Function::Read, NO_DENIAL, [high, low]) => {
                let word = u16::from_be_bytes([*high, *low]);
                Ok(Reply::Read(Ok(word)))
            }
            (Function::Write, NO_DENIAL, []) => Ok(Reply::Write(Ok(()))),
            (_, status, []) => Ok(Reply::denied(function, Denial::try_from(status)?)),
            _ => Err(PacketRefusal::Fields),
        }
    }

    // Writes the packet to the front of a buffer, and says how many bytes it has. Inlined for speed where each kind of packet
    // is made, since what stands in its front is mostly known there: as a call, packing took twice the time.
    #[inline(always)]
    pub(crate) fn write(self, buffer: &mut [u8]) -> Result<usize, PacketRefusal>
        requires { length self.arguments.now ≤ 4 }
        ensures answer { result ≡ written (packet (parts_content self.entry)) buffer.old }
        ensures after { buffer.new ≡ buffer_after (packet (parts_content self.entry)) buffer.old }
    {
        if buffer.len() < ROOM {
            return Err(PacketRefusal::Buffer);
        }
        let [count_high, count_low] = (self.arguments.len() as u16).to_be_bytes();
        let function = u8::from(self.function);
        let front = [
            PROCESS_CODE,
            self.status,
            0,
            function,
            count_high,
            count_low,
        ];
        let end = 8 + self.arguments.len();
        buffer[..6].copy_from_slice(&front);
        seal(&mut buffer[..8]);
        buffer[8..end].copy_from_slice(self.arguments);
        // The sealed front has checksum 0, so the checksum of what stands behind it is that of the whole packet.
        seal(&mut buffer[8..end + 2]);
        Ok(end + 2)
    }
}

// Whether the last two bytes are the checksum of those before them. Two bytes at least are required, since by the
// definition an empty string ends in its checksum, which is 0.
#[tactic(auto, unfolding(crate::specs::Reading::ends_in_checksum))]
fn ends_in_checksum(bytes: &[u8]) -> bool
    requires { 2 ≤ length bytes.now }
    ensures value { result ≡ ends_in_checksum bytes.now }
{
    bytes
        .split_last_chunk::<2>()
        .is_some_and(|(front, sum)| u16::from_be_bytes(*sum) == checksum(front))
}

// Writes the checksum of the bytes before the last two into those two. Then all of them have checksum 0.
#[tactic(auto, using(crate::proofs::Checksums::sent), unfolding(crate::specs::Layout::with_checksum))]
fn seal(bytes: &mut [u8])
    requires { 2 ≤ length bytes.old }
    ensures after { bytes.new ≡ with_checksum (take (length bytes.old - 2) bytes.old) }
    ensures sealed { crc_of bytes.new ≡ 0 }
{
    let (front, sum) = bytes.split_last_chunk_mut::<2>().unwrap();
    *sum = checksum(front).to_be_bytes();
}
