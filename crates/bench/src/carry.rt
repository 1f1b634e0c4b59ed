// Carries out a directive and prints what came of it.
use crate::directive::Directive;
use crate::error::ScriptError;
use crate::shown::{Hex, Shown, report};
use crate::station::Station;
use crate::value::ValueDirective;
use crc::checksum;
use packet::{PacketRefusal, ROOM, pack_reply, pack_request, unpack_reply, unpack_request};
use words::WrongSize;

// Carries out a directive of any kind.
pub(crate) fn carry_out(
    rt: &HostRuntime,
    station: &mut Station,
    directive: Directive,
) -> Result<(), ScriptError> {
    match directive {
        Directive::Flight(directive) => station.spend(rt, directive)?,
        // nothing else may come while a command is in flight
        _ if station.is_in_flight() => return Err(ScriptError::OutOfPlace),
        Directive::Crc(bytes) => {
            let crc = checksum(bytes.as_slice());
            println!(rt; "crc {crc:04X}")?;
        }
        Directive::Request(access, size) => {
            print_packet(rt, "request", size, |buffer| pack_request(access, buffer))?;
        }
        Directive::Reply(reply, size) => {
            print_packet(rt, "reply", size, |buffer| pack_reply(reply, buffer))?;
        }
        Directive::UnpackRequest(bytes) => {
            let answer = unpack_request(bytes.as_slice()).map(Shown);
            report(rt, "unpack-request", answer.map_err(PacketRefusal::number))?;
        }
        Directive::UnpackReply(function, bytes) => {
            let answer = unpack_reply(function, bytes.as_slice()).map(Shown);
            report(rt, "unpack-reply", answer.map_err(PacketRefusal::number))?;
        }
        Directive::Value(ValueDirective::Put(words)) => {
            let shown = Hex::<u16, 4>(words.as_slice());
            println!(rt; "put :{shown}")?;
        }
        Directive::Value(ValueDirective::Take(value)) => {
            report(rt, "take", value.map_err(WrongSize::number))?;
        }
        Directive::Head(directive) => station.carry_out(rt, directive)?,
        Directive::Session(directive) => station.call(rt, directive)?,
    }
    Ok(())
}

// Packs a packet into a buffer of the size asked for, or one with room for any packet. Each byte of the buffer is EE at
// first, so that those that the packet leaves alone can be seen. Prints the whole buffer where its size was asked for,
// else the packet alone.
fn print_packet<P: FnOnce(&mut [u8]) -> Result<usize, PacketRefusal>>(
    rt: &HostRuntime,
    name: &str,
    size: Option<usize>,
    pack: P,
) -> Result<(), ScriptError>
    requires callable { P.IsAlwaysCallable pack }
{
    let mut buffer = vec![in rt.alloc(); 0xEE; size.unwrap_or(ROOM)]?;
    let written = pack(buffer.as_mut_slice());
    if let (Ok(length), None) = (written, size) {
        buffer.truncate(length);
    }
    // not by `report`: the buffer is shown behind a refusal too
    let shown = Hex::<u8, 2>(buffer.as_slice());
    match written {
        Ok(_) => println!(rt; "{name} :{shown}")?,
        Err(refusal) => {
            let number = refusal.number();
            println!(rt; "{name} refused {number} :{shown}")?;
        }
    }
    Ok(())
}
