// Why a packet is refused.
ghost use Rattle.std.specs.Prelude.{◌≡◌};
ghost use Rattle.packet.specs.Layout.{refusal_number};

// Why bytes are not read as a packet, or a packet is not written.
#[derive(Clone, Copy, Debug, PartialEq, Eq)]
pub enum PacketRefusal {
    // fewer than 10 bytes, or not 10 more than the byte count says
    Length = 31,
    // the first byte is not the process code
    Start = 32,
    // bytes 6 and 7 are not the checksum of the six before them
    FrontChecksum = 33,
    // the last two bytes are not the checksum of all the others
    Checksum = 34,
    // the reserved byte is not 0
    Reserved = 35,
    // a function that is unknown, or not the request's
    WrongFunction = 36,
    // a status or a byte count that does not fit the function
    Fields = 37,
    // a buffer of fewer than 14 bytes
    Buffer = 38,
}

impl PacketRefusal {
    // The number by which a refusal is known outside.
    pub fn number(self) -> u8
        ensures value { result ≡ refusal_number self }
    {
        self as u8
    }
}
