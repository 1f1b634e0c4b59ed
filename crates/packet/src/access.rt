// An access to a register, and what the far end replies to it.
ghost use Rattle.std.specs.Prelude.{◌≡◌};
ghost use Rattle.packet.specs.Layout.{address_of, denial_status, denied, function_code, function_of};
ghost use Rattle.packet.specs.Reading.{DecodesDenial, DecodesFunction};

use crate::refusal::PacketRefusal;

// The function of a packet, numbered by the byte that stands for it. A reply repeats the function of its request.
#[derive(Clone, Copy, Debug, PartialEq, Eq)]
pub enum Function {
    // a word is read out of a register
    Read = 0x10,
    // a word is written into a register
    Write = 0x11,
}

impl From<Function> for u8 {
    ghost from_gives = { λ function code. code ≡ function_code function };

    // The byte that stands for a function.
    fn from(function: Function) -> u8 {
        function as u8
    }
}

impl TryFrom<u8> for Function {
    type Error = PacketRefusal;

    ghost try_from_gives = { DecodesFunction };

    // The function that a byte stands for.
    fn try_from(code: u8) -> Result<Self, PacketRefusal> {
        match code {
            0x10 => Ok(Function::Read),
            0x11 => Ok(Function::Write),
            _ => Err(PacketRefusal::WrongFunction),
        }
    }
}

// One access to a register: what a request asks the far end to do.
#[derive(Clone, Copy, Debug, PartialEq, Eq)]
pub enum Access {
    // the word of the register at the address is asked for
    Read { address: u16 },
    // the word goes into the register at the address
    Write { address: u16, word: u16 },
}

impl Access {
    // The address that is read or written.
    pub fn address(self) -> u16
        ensures value { result ≡ address_of self }
    {
        match self {
            Access::Read { address } | Access::Write { address, .. } => address,
        }
    }

    // The function of a request for the access.
    pub fn function(self) -> Function
        ensures value { result ≡ function_of self }
    {
        match self {
            Access::Read { .. } => Function::Read,
            Access::Write { .. } => Function::Write,
        }
    }
}

// Why the far end did not carry out an access, numbered by the status of a reply that says so.
#[derive(Clone, Copy, Debug, PartialEq, Eq)]
pub enum Denial {
    // the device did not acknowledge
    NotAcknowledged = 1,
    // there is no register at the address
    NoRegister = 2,
}

impl From<Denial> for u8 {
    ghost from_gives = { λ denial status. status ≡ denial_status denial };

    // The status of a reply that carries a denial.
    fn from(denial: Denial) -> u8 {
        denial as u8
    }
}

impl TryFrom<u8> for Denial {
    type Error = PacketRefusal;

    ghost try_from_gives = { DecodesDenial };

    // The denial that a status says.
    fn try_from(status: u8) -> Result<Self, PacketRefusal> {
        match status {
            1 => Ok(Denial::NotAcknowledged),
            2 => Ok(Denial::NoRegister),
            _ => Err(PacketRefusal::Fields),
        }
    }
}

// What the far end answers: a read's word, or that a write is done, or why not. A word cannot answer a write.
#[derive(Clone, Copy, Debug, PartialEq, Eq)]
pub enum Reply {
    // to a read: the word of the register, or why it was not read
    Read(Result<u16, Denial>),
    // to a write: that it is done, or why not
    Write(Result<(), Denial>),
}

impl Reply {
    // The reply to a request with a function whose access was not carried out.
    pub fn denied(function: Function, denial: Denial) -> Reply
        ensures value { result ≡ denied function denial }
    {
        match function {
            Function::Read => Reply::Read(Err(denial)),
            Function::Write => Reply::Write(Err(denial)),
        }
    }
}
