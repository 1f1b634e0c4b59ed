// The registers, and the addresses at which they stand.
ghost use Rattle.camera.specs.Registers.{OneAddress, register_at};
ghost use Rattle.std.specs.Prelude.{◌≡◌};

use crate::fault::Fault;

// A register of sixteen bits.
#[derive(Clone, Copy, Debug, PartialEq, Eq)]
pub enum Register {
    // power down and up; nothing of it is modelled
    Power,
    // busy, booted, and the last command's response code
    Status,
    // a word written here is a command
    Command,
    // how many words the next command moves
    Length,
    // one of the 16 data words
    Data(u16),
    // one of the 512 words of the block buffer
    Block(u16),
}

// The register at an address. This is the public function whose contract has the law, and its form, by ranges of addresses, is
// the project's. A TryFrom would say the same, with the law in a ghost member.
#[tactic(auto, using(crate::proofs::Addresses::one_address))]
pub fn decode(address: u16) -> Result<Register, Fault>
    ensures value { result ≡ register_at address }
    ensures stands { OneAddress address (register_at address) }
{
    match address {
        0x0000 => Ok(Register::Power),
        0x0002 => Ok(Register::Status),
        0x0004 => Ok(Register::Command),
        0x0006 => Ok(Register::Length),
        0x0008..=0x0026 if address % 2 == 0 => Ok(Register::Data((address - 0x0008) / 2)),
        0xF800..=0xFBFE if address % 2 == 0 => Ok(Register::Block((address - 0xF800) / 2)),
        _ => Err(Fault::NoRegister { address }),
    }
}
