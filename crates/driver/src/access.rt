// Reads and writes of registers over a bus.
ghost use Rattle.calls.specs.Accesses.{place_register, register_read, register_written};
ghost use Rattle.camera.specs.Banks.{is_data};
ghost use Rattle.camera.specs.Registers.{Exists, address_of};
ghost use Rattle.camera.specs.Steps.{ended};
ghost use Rattle.driver.specs.Driving.{Exists-prop, bank_size};
ghost use Rattle.std.specs.Prelude.{◌≡◌, ◌<◌};

use camera::{Bank, Bus, Fault, Register};

// A register that the camera has.
#[derive(Clone, Copy)]
pub(crate) struct Existing {
    register: Register,
    ghost exists: { Exists register } by { Exists-prop register },
}

impl Existing {
    // the registers outside the banks that a session uses
    pub(crate) const STATUS: Existing = Existing {
        register: Register::Status,
    };

    pub(crate) const COMMAND: Existing = Existing {
        register: Register::Command,
    };

    pub(crate) const LENGTH: Existing = Existing {
        register: Register::Length,
    };

    // The register of a word that passes through a bank. Its place is below the bank's size, as the number of words is at most
    // that in the two loops of transfer.rt that call this; a type of places would be made and taken apart at each word.
    pub(crate) fn in_bank(bank: Bank, place: u16) -> Existing
        requires { place < bank_size (is_data bank) }
        ensures value { result.register ≡ place_register (is_data bank) place }
    {
        let register = match bank {
            Bank::Data => Register::Data(place),
            Bank::Block => Register::Block(place),
        };
        Existing { register }
    }

    // Its address: the way back of the camera's `decode`, with the same first addresses. It stands here and not beside `decode`:
    // it goes back only from a register that exists, which this struct carries and a public function would have to require.
    fn address(self) -> u16
        ensures value { result ≡ address_of self.register }
    {
        match self.register {
            Register::Power => 0x0000,
            Register::Status => 0x0002,
            Register::Command => 0x0004,
            Register::Length => 0x0006,
            Register::Data(place) => 0x0008 + 2 * place,
            Register::Block(place) => 0xF800 + 2 * place,
        }
    }

    // Reads it.
    #[tactic(auto, using(crate::proofs::Reaching::reads))]
    pub(crate) fn read<B: Bus>(self, bus: &mut B) -> Result<u16, Fault>
        ensures outcome { ended result (B.Bus.state bus.new) ≡ register_read self.register (B.Bus.state bus.old) }
    {
        bus.read(self.address())
    }

    // Writes a word to it.
    #[tactic(auto, using(crate::proofs::Reaching::writes))]
    pub(crate) fn write<B: Bus>(self, bus: &mut B, word: u16) -> Result<(), Fault>
        ensures outcome { ended result (B.Bus.state bus.new) ≡ register_written self.register word (B.Bus.state bus.old) }
    {
        bus.write(self.address(), word)
    }
}
