// What a bus answers in place of an access that it did not carry out.
ghost use Rattle.camera.specs.Registers.{fault_address, fault_number};
ghost use Rattle.std.specs.Prelude.{◌≡◌};

// A fault keeps the address of the access that met it.
#[derive(Clone, Copy, Debug, PartialEq, Eq)]
pub enum Fault {
    // 21: the device did not acknowledge
    NotAcknowledged { address: u16 },
    // 22: there is no register at the address
    NoRegister { address: u16 },
}

impl Fault {
    // The number by which a fault is known outside. Each fault carries its address, and such an enum has no numbers of its own.
    pub fn number(self) -> u8
        ensures value { result ≡ fault_number self }
    {
        match self {
            Fault::NotAcknowledged { .. } => 21,
            Fault::NoRegister { .. } => 22,
        }
    }

    // The address of the access that met it.
    pub fn address(self) -> u16
        ensures value { result ≡ fault_address self }
    {
        match self {
            Fault::NotAcknowledged { address } | Fault::NoRegister { address } => address,
        }
    }
}
