// Why a call was not carried out.
ghost use Rattle.calls.specs.Refusals.{address_in, code_in, number_of};
ghost use Rattle.calls.specs.declared.refusal.Refusal.TheVariants.{Bus};
ghost use Rattle.std.specs.Prelude.{◌≡◌};

use camera::Fault;

// A refusal keeps what came with it: the fault of the bus with its address, or the camera's response code.
#[derive(Clone, Copy, Debug, PartialEq, Eq)]
pub enum Refusal {
    // 1: the session is asleep
    Asleep,
    // 2: the session is awake already
    Awake,
    // 3: another command is parked
    CommandParked,
    // 4: no command is parked
    NothingParked,
    // 5: there is no such attribute, or it lacks that kind of command
    NotOffered,
    // 6: a get's buffer or a set's words are not as many as the attribute's words
    WrongSize,
    // 7: the budget is not 1 to 1,000 status reads
    BadBudget,
    // 8: an access was not acknowledged. The other fault, that there is no register at an address, has its own number, 22; a
    // session's accesses never meet it
    Bus(Fault),
    // 9: the camera was still booting or busy after all budgeted status reads
    StillBusy,
    // 10: the camera refused the command with this response code
    Camera(i8),
}

// A bus's fault goes up as it is.
impl From<Fault> for Refusal {
    ghost from_gives = { λ fault r. r ≡ Bus fault };

    fn from(fault: Fault) -> Refusal {
        Refusal::Bus(fault)
    }
}

impl Refusal {
    // The number by which a refusal is known outside. Two refusals carry values, and such an enum has no numbers of its own.
    pub fn number(self) -> u8
        ensures value { result ≡ number_of self }
    {
        match self {
            Refusal::Asleep => 1,
            Refusal::Awake => 2,
            Refusal::CommandParked => 3,
            Refusal::NothingParked => 4,
            Refusal::NotOffered => 5,
            Refusal::WrongSize => 6,
            Refusal::BadBudget => 7,
            Refusal::Bus(Fault::NotAcknowledged { .. }) => 8,
            Refusal::Bus(fault) => fault.number(),
            Refusal::StillBusy => 9,
            Refusal::Camera(_) => 10,
        }
    }

    // The address of the access that met a fault.
    pub fn address(self) -> Option<u16>
        ensures value { result ≡ address_in self }
    {
        match self {
            Refusal::Bus(fault) => Some(fault.address()),
            _ => None,
        }
    }

    // The response code with which the camera refused the command.
    pub fn code(self) -> Option<i8>
        ensures value { result ≡ code_in self }
    {
        match self {
            Refusal::Camera(code) => Some(code),
            _ => None,
        }
    }
}
