// A bus with none, one or two packet links laid over it: which one is chosen while the program runs.
#![tactic(auto)]

ghost use Rattle.stack.specs.Stacking.{bottom, links_of, stacked};
ghost use Rattle.std.specs.Prelude.{◌≡◌};

use camera::{Bus, Fault};
use link::PacketLink;

// How many links are laid over a bus. A number of links above two cannot be written.
#[derive(Clone, Copy, Debug, PartialEq, Eq)]
pub enum Links {
    // the bus is used as it is
    None,
    // each access crosses one line
    One,
    // each access crosses two lines, one after the other
    Two,
}

// A bus with its links. Each of its methods has an arm for each number of links, since each number makes another type of
// bus. A `dyn Bus` would lie on the heap, and could not be taken off again as the bus that it was.
#[derive(Drop)]
pub enum Stack<B> {
    // the bus itself
    Direct(B),
    // the bus under one link
    Linked(PacketLink<B>),
    // the bus under a link that lies under another
    Twice(PacketLink<PacketLink<B>>),
}

impl<B: Bus> Stack<B> {
    // Lays links over a bus.
    pub fn over(bus: B, links: Links) -> Stack<B>
        ensures value { result ≡ stacked links bus }
    {
        match links {
            Links::None => Stack::Direct(bus),
            Links::One => Stack::Linked(PacketLink::over(bus)),
            Links::Two => Stack::Twice(PacketLink::over(PacketLink::over(bus))),
        }
    }

    // How many links there are.
    pub fn links(&self) -> Links
        ensures value { result ≡ links_of self.now }
    {
        match self {
            Stack::Direct(_) => Links::None,
            Stack::Linked(_) => Links::One,
            Stack::Twice(_) => Links::Two,
        }
    }

    // The bus below them, to ask it what its accesses do not tell.
    pub fn bus(&self) -> &B
        ensures value { result.now ≡ bottom self.now }
    {
        match self {
            Stack::Direct(bus) => bus,
            Stack::Linked(link) => link.below(),
            Stack::Twice(link) => link.below().below(),
        }
    }

    // Takes the links off again.
    pub fn into_bus(self) -> B
        ensures value { result ≡ bottom self }
    {
        match self {
            Stack::Direct(bus) => bus,
            Stack::Linked(link) => link.into_bus(),
            Stack::Twice(link) => link.into_bus().into_bus(),
        }
    }
}

impl<B: Bus> Bus for Stack<B> {
    ghost state = { λ stack. B.Bus.state (bottom stack) };

    ghost possible = { λ stack. B.Bus.possible (bottom stack) };

    fn read(&mut self, address: u16) -> Result<u16, Fault> {
        match self {
            Stack::Direct(bus) => bus.read(address),
            Stack::Linked(link) => link.read(address),
            Stack::Twice(link) => link.read(address),
        }
    }

    fn write(&mut self, address: u16, word: u16) -> Result<(), Fault> {
        match self {
            Stack::Direct(bus) => bus.write(address, word),
            Stack::Linked(link) => link.write(address, word),
            Stack::Twice(link) => link.write(address, word),
        }
    }
}
