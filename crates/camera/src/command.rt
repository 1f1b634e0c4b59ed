// Command words: what a word in the command register asks for.
ghost use Rattle.camera.specs.Commands.{OneWord, command_of, kind_of, module_of, protection, type_bits, word_of};
ghost use Rattle.camera.specs.Attributes.{offers};
ghost use Rattle.camera.specs.Execution.{moved};
ghost use Rattle.std.specs.Prelude.{◌≡◌, ◌≤◌};

use crate::attribute::{Attribute, Kind, size_of};
use crate::directory::attribute_in;

// The fields of a command word, the lowest first: the type bits, the command, the module, and what stands above the module.
// Command and module together are a place of the directory.
const TYPE_MASK: u16 = 0x0003;

const PLACE_SHIFT: u32 = 2;

const PLACE_MASK: u16 = 0x03FF;

const MODULE_SHIFT: u32 = 8;

const MODULE_MASK: u16 = 0x000F;

const TOP_SHIFT: u32 = 12;

// The module whose commands are protected.
const PROTECTED_MODULE: u16 = 8;

// The protection bit, as it stands above the module.
const PROTECTION_BIT: u16 = 4;

// A command: its kind, and the number of the attribute. Any number of sixteen bits may be asked for, and one that no attribute
// has is answered by a rule: an enum of attributes would ask more of callers.
#[derive(Clone, Copy, Debug, PartialEq, Eq)]
pub struct Command {
    pub kind: Kind,
    pub number: u16,
}

impl Kind {
    // The type bits of a command word.
    fn type_bits(self) -> u16
        ensures value { result ≡ type_bits self }
    {
        self as u16
    }

    // The kind that type bits ask for, if there is one. An Option and no TryFrom, as for a command: `Command::of` alone asks, and
    // passes on no more than None, so that an error type, which would be public as Kind is, would have nothing to say.
    fn of(bits: u16) -> Option<Kind>
        ensures value { result ≡ kind_of bits }
    {
        match bits {
            0 => Some(Kind::Get),
            1 => Some(Kind::Set),
            2 => Some(Kind::Run),
            _ => None,
        }
    }
}

// What stands above the module in a command word: the protection bit for module 8, nothing for the others.
fn protection_of(word: u16) -> u16
    ensures value { result ≡ protection (module_of word) }
{
    if word >> MODULE_SHIFT & MODULE_MASK == PROTECTED_MODULE {
        PROTECTION_BIT
    } else {
        0
    }
}

impl Command {
    // Whether there is such an attribute and it has that kind of command.
    pub fn is_offered(self) -> bool
        ensures value { result ≡ offers self.kind self.number }
    {
        Attribute::of(self.number).is_some_and(|found| found.offers(self.kind))
    }

    // How many words the command moves: a get and a set as many as the attribute has, a run none.
    pub fn size(self) -> usize
        ensures value { result ≡ moved self.kind self.number }
        ensures bound { result ≤ 512 }
    {
        match self.kind {
            Kind::Get | Kind::Set => size_of(self.number),
            Kind::Run => 0,
        }
    }

    // The command word of a command, or nothing if there is no such attribute.
    pub fn word(self) -> Option<u16>
        ensures value { result ≡ word_of self }
    {
        let found = Attribute::of(self.number)?;
        Some(found.base + self.kind.type_bits() + (protection_of(found.base) << TOP_SHIFT))
    }

    // What a command word asks for, or nothing if it is none. An Option and no TryFrom: a word is no command in one way only, and
    // an error type would say no more than None. It is a public function, and stays one that answers an Option.
    #[tactic(auto, using(crate::proofs::CommandWords::one_word))]
    pub fn of(word: u16) -> Option<Command>
        ensures value { result ≡ command_of word }
        ensures stands { OneWord word }
    {
        let number = attribute_in(word >> PLACE_SHIFT & PLACE_MASK)?;
        if word >> TOP_SHIFT != protection_of(word) {
            return None;
        }
        let kind = Kind::of(word & TYPE_MASK)?;
        Some(Command { kind, number })
    }
}
