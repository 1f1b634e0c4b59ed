// The banks: the registers through which the words of attributes pass.
ghost use Rattle.camera.specs.Banks.{is_data};
ghost use Rattle.camera.specs.Execution.{by_data};
ghost use Rattle.std.specs.Prelude.{◌≡◌};

use crate::attribute::size_of;

// How many words an attribute may have that passes through the data registers: as many as there are data registers.
const DATA_WORDS: usize = 16;

// One of the two places where words stand on their way: the data registers or the block buffer.
#[derive(Clone, Copy, Debug, PartialEq, Eq)]
pub enum Bank {
    // the 16 data registers
    Data,
    // the block buffer of 512 words
    Block,
}

impl Bank {
    // The bank through which the words of the attribute of a number pass.
    pub fn of(number: u16) -> Bank
        ensures value { is_data result ≡ by_data number }
    {
        if size_of(number) <= DATA_WORDS {
            Bank::Data
        } else {
            Bank::Block
        }
    }
}
