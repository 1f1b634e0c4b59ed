// What a head is made from.
ghost use Rattle.head.specs.Making.{lawful_settings, refusal_number};
ghost use Rattle.std.specs.Prelude.{◌≡◌};

use camera::all_at_most;

// The most boot polls, and the most busy polls of a command.
const MOST_POLLS: u16 = 9_999;

// The most numbers of busy polls.
const MOST_COMMANDS: usize = 64;

// The most acknowledgement marks.
const MOST_MARKS: usize = 4_096;

// What a head is made from. It has no `Clone`: a clone of its lists can fail for want of memory, and nothing below the
// programs copies settings.
#[derive(Debug, Drop)]
pub struct HeadSettings {
    // how many status reads come before the camera is up
    pub boot: u16,
    // the serial number, which attribute 2 holds
    pub serial: u64,
    // the temperature of the sensor array
    pub fpa: u16,
    // the busy polls of the coming commands
    pub busy: Vec<u16>,
    // whether each coming access is acknowledged
    pub acks: Vec<bool>,
}

// The refusal of settings past the limits, which gives them back.
#[derive(Debug, Drop)]
pub struct BadSettings {
    // the settings that were refused, unchanged
    pub settings: HeadSettings,
}

impl BadSettings {
    // The number by which the refusal is known outside.
    pub fn number(&self) -> u8
        ensures value { result ≡ refusal_number }
    {
        53
    }
}

impl HeadSettings {
    // Whether the settings are within the limits.
    pub(crate) fn are_lawful(&self) -> bool
        ensures value { result ≡ lawful_settings self.now }
    {
        self.boot <= MOST_POLLS
            && self.busy.len() <= MOST_COMMANDS
            && self.acks.len() <= MOST_MARKS
            && all_at_most(&self.busy, MOST_POLLS)
    }
}
