// The attributes of a camera: what it keeps behind its command words.
ghost use Rattle.camera.specs.Attributes.{attribute_at, has, is_saved, is_settable, size_of};
ghost use Rattle.std.specs.Prelude.{◌≡◌, ◌≤◌};

use crate::command::Command;

// What a command does: it gets or sets an attribute, or runs what the attribute stands for. The numbers are the type bits
// of command words.
#[derive(Clone, Copy, Debug, PartialEq, Eq)]
pub enum Kind {
    Get = 0,
    Set = 1,
    Run = 2,
}

// Which kinds of command an attribute has. Three named answers and no set of kinds: std's sets lie on the heap, of which a
// camera has none, and a set of bits would say less.
#[derive(Clone, Copy, Debug, PartialEq, Eq)]
pub struct Kinds {
    pub gets: bool,
    pub sets: bool,
    pub runs: bool,
}

// The attributes by name, in the order of their numbers: `name as u16` is the number.
#[derive(Clone, Copy, Debug, PartialEq, Eq)]
pub enum Name {
    GainControl,
    Status,
    SerialNumber,
    FpaTemperature,
    Telemetry,
    TelemetryPlace,
    FrameAverage,
    FramesAveraged,
    ColourScheme,
    ColourTable,
    Focus,
    Region,
    Threshold,
    FlatFieldTarget,
    OemStatus,
    FrameMean,
    PinMode,
    SyncDelay,
    UserDefaults,
    Restore,
}

// Which words may be set.
#[derive(Clone, Copy, Debug, PartialEq, Eq)]
pub enum Limits {
    // none: only attributes without a set have it
    Fixed,
    // every value
    Any,
    // an unsigned number up to this one
    AtMost(u32),
    // a signed number from the first to the second
    Between(i32, i32),
    // a region inside the sensor
    FocusRegion,
    // colours of three bytes
    Colours,
}

// One row of the table of attributes.
#[derive(Clone, Copy, Debug, PartialEq, Eq)]
pub struct Attribute {
    // what it is called, in the order of the numbers
    pub name: Name,
    // its command words without type and protection bit
    pub base: u16,
    // how many words it has
    pub words: u16,
    // which kinds of command it has
    pub kinds: Kinds,
    // which words a set may give it
    pub limits: Limits,
    // its first words when the camera is made; the others are 0. Four, since the longest that is not all 0 is the focus
    // region's
    pub start: [u16; 4],
}

// The sensor's width in pixels.
pub const COLUMNS: u16 = 80;

// The sensor's height in pixels.
pub const ROWS: u16 = 60;

// The sets of kinds that attributes have. Each name says the kinds.
const GET: Kinds = Kinds {
    gets: true,
    sets: false,
    runs: false,
};

const GET_SET: Kinds = Kinds {
    gets: true,
    sets: true,
    runs: false,
};

const RUN: Kinds = Kinds {
    gets: false,
    sets: false,
    runs: true,
};

const GET_RUN: Kinds = Kinds {
    gets: true,
    sets: false,
    runs: true,
};

const GET_SET_RUN: Kinds = Kinds {
    gets: true,
    sets: true,
    runs: true,
};

// The table of attributes. An attribute's number is its place. A constant table is the project's form, as of the directory.
const ATTRIBUTES: [Attribute; 20] = [
    Attribute {
        name: Name::GainControl,
        base: 0x0100,
        words: 2,
        kinds: GET_SET,
        limits: Limits::AtMost(1),
        start: [0, 0, 0, 0],
    },
    Attribute {
        name: Name::Status,
        base: 0x0204,
        words: 4,
        kinds: GET,
        limits: Limits::Fixed,
        start: [0, 0, 0, 0],
    },
    Attribute {
        name: Name::SerialNumber,
        base: 0x0208,
        words: 4,
        kinds: GET,
        limits: Limits::Fixed,
        start: [0, 0, 0, 0],
    },
    Attribute {
        name: Name::FpaTemperature,
        base: 0x0214,
        words: 1,
        kinds: GET,
        limits: Limits::Fixed,
        start: [0, 0, 0, 0],
    },
    Attribute {
        name: Name::Telemetry,
        base: 0x0218,
        words: 2,
        kinds: GET_SET,
        limits: Limits::AtMost(1),
        start: [0, 0, 0, 0],
    },
    Attribute {
        name: Name::TelemetryPlace,
        base: 0x021C,
        words: 2,
        kinds: GET_SET,
        limits: Limits::AtMost(1),
        start: [1, 0, 0, 0],
    },
    Attribute {
        name: Name::FrameAverage,
        base: 0x0220,
        words: 0,
        kinds: RUN,
        limits: Limits::Fixed,
        start: [0, 0, 0, 0],
    },
    Attribute {
        name: Name::FramesAveraged,
        base: 0x0224,
        words: 2,
        kinds: GET_SET,
        limits: Limits::AtMost(7),
        start: [3, 0, 0, 0],
    },
    Attribute {
        name: Name::ColourScheme,
        base: 0x0304,
        words: 2,
        kinds: GET_SET,
        limits: Limits::AtMost(8),
        start: [1, 0, 0, 0],
    },
    Attribute {
        name: Name::ColourTable,
        base: 0x0308,
        words: 512,
        kinds: GET_SET,
        limits: Limits::Colours,
        start: [0, 0, 0, 0],
    },
    Attribute {
        name: Name::Focus,
        base: 0x030C,
        words: 2,
        kinds: GET_SET,
        limits: Limits::AtMost(1),
        start: [0, 0, 0, 0],
    },
    Attribute {
        name: Name::Region,
        base: 0x0310,
        words: 4,
        kinds: GET_SET,
        limits: Limits::FocusRegion,
        start: [1, 1, COLUMNS - 2, ROWS - 2],
    },
    Attribute {
        name: Name::Threshold,
        base: 0x0314,
        words: 2,
        kinds: GET_SET,
        limits: Limits::Any,
        start: [30, 0, 0, 0],
    },
    Attribute {
        name: Name::FlatFieldTarget,
        base: 0x0844,
        words: 1,
        kinds: GET_SET_RUN,
        limits: Limits::AtMost(16383),
        start: [8192, 0, 0, 0],
    },
    Attribute {
        name: Name::OemStatus,
        base: 0x0848,
        words: 2,
        kinds: GET,
        limits: Limits::Fixed,
        start: [0, 0, 0, 0],
    },
    // It has no set, so no command is judged by its limits. They say what always holds of it: its word is never above the
    // greatest pixel.
    Attribute {
        name: Name::FrameMean,
        base: 0x084C,
        words: 1,
        kinds: GET,
        limits: Limits::AtMost(16383),
        start: [0, 0, 0, 0],
    },
    Attribute {
        name: Name::PinMode,
        base: 0x0854,
        words: 2,
        kinds: GET_SET,
        limits: Limits::AtMost(5),
        start: [0, 0, 0, 0],
    },
    Attribute {
        name: Name::SyncDelay,
        base: 0x0858,
        words: 2,
        kinds: GET_SET,
        limits: Limits::Between(-3, 3),
        start: [0, 0, 0, 0],
    },
    Attribute {
        name: Name::UserDefaults,
        base: 0x085C,
        words: 2,
        kinds: GET_RUN,
        limits: Limits::Fixed,
        start: [0, 0, 0, 0],
    },
    Attribute {
        name: Name::Restore,
        base: 0x0860,
        words: 0,
        kinds: RUN,
        limits: Limits::Fixed,
        start: [0, 0, 0, 0],
    },
];

// The numbers of the attributes that have rules of their own: STATUS, SERIAL_NUMBER, FPA_TEMPERATURE, COLOUR_TABLE, FRAME_MEAN,
// USER_DEFAULTS and RESTORE. What is asked of an attribute is asked of its number, a u16 and no Name: any number of sixteen
// bits may come, and one that no attribute has is answered by a rule and not kept from the camera. So the code here and in the
// head compares and matches a number with these constants.
pub const STATUS: u16 = Name::Status as u16;

pub const SERIAL_NUMBER: u16 = Name::SerialNumber as u16;

pub const FPA_TEMPERATURE: u16 = Name::FpaTemperature as u16;

pub const COLOUR_TABLE: u16 = Name::ColourTable as u16;

pub const FRAME_MEAN: u16 = Name::FrameMean as u16;

pub const USER_DEFAULTS: u16 = Name::UserDefaults as u16;

pub const RESTORE: u16 = Name::Restore as u16;

impl Attribute {
    // The attribute of a number, or none past the table's end.
    #[tactic(auto, using(crate::proofs::Lists::item_nth), unfolding(crate::specs::Attributes::attribute_at))]
    pub fn of(number: u16) -> Option<Attribute>
        ensures value { result ≡ attribute_at number }
    {
        ATTRIBUTES.get(usize::from(number)).copied()
    }

    // Whether it has a kind of command.
    pub fn offers(&self, kind: Kind) -> bool
        ensures value { result ≡ has self.now.kinds kind }
    {
        match kind {
            Kind::Get => self.kinds.gets,
            Kind::Set => self.kinds.sets,
            Kind::Run => self.kinds.runs,
        }
    }
}

// How many words the attribute of a number has: 512 at most, and none where there is no attribute.
#[tactic(auto, using(crate::proofs::Sizes::words_bound))]
pub fn size_of(number: u16) -> usize
    ensures value { result ≡ size_of number }
    ensures bound { result ≤ 512 }
{
    Attribute::of(number).map_or(0, |found| usize::from(found.words))
}

// Whether a user may set the attribute of a number.
pub fn is_settable(number: u16) -> bool
    ensures value { result ≡ is_settable number }
{
    let set = Command {
        kind: Kind::Set,
        number,
    };
    set.is_offered()
}

// Whether the user defaults save the attribute of a number: each that can be set is saved, but for the colour table.
pub fn is_saved(number: u16) -> bool
    ensures value { result ≡ is_saved number }
{
    is_settable(number) && number != COLOUR_TABLE
}
