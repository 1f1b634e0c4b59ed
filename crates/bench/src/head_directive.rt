// What a line of a script may ask of a camera head.
use crate::error::ScriptError;
use crate::fields::{decimal_word, each, number, parse_access};
use camera::Attribute;
use packet::Access;
use stack::Links;
use std::alloc::Global;

// The most numbers of busy polls on a line.
const MOST_BUSY: usize = 100;

// The most acknowledgement marks on a line.
const MOST_MARKS: usize = 5_000;

// The most pixels on a line.
const MOST_PIXELS: usize = 65_535;

// A setting of the next head.
#[derive(Drop)]
pub(crate) enum Setting {
    // how many boot polls it has
    Boot(u16),
    // its serial number
    Serial(u64),
    // the temperature of its sensor
    Fpa(u16),
    // the numbers of busy polls for its coming commands
    Busy(Vec<u16>),
    // whether each of its coming accesses is acknowledged
    Acks(Vec<bool>),
    // how many packet links are laid over it
    Links(Links),
}

// What a line asks of the next head, or of the head that there is.
#[derive(Drop)]
pub(crate) enum HeadDirective {
    // a setting of the next head
    Set(Setting),
    // to make the next head
    Make,
    // an access over the links of the head that there is
    Access(Access),
    // a frame for its sensor, by its pixels
    Frame(Vec<u16>),
    // to print what state the head is in
    State,
    // to print the words that an attribute shows, by its number
    Attribute(u16),
}

// The directive of fields, whose first is its name.
pub(crate) fn parse_head(heap: Global, fields: &[&str]) -> Result<HeadDirective, ScriptError> {
    let directive = match fields {
        ["boot", polls] => HeadDirective::Set(Setting::Boot(number(polls)?)),
        ["serial", serial] => HeadDirective::Set(Setting::Serial(number(serial)?)),
        ["fpa", temperature] => HeadDirective::Set(Setting::Fpa(number(temperature)?)),
        ["busy", polls @ ..] => HeadDirective::Set(Setting::Busy(parse_busy(heap, polls)?)),
        ["acks", marks @ ..] => HeadDirective::Set(Setting::Acks(parse_marks(heap, marks)?)),
        ["links", count] => HeadDirective::Set(Setting::Links(parse_links(count)?)),
        ["make"] => HeadDirective::Make,
        // the access alone: with a field too many, no directive has this form, whatever the others are
        ["read", _] | ["write", _, _] => {
            let (access, _) = parse_access(fields)?;
            HeadDirective::Access(access)
        }
        ["frame", runs @ ..] => HeadDirective::Frame(parse_frame(heap, runs)?),
        ["state"] => HeadDirective::State,
        ["attribute", number] => HeadDirective::Attribute(parse_attribute(number)?),
        _ => return Err(ScriptError::Directive),
    };
    Ok(directive)
}

// The number of an attribute that there is.
fn parse_attribute(text: &str) -> Result<u16, ScriptError> {
    let attribute = number(text)?;
    if Attribute::of(attribute).is_none() {
        return Err(ScriptError::Number);
    }
    Ok(attribute)
}

// How many packet links are laid over a head.
fn parse_links(text: &str) -> Result<Links, ScriptError> {
    match number::<u16>(text)? {
        0 => Ok(Links::None),
        1 => Ok(Links::One),
        2 => Ok(Links::Two),
        _ => Err(ScriptError::Number),
    }
}

// Numbers of busy polls.
fn parse_busy(heap: Global, fields: &[&str]) -> Result<Vec<u16>, ScriptError> {
    if fields.len() > MOST_BUSY {
        return Err(ScriptError::TooMany);
    }
    each(heap, fields, number::<u16>)
}

// An acknowledgement mark: a digit that says whether an access is acknowledged.
fn parse_mark(digit: u8) -> Result<bool, ScriptError> {
    match digit {
        b'0' => Ok(false),
        b'1' => Ok(true),
        _ => Err(ScriptError::Number),
    }
}

// The marks of all fields, a digit each. One mark more than a line may have is read, to see that there are too many. Not by a
// chain (`flat_map`, `take`, `map`, `try_collect`), which took 1.6 times as long for lines of marks.
fn parse_marks(heap: Global, fields: &[&str]) -> Result<Vec<bool>, ScriptError> {
    let mut marks = Vec::new(heap);
    for field in fields {
        for digit in field.bytes() {
            marks.push(parse_mark(digit)?)?;
            if marks.len() > MOST_MARKS {
                return Err(ScriptError::TooMany);
            }
        }
    }
    Ok(marks)
}

// A run of equal pixels: how many there are, and the pixel.
fn parse_run(field: &str) -> Result<(usize, u16), ScriptError> {
    let (count, pixel) = field.split_once('x').ok_or(ScriptError::Number)?;
    Ok((usize::from(decimal_word(count)?), decimal_word(pixel)?))
}

// The pixels of runs.
fn parse_frame(heap: Global, fields: &[&str]) -> Result<Vec<u16>, ScriptError> {
    let mut pixels = Vec::new(heap);
    for field in fields {
        let (count, pixel) = parse_run(field)?;
        let length = pixels.len().saturating_add(count);
        if length > MOST_PIXELS {
            return Err(ScriptError::TooMany);
        }
        pixels.resize(length, pixel)?;
    }
    Ok(pixels)
}
