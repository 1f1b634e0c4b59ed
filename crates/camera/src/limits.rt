// Which words an attribute may be set to.
ghost use Rattle.camera.specs.Attributes.{all_at_most, colours_fit, pair_number, region_fits, span_fits, within};
ghost use Rattle.std.specs.Prelude.{◌≡◌, slice_index};

use crate::attribute::{COLUMNS, Limits, ROWS};

impl Limits {
    // Whether words keep the limits.
    pub fn allow(self, words: &[u16]) -> bool
        ensures value { result ≡ within self words.now }
    {
        match self {
            Limits::Fixed => false,
            Limits::Any => true,
            Limits::AtMost(greatest) => pair_number(words) <= greatest,
            Limits::Between(least, greatest) => {
                let value = pair_number(words).cast_signed();
                (least..=greatest).contains(&value)
            }
            Limits::FocusRegion => region_fits(COLUMNS, ROWS, words),
            Limits::Colours => colours_fit(words),
        }
    }
}

// The word at a place, or 0 past the end.
pub fn word_at(words: &[u16], place: usize) -> u16
    ensures value { result ≡ slice_index words.now place }
{
    words.get(place).copied().unwrap_or(0)
}

// The number in one word, or in two words with the low one first. No codec, which would refuse words of another number: one
// that is missing counts as 0.
fn pair_number(words: &[u16]) -> u32
    ensures value { result ≡ pair_number words.now }
{
    u32::from(word_at(words, 0)) + 65536 * u32::from(word_at(words, 1))
}

// Whether a region may span from a start to an end, on a sensor with its edge there.
fn span_fits(edge: u16, start: u16, end: u16) -> bool
    ensures value { result ≡ span_fits edge start end }
{
    let edge = u32::from(edge);
    let start = u32::from(start);
    let end = u32::from(end);
    1 <= start && start + 2 <= end && end + 2 <= edge
}

// Whether words are a region inside a sensor of a size.
fn region_fits(width: u16, height: u16, words: &[u16]) -> bool
    ensures value { result ≡ region_fits width height words.now }
{
    let &[start_column, start_row, end_column, end_row, ..] = words else {
        return false;
    };
    span_fits(width, start_column, end_column) && span_fits(height, start_row, end_row)
}

// Whether words may be the colour table.
fn colours_fit(words: &[u16]) -> bool
    ensures value { result ≡ colours_fit 0 words.now }
{
    words.iter().step_by(2).all(|word| *word <= 255)
}

// Whether no word is above a greatest one. The words are tested 64 at a time, and all of the 64, which the compiler works many at
// once: `iter().all(..)`, and a loop that returns at the word itself, go word by word and took several times as long for a frame.
pub fn all_at_most(words: &[u16], greatest: u16) -> bool
    ensures value { result ≡ all_at_most greatest words.now }
{
    let mut left = words;
    while let Some((part, rest)) = left.split_first_chunk::<64>() {
        if !none_above(part, greatest) {
            return false;
        }
        left = rest;
    }
    none_above(left, greatest)
}

// The same, by a look at every word.
fn none_above(words: &[u16], greatest: u16) -> bool
    ensures value { result ≡ all_at_most greatest words.now }
{
    let mut none = true;
    for word in words {
        none &= *word <= greatest;
    }
    none
}
