// Values as lists of sixteen-bit words, the order of values, and the response code in a status word.
#![tactic(auto)]

ghost use Rattle.std.specs.Prelude.{◌≡◌, ℕ, ◌+◌, ◌*◌, ◌/◌, ◌^◌, ◌<◌, ◌≤◌, Bool, List, length, IfOk, FitsSigned, int_le, nat_le};
ghost use Rattle.std.specs.Int.{w32};
ghost use Rattle.words.specs.Code.{byte_of, code_of};
ghost use Rattle.words.specs.Codecs.{IsCodec, number_words_codec, region_words_codec, signed_words_codec};
ghost use Rattle.words.specs.Order.{IsOrder, between, int_le_order, nat_le_order};
ghost use Rattle.words.specs.Words.{RegionFits, filled, number_words, refusal_number, region_words, signed_words, sized, word_size, words_number, words_region, words_signed};

use std::array::from_fn;

// How many words a single has.
const SINGLE_WORDS: usize = 1;

// How many words a pair has, signed or not.
const PAIR_WORDS: usize = 2;

// How many words a quad has.
const QUAD_WORDS: usize = 4;

// How many words a region has: one for each of its numbers.
const REGION_WORDS: usize = 4;

// The refusal of a slice that has not as many words as a value.
#[derive(Clone, Copy, Debug, PartialEq, Eq)]
pub struct WrongSize;

impl WrongSize {
    // The number by which the refusal is known outside.
    pub fn number(self) -> u8
        ensures value { result ≡ refusal_number self }
    {
        6
    }
}

// Fills a slice with words, if it has their size.
fn fill(slice: &mut [u16], words: &[u16]) -> Result<(), WrongSize>
    ensures answer { result ≡ sized (length words.now) slice.old tt }
    ensures after { slice.new ≡ filled (length words.now) words.now slice.old }
{
    if slice.len() != words.len() {
        return Err(WrongSize);
    }
    slice.copy_from_slice(words);
    Ok(())
}

// The lowest words of a number, the lowest first. A number has four.
fn low_words<const N: usize>(number: u64) -> [u16; N]
    requires { N ≤ 4 }
    ensures value { result ≡ number_words N number }
{
    from_fn(|place| (number >> (16 * place) & 0xffff) as u16)
}

// The number of so many words, four at most, the lowest first. A slice of another size is refused.
fn number_of<const N: usize>(words: &[u16]) -> Result<u64, WrongSize>
    requires { N ≤ 4 }
    ensures answer { result ≡ sized N words.now (words_number N words.now) }
    ensures bound { IfOk result (λ number. number < word_size ^ N) }
{
    if words.len() != N {
        return Err(WrongSize);
    }
    Ok(
        words
            .iter()
            .rev()
            .fold(0, |high, word| high << 16 | u64::from(*word)),
    )
}

// A word codec: a kind of value that is kept as a fixed number of sixteen-bit words, the low word first.
pub trait WordCodec: Copy {
    // how many words a value has
    ghost count: { ℕ };

    // that a value is one of the type: a contract's numbers have no bound, and the type's have one
    ghost fits: { Self → Type 0 };

    // the words of a value
    ghost encoded: { Self → List ℕ };

    // the value of words
    ghost decoded: { List ℕ → Self };

    // How many words a value has. It is a method, since callers know it as one, and an associated constant beside it would
    // be given by each implementation once more, with a ghost member of its name.
    fn word_count() -> usize
        ensures value { result ≡ count };

    // Puts the value into a slice of its size. A slice of another size is refused and stays as it is.
    fn put(self, words: &mut [u16]) -> Result<(), WrongSize>
        ensures answer { result ≡ sized count words.old tt }
        ensures after { words.new ≡ filled count (encoded self) words.old }
        ensures fitting { fits self };

    // Takes a value from a slice of its size. A slice of another size is refused.
    fn take(words: &[u16]) -> Result<Self, WrongSize>
        ensures answer { result ≡ sized count words.now (decoded words.now) }
        ensures fitting { IfOk result fits };

    // a value has that many words, what was put is taken back, and no value has two spellings (specs/Codecs.antt)
    ghost codec: { IsCodec count fits encoded decoded };
}

// Five implementations, one for each kind of value, are the form of the project. What those for numbers share is in `low_words`
// and `number_of`; the rest of each is its size and its type.

// A single: a number of one word.
impl WordCodec for u16 {
    ghost count = { 1 };

    ghost fits = { λ v. v < 2 ^ 16 };

    ghost encoded = { number_words 1 };

    ghost decoded = { words_number 1 };

    ghost codec = { number_words_codec 1 };

    fn word_count() -> usize {
        SINGLE_WORDS
    }

    fn put(self, words: &mut [u16]) -> Result<(), WrongSize> {
        fill(words, &low_words::<SINGLE_WORDS>(u64::from(self)))
    }

    fn take(words: &[u16]) -> Result<u16, WrongSize> {
        Ok(number_of::<SINGLE_WORDS>(words)? as u16)
    }
}

// A pair: a number of two words.
impl WordCodec for u32 {
    ghost count = { 2 };

    ghost fits = { λ v. v < 2 ^ 32 };

    ghost encoded = { number_words 2 };

    ghost decoded = { words_number 2 };

    ghost codec = { number_words_codec 2 };

    fn word_count() -> usize {
        PAIR_WORDS
    }

    fn put(self, words: &mut [u16]) -> Result<(), WrongSize> {
        fill(words, &low_words::<PAIR_WORDS>(u64::from(self)))
    }

    fn take(words: &[u16]) -> Result<u32, WrongSize> {
        Ok(number_of::<PAIR_WORDS>(words)? as u32)
    }
}

// A signed pair: a signed number of two words, in two's complement.
impl WordCodec for i32 {
    ghost count = { 2 };

    ghost fits = { FitsSigned w32 };

    ghost encoded = { signed_words };

    ghost decoded = { words_signed };

    ghost codec = { signed_words_codec };

    fn word_count() -> usize {
        u32::word_count()
    }

    fn put(self, words: &mut [u16]) -> Result<(), WrongSize> {
        self.cast_unsigned().put(words)
    }

    fn take(words: &[u16]) -> Result<i32, WrongSize> {
        Ok(u32::take(words)?.cast_signed())
    }
}

// A quad: a number of four words.
impl WordCodec for u64 {
    ghost count = { 4 };

    ghost fits = { λ v. v < 2 ^ 64 };

    ghost encoded = { number_words 4 };

    ghost decoded = { words_number 4 };

    ghost codec = { number_words_codec 4 };

    fn word_count() -> usize {
        QUAD_WORDS
    }

    fn put(self, words: &mut [u16]) -> Result<(), WrongSize> {
        fill(words, &low_words::<QUAD_WORDS>(self))
    }

    fn take(words: &[u16]) -> Result<u64, WrongSize> {
        number_of::<QUAD_WORDS>(words)
    }
}

// A region of the sensor, by its first and its last column and row. Any four words are one.
#[derive(Clone, Copy, Debug, PartialEq, Eq)]
pub struct Region {
    pub start_column: u16,
    pub start_row: u16,
    pub end_column: u16,
    pub end_row: u16,
}

// A region has a word for each of its numbers, in the order of its fields. There is no From to and from four numbers: it would
// have this list and this pattern too, each under the head of one more implementation.
impl WordCodec for Region {
    ghost count = { 4 };

    ghost fits = { RegionFits };

    ghost encoded = { region_words };

    ghost decoded = { words_region };

    ghost codec = { region_words_codec };

    fn word_count() -> usize {
        REGION_WORDS
    }

    fn put(self, words: &mut [u16]) -> Result<(), WrongSize> {
        fill(
            words,
            &[
                self.start_column,
                self.start_row,
                self.end_column,
                self.end_row,
            ],
        )
    }

    fn take(words: &[u16]) -> Result<Region, WrongSize> {
        let &[start_column, start_row, end_column, end_row] = words else {
            return Err(WrongSize);
        };
        Ok(Region {
            start_column,
            start_row,
            end_column,
            end_row,
        })
    }
}

// A total order of values: any two can be compared. It is not std's Ord, whose laws know equal values only as those that `==`
// takes for equal: here two values, each at most the other, are the same value. One body of `at_most` for all types would go
// by `<=`, and so ask of each type with a total order that it is `PartialOrd` too; each implementation writes its line.
pub trait TotalOrder {
    // whether a value is below another or the same
    ghost leq: { Self → Self → Bool };

    // Whether the value is below another or the same.
    fn at_most(&self, other: &Self) -> bool
        ensures answer { result ≡ leq self.now other.now };

    // it is reflexive, antisymmetric, transitive and total (specs/Order.antt)
    ghost order: { IsOrder leq };
}

// The order of numbers.
impl TotalOrder for u16 {
    ghost leq = { nat_le };

    ghost order = { nat_le_order };

    fn at_most(&self, other: &u16) -> bool {
        *self <= *other
    }
}

// The order of numbers.
impl TotalOrder for u32 {
    ghost leq = { nat_le };

    ghost order = { nat_le_order };

    fn at_most(&self, other: &u32) -> bool {
        *self <= *other
    }
}

// The order of signed numbers: those below zero come first.
impl TotalOrder for i32 {
    ghost leq = { int_le };

    ghost order = { int_le_order };

    fn at_most(&self, other: &i32) -> bool {
        *self <= *other
    }
}

// The order of numbers.
impl TotalOrder for u64 {
    ghost leq = { nat_le };

    ghost order = { nat_le_order };

    fn at_most(&self, other: &u64) -> bool {
        *self <= *other
    }
}

// Whether a value is in a range. Both ends are in it.
pub fn is_between<T: TotalOrder>(value: &T, least: &T, greatest: &T) -> bool
    ensures answer { result ≡ between T.leq least.now value.now greatest.now }
{
    least.at_most(value) && value.at_most(greatest)
}

// The response code of a status word: its high byte, in two's complement. Its byte is that high byte again.
pub fn response_code(status: u16) -> i8
    ensures value { result ≡ code_of status }
    ensures back { byte_of result ≡ status / 256 }
{
    let [high, _] = status.to_be_bytes();
    high.cast_signed()
}

// The byte of a response code. A status word with this high byte, whatever its low byte, has the code again.
pub fn code_byte(code: i8) -> u8
    ensures value { result ≡ byte_of code }
    ensures back { (low : ℕ) → low < 256 → code_of (256 * result + low) ≡ code }
{
    code.cast_unsigned()
}
