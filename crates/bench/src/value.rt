// Values of the five kinds that are kept as words, as a script writes them and as they are printed.
use crate::error::ScriptError;
use crate::fields::{each, number, signed_number};
use crate::shown::Shown;
use std::alloc::Global;
use std::fmt;
use std::fmt::Display;
use words::{Region, WordCodec, WrongSize};

// A value of any kind.
#[derive(Clone, Copy)]
pub(crate) enum Value {
    // a number of 16 bits
    Single(u16),
    // a number of 32 bits
    Pair(u32),
    // a signed number of 32 bits
    Signed(i32),
    // a number of 64 bits
    Quad(u64),
    // a region of the sensor
    Region(Region),
}

// A value, as a script writes it.
impl Display for Value {
    fn fmt<W: fmt::Write>(&self, f: &mut fmt::Formatter<W>) -> fmt::Result {
        match *self {
            Value::Single(value) => write!(f, "{value}"),
            Value::Pair(value) => write!(f, "{value}"),
            Value::Signed(value) => write!(f, "{value}"),
            Value::Quad(value) => write!(f, "{value}"),
            Value::Region(region) => Shown(region).fmt(f),
        }
    }
}

// What a line asks of a value.
#[derive(Drop)]
pub(crate) enum ValueDirective {
    // the words of a value
    Put(Vec<u16>),
    // the value of words. It is kept as it is until it is printed: a text of it would be one more thing to run out of memory
    Take(Result<Value, WrongSize>),
}

// A value as a line gives it.
#[derive(Clone, Copy)]
pub(crate) enum Given<'a> {
    // as a script writes it, to be put into words
    Value(&'a str),
    // as words, to be taken for the value
    Words(&'a [&'a str]),
}

// The directive on a value of a kind, given by the kind's name. Each kind has a way in which its values are written and
// a variant for them.
pub(crate) fn parse_value(
    heap: Global,
    kind: &str,
    given: Given,
) -> Result<ValueDirective, ScriptError> {
    match kind {
        "single" => parse_kind(heap, given, number::<u16>, Value::Single),
        "pair" => parse_kind(heap, given, number::<u32>, Value::Pair),
        "signed" => parse_kind(heap, given, signed_number, Value::Signed),
        "quad" => parse_kind(heap, given, number::<u64>, Value::Quad),
        "region" => parse_kind(heap, given, |text| parse_region(heap, text), Value::Region),
        _ => Err(ScriptError::Directive),
    }
}

// The directive on a value of a kind whose values are written in a way and have a variant.
fn parse_kind<C, P, V>(
    heap: Global,
    given: Given,
    parse: P,
    variant: V,
) -> Result<ValueDirective, ScriptError>
where
    C: WordCodec,
    P: Fn(&str) -> Result<C, ScriptError>,
    V: Fn(C) -> Value,
    requires parse { P.IsAlwaysCallable parse }
    requires variant { V.IsAlwaysCallable variant }
{
    match given {
        Given::Value(text) => {
            let value = parse(text)?;
            let mut words = vec![in heap; 0; C::word_count()]?;
            value
                .put(words.as_mut_slice())
                .map_err(|_| ScriptError::Number)?;
            Ok(ValueDirective::Put(words))
        }
        Given::Words(fields) => {
            let words = each(heap, fields, number::<u16>)?;
            match C::take(words.as_slice()) {
                Ok(value) => Ok(ValueDirective::Take(Ok(variant(value)))),
                Err(refusal) => Ok(ValueDirective::Take(Err(refusal))),
            }
        }
    }
}

// A region is its four numbers, in the order of its words, with commas between them. One number more than it has is read, to
// see that there are too many.
fn parse_region(heap: Global, text: &str) -> Result<Region, ScriptError> {
    let numbers: Vec<u16> = text
        .split(',')
        .take(Region::word_count() + 1)
        .map(number::<u16>)
        .try_collect(heap)?;
    Region::take(numbers.as_slice()).map_err(|_| ScriptError::Number)
}
