// The fields of a script line as numbers, bytes and accesses.
ghost use Rattle.std.specs.Prelude.{◌≤◌, IfOk};

use crate::error::ScriptError;
use packet::Access;
use std::alloc::Global;
use std::num::TryFromIntError;

// The largest buffer that a script may ask for.
const LARGEST_BUFFER: usize = 1024;

// A number that fits its type, in digits of a radix and nothing else.
fn in_radix<N: TryFrom<u64, Error = TryFromIntError>>(digits: &str, radix: u32) -> Option<N>
    requires least { 2 ≤ radix }
    requires greatest { radix ≤ 36 }
{
    // a sign is no digit here, and is read nowhere but in front
    if let [b'+', ..] = digits.as_bytes() {
        return None;
    }
    let number = u64::from_str_radix(digits, radix).ok()?;
    N::try_from(number).ok()
}

// A number that fits its type: decimal digits, or hexadecimal ones after 0x.
pub(crate) fn number<N: TryFrom<u64, Error = TryFromIntError>>(
    text: &str,
) -> Result<N, ScriptError> {
    let number = match text.strip_prefix("0x") {
        Some(digits) => in_radix(digits, 16),
        None => in_radix(text, 10),
    };
    number.ok_or(ScriptError::Number)
}

// A number of sixteen bits in decimal digits alone.
pub(crate) fn decimal_word(text: &str) -> Result<u16, ScriptError> {
    in_radix(text, 10).ok_or(ScriptError::Number)
}

// A signed number of 32 bits: a number, or one behind a minus sign.
pub(crate) fn signed_number(text: &str) -> Result<i32, ScriptError> {
    match text.strip_prefix("-") {
        Some(digits) => {
            let size: u64 = number(digits)?;
            i32::try_from(-i128::from(size)).map_err(|_| ScriptError::Number)
        }
        None => number(text),
    }
}

// The size of a buffer.
pub(crate) fn size(text: &str) -> Result<usize, ScriptError>
    ensures bound { IfOk result (λ n. n ≤ 1024) }
{
    match number(text)? {
        size if size <= LARGEST_BUFFER => Ok(size),
        _ => Err(ScriptError::Number),
    }
}

// A byte: two hexadecimal digits.
pub(crate) fn byte(text: &str) -> Result<u8, ScriptError> {
    if text.len() != 2 {
        return Err(ScriptError::Byte);
    }
    in_radix(text, 16).ok_or(ScriptError::Byte)
}

// The access that fields begin with, and the fields behind it.
pub(crate) fn parse_access<'a>(
    fields: &'a [&'a str],
) -> Result<(Access, &'a [&'a str]), ScriptError> {
    match fields {
        ["read", address, rest @ ..] => {
            let address = number(address)?;
            Ok((Access::Read { address }, rest))
        }
        ["write", address, word, rest @ ..] => {
            let address = number(address)?;
            let word = number(word)?;
            Ok((Access::Write { address, word }, rest))
        }
        _ => Err(ScriptError::Directive),
    }
}

// What each of the fields is read as.
pub(crate) fn each<T: Drop, P: Fn(&str) -> Result<T, ScriptError>>(
    heap: Global,
    fields: &[&str],
    parse: P,
) -> Result<Vec<T>, ScriptError>
    requires callable { P.IsAlwaysCallable parse }
{
    fields.iter().map(|field| parse(field)).try_collect(heap)
}
