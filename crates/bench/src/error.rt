// What can be wrong with a script, in words for its author.
use std::alloc::AllocError;
use std::io;
use thiserror::Error;

// Why the run of a script ends before the script does: what is printed behind the number of the line.
#[derive(Debug, Drop, Error)]
pub(crate) enum ScriptError {
    // a first word that is no directive, or the wrong fields behind it
    #[error("no directive has this form")]
    Directive,
    // a field that is no number, or one that does not fit
    #[error("a field is not a number that fits")]
    Number,
    // a byte that is not two hexadecimal digits
    #[error("a byte is not two hexadecimal digits")]
    Byte,
    // more busy numbers, marks or pixels than a line may have
    #[error("more numbers, marks or pixels than a line may have")]
    TooMany,
    // a directive that needs a head before there is one
    #[error("no head has been made yet")]
    NoHead,
    // a step of a command out of its place: a begin where the session is not ready, an end of a command where none is in
    // flight, or anything else where one is
    #[error("the directive is out of its place among the steps of a command")]
    OutOfPlace,
    // a line that cannot be read as text, or an answer that cannot be printed
    #[error("the line is not text, or the answer cannot be printed")]
    Stream,
    // no memory for the line
    #[error("out of memory")]
    Memory(#[from(alloc)] AllocError),
}

// Not derived: a variant that holds the stream's error, whose text lies in it, made each result of a script 96 bytes longer,
// and each number of a line took some 25 instructions more for it.
impl From<io::Error> for ScriptError {
    fn from(_error: io::Error) -> ScriptError {
        ScriptError::Stream
    }
}
