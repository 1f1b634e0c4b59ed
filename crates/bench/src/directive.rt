// What a line of a script may ask for, and how a line is read.
use crate::error::ScriptError;
use crate::fields::{byte, each, number, parse_access, size};
use crate::head_directive::{HeadDirective, parse_head};
use crate::session_directive::{FlightDirective, SessionDirective, parse_flight, parse_session};
use crate::value::{Given, ValueDirective, parse_value};
use packet::{Access, Denial, Function, Reply};
use std::alloc::Global;

// What a line asks for.
#[derive(Drop)]
pub(crate) enum Directive {
    // the checksum of bytes
    Crc(Vec<u8>),
    // the packet of a request, in a buffer of a given size or just so long
    Request(Access, Option<usize>),
    // the packet of a reply, likewise
    Reply(Reply, Option<usize>),
    // bytes read as a request
    UnpackRequest(Vec<u8>),
    // bytes read as the reply to a function
    UnpackReply(Function, Vec<u8>),
    // something of a value that is kept as words
    Value(ValueDirective),
    // something of the camera head
    Head(HeadDirective),
    // something of the session with it
    Session(SessionDirective),
    // something of the session's command in flight
    Flight(FlightDirective),
}

// The directive of a line, or none if the line is blank or a comment.
pub(crate) fn parse_line(heap: Global, line: &str) -> Result<Option<Directive>, ScriptError> {
    let text = line.split_once('#').map_or(line, |(before, _)| before);
    let fields: Vec<&str> = text.split_ascii_whitespace().collect(heap)?;
    match fields.as_slice() {
        [] => Ok(None),
        fields => parse(heap, fields).map(Some),
    }
}

// The directive of fields, whose first is its name.
fn parse(heap: Global, fields: &[&str]) -> Result<Directive, ScriptError> {
    let directive = match fields {
        ["crc", bytes @ ..] => Directive::Crc(each(heap, bytes, byte)?),
        ["request", rest @ ..] => parse_request(rest)?,
        ["reply", rest @ ..] => parse_reply(rest)?,
        ["unpack-request", bytes @ ..] => Directive::UnpackRequest(each(heap, bytes, byte)?),
        ["unpack-reply", function, bytes @ ..] => {
            let function = parse_function(function)?;
            Directive::UnpackReply(function, each(heap, bytes, byte)?)
        }
        ["put", kind, text] => Directive::Value(parse_value(heap, kind, Given::Value(text))?),
        ["take", kind, words @ ..] => {
            Directive::Value(parse_value(heap, kind, Given::Words(words))?)
        }
        ["wake" | "get" | "set" | "run" | "begin", ..] => {
            Directive::Session(parse_session(heap, fields)?)
        }
        ["collect" | "park", ..] => Directive::Flight(parse_flight(fields)?),
        _ => Directive::Head(parse_head(heap, fields)?),
    };
    Ok(directive)
}

// A buffer's size at the end of a line, or none.
fn parse_size(fields: &[&str]) -> Result<Option<usize>, ScriptError> {
    match fields {
        [] => Ok(None),
        [text] => size(text).map(Some),
        _ => Err(ScriptError::Directive),
    }
}

// An access, and the size of the buffer for its packet.
fn parse_request(fields: &[&str]) -> Result<Directive, ScriptError> {
    let (access, rest) = parse_access(fields)?;
    Ok(Directive::Request(access, parse_size(rest)?))
}

// The function that a reply answers and what it answers, and the size of the buffer for its packet.
fn parse_reply(fields: &[&str]) -> Result<Directive, ScriptError> {
    let (reply, rest) = match fields {
        ["read", "word", word, rest @ ..] => (Reply::Read(Ok(number(word)?)), rest),
        ["write", "done", rest @ ..] => (Reply::Write(Ok(())), rest),
        ["read", denial, rest @ ..] => (Reply::Read(Err(parse_denial(denial)?)), rest),
        ["write", denial, rest @ ..] => (Reply::Write(Err(parse_denial(denial)?)), rest),
        _ => return Err(ScriptError::Directive),
    };
    Ok(Directive::Reply(reply, parse_size(rest)?))
}

// The function that a packet replies to.
fn parse_function(text: &str) -> Result<Function, ScriptError> {
    match text {
        "read" => Ok(Function::Read),
        "write" => Ok(Function::Write),
        _ => Err(ScriptError::Directive),
    }
}

// Why an access was not carried out.
fn parse_denial(text: &str) -> Result<Denial, ScriptError> {
    match text {
        "no-ack" => Ok(Denial::NotAcknowledged),
        "no-register" => Ok(Denial::NoRegister),
        _ => Err(ScriptError::Directive),
    }
}
