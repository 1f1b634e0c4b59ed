// What a line of a script may ask of the session with the head.
use crate::error::ScriptError;
use crate::fields::{each, number, size};
use std::alloc::Global;

// A command that is to be sent up to its command word.
#[derive(Drop)]
pub(crate) enum Order {
    // to get the attribute of a number
    Get(u16),
    // to set it to words
    Set(u16, Vec<u16>),
    // to run what it stands for
    Run(u16),
}

// What a line asks of the session. The attribute's number is any of sixteen bits: the session is what refuses it.
#[derive(Drop)]
pub(crate) enum SessionDirective {
    // to wake it
    Wake {
        budget: u16,
    },
    // to get an attribute into a buffer of a size
    Get {
        attribute: u16,
        size: usize,
        budget: u16,
    },
    // to set an attribute to words
    Set {
        attribute: u16,
        budget: u16,
        words: Vec<u16>,
    },
    // to run what an attribute stands for
    Run {
        attribute: u16,
        budget: u16,
    },
    // to send a command, which then is in flight
    Begin(Order),
}

// What a line asks of the command in flight.
#[derive(Clone, Copy)]
pub(crate) enum FlightDirective {
    // to collect its answer into a buffer of a size
    Collect { size: usize, budget: u16 },
    // to park it in the session
    Park,
}

// The directive of fields, whose first is its name.
pub(crate) fn parse_session(
    heap: Global,
    fields: &[&str],
) -> Result<SessionDirective, ScriptError> {
    let directive = match fields {
        ["wake", budget] => SessionDirective::Wake {
            budget: number(budget)?,
        },
        ["get", attribute, room, budget] => SessionDirective::Get {
            attribute: number(attribute)?,
            size: size(room)?,
            budget: number(budget)?,
        },
        ["set", attribute, budget, words @ ..] => SessionDirective::Set {
            attribute: number(attribute)?,
            budget: number(budget)?,
            words: each(heap, words, number::<u16>)?,
        },
        ["run", attribute, budget] => SessionDirective::Run {
            attribute: number(attribute)?,
            budget: number(budget)?,
        },
        ["begin", order @ ..] => SessionDirective::Begin(parse_order(heap, order)?),
        _ => return Err(ScriptError::Directive),
    };
    Ok(directive)
}

// The command that is to be sent.
fn parse_order(heap: Global, fields: &[&str]) -> Result<Order, ScriptError> {
    match fields {
        ["get", attribute] => Ok(Order::Get(number(attribute)?)),
        ["set", attribute, words @ ..] => {
            let attribute = number(attribute)?;
            Ok(Order::Set(attribute, each(heap, words, number::<u16>)?))
        }
        ["run", attribute] => Ok(Order::Run(number(attribute)?)),
        _ => Err(ScriptError::Directive),
    }
}

// The directive of fields, whose first is its name.
pub(crate) fn parse_flight(fields: &[&str]) -> Result<FlightDirective, ScriptError> {
    match fields {
        ["collect", room, budget] => Ok(FlightDirective::Collect {
            size: size(room)?,
            budget: number(budget)?,
        }),
        ["park"] => Ok(FlightDirective::Park),
        _ => Err(ScriptError::Directive),
    }
}
