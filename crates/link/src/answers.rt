// What an access answers, and how a reply says it.
ghost use Rattle.link.specs.Line.{answer_in, denial_of, fault_at, reply_for};
ghost use Rattle.std.specs.Prelude.{◌≡◌};

use camera::Fault;
use packet::{Access, Denial, Function, Reply};

// What an access answers that was carried out. It has the shape of an `Option<u16>`, but nothing is absent where a write
// is done: a `None` would read as no answer.
#[derive(Clone, Copy, Debug, PartialEq, Eq)]
pub enum Answer {
    // the word of a read
    Word(u16),
    // a write is done
    Done,
}

// What a reply says of a fault: its kind, and not its address. No `From`, since both types are of other crates.
fn denial_of(fault: Fault) -> Denial
    ensures value { result ≡ denial_of fault }
{
    match fault {
        Fault::NotAcknowledged { .. } => Denial::NotAcknowledged,
        Fault::NoRegister { .. } => Denial::NoRegister,
    }
}

// The fault that a denial of an access to an address says. No `From`: it takes the address too.
fn fault_at(address: u16, denial: Denial) -> Fault
    ensures value { result ≡ fault_at address denial }
{
    match denial {
        Denial::NotAcknowledged => Fault::NotAcknowledged { address },
        Denial::NoRegister => Fault::NoRegister { address },
    }
}

// The reply to a request with a function, for what its access answered. No `From`: a fault does not tell the function.
pub(crate) fn reply_for(function: Function, answer: Result<Answer, Fault>) -> Reply
    ensures value { result ≡ reply_for function answer }
{
    match answer {
        Ok(Answer::Word(word)) => Reply::Read(Ok(word)),
        Ok(Answer::Done) => Reply::Write(Ok(())),
        Err(fault) => Reply::denied(function, denial_of(fault)),
    }
}

// What a reply answers to an access to an address. No `From`: a reply does not tell the address.
pub(crate) fn answer_in(address: u16, reply: Reply) -> Result<Answer, Fault>
    ensures value { result ≡ answer_in address reply }
{
    match reply {
        Reply::Read(Ok(word)) => Ok(Answer::Word(word)),
        Reply::Write(Ok(())) => Ok(Answer::Done),
        Reply::Read(Err(denial)) | Reply::Write(Err(denial)) => Err(fault_at(address, denial)),
    }
}
