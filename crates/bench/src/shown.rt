// What came of a directive, as it is printed.
use crate::error::ScriptError;
use calls::Refusal;
use camera::Fault;
use head::HeadReport;
use packet::{Access, Denial, Reply};
use session::Session;
use std::fmt;
use std::fmt::{Display, HasDigits};
use words::Region;

// A value in the form in which it is printed.
#[derive(Drop)]
pub(crate) struct Shown<T>(pub(crate) T);

// Bytes or words, each in so many capital hexadecimal digits, with a blank before. DIGITS follows from the type, but is
// said: `size_of::<T>() * 2` is not covered by the borrow check, and `2 * size_of::<T>()` leaves open that it fits.
#[derive(Drop)]
pub(crate) struct Hex<'a, T, const DIGITS: usize>(pub(crate) &'a [T]);

impl<'a, T: HasDigits + Copy, const DIGITS: usize> Display for Hex<'a, T, DIGITS> {
    fn fmt<W: fmt::Write>(&self, f: &mut fmt::Formatter<W>) -> fmt::Result {
        for item in self.0 {
            write!(f, " {item:0DIGITS$X}")?;
        }
        Ok(())
    }
}

// What a request asks for.
impl Display for Shown<Access> {
    fn fmt<W: fmt::Write>(&self, f: &mut fmt::Formatter<W>) -> fmt::Result {
        match self.0 {
            Access::Read { address } => write!(f, "read {address:04X}"),
            Access::Write { address, word } => write!(f, "write {address:04X} {word:04X}"),
        }
    }
}

// What a reply answers.
impl Display for Shown<Reply> {
    fn fmt<W: fmt::Write>(&self, f: &mut fmt::Formatter<W>) -> fmt::Result {
        match self.0 {
            Reply::Read(Ok(word)) => write!(f, "word {word:04X}"),
            Reply::Write(Ok(())) => f.write_str("done"),
            Reply::Read(Err(denial)) | Reply::Write(Err(denial)) => match denial {
                Denial::NotAcknowledged => f.write_str("no-ack"),
                Denial::NoRegister => f.write_str("no-register"),
            },
        }
    }
}

// A fault: its number, and the address of the access that met it.
impl Display for Shown<Fault> {
    fn fmt<W: fmt::Write>(&self, f: &mut fmt::Formatter<W>) -> fmt::Result {
        let number = self.0.number();
        let address = self.0.address();
        write!(f, "{number} at {address:04X}")
    }
}

// A refusal of a session's call: its number, and behind it the address or the response code, if one came with it.
impl Display for Shown<Refusal> {
    fn fmt<W: fmt::Write>(&self, f: &mut fmt::Formatter<W>) -> fmt::Result {
        let number = self.0.number();
        write!(f, "{number}")?;
        if let Some(address) = self.0.address() {
            write!(f, " at {address:04X}")?;
        }
        if let Some(code) = self.0.code() {
            write!(f, " code {code}")?;
        }
        Ok(())
    }
}

// The state that a session is in.
impl<'a> Display for Shown<&'a Session> {
    fn fmt<W: fmt::Write>(&self, f: &mut fmt::Formatter<W>) -> fmt::Result {
        f.write_str(match self.0 {
            Session::Asleep(_) => "asleep",
            Session::Ready(_) => "ready",
            Session::Parked(_) => "parked",
        })
    }
}

// A region, as a script writes it.
impl Display for Shown<Region> {
    fn fmt<W: fmt::Write>(&self, f: &mut fmt::Formatter<W>) -> fmt::Result {
        let Region {
            start_column,
            start_row,
            end_column,
            end_row,
        } = self.0;
        write!(f, "{start_column},{start_row},{end_column},{end_row}")
    }
}

// The state of a head: its plain values, each behind its name.
impl Display for Shown<HeadReport> {
    fn fmt<W: fmt::Write>(&self, f: &mut fmt::Formatter<W>) -> fmt::Result {
        let HeadReport {
            hung,
            boot,
            busy,
            code,
            count,
            size,
            saved,
        } = self.0;
        let hung = Shown(hung);
        let saved = Shown(saved);
        write!(
            f,
            "hung {hung} boot {boot} busy {busy} code {code} count {count} length {size} saved {saved}"
        )
    }
}

// Whether something is so.
impl Display for Shown<bool> {
    fn fmt<W: fmt::Write>(&self, f: &mut fmt::Formatter<W>) -> fmt::Result {
        f.write_str(if self.0 { "yes" } else { "no" })
    }
}

// The word that a read on the bus was answered with.
#[derive(Clone, Copy)]
pub(crate) struct WordRead(pub(crate) u16);

impl Display for WordRead {
    fn fmt<W: fmt::Write>(&self, f: &mut fmt::Formatter<W>) -> fmt::Result {
        let word = self.0;
        write!(f, "ok {word:04X}")
    }
}

// Prints the name of a directive, and what it answers or that it is refused, and why.
pub(crate) fn report<A: Display + Drop, R: Display + Drop>(
    rt: &HostRuntime,
    name: &str,
    outcome: Result<A, R>,
) -> Result<(), ScriptError> {
    match outcome {
        Ok(answer) => println!(rt; "{name} {answer}")?,
        Err(refusal) => println!(rt; "{name} refused {refusal}")?,
    }
    Ok(())
}
