// The panel's side of the bench: the session with the head, or its command in flight.
use crate::error::ScriptError;
use crate::session_directive::{FlightDirective, Order, SessionDirective};
use crate::shown::{Hex, Shown, report};
use calls::Refusal;
use camera::Bus;
use session::{InFlight, Ready, Session};
use std::alloc::AllocError;
use std::mem::replace;

// What each word of a buffer is before the call that it is passed to, so that those that the call leaves alone can be seen.
const UNTOUCHED: u16 = 0xEEEE;

// What the panel holds; the bus is passed beside it. A command in flight cannot be let go, so a panel has to be closed.
pub(crate) enum Panel {
    // the session, with no command in flight
    Open(Session),
    // a command in flight, which has used the session up
    InFlight(InFlight),
}

impl Panel {
    // A session that is asleep. It also stands in the panel's place while what the panel holds is taken out.
    pub(crate) fn asleep() -> Panel {
        Panel::Open(Session::new())
    }

    // Gives the panel up. A command in flight is parked first.
    pub(crate) fn close(self) {
        match self {
            Panel::Open(_) => {}
            Panel::InFlight(token) => {
                let _session = token.park();
            }
        }
    }

    // What the panel holds from now on, in place of what it held.
    pub(crate) fn put(&mut self, panel: Panel) {
        replace(self, panel).close();
    }

    // Whether a command is in flight.
    pub(crate) fn is_in_flight(&self) -> bool {
        matches!(self, Panel::InFlight(_))
    }

    // The session, to be looked at.
    pub(crate) fn session(&self) -> Result<&Session, ScriptError> {
        match self {
            Panel::Open(session) => Ok(session),
            Panel::InFlight(_) => Err(ScriptError::OutOfPlace),
        }
    }

    // The session, for a call on it.
    fn session_mut(&mut self) -> Result<&mut Session, ScriptError> {
        match self {
            Panel::Open(session) => Ok(session),
            Panel::InFlight(_) => Err(ScriptError::OutOfPlace),
        }
    }

    // Takes the ready session out, for a command that uses it up. Anything else stays.
    fn take_ready(&mut self) -> Result<Ready, ScriptError> {
        match replace(self, Panel::asleep()) {
            Panel::Open(Session::Ready(ready)) => Ok(ready),
            other => {
                self.put(other);
                Err(ScriptError::OutOfPlace)
            }
        }
    }

    // Takes the command in flight out, to be spent. A session stays.
    fn take_in_flight(&mut self) -> Result<InFlight, ScriptError> {
        match replace(self, Panel::asleep()) {
            Panel::InFlight(token) => Ok(token),
            other => {
                self.put(other);
                Err(ScriptError::OutOfPlace)
            }
        }
    }

    // Carries out a directive on the session.
    pub(crate) fn carry_out<B: Bus>(
        &mut self,
        rt: &HostRuntime,
        bus: &mut B,
        directive: SessionDirective,
    ) -> Result<(), ScriptError> {
        match directive {
            SessionDirective::Wake { budget } => {
                let answer = self.session_mut()?.wake(bus, budget);
                report_call(rt, "wake", answer)
            }
            SessionDirective::Get {
                attribute,
                size,
                budget,
            } => {
                let mut buffer = untouched(rt, size)?;
                let words = buffer.as_mut_slice();
                let answer = self.session_mut()?.get(bus, attribute, words, budget);
                report_buffer(rt, "get", answer, buffer.as_slice())
            }
            SessionDirective::Set {
                attribute,
                budget,
                words,
            } => {
                let words = words.as_slice();
                let answer = self.session_mut()?.set(bus, attribute, words, budget);
                report_call(rt, "set", answer)
            }
            SessionDirective::Run { attribute, budget } => {
                let answer = self.session_mut()?.run(bus, attribute, budget);
                report_call(rt, "run", answer)
            }
            SessionDirective::Begin(order) => self.begin(rt, bus, order),
        }
    }

    // Sends a command. Refused, the session is ready still.
    fn begin<B: Bus>(
        &mut self,
        rt: &HostRuntime,
        bus: &mut B,
        order: Order,
    ) -> Result<(), ScriptError> {
        let ready = self.take_ready()?;
        let (panel, answer) = match send(ready, bus, order) {
            Ok(token) => (Panel::InFlight(token), Ok(())),
            Err((ready, refusal)) => (Panel::Open(Session::Ready(ready)), Err(refusal)),
        };
        self.put(panel);
        report_call(rt, "begin", answer)
    }

    // Carries out a directive on the command in flight.
    pub(crate) fn spend<B: Bus>(
        &mut self,
        rt: &HostRuntime,
        bus: &mut B,
        directive: FlightDirective,
    ) -> Result<(), ScriptError> {
        match directive {
            FlightDirective::Collect { size, budget } => {
                let mut buffer = untouched(rt, size)?;
                let token = self.take_in_flight()?;
                let (session, answer) = token.collect(bus, buffer.as_mut_slice(), budget);
                self.put(Panel::Open(session));
                report_buffer(rt, "collect", answer, buffer.as_slice())
            }
            FlightDirective::Park => {
                let token = self.take_in_flight()?;
                self.put(Panel::Open(token.park()));
                report_call(rt, "park", Ok(()))
            }
        }
    }
}

// Sends the command of an order.
fn send<B: Bus>(ready: Ready, bus: &mut B, order: Order) -> Result<InFlight, (Ready, Refusal)> {
    match order {
        Order::Get(attribute) => ready.begin_get(bus, attribute),
        Order::Set(attribute, words) => ready.begin_set(bus, attribute, words.as_slice()),
        Order::Run(attribute) => ready.begin_run(bus, attribute),
    }
}

// A buffer of so many words, for a call to fill.
fn untouched(rt: &HostRuntime, size: usize) -> Result<Vec<u16>, AllocError> {
    Ok(vec![in rt.alloc(); UNTOUCHED; size]?)
}

// Prints what a call answered.
fn report_call(
    rt: &HostRuntime,
    name: &str,
    answer: Result<(), Refusal>,
) -> Result<(), ScriptError> {
    report(rt, name, answer.map(|()| "ok").map_err(Shown))
}

// Prints what a call answered, and its buffer, whatever the answer is.
fn report_buffer(
    rt: &HostRuntime,
    name: &str,
    answer: Result<(), Refusal>,
    buffer: &[u16],
) -> Result<(), ScriptError> {
    // not by `report`: the buffer is shown behind a refusal too
    let words = Hex::<u16, 4>(buffer);
    match answer {
        Ok(()) => println!(rt; "{name} ok :{words}")?,
        Err(refusal) => {
            let refusal = Shown(refusal);
            println!(rt; "{name} refused {refusal} :{words}")?;
        }
    }
    Ok(())
}
