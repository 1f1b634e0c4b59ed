// The camera head that a script works on, with the packet links over it, the session with it, and the settings of the next
// head.
use crate::error::ScriptError;
use crate::head_directive::{HeadDirective, Setting};
use crate::panel::Panel;
use crate::session_directive::{FlightDirective, SessionDirective};
use crate::shown::{Hex, Shown, WordRead, report};
use camera::Bus;
use head::{Head, HeadSettings};
use packet::Access;
use stack::{Links, Stack};
use std::alloc::Global;

// The settings of the next head and of the links over it, the head that was made last, under its links, and the panel with
// the session. While there is no head, no directive reaches the panel. Like the panel, a station has to be closed.
pub(crate) struct Station {
    settings: HeadSettings,
    links: Links,
    stack: Option<Stack<Head>>,
    panel: Panel,
}

impl Station {
    // No head yet, and all settings 0 or empty.
    pub(crate) fn new(heap: Global) -> Station {
        Station {
            settings: HeadSettings {
                boot: 0,
                serial: 0,
                fpa: 0,
                busy: Vec::new(heap),
                acks: Vec::new(heap),
            },
            links: Links::None,
            stack: None,
            panel: Panel::asleep(),
        }
    }

    // Gives the station up. A command in flight is parked first.
    pub(crate) fn close(self) {
        let Station {
            settings: _,
            links: _,
            stack: _,
            panel,
        } = self;
        panel.close();
    }

    // Carries out a directive on a head.
    pub(crate) fn carry_out(
        &mut self,
        rt: &HostRuntime,
        directive: HeadDirective,
    ) -> Result<(), ScriptError> {
        match directive {
            HeadDirective::Set(setting) => {
                self.set(setting);
                Ok(())
            }
            HeadDirective::Make => self.make(rt),
            HeadDirective::Access(Access::Read { address }) => {
                let answer = self.stack()?.read(address);
                report(rt, "read", answer.map(WordRead).map_err(Shown))
            }
            HeadDirective::Access(Access::Write { address, word }) => {
                let answer = self.stack()?.write(address, word);
                report(rt, "write", answer.map(|()| "ok").map_err(Shown))
            }
            HeadDirective::Frame(pixels) => self.load_frame(rt, pixels),
            HeadDirective::State => self.print_state(rt),
            HeadDirective::Attribute(number) => self.print_attribute(rt, number),
        }
    }

    // Carries out a directive on the session.
    pub(crate) fn call(
        &mut self,
        rt: &HostRuntime,
        directive: SessionDirective,
    ) -> Result<(), ScriptError> {
        let stack = self.stack.as_mut().ok_or(ScriptError::NoHead)?;
        self.panel.carry_out(rt, stack, directive)
    }

    // Carries out a directive on the session's command in flight.
    pub(crate) fn spend(
        &mut self,
        rt: &HostRuntime,
        directive: FlightDirective,
    ) -> Result<(), ScriptError> {
        let stack = self.stack.as_mut().ok_or(ScriptError::NoHead)?;
        self.panel.spend(rt, stack, directive)
    }

    // Whether a command of the session is in flight.
    pub(crate) fn is_in_flight(&self) -> bool {
        self.panel.is_in_flight()
    }

    // The head under its links.
    fn stack(&mut self) -> Result<&mut Stack<Head>, ScriptError> {
        self.stack.as_mut().ok_or(ScriptError::NoHead)
    }

    // The head itself, to ask it what its accesses do not tell.
    fn head(&self) -> Result<&Head, ScriptError> {
        let stack = self.stack.as_ref().ok_or(ScriptError::NoHead)?;
        Ok(stack.bus())
    }

    // Changes a setting of the next head.
    fn set(&mut self, setting: Setting) {
        match setting {
            Setting::Boot(polls) => self.settings.boot = polls,
            Setting::Serial(number) => self.settings.serial = number,
            Setting::Fpa(temperature) => self.settings.fpa = temperature,
            Setting::Busy(polls) => self.settings.busy = polls,
            Setting::Acks(marks) => self.settings.acks = marks,
            Setting::Links(count) => self.links = count,
        }
    }

    // Makes a head from the settings, which stay for later heads, and a session that is asleep. The two lists are cloned
    // here: a `Clone` of `HeadSettings` would be a public function below the programs that can fail for want of memory.
    // Out of line, like `load_frame`: the heads that they move took 100 KB in the frame of `carry_out`, which each directive
    // paid for when it entered: lines of settings took 1.4 times as long.
    #[inline(never)]
    fn make(&mut self, rt: &HostRuntime) -> Result<(), ScriptError> {
        let settings = HeadSettings {
            busy: self.settings.busy.clone()?,
            acks: self.settings.acks.clone()?,
            ..self.settings
        };
        let outcome = match Head::new(settings) {
            Ok(head) => {
                self.stack = Some(Stack::over(head, self.links));
                self.panel.put(Panel::asleep());
                Ok("ok")
            }
            Err(refusal) => Err(refusal.number()),
        };
        report(rt, "make", outcome)
    }

    // The sensor's frame goes to the head itself. A stack lends the bus below its links only to be looked at, so the
    // links are taken off for it and laid again.
    #[inline(never)]
    fn load_frame(&mut self, rt: &HostRuntime, pixels: Vec<u16>) -> Result<(), ScriptError> {
        let stack = self.stack.take().ok_or(ScriptError::NoHead)?;
        let links = stack.links();
        let mut head = stack.into_bus();
        let answer = head.load_frame(pixels.as_slice());
        self.stack = Some(Stack::over(head, links));
        report(
            rt,
            "frame",
            answer.map(|()| "ok").map_err(|refusal| refusal.number()),
        )
    }

    // Prints the states of the session and of the head.
    fn print_state(&self, rt: &HostRuntime) -> Result<(), ScriptError> {
        let state = Shown(self.head()?.report());
        let session = Shown(self.panel.session()?);
        println!(rt; "state session {session} {state}")?;
        Ok(())
    }

    // Prints the words that an attribute shows.
    fn print_attribute(&self, rt: &HostRuntime, number: u16) -> Result<(), ScriptError> {
        let words = self.head()?.attribute(rt.alloc(), number)?;
        let shown = Hex::<u16, 4>(words.as_slice());
        println!(rt; "attribute {number} :{shown}")?;
        Ok(())
    }
}
