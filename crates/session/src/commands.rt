// The calls on a session: wake, get, set and run.
ghost use Rattle.calls.specs.Accesses.{camera};
ghost use Rattle.calls.specs.Calls.{asleep, command_checks, get, ready, run, served, set, wake};
ghost use Rattle.calls.specs.Outcomes.{outcome};
ghost use Rattle.checks.specs.Tests.{judged};
ghost use Rattle.session.specs.Views.{HandsBack, answer_of, as_session, brought, command_in, left_by, order_outcome, session_after};
ghost use Rattle.std.specs.Prelude.{◌≡◌, []};

use crate::collecting::check_budget;
use crate::orders::Order;
use crate::states::{Asleep, Ready, Session, Step};
use crate::steps::settled;
use calls::Refusal;
use camera::Bus;
use driver::{Awaited, check_command, poll};
use std::mem::take;

// What is tested of a command before any access, on a session that is ready.
fn check(order: Order<'_>, buffer: &[u16], budget: u16) -> Result<(), Refusal>
    ensures value { result ≡ judged (command_checks ready (command_in order.entry).kind (command_in order.entry).number (brought order.entry buffer.now) budget) tt }
{
    let command = order.command();
    check_command(command, order.brought(buffer), command.size())?;
    check_budget(budget)
}

// A refusal that leaves the session asleep.
fn asleep(refusal: Refusal) -> (Session, Refusal)
    ensures state { as_session result.0 ≡ asleep }
    ensures refusal { result.1 ≡ refusal }
{
    (Session::Asleep(Asleep), refusal)
}

// A session is asleep where none is given.
impl Default for Session {
    ghost is_default = { λ session. as_session session ≡ asleep };

    fn default() -> Session {
        Session::Asleep(Asleep)
    }
}

impl Session {
    // A session that is asleep.
    pub fn new() -> Session
        ensures state { as_session result ≡ asleep }
    {
        Session::default()
    }

    // Takes what a step hands on, and answers it.
    fn keep(&mut self, step: Step) -> Result<(), Refusal>
        ensures answer { result ≡ answer_of step }
        ensures state { as_session self.new ≡ session_after step }
    {
        let (session, answer) = settled(step);
        *self = session;
        answer
    }

    // The tests of an order let the ready session through.
    fn tested(self, order: Order<'_>, buffer: &[u16], budget: u16) -> Step
        ensures value { answer_of result ≡ judged (command_checks (as_session self) (command_in order.entry).kind (command_in order.entry).number (brought order.entry buffer.now) budget) tt }
        ensures kept { HandsBack self result }
    {
        match self {
            Session::Asleep(_) => Err((self, Refusal::Asleep)),
            Session::Parked(_) => Err((self, Refusal::CommandParked)),
            Session::Ready(state) => {
                check(order, buffer, budget).map_err(|refusal| (
                    Session::Ready(Ready::new()),
                    refusal,
                ))?;
                Ok(state)
            }
        }
    }

    // A wake, with the session handed on. It is no chain by `and_then`, whose closure would poll: tried with a clause and without
    // one, the bus moves into that closure, and the proof learns nothing of the state in which the camera is left.
    fn woken<B: Bus>(self, bus: &mut B, budget: u16) -> Step
        ensures outcome { left_by result [] (B.Bus.state bus.new) ≡ outcome camera (as_session self) (wake budget) (B.Bus.state bus.old) }
    {
        let Session::Asleep(_) = self else {
            return Err((self, Refusal::Awake));
        };
        check_budget(budget).map_err(asleep)?;
        poll(bus, Awaited::Up, budget).map_err(asleep)?;
        Ok(Ready::new())
    }

    // A whole command, with the session handed on: tested, begun and collected.
    #[tactic(auto, using(crate::proofs::Issuing::in_steps))]
    fn ordered<B: Bus>(self, bus: &mut B, order: Order<'_>, buffer: &mut [u16], budget: u16) -> Step
        ensures outcome { left_by result buffer.new (B.Bus.state bus.new) ≡ order_outcome (as_session self) order.entry buffer.old budget (B.Bus.state bus.old) }
    {
        let state = self.tested(order, buffer, budget)?;
        let token = state
            .begin(bus, order)
            .map_err(|(state, refusal)| (Session::Ready(state), refusal))?;
        token.waiting().resumed(bus, buffer, budget)
    }

    // Wakes the session: status is read until the camera has booted and is not busy.
    pub fn wake<B: Bus>(&mut self, bus: &mut B, budget: u16) -> Result<(), Refusal>
        ensures outcome { served result [] (as_session self.new) (B.Bus.state bus.new) ≡ outcome camera (as_session self.old) (wake budget) (B.Bus.state bus.old) }
    {
        let step = take(self).woken(bus, budget);
        self.keep(step)
    }

    // Gets the words of an attribute into a buffer of its size.
    #[tactic(auto, using(crate::proofs::Issuing::order_is_get))]
    pub fn get<B: Bus>(
        &mut self,
        bus: &mut B,
        number: u16,
        buffer: &mut [u16],
        budget: u16,
    ) -> Result<(), Refusal>
        ensures outcome { served result buffer.new (as_session self.new) (B.Bus.state bus.new) ≡ outcome camera (as_session self.old) (get number buffer.old budget) (B.Bus.state bus.old) }
    {
        let step = take(self).ordered(bus, Order::Get(number), buffer, budget);
        self.keep(step)
    }

    // Sets an attribute to words, as many as it has.
    #[tactic(auto, using(std::proofs::lemmas::List::nil_from_length, crate::proofs::Issuing::order_is_set))]
    pub fn set<B: Bus>(
        &mut self,
        bus: &mut B,
        number: u16,
        words: &[u16],
        budget: u16,
    ) -> Result<(), Refusal>
        ensures outcome { served result [] (as_session self.new) (B.Bus.state bus.new) ≡ outcome camera (as_session self.old) (set number words.now budget) (B.Bus.state bus.old) }
    {
        let step = take(self).ordered(bus, Order::Set(number, words), &mut [], budget);
        self.keep(step)
    }

    // Runs what an attribute stands for.
    #[tactic(auto, using(std::proofs::lemmas::List::nil_from_length, crate::proofs::Issuing::order_is_run))]
    pub fn run<B: Bus>(&mut self, bus: &mut B, number: u16, budget: u16) -> Result<(), Refusal>
        ensures outcome { served result [] (as_session self.new) (B.Bus.state bus.new) ≡ outcome camera (as_session self.old) (run number budget) (B.Bus.state bus.old) }
    {
        let step = take(self).ordered(bus, Order::Run(number), &mut [], budget);
        self.keep(step)
    }
}
