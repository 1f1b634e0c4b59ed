// A command's steps, taken singly: a ready session begins it, and then its answer is owed.
ghost use Rattle.calls.specs.Accesses.{camera};
ghost use Rattle.calls.specs.Beginning.{begun};
ghost use Rattle.calls.specs.Calls.{resume};
ghost use Rattle.calls.specs.Outcomes.{outcome};
ghost use Rattle.calls.specs.declared.stage.Stage.TheVariants.{Waiting};
ghost use Rattle.camera.specs.Commands.{command};
ghost use Rattle.camera.specs.Steps.{ended};
ghost use Rattle.camera.specs.declared.attribute.Kind.TheVariants.{Get, Set, Run};
ghost use Rattle.session.specs.Views.{TokenOf, answer_of, as_begun, as_session, command_in, in_flight, left, left_by, session_after, words_in};
ghost use Rattle.std.specs.Prelude.{◌≡◌, []};

use crate::orders::Order;
use crate::states::{InFlight, Parked, Ready, Session, Step};
use calls::{Refusal, Stage};
use camera::Bus;
use driver::send;

// What a step answers, and the session that it hands on.
pub(crate) fn settled(step: Step) -> (Session, Result<(), Refusal>)
    ensures session { as_session result.0 ≡ session_after step }
    ensures answer { result.1 ≡ answer_of step }
{
    match step {
        Ok(state) => (Session::Ready(state), Ok(())),
        Err((session, refusal)) => (session, Err(refusal)),
    }
}

impl Ready {
    // Sends a command up to its command word. Refused, the session is ready still.
    pub(crate) fn begin<B: Bus>(
        self,
        bus: &mut B,
        order: Order<'_>,
    ) -> Result<InFlight, (Ready, Refusal)>
        ensures outcome { ended (as_begun result) (B.Bus.state bus.new) ≡ begun camera (command_in order.entry) (words_in order.entry) (B.Bus.state bus.old) }
        ensures token { TokenOf (command_in order.entry) result }
    {
        let command = order.command();
        send(bus, command, order.words()).map_err(|refusal| (self, refusal))?;
        Ok(InFlight { command })
    }

    // Begins a get of the attribute of a number.
    pub fn begin_get<B: Bus>(self, bus: &mut B, number: u16) -> Result<InFlight, (Ready, Refusal)>
        ensures outcome { ended (as_begun result) (B.Bus.state bus.new) ≡ begun camera (command Get number) [] (B.Bus.state bus.old) }
        ensures token { TokenOf (command Get number) result }
    {
        self.begin(bus, Order::Get(number))
    }

    // Begins a set of the attribute of a number to words.
    pub fn begin_set<B: Bus>(
        self,
        bus: &mut B,
        number: u16,
        words: &[u16],
    ) -> Result<InFlight, (Ready, Refusal)>
        ensures outcome { ended (as_begun result) (B.Bus.state bus.new) ≡ begun camera (command Set number) words.now (B.Bus.state bus.old) }
        ensures token { TokenOf (command Set number) result }
    {
        self.begin(bus, Order::Set(number, words))
    }

    // Begins a run of the attribute of a number.
    pub fn begin_run<B: Bus>(self, bus: &mut B, number: u16) -> Result<InFlight, (Ready, Refusal)>
        ensures outcome { ended (as_begun result) (B.Bus.state bus.new) ≡ begun camera (command Run number) [] (B.Bus.state bus.old) }
        ensures token { TokenOf (command Run number) result }
    {
        self.begin(bus, Order::Run(number))
    }
}

impl InFlight {
    // The command, parked and waiting for its answer.
    pub(crate) fn waiting(self) -> Parked
        ensures command { result.command ≡ self.command }
        ensures stage { result.stage ≡ Waiting }
    {
        let InFlight { command } = self;
        Parked {
            command,
            stage: Stage::Waiting,
        }
    }

    // Keeps the command in a session: parked, its answer still to be collected.
    pub fn park(self) -> Session
        ensures state { as_session result ≡ in_flight self }
    {
        Session::Parked(self.waiting())
    }

    // Collects the answer: the rest of the command, which is what docs/CALLS.md defines for a command that is parked and waits.
    pub fn collect<B: Bus>(
        self,
        bus: &mut B,
        buffer: &mut [u16],
        budget: u16,
    ) -> (Session, Result<(), Refusal>)
        ensures outcome { left result buffer.new (B.Bus.state bus.new) ≡ outcome camera (in_flight self) (resume buffer.old budget) (B.Bus.state bus.old) }
    {
        settled(self.waiting().resumed(bus, buffer, budget))
    }
}
