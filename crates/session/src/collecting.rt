// The rest of a command whose word the camera has taken.
ghost use Rattle.calls.specs.Accesses.{camera};
ghost use Rattle.calls.specs.Calls.{has_room, is_budget, parked, resume};
ghost use Rattle.calls.specs.Outcomes.{outcome};
ghost use Rattle.calls.specs.declared.refusal.Refusal.TheVariants.{BadBudget, WrongSize};
ghost use Rattle.checks.specs.Tests.{judged};
ghost use Rattle.session.specs.Views.{as_session, left_by};
ghost use Rattle.std.specs.Prelude.{◌≡◌, [], ◌∷◌};

use crate::states::{Parked, Ready, Session, Step};
use calls::{Refusal, Stage};
use camera::{Bus, Command, Kind, size_of};
use driver::{Awaited, fetch, poll};
use words::response_code;

// The most status reads of a budget.
const MOST_READS: u16 = 1000;

// What is tested of each budget: it is 1 to 1,000 status reads. No type carries that it was tested: nothing after the test
// asks it of a caller, and `poll`, the one place that uses a budget, takes any number of reads.
pub(crate) fn check_budget(budget: u16) -> Result<(), Refusal>
    ensures value { result ≡ judged ((is_budget budget, BadBudget) ∷ []) tt }
{
    if !(1..=MOST_READS).contains(&budget) {
        return Err(Refusal::BadBudget);
    }
    Ok(())
}

// A refusal that leaves a command parked at a stage.
fn parked(command: Command, stage: Stage, refusal: Refusal) -> (Session, Refusal)
    ensures state { as_session result.0 ≡ parked command stage }
    ensures refusal { result.1 ≡ refusal }
{
    (Session::Parked(Parked { command, stage }), refusal)
}

// Whether a command can be collected into a buffer: a get's has room for exactly its words.
fn has_room(command: Command, buffer: &[u16]) -> bool
    ensures value { result ≡ has_room command.kind command.number buffer.now }
{
    match command.kind {
        Kind::Get => buffer.len() == size_of(command.number),
        Kind::Set | Kind::Run => true,
    }
}

// What is tested before a parked command goes on: the buffer's size, and the budget.
fn check(command: Command, buffer: &[u16], budget: u16) -> Result<(), Refusal>
    ensures value { result ≡ judged ((has_room command.kind command.number buffer.now, WrongSize) ∷ (is_budget budget, BadBudget) ∷ []) tt }
{
    if !has_room(command, buffer) {
        return Err(Refusal::WrongSize);
    }
    check_budget(budget)
}

impl Parked {
    // The parked command goes on from the stage that it has reached, unless the buffer or the budget is refused.
    pub(crate) fn resumed<B: Bus>(self, bus: &mut B, buffer: &mut [u16], budget: u16) -> Step
        ensures outcome { left_by result buffer.new (B.Bus.state bus.new) ≡ outcome camera (parked self.command self.stage) (resume buffer.old budget) (B.Bus.state bus.old) }
    {
        let Parked { command, stage } = self;
        check(command, buffer, budget).map_err(|refusal| parked(command, stage, refusal))?;
        if let Stage::Waiting = stage {
            let polled = poll(bus, Awaited::Free, budget);
            let status = polled.map_err(|refusal| parked(command, Stage::Waiting, refusal))?;
            let code = response_code(status);
            if code != 0 {
                return Err((Session::Ready(Ready::new()), Refusal::Camera(code)));
            }
        }
        if let Kind::Get = command.kind {
            let fetched = fetch(bus, command.number, buffer);
            fetched.map_err(|refusal| parked(command, Stage::Reading, refusal))?;
        }
        Ok(Ready::new())
    }
}
