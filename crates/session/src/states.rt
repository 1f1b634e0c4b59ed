// The states of a session. Each is a value of its own that a step uses up; the bus is passed beside it.
use calls::{Refusal, Stage};
use camera::Command;

// Nothing is known of the camera yet.
#[derive(Debug, Drop)]
pub struct Asleep;

// The camera was seen idle, and no command is under way. Its field is private, so that no caller makes one: it comes out of a
// session that was woken, and beginning a command uses it up.
#[derive(Debug, Drop)]
pub struct Ready(());

impl Ready {
    // The session is ready: what was begun has ended, or the camera was seen idle.
    pub(crate) fn new() -> Ready {
        Ready(())
    }
}

// The answer of a command that the camera has taken is owed.
#[derive(Debug, Drop)]
pub struct Parked {
    pub(crate) command: Command,
    pub(crate) stage: Stage,
}

// A command whose word was acknowledged and whose answer is owed to the holder. It is spent by collecting the answer or by
// parking it in a session; it cannot be let go.
#[derive(Debug)]
pub struct InFlight {
    pub(crate) command: Command,
}

// A session in any of its states. Contracts see it by `as_session` of specs/Views.antt, since an enum can have no Model.
#[derive(Debug, Drop)]
pub enum Session {
    // asleep: it is still to be woken
    Asleep(Asleep),
    // awake, with nothing under way: it can begin a command
    Ready(Ready),
    // it keeps a command whose answer is still to be collected
    Parked(Parked),
}

// What a step hands on: carried out, it leaves the session ready; refused, it hands back the session with the refusal.
pub(crate) type Step = Result<Ready, (Session, Refusal)>;
