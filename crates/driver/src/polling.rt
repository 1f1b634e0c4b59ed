// Polling the status register.
ghost use Rattle.calls.specs.Accesses.{camera};
ghost use Rattle.calls.specs.Outcomes.{is_free, is_up, polled};
ghost use Rattle.camera.specs.Steps.{ended};
ghost use Rattle.driver.specs.Driving.{passes};
ghost use Rattle.std.specs.Prelude.{◌≡◌};

use crate::access::Existing;
use calls::Refusal;
use camera::Bus;

// What is waited for. It is no closure that tests a status word, since that would put a `requires` on `poll`, that the closure
// may be called, and no public function of the project has one.
#[derive(Clone, Copy, Debug, PartialEq, Eq)]
pub enum Awaited {
    // that the camera has booted and is not busy
    Up,
    // that the camera is not busy
    Free,
}

// The bit of a status word that says that the camera is busy.
const BUSY: u16 = 1 << 0;

// The bit that says that it has booted.
const BOOTED: u16 = 1 << 2;

// Whether a status word says that the camera is not busy.
fn is_free(status: u16) -> bool
    ensures value { result ≡ is_free status }
{
    status & BUSY == 0
}

// Whether it says that the camera has booted too.
#[tactic(auto, using(crate::proofs::StatusReads::booted_bit))]
fn is_up(status: u16) -> bool
    ensures value { result ≡ is_up status }
{
    status & BOOTED != 0 && is_free(status)
}

impl Awaited {
    // Whether a status word shows it.
    fn is_shown(self, status: u16) -> bool
        ensures value { result ≡ passes self status }
    {
        match self {
            Awaited::Up => is_up(status),
            Awaited::Free => is_free(status),
        }
    }
}

// Reads the status register until it shows what is awaited, as often as the budget allows: that status word, or a refusal.
// The project's form of a polling loop: it is left by `break` with the status word, or runs out.
#[tactic(auto, using(crate::proofs::StatusReads::polling))]
pub fn poll<B: Bus>(bus: &mut B, awaited: Awaited, budget: u16) -> Result<u16, Refusal>
    ensures outcome { ended result (B.Bus.state bus.new) ≡ polled camera (passes awaited) budget (B.Bus.state bus.old) }
{
    'polling: {
        for _polls in 0..budget {
            let status = Existing::STATUS.read(bus)?;
            if awaited.is_shown(status) {
                break 'polling Ok(status);
            }
        }
        Err(Refusal::StillBusy)
    }
}
