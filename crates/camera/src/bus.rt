// A bus: whatever carries accesses to a camera's registers.
ghost use Rattle.camera.specs.State.{CameraState, Possible};
ghost use Rattle.camera.specs.Steps.{ended, read_step, write_step};
ghost use Rattle.std.specs.Prelude.{◌≡◌};

use crate::fault::Fault;

// A bus means the state of the camera behind it. It keeps the camera's rules: each access answers and leaves what the
// rules say, faults included, for every address and every word. It lays no condition on its caller.
pub trait Bus {
    // the state of the camera behind the bus
    ghost state: { Self → CameraState };

    // Reads the register at an address.
    fn read(&mut self, address: u16) -> Result<u16, Fault>
        ensures outcome { ended result (state self.new) ≡ read_step (state self.old) address };

    // Writes a word to the register at an address.
    fn write(&mut self, address: u16, word: u16) -> Result<(), Fault>
        ensures outcome { ended result (state self.new) ≡ write_step (state self.old) address word };

    // That state is one that a camera can have.
    ghost possible: { (bus : Self) → Possible (state bus) };
}
