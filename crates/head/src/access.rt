// One access to a head: modes, marks, and the registers.
ghost use Rattle.camera.specs.Steps.{ended, held, mode, read_effect, read_step, stored, write_effect, write_step};
ghost use Rattle.head.specs.Accesses.{followed};
ghost use Rattle.head.specs.Meaning.{head_state};
ghost use Rattle.std.specs.Prelude.{◌≡◌, ℕ, Ok};
ghost use Rattle.head.specs.Filling.{saved_filled, words_filled};

use crate::memory::Head;
use crate::slices::put;
use camera::{Bus, Fault, Mode, Register, decode, word_at};
use words::code_byte;

// The status word of a camera that hangs or is busy.
const BUSY_STATUS: u16 = 0x0007;

// What an idle status word has beside the response code.
const IDLE_STATUS: u8 = 6;

impl Head {
    // The mode that the camera is in.
    fn mode(&self) -> Mode
        ensures value { result ≡ mode (head_state self.now) }
    {
        if self.inner.hung {
            Mode::Hung
        } else if self.inner.boot > 0 {
            Mode::Booting(self.inner.boot - 1)
        } else if self.inner.busy > 0 {
            Mode::Busy(self.inner.busy - 1)
        } else {
            Mode::Idle
        }
    }

    // The register that an access meets: there is one at the address, and the next mark, which is used up, acknowledges
    // the access, or no mark is left, which acknowledges it too.
    #[tactic(auto, unfolding(camera::specs::Steps::read_step, camera::specs::Steps::write_step))]
    fn reach(&mut self, address: u16) -> Result<Register, Fault>
        ensures read { followed read_effect result (head_state self.new) ≡ read_step (head_state self.old) address }
        ensures write { (word : ℕ) → followed (write_effect word) result (head_state self.new) ≡ write_step (head_state self.old) address word }
    {
        let register = decode(address)?;
        match self.acks.pop_front() {
            Some(false) => Err(Fault::NotAcknowledged { address }),
            _ => Ok(register),
        }
    }

    // What a register of an idle camera reads. The last two arms name their arrays, as in `store`: a register of words is of
    // one bank already, so that `Inner::bank` would have nothing to choose.
    fn held(&self, register: Register) -> u16
        ensures value { result ≡ held register (head_state self.now) }
    {
        match register {
            Register::Power | Register::Command => 0,
            Register::Status => u16::from_be_bytes([code_byte(self.inner.code), IDLE_STATUS]),
            Register::Length => self.inner.size,
            Register::Data(place) => word_at(&self.inner.data, usize::from(place)),
            Register::Block(place) => word_at(&self.inner.block, usize::from(place)),
        }
    }

    // An acknowledged read.
    fn read_register(&mut self, register: Register) -> u16
        ensures outcome { ended (Ok result) (head_state self.new) ≡ read_effect register (head_state self.old) }
    {
        match (self.mode(), register) {
            (Mode::Hung, Register::Status) => BUSY_STATUS,
            (Mode::Booting(left), Register::Status) => {
                self.inner.boot = left;
                0
            }
            (Mode::Busy(left), Register::Status) => {
                self.inner.busy = left;
                BUSY_STATUS
            }
            (Mode::Idle, _) => self.held(register),
            _ => 0,
        }
    }

    // What a write to a register of an idle camera does. Its last two arms name their arrays for the reason that `held` gives.
    #[tactic(auto, unfolding(camera::specs::Execution::commanded))]
    fn store(&mut self, register: Register, word: u16)
        ensures after { head_state self.new ≡ stored register word (head_state self.old) }
    {
        match register {
            Register::Power | Register::Status => {}
            Register::Command => self.execute(word),
            Register::Length => self.inner.size = word,
            Register::Data(place) => put(&mut self.inner.data, usize::from(place), word),
            Register::Block(place) => put(&mut self.inner.block, usize::from(place), word),
        }
    }

    // An acknowledged write.
    fn write_register(&mut self, register: Register, word: u16)
        ensures outcome { ended (Ok tt) (head_state self.new) ≡ write_effect word register (head_state self.old) }
    {
        match self.mode() {
            Mode::Hung => {}
            Mode::Booting(_) | Mode::Busy(_) => self.inner.hung = true,
            Mode::Idle => self.store(register, word),
        }
    }
}

impl Bus for Head {
    ghost state = { head_state };

    ghost possible = { λ bus.
        record {
          size_bits = bus.inner.size_bits;
          data_full = bus.inner.data_full;
          block_full = bus.inner.block_full;
          code_bits = record { sfits = bus.inner.code_bits };
          count_bits = bus.inner.count_bits;
          words_full = λ k h. words_filled bus.inner.table.records k;
          saved_full = saved_filled bus.inner.saved;
        } };

    fn read(&mut self, address: u16) -> Result<u16, Fault> {
        let register = self.reach(address)?;
        Ok(self.read_register(register))
    }

    fn write(&mut self, address: u16, word: u16) -> Result<(), Fault> {
        let register = self.reach(address)?;
        self.write_register(register, word);
        Ok(())
    }
}
