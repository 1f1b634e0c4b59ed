// Carrying out commands.
ghost use Rattle.std.specs.Prelude.{◌≡◌, ◌≤◌, length, pos};
ghost use Rattle.camera.specs.Attributes.{size_of};
ghost use Rattle.camera.specs.Execution.{answered, carried_out, executed, lawful, run_done, standing, taken, verdict};
ghost use Rattle.camera.specs.Commands.{command_of};
ghost use Rattle.head.specs.Meaning.{head_state, registers_in};
ghost use Rattle.head.specs.Rejections.{response, verdict_of};

use crate::memory::Head;
use crate::rejection::Rejection;
use camera::{Attribute, Bank, Command, Kind, RESTORE, USER_DEFAULTS, size_of};

impl Head {
    // A command word is taken: the count rises, and the next number of busy polls begins.
    fn take_command(&mut self)
        ensures after { head_state self.new ≡ taken (head_state self.old) }
    {
        self.inner.count = self.inner.count.wrapping_add(1);
        self.inner.busy = self.coming.pop_front().unwrap_or(0);
    }

    // The words of an attribute that stand in the registers.
    pub(crate) fn standing(&self, number: u16) -> &[u16]
        ensures value { result.now ≡ standing number (registers_in self.now.inner) }
        ensures size { length result.now ≡ size_of number }
        ensures bound { length result.now ≤ 512 }
    {
        &self.inner.bank(Bank::of(number))[..size_of(number)]
    }

    // Whether the words of a set keep the limits.
    fn is_lawful(&self, command: Command) -> bool
        ensures value { result ≡ lawful command.kind command.number (registers_in self.now.inner) }
    {
        match command.kind {
            Kind::Get | Kind::Run => true,
            Kind::Set => {
                let words = self.standing(command.number);
                Attribute::of(command.number).is_some_and(|found| found.limits.allow(words))
            }
        }
    }

    // Whether a command may be carried out: the first test that fails gives the rejection.
    fn check(&self, command: Command) -> Result<(), Rejection>
        ensures value { verdict_of result ≡ verdict command.kind command.number (registers_in self.now.inner) (head_state self.now).interpreter }
    {
        if !command.is_offered() {
            return Err(Rejection::NotOffered);
        }
        if usize::from(self.inner.size) != command.size() {
            return Err(Rejection::WrongSize);
        }
        if !self.is_lawful(command) {
            return Err(Rejection::OutOfLimits);
        }
        match (command.kind, command.number, self.inner.saved.is_some()) {
            (Kind::Run, USER_DEFAULTS, true) => Err(Rejection::AlreadySaved),
            (Kind::Run, RESTORE, false) => Err(Rejection::NothingSaved),
            _ => Ok(()),
        }
    }

    // Runs what an attribute stands for.
    fn run(&mut self, number: u16)
        ensures after { head_state self.new ≡ run_done number (head_state self.old) }
    {
        match number {
            USER_DEFAULTS => self.save(),
            RESTORE => self.restore(),
            _ => {}
        }
    }

    // Carries out a command that is not rejected, but for its response code of 0, which may also come before.
    #[tactic(auto, unfolding(camera::specs::State::shown))]
    fn carry_out(&mut self, command: Command)
        ensures after { answered (pos 0) (head_state self.new) ≡ carried_out command.kind command.number (answered (pos 0) (head_state self.old)) }
    {
        match command.kind {
            Kind::Get => self.get(command.number),
            Kind::Set => self.set(command.number),
            Kind::Run => self.run(command.number),
        }
    }

    // Judges a command word, and carries it out if it is not refused.
    fn judge(&mut self, word: u16) -> Result<(), Rejection>
        ensures after { answered (response result) (head_state self.new) ≡ executed (command_of word) (head_state self.old) }
    {
        let command = Command::of(word).ok_or(Rejection::NoCommand)?;
        self.check(command)?;
        self.carry_out(command);
        Ok(())
    }

    // A word in the command register.
    pub(crate) fn execute(&mut self, word: u16)
        ensures after { head_state self.new ≡ executed (command_of word) (taken (head_state self.old)) }
    {
        self.take_command();
        self.inner.code = match self.judge(word) {
            Ok(()) => 0,
            Err(rejection) => rejection as i8,
        };
    }
}
