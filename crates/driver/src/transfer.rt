// Commands and words on their way to the camera and back.
ghost use Rattle.calls.specs.Accesses.{camera, command_written, words_read, words_written};
ghost use Rattle.calls.specs.Beginning.{begun, words_sent};
ghost use Rattle.calls.specs.declared.refusal.Refusal.TheVariants.{NotOffered, WrongSize};
ghost use Rattle.camera.specs.Attributes.{offers};
ghost use Rattle.camera.specs.Banks.{is_data};
ghost use Rattle.camera.specs.Steps.{ended};
ghost use Rattle.checks.specs.Tests.{judged};
ghost use Rattle.driver.specs.Driving.{bank_size, fetched, fetched_into, transferred};
ghost use Rattle.std.specs.Prelude.{◌≡◌, ◌≤◌, ◌==◌, length, [], ◌∷◌};

use crate::access::Existing;
use calls::Refusal;
use camera::{Bank, Bus, Command, Fault, Kind, size_of};

// How many words are sent with a command.
fn words_sent(command: Command) -> usize
    ensures value { result ≡ words_sent command.kind command.number }
{
    match command.kind {
        Kind::Set => command.size(),
        Kind::Get | Kind::Run => 0,
    }
}

// What is tested of a command first: that the attribute offers it, and that it brings as many words as are wanted.
pub fn check_command(command: Command, brought: usize, wanted: usize) -> Result<(), Refusal>
    ensures value { result ≡ judged ((offers command.kind command.number, NotOffered) ∷ (brought == wanted, WrongSize) ∷ []) tt }
{
    if !command.is_offered() {
        return Err(Refusal::NotOffered);
    }
    if brought != wanted {
        return Err(Refusal::WrongSize);
    }
    Ok(())
}

// Writes words to a bank, from its first place on.
#[tactic(auto, using(crate::proofs::WordTransfers::writing))]
fn write_words<B: Bus>(bus: &mut B, bank: Bank, words: &[u16]) -> Result<(), Fault>
    requires { length words.now ≤ bank_size (is_data bank) }
    ensures outcome { ended result (B.Bus.state bus.new) ≡ words_written (is_data bank) 0 words.now (B.Bus.state bus.old) }
{
    for (place, word) in words.iter().enumerate() {
        Existing::in_bank(bank, place as u16).write(bus, *word)?;
    }
    Ok(())
}

// Writes how many words a command moves, and then the command word; a command of no attribute has none, and 0 is written.
fn write_command<B: Bus>(bus: &mut B, command: Command) -> Result<(), Fault>
    ensures outcome { ended result (B.Bus.state bus.new) ≡ command_written command (B.Bus.state bus.old) }
{
    Existing::LENGTH.write(bus, command.size() as u16)?;
    Existing::COMMAND.write(bus, command.word().unwrap_or(0))
}

// Reads words from a bank into a buffer, from its first place on.
#[tactic(auto, using(crate::proofs::WordTransfers::reading))]
fn read_words<B: Bus>(bus: &mut B, bank: Bank, buffer: &mut [u16]) -> Result<(), Fault>
    requires { length buffer.old ≤ bank_size (is_data bank) }
    ensures outcome { fetched result buffer.new (B.Bus.state bus.new) ≡ words_read (is_data bank) 0 buffer.old (B.Bus.state bus.old) }
{
    for (place, word) in buffer.iter_mut().enumerate() {
        *word = Existing::in_bank(bank, place as u16).read(bus)?;
    }
    Ok(())
}

// Sends a command, a set with its words, up to its command word. It is refused before any access if the attribute does not
// offer it or the number of words is another.
#[tactic(auto, using(crate::proofs::WordTransfers::sent_fit))]
pub fn send<B: Bus>(bus: &mut B, command: Command, words: &[u16]) -> Result<(), Refusal>
    ensures outcome { ended result (B.Bus.state bus.new) ≡ begun camera command words.now (B.Bus.state bus.old) }
{
    check_command(command, words.len(), words_sent(command))?;
    write_words(bus, Bank::of(command.number), words)?;
    write_command(bus, command)?;
    Ok(())
}

// Fetches an attribute's words from the registers into a buffer of its size. A fault leaves those read at the front.
pub fn fetch<B: Bus>(bus: &mut B, number: u16, buffer: &mut [u16]) -> Result<(), Refusal>
    ensures outcome { transferred result buffer.new (B.Bus.state bus.new) ≡ fetched_into number buffer.old (B.Bus.state bus.old) }
{
    if buffer.len() != size_of(number) {
        return Err(Refusal::WrongSize);
    }
    read_words(bus, Bank::of(number), buffer)?;
    Ok(())
}
