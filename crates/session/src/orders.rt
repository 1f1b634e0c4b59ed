// What a session is asked to do with an attribute.
ghost use Rattle.session.specs.Views.{brought, command_in, words_in};
ghost use Rattle.std.specs.Prelude.{◌≡◌, length};

use camera::{Command, Kind};

// An order is to get, set or run the attribute of a number. Only a set has words to send. A get's buffer is passed beside it:
// within it, a contract could name what the buffer holds afterwards only by the place of its variant and its field.
#[derive(Clone, Copy)]
pub(crate) enum Order<'a> {
    Get(u16),
    Set(u16, &'a [u16]),
    Run(u16),
}

impl<'a> Order<'a> {
    // Its command.
    pub(crate) fn command(self) -> Command
        ensures value { result ≡ command_in self.entry }
    {
        let (kind, number) = match self {
            Order::Get(number) => (Kind::Get, number),
            Order::Set(number, _) => (Kind::Set, number),
            Order::Run(number) => (Kind::Run, number),
        };
        Command { kind, number }
    }

    // The words to be sent.
    pub(crate) fn words(self) -> &'a [u16]
        ensures value { result.now ≡ words_in self.entry }
    {
        match self {
            Order::Set(_, words) => words,
            Order::Get(_) | Order::Run(_) => &[],
        }
    }

    // How many words it brings: a get its buffer's, a set those to be sent.
    pub(crate) fn brought(self, buffer: &[u16]) -> usize
        ensures value { result ≡ length (brought self.entry buffer.now) }
    {
        match self {
            Order::Get(_) => buffer.len(),
            Order::Set(_, words) => words.len(),
            Order::Run(_) => 0,
        }
    }
}
