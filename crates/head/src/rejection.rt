// Why a command is not carried out.

// The reasons for which a command is not carried out. The number of each is its response code.
#[derive(Clone, Copy)]
pub(crate) enum Rejection {
    // the length register is not the number of words that the command moves
    WrongSize = -6,
    // the word is no command
    NoCommand = -7,
    // the attribute has no command of that kind
    NotOffered = -8,
    // the words of a set do not keep the attribute's limits
    OutOfLimits = -9,
    // the user defaults are saved already
    AlreadySaved = -15,
    // no user defaults are saved that could be restored
    NothingSaved = -18,
}
