// How far a command has come: the camera has taken its command word, and still owes the answer.
#[derive(Clone, Copy, Debug, PartialEq, Eq)]
pub enum Stage {
    // it waits until the camera is no longer busy
    Waiting,
    // a get's response code was 0, and its words are to be read
    Reading,
}
