// What a camera does with an access depends on its mode.

// The modes. Where several would apply, as to a camera that hangs while it boots, the camera is in the first of them. The number
// in a mode says how many more reads of the status register, after the next one, still find the camera in it.
#[derive(Clone, Copy, Debug, PartialEq, Eq)]
pub enum Mode {
    // it hangs, for ever
    Hung,
    // it boots
    Booting(u16),
    // it carries out a command
    Busy(u16),
    // it takes commands
    Idle,
}
