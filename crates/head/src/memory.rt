// The head: its memory, and what its coming commands and accesses will meet.
use crate::inner::Inner;
use std::collections::VecDeque;

// A camera head that keeps the camera's state itself. Contracts name that state by `head_state`: it is no `Model` of a
// head, since a model's value must be data, and the words of a state's attributes are a function from their numbers,
// which has no code. The methods stand in files by subject: access, commands, the table, pictures, questions, making one.
#[derive(Drop)]
pub struct Head {
    pub(crate) inner: Inner,
    // the busy polls of the coming commands
    pub(crate) coming: VecDeque<u16>,
    // whether each coming access is acknowledged
    pub(crate) acks: VecDeque<bool>,
}
