// What a program may ask of a head beside its bus: nothing of it changes the head.
ghost use Rattle.camera.specs.Execution.{is_some};
ghost use Rattle.camera.specs.State.{shown};
ghost use Rattle.head.specs.Meaning.{head_state};
ghost use Rattle.head.specs.Questions.{report_of};
ghost use Rattle.std.specs.Prelude.{◌≡◌, IfOk};

use crate::memory::Head;
use std::alloc::{AllocError, Global};

// The camera's state as plain values. It repeats fields of `Inner`, and is no part of it: programs read these fields, and
// `Inner`, which has the memory and its ghost fields too, is private to the head.
#[derive(Clone, Copy, Debug, PartialEq, Eq)]
pub struct HeadReport {
    // whether it hangs, since a write met it while it booted or was busy: it takes no further write
    pub hung: bool,
    // boot polls left
    pub boot: u16,
    // busy polls left
    pub busy: u16,
    // the last command's response code
    pub code: i8,
    // how many commands were taken, modulo 65,536
    pub count: u16,
    // the length register
    pub size: u16,
    // whether user defaults are saved
    pub saved: bool,
}

impl Head {
    // The camera's state as plain values. Each is copied by name: a pattern in place of the paths would name each twice.
    pub fn report(&self) -> HeadReport
        ensures value { result ≡ report_of (head_state self.now) }
    {
        HeadReport {
            hung: self.inner.hung,
            boot: self.inner.boot,
            busy: self.inner.busy,
            code: self.inner.code,
            count: self.inner.count,
            size: self.inner.size,
            saved: self.inner.saved.is_some(),
        }
    }

    // The words that an attribute shows.
    pub fn attribute(&self, heap: Global, number: u16) -> Result<Vec<u16>, AllocError>
        ensures words { IfOk result (λ v. v.items ≡ shown (head_state self.now).interpreter number) }
    {
        Vec::from_slice(heap, self.shown(number).front(number))
    }
}
