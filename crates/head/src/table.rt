// The head's table of attributes: one record is looked at or changed, all are saved and restored.
ghost use Rattle.std.specs.Prelude.{◌≡◌, take};
ghost use Rattle.camera.specs.Attributes.{size_of};
ghost use Rattle.camera.specs.Execution.{get_done, restore_done, save_done, set_done};
ghost use Rattle.camera.specs.State.{saved_flag, shown};
ghost use Rattle.head.specs.Meaning.{head_state};

use crate::inner::Record;
use crate::memory::Head;
use crate::slices::lay;
use camera::{Bank, STATUS, USER_DEFAULTS};

impl Head {
    // What an attribute shows, in front of a record.
    #[tactic(auto, unfolding(camera::specs::State::shown, camera::specs::Attributes::attribute_at, crate::specs::Meaning::words_in))]
    pub(crate) fn shown(&self, number: u16) -> Record
        ensures value { take (size_of number) result.words ≡ shown (head_state self.now).interpreter number }
    {
        match number {
            STATUS => Record::blank().with(&[0, 0, self.inner.count, 0]),
            USER_DEFAULTS => Record::blank().with(&[u16::from(self.inner.saved.is_some()), 0]),
            _ => self.inner.table.record(number),
        }
    }

    // Gets an attribute: copies what it shows into the registers.
    pub(crate) fn get(&mut self, number: u16)
        ensures after { head_state self.new ≡ get_done number (head_state self.old) }
    {
        let shown = self.shown(number);
        let words = shown.front(number);
        // Two arms, since a bank is not lent to be written (`Inner::bank`).
        match Bank::of(number) {
            Bank::Data => lay(&mut self.inner.data, words),
            Bank::Block => lay(&mut self.inner.block, words),
        }
    }

    // Sets an attribute: its words become those that stand in the registers.
    pub(crate) fn set(&mut self, number: u16)
        ensures after { head_state self.new ≡ set_done number (head_state self.old) }
    {
        let record = self.inner.table.record(number).with(self.standing(number));
        self.inner.table.set_record(number, record);
    }

    // Saves the user defaults.
    pub(crate) fn save(&mut self)
        ensures after { head_state self.new ≡ save_done (head_state self.old) }
    {
        self.inner.saved = Some(self.inner.table);
    }

    // Restores the user defaults, if they were saved.
    pub(crate) fn restore(&mut self)
        ensures after { head_state self.new ≡ restore_done (head_state self.old) }
    {
        let inner = &mut self.inner;
        if let Some(saved) = &inner.saved {
            inner.table.put_back(saved);
        }
    }
}
