// What a head holds: its registers and its table of attributes, as plain memory.
ghost use Rattle.std.specs.Prelude.{◌≡◌, ◌<◌, length};
ghost use Rattle.words.specs.Words.{Words};
ghost use Rattle.std.specs.Int.Signed.{mag};

use crate::slices::{lay, put};
use camera::{Bank, is_saved, size_of};

// A record of the table of attributes: the attribute's words, in memory for as many as the largest one has. That is an
// array and no `Vec`, here and below, so that no set and no save can fail for want of memory, for which a bus has no
// answer.
#[derive(Clone, Copy)]
pub(crate) struct Record {
    pub(crate) words: [u16; 512],
    ghost full: { Words 512 words },
}

// The table of attributes: a record for each, by number.
#[derive(Clone, Copy)]
pub(crate) struct Table {
    pub(crate) records: [Record; 20],
    ghost full: { length records ≡ 20 },
}

// The registers, the table of attributes, and the rest of the camera's state but for what is to come.
#[derive(Clone, Copy)]
pub(crate) struct Inner {
    pub(crate) hung: bool,
    // boot polls left
    pub(crate) boot: u16,
    // busy polls left
    pub(crate) busy: u16,
    // the last command's response code
    pub(crate) code: i8,
    // how many commands were taken, modulo 65,536
    pub(crate) count: u16,
    // the length register
    pub(crate) size: u16,
    // the data registers
    pub(crate) data: [u16; 16],
    // the block buffer
    pub(crate) block: [u16; 512],
    pub(crate) table: Table,
    // the table when the user defaults were saved, if they were
    pub(crate) saved: Option<Table>,
    // These three repeat what the types bound: a bus's `possible` is a statement over the state, whose numbers have no type.
    ghost code_bits: { mag code < 128 },
    ghost count_bits: { count < 65536 },
    ghost size_bits: { size < 65536 },
    ghost data_full: { Words 16 «data» },
    ghost block_full: { Words 512 block },
}

impl Record {
    ghost use Rattle.std.specs.Prelude.{◌≤◌, cond, take};
    ghost use Rattle.camera.specs.Attributes.{is_saved, size_of};
    ghost use Rattle.camera.specs.Registers.{over};
    ghost use Rattle.head.specs.Meaning.{blank};

    // A record of zeros. A function and no associated constant: that was tried, and each place that passes the constant on
    // owes its ghost field anew, which naming `zeros_below` there did not prove. The function owes it once.
    pub(crate) fn blank() -> Record
        ensures value { result.words ≡ blank.words }
    {
        Record { words: [0; 512] }
    }

    // The record with words laid over its front.
    pub(crate) fn with(mut self, words: &[u16]) -> Record
        requires { length words.now ≤ 512 }
        ensures value { result.words ≡ over words.now self.words }
        ensures front { take (length words.now) result.words ≡ words.now }
    {
        lay(&mut self.words, words);
        self
    }

    // Becomes the saved record of a number if the user defaults save that attribute.
    fn put_back(&mut self, number: u16, saved: &Record)
        ensures after { self.new ≡ cond (is_saved number) saved.now self.old }
    {
        if is_saved(number) {
            *self = *saved;
        }
    }

    // The words that the attribute of a number uses.
    pub(crate) fn front(&self, number: u16) -> &[u16]
        ensures value { result.now ≡ take (size_of number) self.now.words }
        ensures size { length result.now ≡ size_of number }
    {
        &self.words[..size_of(number)]
    }
}

impl Table {
    ghost use Rattle.std.specs.Prelude.{take, slice_index_or};
    ghost use Rattle.camera.specs.Attributes.{size_of};
    ghost use Rattle.camera.specs.Execution.{only_saved, put_back, with_one};
    ghost use Rattle.head.specs.Meaning.{blank, words_in};

    // The record of a number, or zeros where there is none.
    pub(crate) fn record(&self, number: u16) -> Record
        ensures value { result.words ≡ (slice_index_or self.now.records number blank).words }
    {
        self.records
            .get(usize::from(number))
            .copied()
            .unwrap_or_else(Record::blank)
    }

    // Exchanges the record of a number, if there is one.
    #[tactic(auto, using(crate::proofs::Tables::set_words))]
    pub(crate) fn set_record(&mut self, number: u16, other: Record)
        ensures after { words_in self.new.records ≡ with_one number (take (size_of number) other.words) (words_in self.old.records) }
    {
        put(&mut self.records, usize::from(number), other);
    }

    // Puts the saved attributes of another table in the place of its own. In place, since a third table, made by `from_fn`
    // and then copied, was tried, and made a restore 1.6 times slower.
    pub(crate) fn put_back(&mut self, saved: &Table)
        ensures after { words_in self.new.records ≡ put_back (only_saved (words_in saved.now.records)) (words_in self.old.records) }
    {
        for (place, record) in self.records.iter_mut().enumerate() {
            record.put_back(place as u16, &saved.records[place]);
        }
    }
}

impl Inner {
    ghost use Rattle.camera.specs.Banks.{is_data};
    ghost use Rattle.camera.specs.Execution.{bank};
    ghost use Rattle.head.specs.Meaning.{registers_in};

    // The words of a bank, to be read. What writes to one names its array: a method that lends a bank to be written was
    // tried, and the clause of such a loan has to give an `Inner` for each list of words that could be left in the bank,
    // where the ghost fields hold for lists of one length alone.
    pub(crate) fn bank(&self, which: Bank) -> &[u16]
        ensures value { result.now ≡ bank (is_data which) (registers_in self.now) }
    {
        match which {
            Bank::Data => &self.data,
            Bank::Block => &self.block,
        }
    }
}
