// Making a head from its settings.
ghost use Rattle.std.specs.Prelude.{◌≡◌, true, false, take, Ok, Err};
ghost use Rattle.camera.specs.Attributes.{size_of, start_words};
ghost use Rattle.head.specs.Making.{lawful_settings, made_state, made_words};
ghost use Rattle.head.specs.Meaning.{head_state, words_in};

use crate::inner::{Inner, Record, Table};
use crate::memory::Head;
use crate::settings::{BadSettings, HeadSettings};
use camera::{Attribute, FPA_TEMPERATURE, SERIAL_NUMBER};
use std::collections::VecDeque;
use words::WordCodec;

// The record of an attribute with its start words.
#[tactic(auto, unfolding(camera::specs::Attributes::start_words, camera::specs::Attributes::attribute_at))]
fn start_record(number: u16) -> Record
    ensures value { take (size_of number) result.words ≡ start_words number }
{
    Attribute::of(number).map_or_else(Record::blank, |found| Record::blank().with(&found.start))
}

impl Table {
    // The table of a new head. Its records are filled in place, and the two that settings give come after the loop: an array
    // by `from_fn` was tried, and a loop whose function makes those two as well, and either made a head seven times slower.
    fn start(serial: u64, fpa: u16) -> Table
        ensures value { words_in result.records ≡ made_words serial fpa }
    {
        let mut serial_words = [0; 4];
        serial.put(&mut serial_words).unwrap();
        let mut records = [Record::blank(); 20];
        for (place, record) in records.iter_mut().enumerate() {
            *record = start_record(place as u16);
        }
        let mut table = Table { records };
        table.set_record(FPA_TEMPERATURE, Record::blank().with(&[fpa]));
        table.set_record(SERIAL_NUMBER, Record::blank().with(&serial_words));
        table
    }
}

impl Head {
    // Makes a head. Settings past the limits are refused with 53 and given back.
    pub fn new(settings: HeadSettings) -> Result<Head, BadSettings>
        ensures cases { elim result [ Ok head ↦ (lawful_settings settings ≡ true) × (head_state head ≡ made_state settings) | Err refusal ↦ (lawful_settings settings ≡ false) × (refusal.settings ≡ settings) ] }
    {
        if !settings.are_lawful() {
            return Err(BadSettings { settings });
        }
        let HeadSettings {
            boot,
            serial,
            fpa,
            busy,
            acks,
        } = settings;
        let inner = Inner {
            hung: false,
            boot,
            busy: 0,
            code: 0,
            count: 0,
            size: 0,
            data: [0; 16],
            block: [0; 512],
            table: Table::start(serial, fpa),
            saved: None,
        };
        Ok(Head {
            inner,
            coming: VecDeque::from(busy),
            acks: VecDeque::from(acks),
        })
    }
}
