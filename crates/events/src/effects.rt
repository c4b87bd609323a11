// What each event leaves when it is done.
ghost use Rattle.std.specs.Prelude.{◌≡◌, true, List, ℕ, ◌<◌};
ghost use Rattle.rows.specs.Size.{numbers};
ghost use Rattle.records.specs.Records.{is_object};
ghost use Rattle.model.specs.State.{memory};
ghost use Rattle.model.specs.Effects.{effects};
ghost use Rattle.events.specs.Judged.{read_does, write_does, move_does, delete_does};

use decisions::Decision;
use decisions::effects::{add_access, record_both};
use records::{CONTAINER, Lent, Record, set_field, set_record};
use rows::{READS, WRITES, Words};

pub fn read(words: &mut [u64], judged: Decision, e: u16, d: u16, x: u16)
    requires { e < numbers }
    ensures { (bs : List ℕ) → memory bs words.new ≡ effects (read_does e d x judged.first judged.second) (memory bs words.old) }
{
    add_access(words, READS, e, x);
    record_both(words, judged, x, e, d, e);
}

pub fn write(words: &mut [u64], judged: Decision, e: u16, d: u16, x: u16)
    requires { e < numbers }
    ensures { (bs : List ℕ) → memory bs words.new ≡ effects (write_does e d x judged.first judged.second) (memory bs words.old) }
{
    add_access(words, WRITES, e, x);
    record_both(words, judged, e, x, e, d);
}

pub fn move_object(
    bytes: &mut [u8],
    words: &mut [u64],
    judged: Decision,
    e: u16,
    d: u16,
    x: u16,
    t: u16,
)
    requires { t < numbers }
    ensures { memory bytes.new words.new ≡ effects (move_does e d x t judged.first judged.second) (memory bytes.old words.old) }
{
    set_field(bytes, x, CONTAINER, t as u8);
    record_both(words, judged, e, x, e, d);
}

// Bridged first, while the object's record and its flows still stand.
pub fn delete(bytes: &mut Lent, words: &mut Words, judged: Decision, e: u16, d: u16, x: u16)
    requires { (x < numbers) × (is_object bytes.old x ≡ true) }
    ensures { memory bytes.new words.new ≡ effects (delete_does e d x judged.first judged.second) (memory bytes.old words.old) }
{
    bridging::bridge(bytes, words, x);
    set_record(bytes, x, Record::FREE);
    rows::clear_thing(words, x);
    rows::add_if(words, judged.first, e, d);
}
