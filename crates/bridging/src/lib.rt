// What a deletion keeps of the trail: each thing that fed the object, and its driver, goes on to feed each thing that the object fed.
#![tactic(auto)]

ghost use Rattle.std.specs.Prelude.{◌≡◌, true, ◌<◌};
ghost use Rattle.rows.specs.Size.{numbers};
ghost use Rattle.records.specs.Records.{driver as driver_byte, is_object};
ghost use Rattle.sets.specs.Sets.{set_of};
ghost use Rattle.model.specs.State.{memory};
ghost use Rattle.model.specs.Effects as model;
ghost use Rattle.model.specs.Effects.{feeder, fed_by, effect};
ghost use Rattle.model.specs.Events.{feeds_unmarked};

use records::{DRIVER, FREE, KIND, Lent, MARKS, RECORD_SIZE};
use rows::{NUMBERS, ROW_WORDS, Words};
use sets::Set;

// What x feeds: the things in use, but for x itself, that it has a flow to. A row without flows needs no look at the records.
fn fed_by(bytes: &Lent, words: &Words, x: u16) -> Set
    requires { x < numbers }
    ensures { result ≡ set_of (fed_by (memory bytes.now words.now) x) }
{
    let row = sets::row(words, x);
    if sets::is_empty(row) {
        return row;
    }
    let used = sets::with_field(bytes, KIND as usize);
    sets::common(sets::but(used, x), row)
}

// x is marked and feeds an unmarked thing.
pub fn feeds_unmarked(bytes: &Lent, words: &Words, x: u16) -> bool
    requires { x < numbers }
    ensures { result ≡ feeds_unmarked (memory bytes.now words.now) x }
{
    if records::field(bytes, x, MARKS) == 0 {
        return false;
    }
    let marked = sets::with_field(bytes, MARKS as usize);
    !sets::is_empty(sets::without(fed_by(bytes, words, x), marked))
}

// An object that is to go. Its driver is read once, and not again for each row.
#[derive(Drop)]
struct Going<'a> {
    bytes: &'a Lent,
    x: u16,
    driver: u16,
    ghost within: { x < numbers },
    ghost object: { is_object bytes.now x ≡ true },
    ghost drives: { driver ≡ driver_byte bytes.now x },
}

impl Going<'_> {
    // p feeds it: a thing in use, other than it, that has a flow to it or drives it.
    fn is_fed_by(&self, words: &Words, p: u16) -> bool
        requires { p < numbers }
        ensures { result ≡ feeder (memory self.now.bytes.now words.now) self.now.x p }
    {
        let x = self.x;
        let used = self.bytes[RECORD_SIZE * (p as usize) + (KIND as usize)] != FREE;
        let w = words[ROW_WORDS * (p as usize) + (x as usize) / 64];
        used & (p != x) & (bits::has_bit(w, (x as usize) % 64) | (self.driver == p))
    }
}

// What fed the object x, and its driver, is recorded as feeding what x fed. Nothing is bridged where x fed nothing.
// One pass over the rows: that of each feeder is joined with what x fed, but for the feeder itself. A row is asked before it is joined, so all are asked as they were.
pub fn bridge(bytes: &Lent, words: &mut Words, x: u16)
    requires { (x < numbers) × (is_object bytes.now x ≡ true) }
    ensures { memory bytes.now words.new ≡ effect (model.bridge x) (memory bytes.now words.old) }
{
    let fed = fed_by(bytes, words, x);
    if sets::is_empty(fed) {
        return;
    }
    let driver = records::field(bytes, x, DRIVER) as u16;
    let going = Going { bytes, x, driver };
    for p in 0..NUMBERS {
        if going.is_fed_by(words, p) {
            sets::join_row(words, p, sets::but(fed, p));
        }
    }
}
