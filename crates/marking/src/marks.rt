// The marks of records.
ghost use Rattle.std.specs.Prelude.{◌≡◌, ◌&&◌, List, ℕ, ◌+◌, ◌≤◌, ◌<◌};
ghost use Rattle.bits.specs.All.{any_b};
ghost use Rattle.rows.specs.Size.{numbers};
ghost use Rattle.sets.specs.Sets.{Within, has, in_word};
ghost use Rattle.model.specs.State.{memory, marked, has_flow};
ghost use Rattle.model.specs.Effects.{mark_one, mark_where, object_of, effect, mark_outside, mark_thing};

use crate::byte;
use records::{DRIVER, KIND, Lent, MARKS, OBJECT, RECORD_SIZE};
use rows::NUMBERS;
use sets::Set;

// x is marked. A mark that is there stays as it is.
fn mark_one(bytes: &mut Lent, x: u8)
    requires { x < numbers }
    ensures { (ws : List ℕ) → memory bytes.new ws ≡ mark_one x (memory bytes.old ws) }
{
    let at = RECORD_SIZE * (x as usize) + (MARKS as usize);
    if bytes[at] == 0 {
        bytes[at] = 1;
    }
}

// The numbers of a word are marked.
// By hand: word by word, since one walk through both words of a set made a spread up to a sixth slower.
fn mark_word(bytes: &mut Lent, word: u64, first: u8)
    requires { first + 64 ≤ numbers }
    ensures { ((ws : List ℕ) → memory bytes.new ws ≡ mark_where (in_word word first) (memory bytes.old ws)) × Within (in_word word first) }
{
    for x in sets::numbers_of(word, first) {
        mark_one(bytes, x);
    }
}

// The numbers of a set are marked.
pub fn mark_set(bytes: &mut Lent, set: Set)
    ensures { (ws : List ℕ) → memory bytes.new ws ≡ mark_where (has set) (memory bytes.old ws) }
{
    mark_word(bytes, set.low, 0);
    mark_word(bytes, set.high, 64);
}

// x is an object of the driver.
fn is_object_of(bytes: &Lent, driver: u16, x: u8) -> bool
    requires { x < numbers }
    ensures { (ws : List ℕ) → result ≡ object_of (memory bytes.now ws) driver x }
{
    byte(bytes, x, KIND) == OBJECT && byte(bytes, x, DRIVER) as u16 == driver
}

// The objects of a driver are marked.
pub fn mark_objects(bytes: &mut Lent, driver: u16)
    ensures { (ws : List ℕ) → memory bytes.new ws ≡ mark_where (object_of (memory bytes.old ws) driver) (memory bytes.old ws) }
{
    for x in 0..(NUMBERS as u8) {
        if is_object_of(bytes, driver, x) {
            mark_one(bytes, x);
        }
    }
}

// The marks byte of a task marked from outside.
const OUTSIDE: u8 = 3;

// A task is marked from outside, and its objects are marked.
pub fn mark_outside(bytes: &mut Lent, task: u16)
    ensures { (ws : List ℕ) → memory bytes.new ws ≡ effect (mark_outside task) (memory bytes.old ws) }
{
    records::set_field(bytes, task, MARKS, OUTSIDE);
    mark_objects(bytes, task);
}

// A thing is marked and, for a task, its objects.
pub fn mark_thing(bytes: &mut Lent, x: u16)
    requires { x < numbers }
    ensures { (ws : List ℕ) → memory bytes.new ws ≡ effect (mark_thing x) (memory bytes.old ws) }
{
    mark_one(bytes, x as u8);
    if records::is_task(bytes, x) {
        mark_objects(bytes, x);
    }
}

// A marked thing has a flow to x.
pub fn is_fed(bytes: &Lent, words: &[u64], x: u16) -> bool
    ensures { result ≡ any_b numbers (λ y. marked (memory bytes.now words.now) y && has_flow (memory bytes.now words.now) y x) }
{
    for y in 0..NUMBERS {
        if (byte(bytes, y as u8, MARKS) != 0) & rows::has(words, y, x) {
            return true;
        }
    }
    false
}
