// The rounds of a spread, on sets.
ghost use Rattle.std.specs.Prelude.{◌≡◌, true, ◌+◌, ◌/◌, ◌%◌, ◌≤◌, length};
ghost use Rattle.bits.specs.All.{any_b};
ghost use Rattle.rows.specs.Size.{row_size, numbers};
ghost use Rattle.rows.specs.Rows.{add_cell};
ghost use Rattle.records.specs.Records.{driver, is_object};
ghost use Rattle.sets.specs.Sets.{last, Within, has, set_of, in_word, TableLent};
ghost use Rattle.model.specs.State as state;
ghost use Rattle.model.specs.State.{memory};
ghost use Rattle.marking.specs.Rounds.{OwnedRows, Driven, Put, own_row, round_set, spread_sets};

use crate::byte;
use records::{DRIVER, KIND, Lent, OBJECT, RECORDS};
use rows::{ROW_WORDS, Words};
use sets::Set;

// The words of the rows of the drivers' objects, one row for each number, and of one more for the drivers themselves.
// By hand: words and no array of rows, since `sets::rows_of` reads these rows as it reads the lent table of flows.
const OWNED: usize = ROW_WORDS * (RECORDS + 1);

// Where the drivers' row begins. It has no number: that would be past the last.
const DRIVERS: usize = ROW_WORDS * RECORDS;

// A number is put into the row that begins at the word `start`.
fn put_into(owned: &mut [u64], start: usize, x: u8)
    requires { (start % row_size ≡ 0) × (start + row_size ≤ length owned.old) × (x ≤ last) }
    ensures { owned.new ≡ add_cell row_size owned.old (start / row_size) x }
{
    let at = start + ((x / 64) as usize);
    owned[at] |= 1u64 << (x % 64);
}

// The driver that the record of x names.
fn driver_of(bytes: &Lent, x: u8) -> u8
    requires { x ≤ last }
    ensures { (result ≡ driver bytes.now x) × (Driven bytes.now → is_object bytes.now x ≡ true → result ≤ last) }
{
    byte(bytes, x, DRIVER)
}

// An object is put into the row of its driver, and its driver into the drivers' row.
fn own_row(bytes: &Lent, owned: &mut [u64], x: u8)
    requires { OwnedRows owned.old × Driven bytes.now × (x ≤ last) }
    ensures { owned.new ≡ own_row row_size bytes.now x owned.old }
{
    if byte(bytes, x, KIND) == OBJECT {
        let driver = driver_of(bytes, x);
        put_into(owned, ROW_WORDS * (driver as usize), x);
        put_into(owned, DRIVERS, driver);
    }
}

// The same for the numbers of a word.
fn own_word(bytes: &Lent, owned: &mut [u64], word: u64, first: u8)
    requires { OwnedRows owned.old × Driven bytes.now × (first + 64 ≤ numbers) }
    ensures { Put row_size bytes.now (in_word word first) owned.old owned.new × Within (in_word word first) }
{
    for x in sets::numbers_of(word, first) {
        own_row(bytes, owned, x);
    }
}

// The same for the numbers of a set.
fn own_rows(bytes: &Lent, owned: &mut [u64], set: Set)
    requires { OwnedRows owned.old × Driven bytes.now }
    ensures { Put row_size bytes.now (has set) owned.old owned.new }
{
    own_word(bytes, owned, set.low, 0);
    own_word(bytes, owned, set.high, 64);
}

// What a round marks of the unmarked things in use: those that a source has a flow to, and then the objects of the sources and of these.
fn round(words: &[u64], owned: &[u64], unmarked: Set, sources: Set) -> Set
    requires { TableLent words.now × OwnedRows owned.now }
    ensures { result ≡ round_set words.now owned.now unmarked sources }
{
    let reached = sets::common(sets::rows_of(words, sources), unmarked);
    let drivers = Set {
        low: owned[DRIVERS],
        high: owned[DRIVERS + 1],
    };
    let driving = sets::common(sets::union(sources, reached), drivers);
    let driven = sets::common(sets::rows_of(owned, driving), unmarked);
    sets::union(reached, driven)
}

// What a spread marks, and by how many rounds.
#[derive(Clone, Copy)]
pub struct Spread {
    pub marked: Set,
    pub rounds: u8,
}

// The rounds go on until one marks nothing. What older sources feed or drive is marked by then, so only the things that the last round marked are sources of the next.
pub fn spread_sets(bytes: &Lent, words: &Words, marked: Set) -> Spread
    requires { Driven bytes.now × (marked ≡ set_of (state.marked (memory bytes.now words.now))) × (any_b numbers (has marked) ≡ true) }
    ensures { result ≡ spread_sets (memory bytes.now words.now) }
{
    let before = sets::without(sets::with_field(bytes, KIND as usize), marked);
    if sets::is_empty(before) {
        return Spread {
            marked: before,
            rounds: 0,
        };
    }
    // A round takes only unmarked objects from the rows, so only these are put there.
    let mut owned = [0u64; OWNED];
    own_rows(bytes, &mut owned, before);
    let mut unmarked = before;
    let mut new = marked;
    let mut count: u8 = 0;
    loop {
        new = round(words, &owned, unmarked, new);
        if sets::is_empty(new) {
            break;
        }
        count += 1;
        unmarked = sets::without(unmarked, new);
    }
    let all = sets::without(before, unmarked);
    Spread {
        marked: all,
        rounds: count,
    }
}
