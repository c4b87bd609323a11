// Rows of bits in lent words: ROW_WORDS words a row, one row after the other. Column c of a row is bit c % 64 of its word c / 64.
#![tactic(auto)]

ghost use Rattle.std.specs.Prelude.{◌≡◌, cond, ◌+◌, ◌*◌, ◌/◌, ◌≤◌, ◌<◌, length, get_or, set, replicate};
ghost use Rattle.rows.specs.Rows.{place, cell, add_cell, cut_cell, clear_row, clear_column, clear_thing};
ghost use Rattle.rows.specs.Size.{row_size, numbers, tables, WordsLent};

// ---- the size of a state

pub const ROW_WORDS: usize = 2;

// How many numbers there are, in the width in which a call names one. A table has a row for each number, and a row a bit for each.
pub const NUMBERS: u16 = (64 * ROW_WORDS) as u16;

// Flows, read accesses and write accesses, one after the other, and the words of them all.
const TABLES: u16 = 3;

const ALL_ROWS: u16 = NUMBERS * TABLES;

pub const WORDS: usize = ROW_WORDS * (ALL_ROWS as usize);

// The words that a caller lends, when their length has been tested.
pub type Words = [u64; WORDS];

// The rows at which the accesses begin.
pub const READS: u16 = NUMBERS;

pub const WRITES: u16 = 2 * NUMBERS;

// ---- words and rows

// A word, and 0 past the end.
pub fn word(words: &[u64], i: usize) -> u64
    ensures { result ≡ get_or words.now i 0 }
{
    words.get(i).copied().unwrap_or(0)
}

// A store, and none past the end.
// By hand: `get_mut` of a slice promises nothing of what the slice holds after the store.
pub fn put(words: &mut [u64], i: usize, w: u64)
    ensures { words.new ≡ set words.old i w }
{
    if i < words.len() {
        words[i] = w;
    }
}

fn place_of(row: u16, col: u16) -> usize
    ensures { result ≡ place row_size row col }
{
    ROW_WORDS * (row as usize) + (col as usize) / 64
}

#[tactic(auto, unfolding(crate::specs::Rows::cell))]
pub fn has(words: &[u64], row: u16, col: u16) -> bool
    ensures { result ≡ cell row_size words.now row col }
{
    let w = word(words, place_of(row, col));
    bits::has_bit(w, (col as usize) % 64)
}

#[tactic(auto, unfolding(crate::specs::Rows::add_cell))]
pub fn add(words: &mut [u64], row: u16, col: u16)
    ensures { words.new ≡ add_cell row_size words.old row col }
{
    let at = place_of(row, col);
    let w = word(words, at);
    put(words, at, w | bits::mask((col as usize) % 64));
}

pub fn add_if(words: &mut [u64], when: bool, row: u16, col: u16)
    ensures { words.new ≡ cond when (add_cell row_size words.old row col) words.old }
{
    if when {
        add(words, row, col);
    }
}

#[tactic(auto, unfolding(crate::specs::Rows::cut_cell))]
fn cut(words: &mut [u64], row: u16, col: u16)
    requires { place row_size row col < length words.old }
    ensures { words.new ≡ cut_cell row_size words.old row col }
{
    let at = place_of(row, col);
    words[at] &= !bits::mask((col as usize) % 64);
}

fn clear_row(words: &mut [u64], row: u16)
    requires { row_size * row + row_size ≤ length words.old }
    ensures { words.new ≡ clear_row row_size row words.old }
{
    let start = ROW_WORDS * (row as usize);
    words[start..start + ROW_WORDS].fill(0);
}

// The column in the first `rows` rows.
#[tactic(auto, unfolding(crate::specs::Rows::clear_column, bits::specs::All::up_to))]
fn clear_column(words: &mut [u64], rows: u16, col: u16)
    requires { (row_size * rows ≤ length words.old) × (col < numbers) }
    ensures { words.new ≡ clear_column row_size rows col words.old }
{
    for row in 0..rows {
        cut(words, row, col);
    }
}

// Row k of each table, and column k of all.
#[tactic(auto, unfolding(crate::specs::Rows::clear_thing, bits::specs::All::up_to))]
pub fn clear_thing(words: &mut [u64], k: u16)
    requires { WordsLent words.old × (k < numbers) }
    ensures { words.new ≡ clear_thing row_size numbers tables k words.old }
{
    for i in 0..TABLES {
        clear_row(words, NUMBERS * i + k);
    }
    clear_column(words, ALL_ROWS, k);
}

pub fn clear_all(words: &mut [u64])
    ensures { words.new ≡ replicate (length words.old) 0 }
{
    words.fill(0);
}
