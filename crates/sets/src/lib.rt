// Sets of numbers, a bit for each, in two words.
// By hand: `TableLent` stands in four contracts, since these functions read the lent flows and the rows that a spread makes of drivers,
// which differ in length.
#![tactic(auto)]

mod numbers;

ghost use Rattle.std.specs.Prelude.{◌≡◌, not, ◌&&◌, ◌||◌, ◌+◌, ◌≤◌, ◌<◌, eqb};
ghost use Rattle.std.specs.Int.Count.{count_trailing_zeros};
ghost use Rattle.bits.specs.Bit.{word_of};
ghost use Rattle.bits.specs.BitLaws.{low_word};
ghost use Rattle.bits.specs.All.{any_b};
ghost use Rattle.rows.specs.Rows.{cell, join_row};
ghost use Rattle.rows.specs.Size.{row_size, numbers};
ghost use Rattle.records.specs.Records.{record_size, field};
ghost use Rattle.sets.specs.Sets.{last, Within, has, set_of, in_word, joined, TableLent};

pub use numbers::numbers_of;
use records::{Lent, RECORD_SIZE};
use rows::ROW_WORDS;

// Number x is bit x of the low word, or bit x - 64 of the high one.
#[derive(Clone, Copy)]
pub struct Set {
    pub low: u64,
    pub high: u64,
}

// Of eight numbers, from the first on: a bit for each whose byte f is not zero. The last is taken first, so that a turn doubles what is there and needs no place.
fn eight_with(bytes: &Lent, first: u8, f: usize) -> u64
    requires { (first + 8 ≤ numbers) × (f < record_size) }
    ensures { result ≡ low_word (λ i. not (eqb (field bytes.now (first + i) f) 0)) 8 }
{
    let mut w: u64 = 0;
    for i in (0..8).rev() {
        w = 2 * w + ((bytes[RECORD_SIZE * ((first + i) as usize) + f] != 0) as u64);
    }
    w
}

// The word of 64 numbers, from the first on: whose byte f is not zero.
fn word_with(bytes: &Lent, first: u8, f: usize) -> u64
    requires { (first + 64 ≤ numbers) × (f < record_size) }
    ensures { result ≡ word_of (λ i. not (eqb (field bytes.now (first + i) f) 0)) }
{
    let mut w: u64 = 0;
    for g in 0..8 {
        w |= eight_with(bytes, first + 8 * g, f) << (8 * g);
    }
    w
}

// The numbers whose byte f is not zero.
#[tactic(auto, using(crate::specs::SetLaws::set_pair))]
pub fn with_field(bytes: &Lent, f: usize) -> Set
    requires { f < record_size }
    ensures { result ≡ set_of (λ x. not (eqb (field bytes.now x f) 0)) }
{
    Set {
        low: word_with(bytes, 0, f),
        high: word_with(bytes, 64, f),
    }
}

// Two sets together, word by word.
fn by_words<F: Fn(u64, u64) -> u64>(a: Set, b: Set, join: F) -> Set
    requires { F.IsAlwaysCallable join }
    ensures low { F.post join a.low b.low result.low }
    ensures high { F.post join a.high b.high result.high }
{
    Set {
        low: join(a.low, b.low),
        high: join(a.high, b.high),
    }
}

pub fn union(a: Set, b: Set) -> Set
    ensures { result ≡ set_of (λ x. has a x || has b x) }
{
    by_words(a, b, |x, y| x | y)
}

pub fn common(a: Set, b: Set) -> Set
    ensures { result ≡ set_of (λ x. has a x && has b x) }
{
    by_words(a, b, |x, y| x & y)
}

pub fn without(a: Set, b: Set) -> Set
    ensures { result ≡ set_of (λ x. has a x && not (has b x)) }
{
    by_words(a, b, |x, y| x & !y)
}

#[tactic(auto, using(crate::specs::SetLaws::empty_is, crate::specs::SetLaws::fits))]
pub fn is_empty(a: Set) -> bool
    ensures { result ≡ not (any_b numbers (has a)) }
{
    (a.low == 0) & (a.high == 0)
}

// The lowest number in a word whose bit 0 stands for `first`.
pub fn lowest_number(word: u64, first: u8) -> u8
    requires { (0 < word) × (first + 64 ≤ numbers) }
    ensures { (result ≡ first + count_trailing_zeros 64 word) × (result ≤ last) }
{
    first + (bits::lowest_one(word) as u8)
}

// Onto a set, the rows of the numbers of a word.
// By hand: with `numbers_of` a round takes one instruction more, and a spread along a long chain a fortieth more time.
fn join_word(words: &[u64], word: u64, first: u8, onto: Set) -> Set
    requires { TableLent words.now × (first + 64 ≤ numbers) }
    ensures { (result ≡ set_of (λ x. has onto x || joined row_size words.now (in_word word first) x)) × Within (in_word word first) }
{
    let mut low = onto.low;
    // The high word is kept as its complement: a compiler puts two words joined alike into one vector register, and each round of a spread along a long chain waits longer for that.
    let mut missed = !onto.high;
    let mut rest = word;
    while rest != 0 {
        let start = ROW_WORDS * (lowest_number(rest, first) as usize);
        low |= words[start];
        missed &= !words[start + 1];
        rest &= rest - 1;
    }
    Set { low, high: !missed }
}

// The rows of a set's numbers together.
pub fn rows_of(words: &[u64], set: Set) -> Set
    requires { TableLent words.now }
    ensures { result ≡ set_of (λ x. joined row_size words.now (has set) x) }
{
    let low = join_word(words, set.low, 0, Set { low: 0, high: 0 });
    join_word(words, set.high, 64, low)
}

// ---- numbers taken out, and rows as sets

// The set of one number.
fn only(x: u16) -> Set
    requires { x < numbers }
    ensures { result ≡ set_of (λ y. eqb y x) }
{
    let bit = bits::mask((x as usize) % 64);
    if x < 64 {
        Set { low: bit, high: 0 }
    } else {
        Set { low: 0, high: bit }
    }
}

// A set without one number.
#[tactic(auto, using(crate::specs::SetLaws::in_set, crate::specs::SetLaws::set_ext))]
pub fn but(a: Set, x: u16) -> Set
    requires { x < numbers }
    ensures { result ≡ set_of (λ y. has a y && not (eqb y x)) }
{
    without(a, only(x))
}

// Row x of a table.
pub fn row(words: &[u64], x: u16) -> Set
    requires { TableLent words.now × (x < numbers) }
    ensures { result ≡ set_of (λ y. cell row_size words.now x y) }
{
    let start = ROW_WORDS * (x as usize);
    Set {
        low: words[start],
        high: words[start + 1],
    }
}

// A set is joined to row x of a table.
#[tactic(auto, using(crate::specs::SetLaws::join_is, crate::specs::SetLaws::fits))]
pub fn join_row(words: &mut [u64], x: u16, set: Set)
    requires { TableLent words.old × (x < numbers) }
    ensures { words.new ≡ join_row row_size x (has set) words.old }
{
    let start = ROW_WORDS * (x as usize);
    words[start] |= set.low;
    words[start + 1] |= set.high;
}
