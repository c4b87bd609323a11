// The records of the numbers, and the test that the bytes are sound.
#![tactic(auto)]

ghost use Rattle.std.specs.Prelude.{◌≡◌, true, false, List, ℕ, ◌+◌, ◌*◌, ◌%◌, ◌≤◌, ◌<◌, length, replicate, MatchOption};
ghost use Rattle.records.specs.Records as model;
ghost use Rattle.rows.specs.Size.{numbers};
ghost use Rattle.records.specs.Records.{
  set_field,
  set_record,
  kind,
  is_task,
  is_object,
  sound_record,
  core_record,
};
ghost use Rattle.records.specs.WordLaws.{
  word,
  container_fits,
  object_bits,
  other_bits,
  place_of,
  if_even,
  object_fits,
  other_fits,
  word_fits,
  low,
};
ghost use Rattle.records.specs.SeenLaws.{seen_fits, Sees};
ghost use Rattle.records.specs.GroupLaws.{group_size, group_free, groups_free, all_sound, FreeUntil, Gathered, levels_fit, all_fit};

use levels::Order;
use rows::NUMBERS;

// The bytes of a record; how many records there are, one for each number; and the bytes of them all.
pub const RECORD_SIZE: usize = 8;

pub const RECORDS: usize = NUMBERS as usize;

pub const BYTES: usize = RECORD_SIZE * RECORDS;

// The bytes that a caller lends, when their length has been tested.
pub type Lent = [u8; BYTES];

// The records are tested in groups, so that a run of free ones costs few tests.
const GROUP_SIZE: usize = 8;

const FOUR_GROUPS: usize = 4 * GROUP_SIZE;

// An order of fewer levels than this is tested by sums.
const SUMMED: u16 = 0x80;

// Where each field stands in its record. The two spare bytes are zero.
// By hand: the records are bytes of the lent memory, which C lays out; `field` takes any place.
pub const KIND: u16 = 0;

pub const LEVEL: u16 = 1;

pub const READ_LEVEL: u16 = 2;

pub const DRIVER: u16 = 3;

pub const CONTAINER: u16 = 4;

pub const MARKS: u16 = 5;

const FIRST_SPARE: u16 = 6;

const LAST_SPARE: u16 = 7;

// The kinds.
// By hand: a kind is a byte of the lent memory, which may be none of these and is compared as it is read, alone or within its record.
pub const FREE: u8 = 0;

pub const TASK: u8 = 1;

pub const OBJECT: u8 = 2;

// What stands in the container byte of a root object.
// By hand: a byte of the lent memory, as the kinds are.
pub const ROOT_SIGN: u8 = 255;

// A byte of the record of x, and 0 past the end of the bytes.
#[tactic(auto, unfolding(crate::specs::Records::field))]
pub fn field(bytes: &[u8], x: u16, f: u16) -> u8
    ensures { result ≡ model.field bytes.now x f }
{
    let i = RECORD_SIZE * (x as usize) + (f as usize);
    bytes.get(i).copied().unwrap_or(0)
}

// A store to it, and none past the end.
#[tactic(auto, unfolding(crate::specs::Records::set_field))]
pub fn set_field(bytes: &mut [u8], x: u16, f: u16, v: u8)
    ensures { bytes.new ≡ set_field bytes.old x f v }
{
    let i = RECORD_SIZE * (x as usize) + (f as usize);
    // By hand: what is written by `get_mut` of a slice is not known of the slice.
    if i < bytes.len() {
        bytes[i] = v;
    }
}

// What a record says, but for the spare bytes.
#[derive(Clone, Copy)]
pub struct Record {
    pub kind: u8,
    pub level: u8,
    pub read_level: u8,
    pub driver: u8,
    pub container: u8,
    pub marks: u8,
}

impl Record {
    // A free number's, all zero.
    pub const FREE: Record = Record {
        kind: FREE,
        level: 0,
        read_level: 0,
        driver: 0,
        container: 0,
        marks: 0,
    };
}

// The whole record of x.
#[tactic(auto, unfolding(crate::specs::Records::set_record))]
pub fn set_record(bytes: &mut [u8], x: u16, fields: Record)
    ensures { bytes.new ≡ set_record bytes.old x fields.kind fields.level fields.read_level fields.driver fields.container fields.marks 0 }
{
    set_field(bytes, x, KIND, fields.kind);
    set_field(bytes, x, LEVEL, fields.level);
    set_field(bytes, x, READ_LEVEL, fields.read_level);
    set_field(bytes, x, DRIVER, fields.driver);
    set_field(bytes, x, CONTAINER, fields.container);
    set_field(bytes, x, MARKS, fields.marks);
    set_field(bytes, x, FIRST_SPARE, 0);
    set_field(bytes, x, LAST_SPARE, 0);
}

// By hand: tasks and objects have a test each, as the definitions do; one test over the kind would be no shorter where it is called.
#[tactic(auto, unfolding(crate::specs::Records::is_task))]
pub fn is_task(bytes: &[u8], x: u16) -> bool
    ensures { result ≡ is_task bytes.now x }
{
    field(bytes, x, KIND) == TASK
}

#[tactic(auto, unfolding(crate::specs::Records::is_object))]
pub fn is_object(bytes: &[u8], x: u16) -> bool
    ensures { result ≡ is_object bytes.now x }
{
    field(bytes, x, KIND) == OBJECT
}

pub fn clear_all(bytes: &mut [u8])
    ensures { bytes.new ≡ replicate (length bytes.old) 0 }
{
    bytes.fill(0);
}

// ---- soundness. A record is read as one number of eight bytes, which the compiler turns into one load.

// The whole record of x as one number.
#[tactic(auto, unfolding(crate::specs::WordLaws::word, crate::specs::WordLaws::half, crate::specs::Records::field))]
fn word(bytes: &Lent, x: usize) -> usize
    requires { x < numbers }
    ensures { result ≡ word bytes.now x }
{
    let i = RECORD_SIZE * x;
    usize::from_le_bytes([
        bytes[i],
        bytes[i + 1],
        bytes[i + 2],
        bytes[i + 3],
        bytes[i + 4],
        bytes[i + 5],
        bytes[i + 6],
        bytes[i + 7],
    ])
}

#[tactic(auto, unfolding(crate::specs::Records::field))]
fn kind_at(bytes: &Lent, x: usize) -> u8
    requires { x < numbers }
    ensures { result ≡ kind bytes.now x }
{
    bytes[RECORD_SIZE * x]
}

// What an object's record shows by itself: level and driver below 0x80, read level 0, marks 0 or 1, spare bytes 0. The compiler
// joins these tests into one mask and one comparison.
#[tactic(auto, unfolding(crate::specs::WordLaws::object_bits))]
fn object_bits(w: usize) -> bool
    ensures { result ≡ object_bits w }
{
    (w / 0x8000 % 2 == 0)
        & (w / 0x1_0000 % 0x100 == 0)
        & (w / 0x8000_0000 % 2 == 0)
        & (w / 0x200_0000_0000 == 0)
}

// And another's: kind 0 or 1, level and read level below 0x80, driver and container 0, marks 0 to 3, spare bytes 0.
#[tactic(auto, unfolding(crate::specs::WordLaws::other_bits))]
fn other_bits(w: usize) -> bool
    ensures { result ≡ other_bits w }
{
    (w / 2 % 0x80 == 0)
        & (w / 0x8000 % 2 == 0)
        & (w / 0x80_0000 % 2 == 0)
        & (w / 0x100_0000 % 0x1_0000 == 0)
        & (w / 0x400_0000_0000 == 0)
}

// The number where the kind of the container of x is looked up: a root stands for itself, being an object.
#[tactic(auto, unfolding(crate::specs::WordLaws::place_of))]
fn place_of(x: usize, container: usize) -> usize
    ensures { result ≡ place_of x container }
{
    if container == ROOT_SIGN as usize {
        x
    } else {
        container
    }
}

// Only a free record may be even, and then it is 0.
#[tactic(auto, unfolding(crate::specs::WordLaws::if_even))]
fn if_even(w: usize) -> usize
    ensures { result ≡ if_even w }
{
    if w % 2 == 0 { w } else { 0 }
}

// What all records passed by have shown, gathered by `or` and by `and`: one test of it at the end is the test of each record, so
// that few branches hang on what a record holds.
#[derive(Clone, Copy)]
struct Seen {
    // The objects' records, and all others.
    objects: usize,
    others: usize,
    // Of the others: three times the marks, and those that are even.
    tripled: usize,
    even: usize,
    // By `and`: the kinds of the objects' drivers, and of their containers.
    drivers: u8,
    containers: u8,
}

impl Seen {
    // Of no record.
    const NONE: Seen = Seen {
        objects: 0,
        others: 0,
        tripled: 0,
        even: 0,
        drivers: TASK,
        containers: OBJECT,
    };

    // With the record w of the object x; None where it is unfit: it lies in itself, or in no number.
    #[tactic(auto, using(crate::specs::SeenLaws::with_object, crate::specs::WordLaws::in_number, crate::specs::WordLaws::in_itself, crate::specs::WordLaws::in_no_number))]
    fn with_object(self, bytes: &Lent, x: usize, w: usize) -> Option<Seen>
        requires { x < numbers }
        ensures { MatchOption result (object_fits bytes.now x w ≡ false) (λ t. Sees (object_fits bytes.now x w) w self t) }
    {
        let container = w / 0x1_0000_0000 % 0x100;
        if x == container {
            return None;
        }
        let place = place_of(x, container);
        if place >= RECORDS {
            return None;
        }
        let driver = kind_at(bytes, w / 0x100_0000 % RECORDS);
        let holder = kind_at(bytes, place);
        Some(Seen {
            objects: self.objects | w,
            drivers: self.drivers & driver,
            containers: self.containers & holder,
            ..self
        })
    }

    // With a record w that is no object's. Marks of 2 are unsound: three times 2 has bit 2, three times 0, 1 and 3 has not.
    #[tactic(auto, using(crate::specs::SeenLaws::with_other))]
    fn with_other(self, w: usize) -> Seen
        ensures { Sees (other_fits w) w self result }
    {
        Seen {
            others: self.others | w,
            tripled: self.tripled | (w / 0x100_0000_0000 * 3),
            even: self.even | if_even(w),
            ..self
        }
    }

    // With the record of x, which is an object's where its kind is 2.
    #[tactic(auto, unfolding(crate::specs::WordLaws::word_fits))]
    fn with_record(self, bytes: &Lent, x: usize) -> Option<Seen>
        requires { x < numbers }
        ensures { MatchOption result (word_fits bytes.now x ≡ false) (λ t. Sees (word_fits bytes.now x) (word bytes.now x) self t) }
    {
        let w = word(bytes, x);
        if w % 0x100 == OBJECT as usize {
            self.with_object(bytes, x, w)
        } else {
            Some(self.with_other(w))
        }
    }

    // With the group from x on. Nothing more is looked at after an unfit object.
    #[tactic(auto, using(crate::specs::GroupLaws::gathered_step, crate::specs::GroupLaws::not_all))]
    fn with_group(self, bytes: &Lent, x: usize) -> Option<Seen>
        requires { (x + group_size ≤ numbers) × Gathered bytes.now x self }
        ensures { MatchOption result (all_fit bytes.now ≡ false) (λ t. Gathered bytes.now (x + group_size) t) }
    {
        let mut next = self;
        for y in x..x + GROUP_SIZE {
            next = next.with_record(bytes, y)?;
        }
        Some(next)
    }

    // What is gathered is what sound records show, but that levels are only known to be below 0x80.
    #[tactic(auto, unfolding(crate::specs::SeenLaws::seen_fits, crate::specs::WordLaws::not_two))]
    fn fits(self) -> bool
        ensures { result ≡ seen_fits self }
    {
        object_bits(self.objects)
            & other_bits(self.others)
            & (self.tripled / 4 % 2 == 0)
            & (self.even == 0)
            & (self.drivers % 2 == 1)
            & (self.containers / 2 % 2 == 1)
    }
}

// The level and the read level of w are below the count.
#[tactic(auto, unfolding(crate::specs::WordLaws::low))]
fn levels_low(w: usize, count: usize) -> bool
    ensures { result ≡ low count w }
{
    (w / 0x100 % 0x100 < count) & (w / 0x1_0000 % 0x100 < count)
}

// Number 0 is a task at the top level.
#[tactic(auto, unfolding(crate::specs::Records::core_record))]
fn core_sound(bytes: &Lent, order: Order) -> bool
    ensures { result ≡ core_record order bytes.now }
{
    is_task(bytes, 0) & (field(bytes, 0, LEVEL) as u16 == order.top)
}

// The records of the group from x on are free.
#[tactic(auto, using(bits::specs::AllLaws::all_none, bits::specs::AllLaws::all_step, bits::specs::BitLaws::or_zero), unfolding(crate::specs::GroupLaws::group_free))]
fn group_free(bytes: &Lent, x: usize) -> bool
    requires { x + group_size ≤ numbers }
    ensures { result ≡ group_free bytes.now x }
{
    let mut any = 0;
    for k in 0..GROUP_SIZE {
        any |= word(bytes, x + k);
    }
    any == 0
}

// The levels and read levels of all records are below the count, if they are below 0x80: with 0x80 less the count added, none
// reaches 0x80, which is bit 15 of the number for the level and bit 23 for the read level.
#[tactic(auto, using(bits::specs::AllLaws::all_none, bits::specs::AllLaws::all_step, crate::specs::SeenLaws::or_below), unfolding(crate::specs::GroupLaws::levels_fit, crate::specs::WordLaws::below))]
fn levels_fit(bytes: &Lent, count: usize) -> bool
    requires { count < 0x80 }
    ensures { result ≡ levels_fit count bytes.now }
{
    let rise = (0x80 - count) * 0x1_0100;
    let mut any = 0;
    for x in 0..RECORDS {
        any |= word(bytes, x) % 0x100_0000 + rise;
    }
    (any / 0x8000 % 2 == 0) & (any / 0x80_0000 % 2 == 0)
}

// The four groups from x on are free: one test for 32 records.
#[tactic(auto, unfolding(crate::specs::GroupLaws::groups_free))]
fn groups_free(bytes: &Lent, x: usize) -> bool
    requires { x + 32 ≤ numbers }
    ensures { result ≡ groups_free bytes.now x }
{
    group_free(bytes, x)
        & group_free(bytes, x + GROUP_SIZE)
        & group_free(bytes, x + 2 * GROUP_SIZE)
        & group_free(bytes, x + 3 * GROUP_SIZE)
}

// A number up to which the records are free, so that few records in use cost few tests.
fn free_until(bytes: &Lent, from: usize) -> usize
    requires { (from ≤ numbers) × (from % group_size ≡ 0) }
    ensures { FreeUntil bytes.now from result }
{
    let mut x = from;
    // By hand: the number that the last step reached is wanted, which a `for` does not leave.
    while x + FOUR_GROUPS <= RECORDS && groups_free(bytes, x) {
        x += FOUR_GROUPS;
    }
    x
}

// What all records show. Where a group begins with a free record, free groups are passed over.
fn gather(bytes: &Lent) -> Option<Seen>
    ensures { MatchOption result (all_fit bytes.now ≡ false) (λ t. Gathered bytes.now numbers t) }
{
    let mut seen = Seen::NONE;
    let mut x = 0;
    // By hand: free groups are jumped over, up to the number that `free_until` finds; a `for` goes by even steps.
    while x < RECORDS {
        if word(bytes, x) == 0 && group_free(bytes, x) {
            x = free_until(bytes, x + GROUP_SIZE);
            continue;
        }
        seen = seen.with_group(bytes, x)?;
        x += GROUP_SIZE;
    }
    Some(seen)
}

// The records are sound. Levels whose `or` is below the count are so themselves; else each is tested.
fn records_sound(bytes: &Lent, order: Order) -> bool
    requires { (0 < order.count) × (order.count < 0x80) }
    ensures { result ≡ all_sound order bytes.now numbers }
{
    let Some(seen) = gather(bytes) else {
        return false;
    };
    let count = order.count as usize;
    seen.fits()
        && (levels_low(seen.objects, count) & levels_low(seen.others, count)
            || levels_fit(bytes, count))
}

// ---- the same without sums, for an order of no level or of more than the sums can test

// An object's container is the root sign or another object.
#[tactic(auto, unfolding(crate::specs::WordLaws::container_fits, crate::specs::Records::is_object))]
fn container_sound(bytes: &Lent, x: usize, container: usize) -> bool
    ensures { result ≡ container_fits bytes.now x container }
{
    container == ROOT_SIGN as usize
        || (container < RECORDS && kind_at(bytes, container) == OBJECT && container != x)
}

// The record of x is sound, field by field. The spare bytes stand above the marks.
#[tactic(auto, using(crate::specs::WordLaws::plain_record), unfolding(crate::specs::WordLaws::plain_sound))]
fn plain_record(bytes: &Lent, order: Order, x: usize) -> bool
    requires { x < numbers }
    ensures { result ≡ sound_record order bytes.now x }
{
    let w = word(bytes, x);
    let level = w / 0x100 % 0x100;
    let read_level = w / 0x1_0000 % 0x100;
    let driver = w / 0x100_0000 % 0x100;
    let container = w / 0x1_0000_0000 % 0x100;
    let marks = w / 0x100_0000_0000;
    let count = order.count as usize;
    let task = (w % 0x100 == TASK as usize)
        & (level < count)
        & (read_level < count)
        & (driver == 0)
        & (container == 0)
        & ((marks == 0) | (marks == 1) | (marks == 3));
    let object = (w % 0x100 == OBJECT as usize)
        & (level < count)
        & (read_level == 0)
        & is_task(bytes, driver as u16)
        & container_sound(bytes, x, container)
        & ((marks == 0) | (marks == 1));
    (w == 0) | task | object
}

fn plain_records(bytes: &Lent, order: Order) -> bool
    ensures { result ≡ all_sound order bytes.now numbers }
{
    (0..RECORDS).all(|x| plain_record(bytes, order, x))
}

#[tactic(auto, unfolding(crate::specs::Records::sound_of))]
fn sound_under(bytes: &Lent, order: Order) -> bool
    ensures { result ≡ model.sound order bytes.now }
{
    if !core_sound(bytes, order) {
        return false;
    }
    if 0 < order.count && order.count < SUMMED {
        records_sound(bytes, order)
    } else {
        plain_records(bytes, order)
    }
}

// The bytes are sound under an order of so many levels and that top. Its rows play no part, so it is not copied for the test.
// Not inlined: within a long caller its sums would not stay in registers, and the test would take a third more instructions.
#[inline(never)]
#[tactic(auto, unfolding(crate::specs::Records::sound_of))]
pub fn sound(bytes: &[u8], count: u16, top: u16) -> bool
    ensures { (rows : List ℕ) → result ≡ model.sound (record { rows = rows; count = count; top = top }) bytes.now }
{
    let Some(bytes) = bytes.as_array() else {
        return false;
    };
    let order = Order {
        rows: [0u16; 16],
        count,
        top,
    };
    sound_under(bytes, order)
}
