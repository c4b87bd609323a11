// What the events ask of a state.
ghost use Rattle.std.specs.Prelude.{◌≡◌, not, ◌&&◌, ◌+◌, ◌*◌, ◌≤◌, ltb, eqb};
ghost use Rattle.rows.specs.Rows.{cell};
ghost use Rattle.rows.specs.Size.{row_size, numbers};
ghost use Rattle.bits.specs.Bit.{bit};
ghost use Rattle.levels.specs.Order.{row_of, at_or_below};
ghost use Rattle.records.specs.Records.{field, is_task, is_object};
ghost use Rattle.model.specs.Ready.{Ready};
ghost use Rattle.decisions.specs.Facts.{Levelled, writes, both_write};

use levels::{Order, Rows};
use records::{CONTAINER, DRIVER, FREE, KIND, LEVEL, Lent, MARKS, READ_LEVEL};
use rows::{NUMBERS, READS, WRITES, Words};

// The row of the level of x: the levels that it is at or below. Several comparisons of one level look it up once.
pub fn level_row(bytes: &[u8], order: &Order, x: u16) -> u16
    requires { Levelled order.now bytes.now }
    ensures { result ≡ row_of order.now (field bytes.now x 1) }
{
    let a = records::field(bytes, x, LEVEL);
    order.row_of(u16::from(a))
}

// The row of the read level of x.
// By hand: a function beside `level_row`, since each of the two bytes has a law of its own that its level has a row.
pub fn read_row(bytes: &[u8], order: &Order, x: u16) -> u16
    requires { Levelled order.now bytes.now }
    ensures { result ≡ row_of order.now (field bytes.now x 2) }
{
    let a = records::field(bytes, x, READ_LEVEL);
    order.row_of(u16::from(a))
}

// The rows of the level and of the read level of x.
pub fn level_rows(bytes: &[u8], order: &Order, x: u16) -> Rows
    requires { Levelled order.now bytes.now }
    ensures { (result.level ≡ row_of order.now (field bytes.now x 1)) × (result.read ≡ row_of order.now (field bytes.now x 2)) }
{
    let level = records::field(bytes, x, LEVEL);
    let read = records::field(bytes, x, READ_LEVEL);
    order.rows_of(u16::from(level), u16::from(read))
}

// The level of y stands in a row. The order is asked for by the contract alone.
pub fn reaches(bytes: &[u8], order: &Order, row: u16, y: u16) -> bool
    requires { Levelled order.now bytes.now }
    ensures { result ≡ bit row (field bytes.now y 1) }
{
    let b = records::field(bytes, y, LEVEL);
    levels::in_row(row, u16::from(b))
}

// The level of x is at or below the level of y.
pub fn below(bytes: &[u8], order: &Order, x: u16, y: u16) -> bool
    requires { Levelled order.now bytes.now }
    ensures { result ≡ at_or_below order.now (field bytes.now x 1) (field bytes.now y 1) }
{
    let row = level_row(bytes, order, x);
    reaches(bytes, order, row, y)
}

// Two tasks and an object, as most calls name them.
pub fn are_named(bytes: &[u8], e: u16, d: u16, x: u16) -> bool
    ensures { result ≡ (is_task bytes.now e && is_task bytes.now d && is_object bytes.now x) }
{
    records::is_task(bytes, e) && records::is_task(bytes, d) && records::is_object(bytes, x)
}

// A state that has passed rows 2 and 3, as an event looks at it: the lengths are right, the order passes, and the bytes are sound
// under it.
#[derive(Clone, Copy)]
pub struct View<'a> {
    pub bytes: &'a Lent,
    pub words: &'a Words,
    pub order: &'a Order,
    pub ghost ready: { Ready order.now bytes.now words.now },
}

impl View<'_> {
    // Byte f of x, and 0 past the last number.
    fn field(&self, x: u16, f: u16) -> u8
        ensures { result ≡ field self.now.bytes.now x f }
    {
        let bytes = self.bytes;
        records::field(bytes, x, f)
    }

    // Column y of a row.
    fn cell(&self, row: u16, y: u16) -> bool
        ensures { result ≡ cell row_size self.now.words.now row y }
    {
        let words = self.words;
        rows::has(words, row, y)
    }

    pub fn is_task(&self, x: u16) -> bool
        ensures { result ≡ is_task self.now.bytes.now x }
    {
        let bytes = self.bytes;
        records::is_task(bytes, x)
    }

    pub fn is_object(&self, x: u16) -> bool
        ensures { result ≡ is_object self.now.bytes.now x }
    {
        let bytes = self.bytes;
        records::is_object(bytes, x)
    }

    pub fn in_use(&self, x: u16) -> bool
        ensures { result ≡ not (eqb (field self.now.bytes.now x 0) 0) }
    {
        self.field(x, KIND) != FREE
    }

    pub fn is_marked(&self, x: u16) -> bool
        ensures { result ≡ not (eqb (field self.now.bytes.now x 5) 0) }
    {
        self.field(x, MARKS) != 0
    }

    pub fn are_tasks(&self, a: u16, b: u16) -> bool
        ensures { result ≡ (is_task self.now.bytes.now a && is_task self.now.bytes.now b) }
    {
        self.is_task(a) && self.is_task(b)
    }

    pub fn are_named(&self, e: u16, d: u16, x: u16) -> bool
        ensures { result ≡ (is_task self.now.bytes.now e && is_task self.now.bytes.now d && is_object self.now.bytes.now x) }
    {
        let bytes = self.bytes;
        are_named(bytes, e, d, x)
    }

    pub fn driver_of(&self, x: u16) -> u16
        ensures { result ≡ field self.now.bytes.now x 3 }
    {
        u16::from(self.field(x, DRIVER))
    }

    // Byte f of x, a driver or a container, is the number y.
    pub fn names(&self, x: u16, f: u16, y: u16) -> bool
        ensures { result ≡ eqb (field self.now.bytes.now x f) y }
    {
        u16::from(self.field(x, f)) == y
    }

    // The driver d stands in the record of x.
    pub fn is_driven(&self, x: u16, d: u16) -> bool
        ensures { result ≡ eqb (field self.now.bytes.now x 3) d }
    {
        self.names(x, DRIVER, d)
    }

    // The container k stands in the record of x.
    pub fn lies_in(&self, x: u16, k: u16) -> bool
        ensures { result ≡ eqb (field self.now.bytes.now x 4) k }
    {
        self.names(x, CONTAINER, k)
    }

    pub fn level_row(&self, x: u16) -> u16
        ensures { result ≡ row_of self.now.order.now (field self.now.bytes.now x 1) }
    {
        let bytes = self.bytes;
        level_row(bytes, self.order, x)
    }

    pub fn read_row(&self, x: u16) -> u16
        ensures { result ≡ row_of self.now.order.now (field self.now.bytes.now x 2) }
    {
        let bytes = self.bytes;
        read_row(bytes, self.order, x)
    }

    pub fn reaches(&self, row: u16, y: u16) -> bool
        ensures { result ≡ bit row (field self.now.bytes.now y 1) }
    {
        let bytes = self.bytes;
        reaches(bytes, self.order, row, y)
    }

    pub fn is_below(&self, x: u16, y: u16) -> bool
        ensures { result ≡ at_or_below self.now.order.now (field self.now.bytes.now x 1) (field self.now.bytes.now y 1) }
    {
        let bytes = self.bytes;
        below(bytes, self.order, x, y)
    }

    // The level l, which is given and may be none of the order, is at or below the level of y.
    pub fn level_below(&self, l: u16, y: u16) -> bool
        ensures { result ≡ at_or_below self.now.order.now l (field self.now.bytes.now y 1) }
    {
        let b = self.field(y, LEVEL);
        (*self.order).at_or_below(l, u16::from(b))
    }

    // There is a flow from x to y.
    pub fn has_flow(&self, x: u16, y: u16) -> bool
        ensures { result ≡ cell row_size self.now.words.now x y }
    {
        self.cell(x, y)
    }

    // An access of the task e to the object x in a table; a number past the table has none.
    pub fn has_access(&self, table: u16, e: u16, x: u16) -> bool
        requires { table ≤ 2 * numbers }
        ensures { result ≡ (ltb e numbers && cell row_size self.now.words.now (table + e) x) }
    {
        e < NUMBERS && self.cell(table + e, x)
    }

    // The task e has read access to x.
    // By hand: reads and writes have a name each, as the documents do; what they share is `has_access`.
    pub fn reads(&self, e: u16, x: u16) -> bool
        ensures { result ≡ (ltb e numbers && cell row_size self.now.words.now (numbers + e) x) }
    {
        self.has_access(READS, e, x)
    }

    // The task e has write access to x.
    pub fn writes(&self, e: u16, x: u16) -> bool
        ensures { result ≡ writes self.now.words.now e x }
    {
        self.has_access(WRITES, e, x)
    }

    // Both tasks have write access to k.
    pub fn both_write(&self, e: u16, d: u16, k: u16) -> bool
        ensures { result ≡ both_write self.now.words.now e d k }
    {
        self.writes(e, k) & self.writes(d, k)
    }
}
