// The order of the levels: its comparisons and its test, and sets of levels.
#![tactic(auto)]

ghost use Rattle.std.specs.Prelude.{◌≡◌, false, cond, ◌≤◌, ◌<◌, ltb, MatchBool};
ghost use Rattle.bits.specs.Bit.{bit};
ghost use Rattle.levels.specs.Order.{most_levels, row_of, at_or_below, order_passes};
ghost use Rattle.levels.specs.LevelSet.{with_level, set_fits};
ghost use Rattle.levels.specs.OrderRows.{RowsFit, closed, AllCovered, Passed, row_fits, level_passes, LevelCovered, rest_empty, rows_pass};

#[repr(C)]
#[derive(Clone, Copy)]
pub struct Order {
    pub rows: [u16; 16],
    pub count: u16,
    pub top: u16,
}

// The rows of a task's level and of its read level.
#[derive(Clone, Copy)]
pub struct Rows {
    pub level: u16,
    pub read: u16,
}

const MOST_LEVELS: u16 = 16;

impl Order {
    // Level a is at or below level b.
    pub fn at_or_below(&self, a: u16, b: u16) -> bool
        ensures { result ≡ at_or_below self.now a b }
    {
        if a >= MOST_LEVELS {
            return false;
        }
        let n = self.count;
        let row = self.row_of(a);
        (a < n) & (b < n) & (b < MOST_LEVELS) && in_row(row, b)
    }

    // The row of level a: a bit for each level that it is at or below. Several comparisons of one level look its row up once.
    pub fn row_of(&self, a: u16) -> u16
        requires { a < most_levels }
        ensures { result ≡ row_of self.now a }
    {
        self.rows[a as usize]
    }

    // The rows of two levels.
    pub fn rows_of(&self, level: u16, read: u16) -> Rows
        requires { (level < most_levels) × (read < most_levels) }
        ensures { (result.level ≡ row_of self.now level) × (result.read ≡ row_of self.now read) }
    {
        Rows {
            level: self.row_of(level),
            read: self.row_of(read),
        }
    }

    // Each level of the rest has its row within `set`, where those in a row found within are passed over, the highest first: on a
    // line numbered from the top down its row has all others.
    fn rest_closed(&self, set: u16, rest: u16) -> bool
        requires { Passed self.now.rows set rest }
        ensures { MatchBool result (AllCovered self.now.rows set) (closed self.now.rows set ≡ false) }
    {
        let mut left = rest;
        while left != 0 {
            let b = left.ilog2();
            let row = self.rows[b as usize];
            if row | set != set {
                return false;
            }
            left = (left - (1u16 << b)) & !row;
        }
        true
    }

    // Each level of `set` has its row within `set`, where those in a row found within are passed over: they have their own test,
    // which shows what is passed over here, so all levels together miss nothing. The lowest comes first: on a line numbered upwards
    // its row has all others.
    fn is_closed(&self, set: u16) -> bool
        ensures { MatchBool result (AllCovered self.now.rows set) (closed self.now.rows set ≡ false) }
    {
        if set == 0 {
            return true;
        }
        let row = self.rows[set.trailing_zeros() as usize];
        if row | set != set {
            return false;
        }
        self.rest_closed(set, set & (set - 1) & !row)
    }

    // Row `row` of level a has no bit at or past the count, and has those of a and of the top.
    #[tactic(auto, unfolding(crate::specs::OrderRows::row_fits))]
    fn row_fits(&self, row: u16, a: u16) -> bool
        requires { (self.now.count ≤ 16) × (self.now.top < self.now.count) × (a < self.now.count) }
        ensures { result ≡ row_fits row self.now.count self.now.top a }
    {
        ((row as u32) >> self.count == 0) & in_row(row, a) & in_row(row, self.top)
    }

    // Where what is strictly above a is closed, a breaks neither transitivity nor antisymmetry.
    fn level_passes(&self, a: u16) -> bool
        requires { (self.now.count ≤ 16) × (self.now.top < self.now.count) × (a < self.now.count) }
        ensures { MatchBool result (LevelCovered self.now.rows self.now.count self.now.top a) (level_passes self.now.rows self.now.count self.now.top a ≡ false) }
    {
        let row = self.row_of(a);
        self.row_fits(row, a) && self.is_closed(row & !(1u16 << a))
    }

    // All rows past the count are empty: one test for them together.
    #[tactic(auto, using(bits::specs::BitLaws::or_zero, bits::specs::AllLaws::all_step), unfolding(crate::specs::OrderRows::rest_empty, bits::specs::All::all_b))]
    fn rest_empty(&self) -> bool
        ensures { result ≡ rest_empty self.now.rows self.now.count }
    {
        let mut any: u16 = 0;
        for k in 0..MOST_LEVELS {
            if k >= self.count {
                any |= self.row_of(k);
            }
        }
        any == 0
    }
}

// Level b stands in a row.
// By hand: `bits::has_bit` of the row as a wider word makes the order's test slower.
#[tactic(auto, unfolding(bits::specs::Bit::bit))]
pub fn in_row(row: u16, b: u16) -> bool
    requires { b < most_levels }
    ensures { result ≡ bit row b }
{
    (row >> b) % 2 == 1
}

// No level of a set is at or past the count.
#[tactic(auto, using(crate::specs::LevelSetLaws::fits_short, crate::specs::LevelSetLaws::fits_wide))]
pub fn set_fits(set: u16, count: u16) -> bool
    ensures { result ≡ set_fits count set }
{
    count >= MOST_LEVELS || set >> count == 0
}

// The set with level l in it.
#[tactic(auto, using(bits::specs::BitLaws::one_shl), unfolding(crate::specs::LevelSet::with_level))]
pub fn with_level(set: u16, l: u16) -> u16
    requires { l < most_levels }
    ensures { result ≡ with_level set l }
{
    set | (1u16 << l)
}

// The order's test, by whole rows. It leaves at the first row that fails.
pub fn order_passes(order: Order) -> bool
    ensures { result ≡ order_passes order }
{
    if order.count > MOST_LEVELS || order.top >= order.count {
        return false;
    }
    (0..order.count).all(|a| order.level_passes(a)) && order.rest_empty()
}
