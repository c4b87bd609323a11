// The pieces of a line, and the number that a piece is.
ghost use Rattle.std.specs.Prelude.{◌≡◌, ◌≤◌, IfSome, length, take, drop};
ghost use Rattle.script.specs.Pieces.{first, afterwards, number_of, number_after, numbers_from, no_values};

// One to five digits.
const MOST_DIGITS: usize = 5;

// The most numbers that are read in one go: the rows of a start.
const MOST_NUMBERS: usize = 16;

// The next number of a line, and where it ends.
#[derive(Clone, Copy)]
pub struct Found {
    pub value: u16,
    pub end: usize,
}

// All that is left of a line, where that is at most sixteen numbers: zeros follow them.
// By hand: an array with its count, since there is no heap; `as_slice` is what was read.
#[derive(Clone, Copy)]
pub struct Numbers {
    pub values: [u16; MOST_NUMBERS],
    pub count: usize,
}

impl Numbers {
    pub fn as_slice(&self) -> &[u16]
        ensures { result.now ≡ take self.now.count self.now.values }
    {
        self.values.get(..self.count).unwrap_or(&self.values)
    }
}

// Where the first piece ends.
pub fn end_of(line: &[u8]) -> usize
    ensures { result ≡ length (first line.now) }
{
    line.iter().position(|b| *b == b' ').unwrap_or(line.len())
}

fn number_of(piece: &[u8]) -> Option<u16>
    ensures { result ≡ number_of piece.now }
{
    if piece.is_empty() || piece.len() > MOST_DIGITS {
        return None;
    }
    let mut v: u32 = 0;
    for b in piece {
        if !b.is_ascii_digit() {
            return None;
        }
        v = 10 * v + u32::from(*b - b'0');
    }
    u16::try_from(v).ok()
}

// The number that follows a piece which ends at `at`.
pub fn number_after(line: &[u8], at: usize) -> Option<Found>
    ensures { result ≡ number_after line.now at }
{
    if at >= line.len() {
        return None;
    }
    let from = at + 1;
    let end = from + end_of(&line[from..]);
    let value = number_of(&line[from..end])?;
    Some(Found { value, end })
}

// The numbers that follow a piece which ends at `at`, to the line's end.
pub fn numbers_after(line: &[u8], at: usize) -> Option<Numbers>
    ensures numbers { result ≡ numbers_from no_values 0 (afterwards (drop at line.now)) }
    ensures within { IfSome result (λ n. n.count ≤ 16) }
{
    let mut values = [0; MOST_NUMBERS];
    let mut count = 0;
    let mut end = at;
    // By hand: the loop steps from a number's end to the next one's, which is known only when that is read.
    while end < line.len() {
        if count == MOST_NUMBERS {
            return None;
        }
        let found = number_after(line, end)?;
        values[count] = found.value;
        count += 1;
        end = found.end;
    }
    Some(Numbers { values, count })
}
