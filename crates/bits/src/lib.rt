// Bits and bytes of words: a bit, a word with one bit, how many ones a word has, its lowest one; four bytes as one number.
#![tactic(auto)]

ghost use Rattle.std.specs.Prelude.{◌≡◌, ◌<◌, ◌^◌};
ghost use Rattle.std.specs.Int.Count.{ones, count_trailing_zeros};
ghost use Rattle.bits.specs.Bit.{bit, joined};

#[tactic(auto, unfolding(crate::specs::Bit::bit))]
pub fn has_bit(w: u64, i: usize) -> bool
    requires { i < 64 }
    ensures { result ≡ bit w i }
{
    (w >> i) % 2 == 1
}

// The word whose one bit is i.
pub fn mask(i: usize) -> u64
    requires { i < 64 }
    ensures { result ≡ 2 ^ i }
{
    1u64 << i
}

pub fn count_of_ones(w: u64) -> u32
    ensures { result ≡ ones w }
{
    w.count_ones()
}

// The place of the lowest one, and 64 where there is none.
pub fn lowest_one(w: u64) -> u32
    ensures { result ≡ count_trailing_zeros 64 w }
{
    w.trailing_zeros()
}

// Four bytes as one number, the first lowest.
pub fn join(a: u8, b: u8, c: u8, d: u8) -> usize
    ensures { result ≡ joined a b c d }
{
    u32::from_le_bytes([a, b, c, d]) as usize
}
