// Going through the numbers of a word.
ghost use Rattle.std.specs.Prelude.{◌≡◌, ℕ, ◌+◌, ◌≤◌, ◌<◌};
ghost use Rattle.std.specs.Iterator.{at_most};
ghost use Rattle.rows.specs.Size.{numbers};
ghost use Rattle.sets.specs.Sets.{in_word};
ghost use Rattle.sets.specs.Numbers.{Takes};

use crate::lowest_number;

// The numbers of a word that are still to come, where bit 0 stands for `first`.
#[derive(Drop)]
pub struct Numbers {
    pub rest: u64,
    pub first: u8,
    ghost within: { first + 64 ≤ numbers },
}

// `and` with the word less 1 clears the lowest one of a word.
impl Iterator for Numbers {
    type Item = u8;

    ghost next_gives = { λ s r t. Takes (in_word s.rest s.first) r (in_word t.rest t.first) };

    ghost remaining = { λ s. at_most s.rest };

    fn next(&mut self) -> Option<u8> {
        if self.rest == 0 {
            return None;
        }
        let x = lowest_number(self.rest, self.first);
        self.rest &= self.rest - 1;
        Some(x)
    }
}

// The numbers of a word whose bit 0 stands for `first`.
pub fn numbers_of(word: u64, first: u8) -> Numbers
    requires { first + 64 ≤ numbers }
    ensures { (result.rest ≡ word) × (result.first ≡ first) }
{
    Numbers { rest: word, first }
}
