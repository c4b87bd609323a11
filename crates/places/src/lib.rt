// Where an object lies: going from container to container.
#![tactic(auto)]

ghost use Rattle.std.specs.Prelude.{◌≡◌};
ghost use Rattle.places.specs.Places.{bytes_inside};

use records::{CONTAINER, ROOT_SIGN};
use rows::NUMBERS;

// A walk that meets no number twice has at most as many steps as there are other numbers.
const MOST_STEPS: u16 = NUMBERS - 1;

// Going from container to container, x comes to y: it lies inside y. A root ends the walk, and where the containers go in a circle,
// the count of steps does.
pub fn lies_inside(bytes: &[u8], x: u16, y: u16) -> bool
    ensures { result ≡ bytes_inside bytes.now x y }
{
    let mut at = x;
    for _ in 0..MOST_STEPS {
        let container = records::field(bytes, at, CONTAINER);
        at = container as u16;
        if at == y {
            return true;
        }
        if container == ROOT_SIGN {
            return false;
        }
    }
    false
}
