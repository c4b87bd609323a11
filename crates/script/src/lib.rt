// Reading a line of a script.
#![tactic(auto)]

mod calls;
mod pieces;
pub mod print;
pub mod text;

ghost use Rattle.std.specs.Prelude.{◌≡◌, drop};
ghost use Rattle.script.specs.Script.{start_of, read_line};
ghost use Rattle.script.specs.Pieces.{afterwards};

use levels::Order;
use model::Call;
use pieces::{Found, Numbers};

// What a line asks for.
#[derive(Clone, Copy)]
pub enum Command {
    // A start with its order. Of one whose count is over sixteen only the count is read: no such order passes, whatever its rows.
    Start(Order),
    Ask(Call),
}

const MOST_LEVELS: u16 = 16;

// A start, whose word ends at `at`.
fn start_after(line: &[u8], at: usize) -> Option<Command>
    ensures { result ≡ start_of (afterwards (drop at line.now)) }
{
    let Found { value: count, end } = pieces::number_after(line, at)?;
    if count > MOST_LEVELS {
        return Some(Command::Start(Order {
            rows: [0; 16],
            count,
            top: 0,
        }));
    }
    let Found {
        value: top,
        end: next,
    } = pieces::number_after(line, end)?;
    let Numbers {
        values: rows,
        count: given,
    } = pieces::numbers_after(line, next)?;
    if given != usize::from(count) {
        return None;
    }
    Some(Command::Start(Order { rows, count, top }))
}

// What a line asks for, which comes without its line feed. None: it is no call, prints bad and does nothing.
pub fn read_line(line: &[u8]) -> Option<Command>
    ensures { result ≡ read_line line.now }
{
    let end = pieces::end_of(line);
    let word = &line[..end];
    if calls::is(word, b"start") {
        return start_after(line, end);
    }
    let numbers = pieces::numbers_after(line, end)?;
    calls::call_of(word, numbers.as_slice())
}
