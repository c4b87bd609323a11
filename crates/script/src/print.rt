// What is printed, into a lent buffer. Each function answers where the text ends.
ghost use Rattle.std.specs.Prelude.{[], ◌∷◌};
ghost use Rattle.script.specs.Print.{decimal, reply_line};
ghost use Rattle.script.specs.Stored.{Stored};

// What answers a line.
#[derive(Clone, Copy, PartialEq, Eq, Debug)]
pub enum Reply {
    Bad,
    Verdict(u8),
    // The verdict of a spread, and its rounds.
    Rounds(u8, u8),
}

// A byte, and none past the end of the buffer.
pub fn byte(out: &mut [u8], at: usize, b: u8) -> usize
    ensures { Stored out.old at (b ∷ []) out.new result }
{
    if at >= out.len() {
        return at;
    }
    out[at] = b;
    at + 1
}

// In decimal.
// By hand: `write!` answers a Result, whose error nothing causes here, and prints by the library's definition of decimal, which is
// longer to read than `decimal`.
pub fn number(out: &mut [u8], at: usize, n: u8) -> usize
    ensures { Stored out.old at (decimal n) out.new result }
{
    if n < 10 {
        byte(out, at, b'0' + n)
    } else if n < 100 {
        let end = byte(out, at, b'0' + n / 10);
        byte(out, end, b'0' + n % 10)
    } else {
        let end = byte(out, at, b'0' + n / 100);
        let next = byte(out, end, b'0' + n / 10 % 10);
        byte(out, next, b'0' + n % 10)
    }
}

pub fn text(out: &mut [u8], at: usize, bytes: &[u8]) -> usize
    ensures { Stored out.old at bytes.now out.new result }
{
    let mut end = at;
    for b in bytes {
        end = byte(out, end, *b);
    }
    end
}

// The line that answers a line: at most eight bytes.
pub fn answer(out: &mut [u8], at: usize, reply: Reply) -> usize
    ensures { Stored out.old at (reply_line reply) out.new result }
{
    match reply {
        Reply::Bad => text(out, at, b"bad\n"),
        Reply::Verdict(v) => {
            let end = number(out, at, v);
            byte(out, end, b'\n')
        }
        Reply::Rounds(v, r) => {
            let end = number(out, at, v);
            let next = byte(out, end, b' ');
            let last = number(out, next, r);
            byte(out, last, b'\n')
        }
    }
}
