// The line of the marked numbers.
ghost use Rattle.script.specs.Print.{Printed};
ghost use Rattle.trail.specs.Marked.{marked_line};

use model::Report;
use script::text::Text;

// Each marked number, rising, a space before it.
pub fn print<const N: usize>(out: &mut Text<N>, report: Report)
    ensures { Printed out.old (marked_line report) out.new }
{
    out.text(b"marked");
    let mut n = marking::next_marked(report, 0);
    while n < rows::NUMBERS {
        out.byte(b' ');
        out.number(n as u8);
        n = marking::next_marked(report, n + 1);
    }
    out.byte(b'\n');
}
