// The monitor's public face, by the decision table: every call and load with its list of tallies, the report, and what C and Rust link.
#![tactic(auto)]

ghost use Rattle.std.specs.Prelude.{◌≡◌, eqb};
ghost use Rattle.rows.specs.Size.{numbers};
ghost use Rattle.model.specs.Verdicts.{row_state};
ghost use Rattle.model.specs.State.{memory};
ghost use Rattle.model.specs.Monitor as model;
ghost use Rattle.model.specs.Monitor.{refused_unless, next_marked};
ghost use Rattle.model.specs.Load as loads;
ghost use Rattle.model.specs.Load.{layout_checked};
ghost use Rattle.calls.specs.Request.{call_of};
ghost use Rattle.calls.specs.Entered.{ToldEntry, LoadEntry};
ghost use Rattle.calls.specs.Ends.{ended, Performs, Loads};

use calls::Request;
use layout::Fault;
use levels::Order;
use model::{Answer, Checked, Report, Tally, Verdict};
use table::Table;
use tallies::Entry;

// As calls::call_lent, for a request and by the table.
fn request_lent(
    bytes: &mut [u8],
    words: &mut [u64],
    lent: usize,
    order: &Order,
    request: Request,
) -> Entry
    ensures { ToldEntry (memory bytes.old words.old) (call_of request) (refused_unless (eqb lent numbers) row_state (memory bytes.old words.old) (model.perform order.now (memory bytes.old words.old) (call_of request))) result bytes.new words.new }
{
    calls::call_lent::<Table>(bytes, words, lent, order, request.into())
}

// A whole call over the lent list, as C and Rust call it.
#[unsafe(no_mangle)]
pub extern "C" fn tupehiwo_perform(
    bytes: &mut [u8],
    words: &mut [u64],
    tallies: &mut [Tally],
    order: Order,
    request: Request,
) -> Answer
    ensures { Performs order (memory bytes.old words.old) tallies.old (call_of request) (ended result bytes.new words.new tallies.new) }
{
    let entry = request_lent(bytes, words, tallies.len(), &order, request);
    entry.enter(tallies);
    entry.answer()
}

// As calls::load_lent, by the table.
fn load_lent(bytes: &mut [u8], words: &mut [u64], lent: usize, order: &Order, text: &[u8]) -> Entry
    ensures { LoadEntry (refused_unless (eqb lent numbers) row_state (memory bytes.old words.old) (loads.load order.now (memory bytes.old words.old) text.now)) result bytes.new words.new }
{
    calls::load_lent::<Table>(bytes, words, lent, order, text)
}

// A whole load over the lent list, as C and Rust call it.
#[unsafe(no_mangle)]
pub extern "C" fn tupehiwo_load(
    bytes: &mut [u8],
    words: &mut [u64],
    tallies: &mut [Tally],
    order: Order,
    text: &[u8],
) -> Answer
    ensures { Loads order (memory bytes.old words.old) tallies.old text.now (ended result bytes.new words.new tallies.new) }
{
    let entry = load_lent(bytes, words, tallies.len(), &order, text);
    entry.enter(tallies);
    entry.answer()
}

// 0, 14 or 15 as a load past row 3 settles before any call, with the place of the fault, or the text's length: as C and Rust call it.
#[unsafe(no_mangle)]
pub extern "C" fn tupehiwo_layout(text: &[u8]) -> Checked
    ensures { result ≡ layout_checked text.now }
{
    match layout::check(text) {
        Ok(()) => Checked {
            offset: text.len() as u32,
            verdict: Verdict::Granted.number(),
        },
        Err(Fault::Broken { at }) => Checked {
            offset: at as u32,
            verdict: Verdict::Form.number(),
        },
        Err(Fault::Deep { at }) => Checked {
            offset: at as u32,
            verdict: Verdict::Deep.number(),
        },
    }
}

// The report, as C and Rust call it.
#[unsafe(no_mangle)]
pub extern "C" fn tupehiwo_report(bytes: &[u8], words: &[u64], order: Order) -> Report
    ensures { result ≡ model.report order (memory bytes.now words.now) }
{
    marking::report(bytes, words, &order)
}

// The lowest marked number of a report at or above a number; where there is none, how many numbers there are.
#[unsafe(no_mangle)]
pub extern "C" fn tupehiwo_next_marked(report: Report, from: u16) -> u16
    ensures { result ≡ next_marked report from }
{
    marking::next_marked(report, from)
}
