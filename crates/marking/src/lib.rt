// Marking: mark and step, the spread, and the report of what is marked.
#![tactic(auto)]

mod marks;
mod rounds;

ghost use Rattle.std.specs.Prelude.{◌≡◌, List, ℕ, ◌<◌};
ghost use Rattle.bits.specs.Bit.{bit};
ghost use Rattle.rows.specs.Size.{present, numbers};
ghost use Rattle.levels.specs.declared.Order.{Order};
ghost use Rattle.records.specs.Records.{record_size, field};
ghost use Rattle.model.specs.Ready.{Ready};
ghost use Rattle.model.specs.Verdicts.{number_of};
ghost use Rattle.model.specs.State.{memory};
ghost use Rattle.model.specs.Events as model·events;
ghost use Rattle.model.specs.Events.{left, outcome, verdict_of};
ghost use Rattle.model.specs.Spread as model·spread;
ghost use Rattle.model.specs.Monitor as model·monitor;
ghost use Rattle.marking.specs.Lowest.{Lowest};
ghost use Rattle.model.specs.Monitor.{no_report, next_marked, marked_report};

use levels::Order;
use model::{Report, Verdict};
use records::{FREE, KIND, Lent, MARKS, RECORD_SIZE};
use rounds::Spread;
use rows::{NUMBERS, Words};

// Byte f of the record of x.
fn byte(bytes: &Lent, x: u8, f: u16) -> u8
    requires { (x < numbers) × (f < record_size) }
    ensures { result ≡ field bytes.now x f }
{
    bytes[RECORD_SIZE * (x as usize) + (f as usize)]
}

// A report of nothing, with why.
fn no_report(verdict: Verdict) -> Report
    ensures { result ≡ no_report present (number_of verdict) }
{
    Report {
        words: [0, 0],
        ones: 0,
        verdict: verdict.number(),
    }
}

// A bit for each marked number.
fn marked_report(bytes: &Lent) -> Report
    ensures { (ws : List ℕ) → result ≡ marked_report (memory bytes.now ws) }
{
    let marked = sets::with_field(bytes, MARKS as usize);
    Report {
        words: [marked.low, marked.high],
        ones: bits::count_of_ones(marked.low) + bits::count_of_ones(marked.high),
        verdict: Verdict::Granted.number(),
    }
}

// What is marked; all zero where the lengths, the bytes or the order are refused.
pub fn report(bytes: &[u8], words: &[u64], order: &Order) -> Report
    ensures { result ≡ model·monitor.report order.now (memory bytes.now words.now) }
{
    let Some(bytes) = bytes.as_array() else {
        return no_report(Verdict::State);
    };
    if words.len() != rows::WORDS || !records::sound(bytes, order.count, order.top) {
        return no_report(Verdict::State);
    }
    if !levels::order_passes(*order) {
        return no_report(Verdict::Order);
    }
    marked_report(bytes)
}

// The lowest place at or above i where a word has a one.
fn lowest_from(w: u64, i: u16) -> Option<u16>
    ensures { Lowest (λ j. bit w j) i 64 result }
{
    let above = w.checked_shr(i as u32)?;
    if above == 0 {
        None
    } else {
        Some(i + (bits::lowest_one(above) as u16))
    }
}

// The lowest marked number of a report at or above `from`, and NUMBERS where there is none.
// By hand: a number and no Option, since `tupehiwo_next_marked` hands this answer to C.
pub fn next_marked(report: Report, from: u16) -> u16
    ensures { result ≡ next_marked report from }
{
    let [low, high] = report.words;
    if from >= NUMBERS {
        return NUMBERS;
    }
    if from >= 64 {
        return match lowest_from(high, from - 64) {
            Some(i) => 64 + i,
            None => NUMBERS,
        };
    }
    if let Some(i) = lowest_from(low, from) {
        return i;
    }
    match lowest_from(high, 0) {
        Some(i) => 64 + i,
        None => NUMBERS,
    }
}

// A task is marked from outside, and its objects are marked.
pub fn mark(bytes: &mut Lent, words: &Words, order: &Order, task: u16) -> Verdict
    requires { Ready order.now bytes.old words.now }
    ensures { left (number_of result) 0 bytes.new words.now ≡ outcome (memory bytes.old words.now) (model·events.mark order.now (memory bytes.old words.now) task) }
{
    if !records::is_task(bytes, task) {
        return Verdict::Number;
    }
    marks::mark_outside(bytes, task);
    Verdict::Granted
}

// The verdict of a step.
fn step_verdict(bytes: &Lent, words: &Words, x: u16) -> Verdict
    ensures { (order : Order) → number_of result ≡ verdict_of (model·events.step order (memory bytes.now words.now) x) }
{
    if records::field(bytes, x, KIND) == FREE {
        return Verdict::Number;
    }
    if records::field(bytes, x, MARKS) != 0 {
        return Verdict::Still;
    }
    if marks::is_fed(bytes, words, x) {
        Verdict::Granted
    } else {
        Verdict::Still
    }
}

// An unmarked thing that a marked one has a flow to is marked and, for a task, its objects.
pub fn step(bytes: &mut Lent, words: &Words, order: &Order, x: u16) -> Verdict
    requires { Ready order.now bytes.old words.now }
    ensures { left (number_of result) 0 bytes.new words.now ≡ outcome (memory bytes.old words.now) (model·events.step order.now (memory bytes.old words.now) x) }
{
    let verdict = step_verdict(bytes, words, x);
    if let Verdict::Granted = verdict {
        marks::mark_thing(bytes, x);
    }
    verdict
}

// Rounds of marking along the flows until one marks nothing; how many marked something.
pub fn spread(bytes: &mut Lent, words: &Words, order: &Order) -> u8
    requires { Ready order.now bytes.old words.now }
    ensures { left 0 result bytes.new words.now ≡ model·spread.spread (memory bytes.old words.now) }
{
    let sources = sets::with_field(bytes, MARKS as usize);
    if sets::is_empty(sources) {
        return 0;
    }
    let Spread { marked, rounds } = rounds::spread_sets(bytes, words, sources);
    marks::mark_set(bytes, marked);
    rounds
}
