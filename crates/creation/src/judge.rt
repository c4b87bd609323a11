// The verdict of each event, and which of its flows are recorded.
ghost use Rattle.std.specs.Prelude.{◌≡◌};
ghost use Rattle.model.specs.Verdicts.{number_of};
ghost use Rattle.decisions.specs.Decisions.{numbered};
ghost use Rattle.decisions.specs.Seen.{seen};
ghost use Rattle.creation.specs.Judged.{are_new, given, scaled, create_rows, execute_judged, create_judged, root_judged};

use decisions::facts::View;
use decisions::{Decision, unless};
use model::Verdict;
use rows::NUMBERS;

// The rows of the numbers and of a new number.
fn given(view: &View, named: bool, n: u16, rest: Verdict) -> Verdict
    ensures { number_of result ≡ given view.now.bytes.now named n (number_of rest) }
{
    unless(
        named,
        Verdict::Number,
        unless(!view.in_use(n), Verdict::Taken, rest),
    )
}

pub fn execute(view: &View, c: u16, i: u16, n: u16, l: u16, read_level: u16) -> Decision
    ensures { numbered result ≡ execute_judged view.now.order.now (seen view.now) c i n l read_level }
{
    let count = view.order.count;
    let named = view.is_task(c) & view.is_object(i) & (n < NUMBERS);
    let scaled = (l < count) & (read_level < count);
    let rule = view.level_below(l, i) & view.order.at_or_below(read_level, l);
    let row = unless(
        scaled,
        Verdict::Scale,
        unless(rule, Verdict::Rule, Verdict::Granted),
    );
    Decision {
        verdict: given(view, named, n, row),
        first: view.is_marked(i),
        second: false,
    }
}

// Two tasks, and a number that may be made.
fn are_new(view: &View, c: u16, d: u16, n: u16) -> bool
    ensures { result ≡ are_new view.now.bytes.now c d n }
{
    view.is_task(c) & view.is_task(d) & (n < NUMBERS)
}

// The rows of a level that is given: whether it is in the order, and the rule.
fn scaled(view: &View, l: u16, rule: bool) -> Verdict
    ensures { number_of result ≡ scaled view.now.order.now l rule }
{
    unless(
        l < view.order.count,
        Verdict::Scale,
        unless(rule, Verdict::Rule, Verdict::Granted),
    )
}

fn create_rows(view: &View, c: u16, d: u16, n: u16, k: u16, rest: Verdict) -> Verdict
    ensures { number_of result ≡ create_rows view.now.bytes.now view.now.words.now c d n k (number_of rest) }
{
    let named = are_new(view, c, d, n) & view.is_object(k);
    given(
        view,
        named,
        n,
        unless(view.both_write(c, d, k), Verdict::Held, rest),
    )
}

pub fn create(view: &View, c: u16, d: u16, n: u16, k: u16, l: u16) -> Decision
    ensures { numbered result ≡ create_judged view.now.order.now (seen view.now) c d n k l }
{
    let rule = view.level_below(l, c) & view.level_below(l, k) & view.level_below(l, d);
    let flows = view.is_marked(d);
    Decision {
        verdict: create_rows(view, c, d, n, k, scaled(view, l, rule)),
        first: flows,
        second: flows,
    }
}

pub fn create_root(view: &View, c: u16, d: u16, n: u16, l: u16) -> Decision
    ensures { numbered result ≡ root_judged view.now.order.now (seen view.now) c d n l }
{
    let rule = view.level_below(l, c) & view.level_below(l, d);
    let flows = view.is_marked(d);
    Decision {
        verdict: given(view, are_new(view, c, d, n), n, scaled(view, l, rule)),
        first: flows,
        second: flows,
    }
}
