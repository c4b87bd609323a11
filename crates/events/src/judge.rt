// The verdict of each event, and which of its flows are recorded.
ghost use Rattle.std.specs.Prelude.{◌≡◌, true, ◌&&◌, ◌<◌, eqb};
ghost use Rattle.rows.specs.Size.{numbers};
ghost use Rattle.records.specs.Records.{container, is_task, is_object};
ghost use Rattle.model.specs.Verdicts.{granted, number_of};
ghost use Rattle.model.specs.Events.{feeds_unmarked};
ghost use Rattle.decisions.specs.Decisions.{numbered, settled};
ghost use Rattle.decisions.specs.Seen.{seen};
ghost use Rattle.events.specs.Judged.{all_write, may_move, move_named, is_empty, driven, last_rows, move_rows, delete_rows, read_ruled, read_judged, write_judged, move_judged, delete_judged};

use bridging::feeds_unmarked;
use decisions::facts::View;
use decisions::{Decision, apart, unless};
use model::Verdict;
use places::lies_inside;
use records::{CONTAINER, KIND, OBJECT, RECORD_SIZE};
use rows::NUMBERS;
use table::Engine;

// The rows of the numbers and of the driver of x, above the rest of the table.
#[tactic(auto, unfolding(crate::specs::Judged::driven))]
fn driven(view: &View, named: bool, d: u16, x: u16, rest: Verdict) -> Verdict
    ensures { number_of result ≡ driven view.now.bytes.now named d x (number_of rest) }
{
    let row = unless(view.is_driven(x, d), Verdict::Driver, rest);
    unless(named, Verdict::Number, row)
}

fn read_decided<E: Engine>(view: &View, e: u16, d: u16, x: u16) -> Decision
    ensures { numbered result ≡ settled (read_ruled view.now.order.now (seen view.now) e d x) }
{
    let level = view.level_row(e);
    let read = view.read_row(e);
    table::read::<E>(
        view.reaches(level, d),
        view.reaches(read, d),
        view.reaches(level, x),
        view.reaches(read, x),
        view.is_marked(d),
        view.is_marked(e),
    )
}

// A read and a write come with numbers that have been tested.
pub fn read<E: Engine>(view: &View, e: u16, d: u16, x: u16) -> Decision
    requires { (is_task view.now.bytes.now e && is_task view.now.bytes.now d && is_object view.now.bytes.now x) ≡ true }
    ensures { numbered result ≡ read_judged view.now.order.now (seen view.now) e d x }
{
    let judged = read_decided::<E>(view, e, d, x);
    let rule = apart(view.is_below(x, d), judged.verdict);
    Decision {
        verdict: driven(view, true, d, x, rule),
        ..judged
    }
}

// In a write, a move and a deletion it is the object's level that is compared, so its row is looked up once.
pub fn write<E: Engine>(view: &View, e: u16, d: u16, x: u16) -> Decision
    requires { (is_task view.now.bytes.now e && is_task view.now.bytes.now d && is_object view.now.bytes.now x) ≡ true }
    ensures { numbered result ≡ write_judged view.now.order.now (seen view.now) e d x }
{
    let row = view.level_row(x);
    let fits = view.reaches(row, d);
    let judged = table::write::<E>(view.reaches(row, e), view.is_marked(d));
    let rule = apart(fits, judged.verdict);
    Decision {
        verdict: driven(view, true, d, x, rule),
        ..judged
    }
}

// The object is in the first container, and all three differ.
#[tactic(auto, unfolding(crate::specs::Judged::may_move))]
fn may_move(view: &View, x: u16, f: u16, t: u16) -> bool
    ensures { result ≡ may_move view.now.bytes.now x f t }
{
    (x != f) & (x != t) & (f != t) & view.lies_in(x, f)
}

// Both tasks have write access to both containers.
#[tactic(auto, unfolding(crate::specs::Judged::all_write))]
fn all_write(view: &View, e: u16, d: u16, f: u16, t: u16) -> bool
    ensures { result ≡ all_write view.now.words.now e d f t }
{
    view.writes(e, f) & view.writes(e, t) & view.writes(d, f) & view.writes(d, t)
}

#[tactic(auto, unfolding(crate::specs::Judged::move_named))]
fn move_named(view: &View, e: u16, d: u16, x: u16, f: u16, t: u16) -> bool
    ensures { result ≡ move_named view.now.bytes.now e d x f t }
{
    view.are_named(e, d, x) & view.is_object(f) & view.is_object(t)
}

// The walk is made only where the rows above it, and the other causes of its own, have passed.
fn move_rows(view: &View, e: u16, d: u16, x: u16, f: u16, t: u16, rest: Verdict) -> Verdict
    ensures { number_of result ≡ move_rows view.now.bytes.now view.now.words.now e d x f t (number_of rest) }
{
    let place = unless(may_move(view, x, f, t), Verdict::Place, Verdict::Granted);
    let above = driven(view, move_named(view, e, d, x, f, t), d, x, place);
    let Verdict::Granted = above else {
        return above;
    };
    let held = unless(all_write(view, e, d, f, t), Verdict::Held, rest);
    let bytes = view.bytes;
    unless(!lies_inside(bytes, t, x), Verdict::Place, held)
}

pub fn move_object<E: Engine>(view: &View, e: u16, d: u16, x: u16, f: u16, t: u16) -> Decision
    ensures { numbered result ≡ move_judged view.now.order.now (seen view.now) e d x f t }
{
    let row = view.level_row(x);
    let fits = view.reaches(row, d);
    let judged = table::move_object::<E>(
        view.reaches(row, e),
        view.reaches(row, t),
        view.is_marked(d),
    );
    let rule = apart(fits, judged.verdict);
    Decision {
        verdict: move_rows(view, e, d, x, f, t, rule),
        ..judged
    }
}

// y is an object in x. The container is asked first: few records have that one, and the others need no look at their kind.
// By hand: the view's own methods ask at each number whether the bytes end before it, which is slower.
#[tactic(auto, unfolding(records::specs::Records::field, records::specs::Records::is_object))]
fn is_object_in(view: &View, y: u16, x: u16) -> bool
    requires { y < numbers }
    ensures { result ≡ (is_object view.now.bytes.now y && eqb (container view.now.bytes.now y) x) }
{
    let i = RECORD_SIZE * (y as usize);
    let container = view.bytes[i + (CONTAINER as usize)];
    (u16::from(container) == x) && (view.bytes[i + (KIND as usize)] == OBJECT)
}

#[tactic(auto, unfolding(crate::specs::Judged::is_empty))]
fn is_empty(view: &View, x: u16) -> bool
    ensures { result ≡ is_empty view.now.bytes.now x }
{
    !(0..NUMBERS).any(|y| is_object_in(view, y, x))
}

// The two rows below the rule. The records and the flows are gone through only where no row above them refuses.
#[tactic(auto, unfolding(crate::specs::Judged::last_rows, model::specs::Events::unless))]
fn last_rows(view: &View, x: u16, verdict: Verdict) -> Verdict
    requires { number_of verdict ≡ granted → x < numbers }
    ensures { number_of result ≡ last_rows (is_empty view.now.bytes.now x) (feeds_unmarked (seen view.now) x) (number_of verdict) }
{
    if verdict != Verdict::Granted {
        return verdict;
    }
    let empty = is_empty(view, x);
    let View { bytes, words, .. } = *view;
    let row = unless(!feeds_unmarked(bytes, words, x), Verdict::Feeding, verdict);
    unless(empty, Verdict::Filled, row)
}

#[tactic(auto, unfolding(crate::specs::Judged::delete_rows))]
fn delete_rows(view: &View, e: u16, d: u16, x: u16, k: u16, rest: Verdict) -> Verdict
    ensures { number_of result ≡ delete_rows view.now.bytes.now view.now.words.now e d x k (number_of rest) }
{
    let named = view.are_named(e, d, x) & view.is_object(k);
    let held = unless(view.both_write(e, d, k), Verdict::Held, rest);
    let row = unless(view.lies_in(x, k), Verdict::Place, held);
    last_rows(view, x, driven(view, named, d, x, row))
}

pub fn delete<E: Engine>(view: &View, e: u16, d: u16, x: u16, k: u16) -> Decision
    ensures { numbered result ≡ delete_judged view.now.order.now (seen view.now) e d x k }
{
    let row = view.level_row(x);
    let fits = view.reaches(row, d);
    let judged = table::delete::<E>(view.reaches(row, e), view.is_marked(d));
    let rule = apart(fits, judged.verdict);
    Decision {
        verdict: delete_rows(view, e, d, x, k, rule),
        ..judged
    }
}
