// The verdict of each event of flows, and which of its flows are recorded.
ghost use Rattle.std.specs.Prelude.{◌≡◌, true, not, ◌&&◌, eqb};
ghost use Rattle.records.specs.Records.{kind, is_task, is_object};
ghost use Rattle.decisions.specs.Decisions.{numbered};
ghost use Rattle.decisions.specs.Seen.{seen};
ghost use Rattle.flows.specs.Judged.{relay_decided, call_judged, invoke_judged, pass_judged, post_judged, find_judged};

use decisions::facts::View;
use decisions::{Decision, unless};
use model::Verdict;
use table::{Engine, Operation};

// All but a find come with numbers that have been tested.
pub fn call_task<E: Engine>(view: &View, caller: u16, callee: u16) -> Decision
    requires { (is_task view.now.bytes.now caller && is_task view.now.bytes.now callee) ≡ true }
    ensures { numbered result ≡ call_judged view.now.order.now (seen view.now) caller callee }
{
    table::call_task::<E>(
        view.reaches(view.level_row(caller), callee),
        view.reaches(view.read_row(caller), callee),
        view.is_marked(caller),
        view.is_marked(callee),
    )
}

pub fn invoke<E: Engine>(view: &View, invoker: u16, invokee: u16) -> Decision
    requires { (is_task view.now.bytes.now invoker && is_task view.now.bytes.now invokee) ≡ true }
    ensures { numbered result ≡ invoke_judged view.now.order.now (seen view.now) invoker invokee }
{
    table::invoke::<E>(view.is_below(invokee, invoker), view.is_marked(invoker))
}

// Whether what the task z read of the object x goes on, by a pass or a post.
fn relay<E: Engine>(view: &View, operation: Operation, z: u16, x: u16) -> Decision
    ensures { numbered result ≡ relay_decided view.now.order.now (seen view.now) operation z x }
{
    let driver = view.driver_of(x);
    let level = view.level_row(z);
    let read = view.read_row(z);
    E::decide(
        operation,
        view.reaches(level, x),
        view.reaches(read, x),
        view.reaches(level, driver),
        view.reaches(read, driver),
        view.is_marked(z),
        table::UNUSED,
    )
}

pub fn pass<E: Engine>(view: &View, z: u16, x: u16, y: u16) -> Decision
    requires { (is_task view.now.bytes.now z && is_object view.now.bytes.now x && not (eqb (kind view.now.bytes.now y) 0)) ≡ true }
    ensures { numbered result ≡ pass_judged view.now.order.now (seen view.now) z x y }
{
    let judged = relay::<E>(view, Operation::Pass, z, x);
    let held = view.has_flow(z, y) & view.reads(z, x);
    Decision {
        verdict: unless(
            y != x,
            Verdict::Place,
            unless(held, Verdict::Held, judged.verdict),
        ),
        ..judged
    }
}

pub fn post<E: Engine>(view: &View, x: u16, z: u16, y: u16) -> Decision
    requires { (is_task view.now.bytes.now x && is_object view.now.bytes.now z && is_task view.now.bytes.now y) ≡ true }
    ensures { numbered result ≡ post_judged view.now.order.now (seen view.now) x z y }
{
    let judged = relay::<E>(view, Operation::Post, y, z);
    let held = view.has_flow(x, z) & view.reads(y, z);
    Decision {
        verdict: unless(
            x != y,
            Verdict::Place,
            unless(held, Verdict::Held, judged.verdict),
        ),
        ..judged
    }
}

pub fn find(view: &View, x: u16, z: u16, y: u16) -> Decision
    ensures { numbered result ≡ find_judged view.now.order.now (seen view.now) x z y }
{
    let named = view.is_task(x) & view.is_task(z) & view.in_use(y);
    let held = view.has_flow(x, z) & view.has_flow(z, y);
    let row = unless(
        x != y,
        Verdict::Place,
        unless(held, Verdict::Held, Verdict::Granted),
    );
    Decision {
        verdict: unless(named, Verdict::Number, row),
        first: true,
        second: false,
    }
}
