// What the level tests and the marks of an event settle, from yes-or-no facts alone.
#![tactic(auto)]

ghost use Rattle.std.specs.Prelude.{◌≡◌};
ghost use Rattle.model.specs.Verdicts.{number_of};
ghost use Rattle.model.specs.Events as model;
ghost use Rattle.decisions.specs.Decisions.{numbered, read_decision, write_decision, move_decision, delete_decision, call_decision, invoke_decision, relay_decision, settled, apart};

pub mod effects;
pub mod facts;

use model::Verdict;

// The verdict that the level tests give, and which of the event's flows, at most two, are recorded.
#[derive(Clone, Copy)]
pub struct Decision {
    pub verdict: Verdict,
    pub first: bool,
    pub second: bool,
}

#[tactic(auto, unfolding(model::specs::Events::unless))]
pub fn unless(ok: bool, row: Verdict, rest: Verdict) -> Verdict
    ensures { number_of result ≡ model.unless ok (number_of row) (number_of rest) }
{
    if ok { rest } else { row }
}

// A fact is named by the two levels that it compares, that of the first being at or below that of the second, or by the thing that is marked. `read` is the read level of the task that reads or calls.
#[tactic(auto, unfolding(crate::specs::Decisions::read_decision))]
pub fn read(
    task_driver: bool,
    read_driver: bool,
    task_object: bool,
    read_object: bool,
    driver_marked: bool,
    task_marked: bool,
) -> Decision
    ensures { numbered result ≡ read_decision task_driver read_driver task_object read_object driver_marked task_marked }
{
    let honest = task_object | read_object;
    let from_driver = driver_marked & (task_marked | task_driver);
    let rule = unless(
        honest | driver_marked,
        Verdict::Rule,
        unless(honest, Verdict::Slipped, Verdict::Granted),
    );
    Decision {
        verdict: unless(task_driver | read_driver, Verdict::Path, rule),
        first: (!driver_marked & (task_marked | (task_object & task_driver))) | from_driver,
        second: from_driver,
    }
}

#[tactic(auto, unfolding(crate::specs::Decisions::write_decision))]
pub fn write(object_task: bool, driver_marked: bool) -> Decision
    ensures { numbered result ≡ write_decision object_task driver_marked }
{
    let honest = unless(object_task, Verdict::Slipped, Verdict::Granted);
    Decision {
        verdict: unless(object_task | driver_marked, Verdict::Rule, honest),
        first: true,
        second: driver_marked,
    }
}

#[tactic(auto, unfolding(crate::specs::Decisions::move_decision))]
pub fn move_object(object_task: bool, object_to: bool, driver_marked: bool) -> Decision
    ensures { numbered result ≡ move_decision object_task object_to driver_marked }
{
    let rest = unless(
        object_to,
        Verdict::Rule,
        unless(object_task, Verdict::Slipped, Verdict::Granted),
    );
    Decision {
        verdict: unless(object_task | driver_marked, Verdict::Rule, rest),
        first: driver_marked,
        second: driver_marked,
    }
}

#[tactic(auto, unfolding(crate::specs::Decisions::delete_decision))]
pub fn delete(object_task: bool, driver_marked: bool) -> Decision
    ensures { numbered result ≡ delete_decision object_task driver_marked }
{
    Decision {
        verdict: unless(object_task, Verdict::Rule, Verdict::Granted),
        first: driver_marked,
        second: false,
    }
}

#[tactic(auto, unfolding(crate::specs::Decisions::call_decision))]
pub fn call_task(
    caller_callee: bool,
    read_callee: bool,
    caller_marked: bool,
    callee_marked: bool,
) -> Decision
    ensures { numbered result ≡ call_decision caller_callee read_callee caller_marked callee_marked }
{
    let flows = caller_marked | caller_callee;
    Decision {
        verdict: unless(caller_callee | read_callee, Verdict::Path, Verdict::Granted),
        first: flows,
        second: flows & callee_marked,
    }
}

#[tactic(auto, unfolding(crate::specs::Decisions::invoke_decision))]
pub fn invoke(invokee_invoker: bool, invoker_marked: bool) -> Decision
    ensures { numbered result ≡ invoke_decision invokee_invoker invoker_marked }
{
    Decision {
        verdict: unless(invokee_invoker, Verdict::Rule, Verdict::Granted),
        first: true,
        second: invoker_marked,
    }
}

// Of pass and of post: the reader is the task whose read goes on.
#[tactic(auto, unfolding(crate::specs::Decisions::relay_decision))]
pub fn relay(
    reader_object: bool,
    read_object: bool,
    reader_driver: bool,
    read_driver: bool,
    reader_marked: bool,
) -> Decision
    ensures { numbered result ≡ relay_decision reader_object read_object reader_driver read_driver reader_marked }
{
    let risky = (!reader_object & read_object) | (!reader_driver & read_driver);
    Decision {
        verdict: unless(!risky | reader_marked, Verdict::Rule, Verdict::Granted),
        first: true,
        second: false,
    }
}

// A refusing decision has no flow.
#[tactic(auto, unfolding(crate::specs::Decisions::settled))]
pub fn settled(judged: Decision) -> Decision
    ensures { numbered result ≡ settled (numbered judged) }
{
    let done = judged.verdict.is_done();
    Decision {
        first: done & judged.first,
        second: done & judged.second,
        ..judged
    }
}

// The test apart: an object that is not at or below its driver gives 11, unless the decision gives 10.
#[tactic(auto, unfolding(crate::specs::Decisions::apart))]
pub fn apart(below: bool, verdict: Verdict) -> Verdict
    ensures { number_of result ≡ apart below (number_of verdict) }
{
    unless(below | (verdict == Verdict::Path), Verdict::Rule, verdict)
}
