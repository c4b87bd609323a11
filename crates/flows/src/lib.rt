// The events of flows alone: call, invoke, pass, post and find, each equal to its table in the model, whichever engine decides.
// By hand: bytes, words and order stay three parameters of an event, since C lends the first two apart, and a struct of two `&mut` needs a
// clause in each contract that they are the same references still.
#![tactic(auto)]

ghost use Rattle.std.specs.Prelude.{◌≡◌, ◌&&◌};
ghost use Rattle.records.specs.Records.{is_task};
ghost use Rattle.model.specs.Verdicts.{number_of};
ghost use Rattle.model.specs.State.{memory};
ghost use Rattle.model.specs.Ready.{Ready};
ghost use Rattle.model.specs.Events as model;
ghost use Rattle.model.specs.Events.{left, outcome};

mod judge;

use decisions::effects;
use decisions::facts::View;
use levels::Order;
use model::Verdict;
use records::Lent;
use rows::Words;
use table::Engine;

// All but a find refuse wrong numbers first, and leave.
pub fn call_task<E: Engine>(
    bytes: &Lent,
    words: &mut Words,
    order: &Order,
    caller: u16,
    callee: u16,
) -> Verdict
    requires { Ready order.now bytes.now words.old }
    ensures { left (number_of result) 0 bytes.now words.new ≡ outcome (memory bytes.now words.old) (model.call_task order.now (memory bytes.now words.old) caller callee) }
{
    let view = View {
        bytes,
        words,
        order,
    };
    if !view.are_tasks(caller, callee) {
        return Verdict::Number;
    }
    let judged = judge::call_task::<E>(&view, caller, callee);
    if judged.verdict.is_done() {
        effects::record_both(words, judged, callee, caller, caller, callee);
    }
    judged.verdict
}

pub fn invoke<E: Engine>(
    bytes: &Lent,
    words: &mut Words,
    order: &Order,
    invoker: u16,
    invokee: u16,
) -> Verdict
    requires { Ready order.now bytes.now words.old }
    ensures { left (number_of result) 0 bytes.now words.new ≡ outcome (memory bytes.now words.old) (model.invoke order.now (memory bytes.now words.old) invoker invokee) }
{
    let view = View {
        bytes,
        words,
        order,
    };
    if !view.are_tasks(invoker, invokee) {
        return Verdict::Number;
    }
    let judged = judge::invoke::<E>(&view, invoker, invokee);
    if judged.verdict.is_done() {
        effects::record_both(words, judged, invoker, invokee, invokee, invoker);
    }
    judged.verdict
}

pub fn pass<E: Engine>(
    bytes: &Lent,
    words: &mut Words,
    order: &Order,
    z: u16,
    x: u16,
    y: u16,
) -> Verdict
    requires { Ready order.now bytes.now words.old }
    ensures { left (number_of result) 0 bytes.now words.new ≡ outcome (memory bytes.now words.old) (model.pass order.now (memory bytes.now words.old) z x y) }
{
    let view = View {
        bytes,
        words,
        order,
    };
    if !(view.is_task(z) & view.is_object(x) & view.in_use(y)) {
        return Verdict::Number;
    }
    let judged = judge::pass::<E>(&view, z, x, y);
    if judged.verdict.is_done() {
        effects::record_first(words, judged, x, y);
    }
    judged.verdict
}

pub fn post<E: Engine>(
    bytes: &Lent,
    words: &mut Words,
    order: &Order,
    x: u16,
    z: u16,
    y: u16,
) -> Verdict
    requires { Ready order.now bytes.now words.old }
    ensures { left (number_of result) 0 bytes.now words.new ≡ outcome (memory bytes.now words.old) (model.post order.now (memory bytes.now words.old) x z y) }
{
    let view = View {
        bytes,
        words,
        order,
    };
    if !(view.is_task(x) & view.is_object(z) & view.is_task(y)) {
        return Verdict::Number;
    }
    let judged = judge::post::<E>(&view, x, z, y);
    if judged.verdict.is_done() {
        effects::record_first(words, judged, x, y);
    }
    judged.verdict
}

pub fn find(bytes: &Lent, words: &mut Words, order: &Order, x: u16, z: u16, y: u16) -> Verdict
    requires { Ready order.now bytes.now words.old }
    ensures { left (number_of result) 0 bytes.now words.new ≡ outcome (memory bytes.now words.old) (model.find order.now (memory bytes.now words.old) x z y) }
{
    let view = View {
        bytes,
        words,
        order,
    };
    let judged = judge::find(&view, x, z, y);
    if judged.verdict.is_done() {
        effects::record_first(words, judged, x, y);
    }
    judged.verdict
}
