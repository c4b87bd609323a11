// The events on objects: read, write, move and delete, each equal to its table in the model, whichever engine decides.
// By hand: bytes, words and order stay three parameters of an event, since C lends the first two apart, and a struct of two `&mut` needs a
// clause in each contract that they are the same references still.
#![tactic(auto)]

ghost use Rattle.std.specs.Prelude.{◌≡◌};
ghost use Rattle.model.specs.Verdicts.{number_of};
ghost use Rattle.model.specs.State.{memory};
ghost use Rattle.model.specs.Ready.{Ready};
ghost use Rattle.model.specs.Events as model;
ghost use Rattle.model.specs.Events.{left, outcome};

mod effects;
mod judge;

use decisions::facts::View;
use levels::Order;
use model::Verdict;
use records::Lent;
use rows::Words;
use table::Engine;

// A read and a write refuse wrong numbers first, and leave.
pub fn read<E: Engine>(
    bytes: &Lent,
    words: &mut Words,
    order: &Order,
    task: u16,
    driver: u16,
    object: u16,
) -> Verdict
    requires { Ready order.now bytes.now words.old }
    ensures { left (number_of result) 0 bytes.now words.new ≡ outcome (memory bytes.now words.old) (model.read order.now (memory bytes.now words.old) task driver object) }
{
    let view = View {
        bytes,
        words,
        order,
    };
    if !view.are_named(task, driver, object) {
        return Verdict::Number;
    }
    let judged = judge::read::<E>(&view, task, driver, object);
    if judged.verdict.is_done() {
        effects::read(words, judged, task, driver, object);
    }
    judged.verdict
}

pub fn write<E: Engine>(
    bytes: &Lent,
    words: &mut Words,
    order: &Order,
    task: u16,
    driver: u16,
    object: u16,
) -> Verdict
    requires { Ready order.now bytes.now words.old }
    ensures { left (number_of result) 0 bytes.now words.new ≡ outcome (memory bytes.now words.old) (model.write order.now (memory bytes.now words.old) task driver object) }
{
    let view = View {
        bytes,
        words,
        order,
    };
    if !view.are_named(task, driver, object) {
        return Verdict::Number;
    }
    let judged = judge::write::<E>(&view, task, driver, object);
    if judged.verdict.is_done() {
        effects::write(words, judged, task, driver, object);
    }
    judged.verdict
}

pub fn move_object<E: Engine>(
    bytes: &mut Lent,
    words: &mut Words,
    order: &Order,
    task: u16,
    driver: u16,
    object: u16,
    from: u16,
    to: u16,
) -> Verdict
    requires { Ready order.now bytes.old words.old }
    ensures { left (number_of result) 0 bytes.new words.new ≡ outcome (memory bytes.old words.old) (model.move order.now (memory bytes.old words.old) task driver object from to) }
{
    let view = View {
        bytes,
        words,
        order,
    };
    let judged = judge::move_object::<E>(&view, task, driver, object, from, to);
    if judged.verdict.is_done() {
        effects::move_object(bytes, words, judged, task, driver, object, to);
    }
    judged.verdict
}

pub fn delete<E: Engine>(
    bytes: &mut Lent,
    words: &mut Words,
    order: &Order,
    task: u16,
    driver: u16,
    object: u16,
    container: u16,
) -> Verdict
    requires { Ready order.now bytes.old words.old }
    ensures { left (number_of result) 0 bytes.new words.new ≡ outcome (memory bytes.old words.old) (model.delete order.now (memory bytes.old words.old) task driver object container) }
{
    let view = View {
        bytes,
        words,
        order,
    };
    let judged = judge::delete::<E>(&view, task, driver, object, container);
    if judged.verdict.is_done() {
        effects::delete(bytes, words, judged, task, driver, object);
    }
    judged.verdict
}
