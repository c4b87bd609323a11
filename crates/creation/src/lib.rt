// The events that make things: execute, create and create a root, each equal to its table in the model.
// By hand: bytes, words and order stay three parameters of an event, since C lends the first two apart, and a struct of two `&mut` needs a
// clause in each contract that they are the same references still.
#![tactic(auto)]

ghost use Rattle.std.specs.Prelude.{◌≡◌};
ghost use Rattle.model.specs.Verdicts.{number_of};
ghost use Rattle.model.specs.State.{memory};
ghost use Rattle.model.specs.Ready.{Ready};
ghost use Rattle.model.specs.Events as model;
ghost use Rattle.model.specs.Events.{left, outcome};

mod effects;
mod judge;

use decisions::facts::View;
use levels::Order;
use model::Verdict;
use records::{Lent, ROOT_SIGN};
use rows::Words;

pub fn execute(
    bytes: &mut Lent,
    words: &mut Words,
    order: &Order,
    creator: u16,
    image: u16,
    new: u16,
    level: u16,
    read_level: u16,
) -> Verdict
    requires { Ready order.now bytes.old words.old }
    ensures { left (number_of result) 0 bytes.new words.new ≡ outcome (memory bytes.old words.old) (model.execute order.now (memory bytes.old words.old) creator image new level read_level) }
{
    let view = View {
        bytes,
        words,
        order,
    };
    let judged = judge::execute(&view, creator, image, new, level, read_level);
    if judged.verdict.is_done() {
        effects::execute(bytes, words, judged, image, new, level, read_level);
    }
    judged.verdict
}

pub fn create(
    bytes: &mut Lent,
    words: &mut Words,
    order: &Order,
    creator: u16,
    driver: u16,
    new: u16,
    container: u16,
    level: u16,
) -> Verdict
    requires { Ready order.now bytes.old words.old }
    ensures { left (number_of result) 0 bytes.new words.new ≡ outcome (memory bytes.old words.old) (model.create order.now (memory bytes.old words.old) creator driver new container level) }
{
    let view = View {
        bytes,
        words,
        order,
    };
    let judged = judge::create(&view, creator, driver, new, container, level);
    if judged.verdict.is_done() {
        effects::create(bytes, words, judged, creator, driver, new, container, level);
    }
    judged.verdict
}

pub fn create_root(
    bytes: &mut Lent,
    words: &mut Words,
    order: &Order,
    creator: u16,
    driver: u16,
    new: u16,
    level: u16,
) -> Verdict
    requires { Ready order.now bytes.old words.old }
    ensures { left (number_of result) 0 bytes.new words.new ≡ outcome (memory bytes.old words.old) (model.create_root order.now (memory bytes.old words.old) creator driver new level) }
{
    let view = View {
        bytes,
        words,
        order,
    };
    let judged = judge::create_root(&view, creator, driver, new, level);
    if judged.verdict.is_done() {
        effects::create(
            bytes,
            words,
            judged,
            creator,
            driver,
            new,
            ROOT_SIGN as u16,
            level,
        );
    }
    judged.verdict
}
