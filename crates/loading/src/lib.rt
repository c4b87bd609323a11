// The calls of a layout's text, made as they are come upon: a second reading, after the one that has settled form and depth.
#![tactic(auto)]

ghost use Rattle.std.specs.Prelude.{◌≡◌, IfOk, List, [], ◌∷◌, ◌<◌, length, drop, reverse};
ghost use Rattle.layout.specs.Layout.{most_deep};
ghost use Rattle.model.specs.Verdicts.{number_of};
ghost use Rattle.model.specs.State.{memory};
ghost use Rattle.model.specs.Ready.{Ready};
ghost use Rattle.model.specs.Events.{left};
ghost use Rattle.model.specs.Load.{in_turn};
ghost use Rattle.loading.specs.Calls.{Holder, object_calls, calls_from, calls_in};
ghost use Rattle.loading.specs.Forms.{TaskAt, ObjectAt, turned, Further};

use layout::MOST_LEVELS;
use layout::fields::{Found, Object, Task, head_at, is_at, task_at};
use levels::Order;
use model::Verdict;
use records::Lent;
use rows::Words;
use table::Engine;

// An open object: its own number and its driver's.
#[derive(Clone, Copy)]
pub struct Holder {
    pub number: u16,
    pub driver: u16,
}

// An object in a container: the core and the object's driver each write to the container, through its driver, first.
fn create_in<E: Engine>(
    bytes: &mut Lent,
    words: &mut Words,
    order: &Order,
    container: Holder,
    object: Object,
) -> Verdict
    requires { Ready order.now bytes.old words.old }
    ensures { left (number_of result) 0 bytes.new words.new ≡ in_turn order.now (object_calls (container ∷ []) object) (memory bytes.old words.old) }
{
    let Object {
        number,
        driver,
        level,
    } = object;
    let holder = container.driver;
    let container = container.number;
    let core = events::write::<E>(bytes, words, order, 0, holder, container);
    if !core.is_done() {
        return core;
    }
    let other = events::write::<E>(bytes, words, order, driver, holder, container);
    if !other.is_done() {
        return other;
    }
    creation::create(bytes, words, order, 0, driver, number, container, level)
}

// An object in the innermost of the open ones, which is the last, or a root where none is open.
fn create<E: Engine>(
    bytes: &mut Lent,
    words: &mut Words,
    order: &Order,
    held: &[Holder],
    object: Object,
) -> Verdict
    requires { Ready order.now bytes.old words.old }
    ensures { left (number_of result) 0 bytes.new words.new ≡ in_turn order.now (object_calls (reverse held.now) object) (memory bytes.old words.old) }
{
    let Some(container) = held.last() else {
        let Object {
            number,
            driver,
            level,
        } = object;
        return creation::create_root(bytes, words, order, 0, driver, number, level);
    };
    create_in::<E>(bytes, words, order, *container, object)
}

// ---- a form comes to the place where the text goes on, or to the verdict that ends it

// A task. What is no form ends the text: one that has been settled holds none.
fn task(
    bytes: &mut Lent,
    words: &mut Words,
    order: &Order,
    text: &[u8],
    at: usize,
) -> Result<usize, Verdict>
    requires { Ready order.now bytes.old words.old × TaskAt text.now at }
    ensures further { IfOk result (λ end. Further order.now text.now at end bytes.new words.new) }
    ensures words_after { (s : List Holder) → turned order.now (λ end. calls_from s (drop end text.now)) result (memory bytes.new words.new) ≡ in_turn order.now (calls_from s (drop at text.now)) (memory bytes.old words.old) }
{
    let Ok(Found { value: task, end }) = task_at(text, at) else {
        return Err(Verdict::Granted);
    };
    let Task {
        number,
        image,
        level,
        reads,
    } = task;
    let verdict = creation::execute(bytes, words, order, 0, image, number, level, reads);
    if !verdict.is_done() {
        return Err(verdict);
    }
    Ok(end)
}

// An object, which is open then.
fn object<E: Engine>(
    bytes: &mut Lent,
    words: &mut Words,
    order: &Order,
    text: &[u8],
    at: usize,
    held: &[Holder],
) -> Result<Found<Holder>, Verdict>
    requires { Ready order.now bytes.old words.old × ObjectAt text.now at × (length held.now < most_deep) }
    ensures further { IfOk result (λ f. Further order.now text.now at f.end bytes.new words.new) }
    ensures words_after { turned order.now (λ f. calls_from (f.value ∷ reverse held.now) (drop f.end text.now)) result (memory bytes.new words.new) ≡ in_turn order.now (calls_from (reverse held.now) (drop at text.now)) (memory bytes.old words.old) }
{
    let Ok(Found { value: object, end }) = head_at(text, at) else {
        return Err(Verdict::Granted);
    };
    let verdict = create::<E>(bytes, words, order, held, object);
    if !verdict.is_done() {
        return Err(verdict);
    }
    let Object { number, driver, .. } = object;
    Ok(Found {
        value: Holder { number, driver },
        end,
    })
}

// The whole text, form after form.
// By hand: a match stands where `?` would, since the calls of lay_out ask for a verdict, and not for a Result.
pub fn lay_out<E: Engine>(
    bytes: &mut Lent,
    words: &mut Words,
    order: &Order,
    text: &[u8],
) -> Verdict
    requires { Ready order.now bytes.old words.old }
    ensures { left (number_of result) 0 bytes.new words.new ≡ in_turn order.now (calls_in text.now) (memory bytes.old words.old) }
{
    let none = Holder {
        number: 0,
        driver: 0,
    };
    let mut held = [none; MOST_LEVELS];
    let mut depth: usize = 0;
    let mut at: usize = 0;
    while at < text.len() {
        if text[at] == b')' {
            if depth == 0 {
                return Verdict::Granted;
            }
            depth -= 1;
            at += 1;
        } else if text[at] == b'\n' {
            at += 1;
        } else if is_at(text, at + 1, b't') {
            match task(bytes, words, order, text, at) {
                Ok(end) => at = end,
                Err(verdict) => return verdict,
            }
        } else if depth < MOST_LEVELS {
            match object::<E>(bytes, words, order, text, at, &held[..depth]) {
                Ok(object) => {
                    held[depth] = object.value;
                    depth += 1;
                    at = object.end;
                }
                Err(verdict) => return verdict,
            }
        } else {
            return Verdict::Granted;
        }
    }
    Verdict::Granted
}
