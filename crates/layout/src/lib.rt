// Whether a text is a layout's, and how deep its objects nest. The text is read in place.
#![tactic(auto)]

ghost use Rattle.std.specs.Prelude.{◌≡◌, ◌≤◌, length, drop};
ghost use Rattle.layout.specs.Layout.{most_deep};
ghost use Rattle.layout.specs.Reading.{object_at, objects_at, form_at, opened, ninth_from, settled};
ghost use Rattle.layout.specs.Answers.{nest_answer, object_answer, objects_answer, form_answer, text_answer};
ghost use Rattle.layout.specs.declared.Fault.TheVariants.{Broken};

pub mod fields;

use fields::{Found, Lost, head_at, is_at, task_at};

// Why a text is no layout, and the place of its fault: it has not the form of one, or it has a ninth level.
#[derive(Clone, Copy)]
pub enum Fault {
    Broken { at: usize },
    Deep { at: usize },
}

impl From<Lost> for Fault {
    ghost from_gives = { λ l e. e ≡ Broken l.at };

    fn from(lost: Lost) -> Fault {
        Fault::Broken { at: lost.at }
    }
}

pub const MOST_BYTES: usize = 16384;

pub const MOST_LEVELS: usize = 8;

// What is found below tells whether a ninth level stands in it.

// An object past the eighth level, by counting open brackets.
fn nest(text: &[u8], at: usize) -> Result<Found<bool>, Lost>
    requires { at ≤ length text.now }
    ensures { result ≡ nest_answer (length text.now) (object_at (drop at text.now)) }
{
    let mut next = head_at(text, at)?.end;
    let mut held: usize = 1;
    while held > 0 {
        if is_at(text, next, b')') {
            next += 1;
            held -= 1;
        } else if is_at(text, next, b'\n') {
            next = head_at(text, next + 1)?.end;
            held += 1;
        } else {
            return Err(Lost { at: next });
        }
    }
    Ok(Found {
        value: true,
        end: next,
    })
}

// An object at a level, from its opening bracket to its closing one.
#[cycle(form_forms)]
fn form(text: &[u8], at: usize, level: usize) -> Result<Found<bool>, Lost>
    requires { at ≤ length text.now }
    ensures { result ≡ object_answer level (length text.now) (object_at (drop at text.now)) }
{
    if level > MOST_LEVELS {
        return nest(text, at);
    }
    let head = head_at(text, at)?;
    let held = forms(text, head.end, level)?;
    if !is_at(text, held.end, b')') {
        return Err(Lost { at: held.end });
    }
    Ok(Found {
        end: held.end + 1,
        ..held
    })
}

// The objects in one at a level, each after a line feed.
#[cycle(form_forms)]
fn forms(text: &[u8], at: usize, level: usize) -> Result<Found<bool>, Lost>
    requires { (at ≤ length text.now) × (level ≤ most_deep) }
    ensures { result ≡ objects_answer level (length text.now) (objects_at (drop at text.now)) }
{
    let mut next = at;
    let mut met = false;
    while is_at(text, next, b'\n') {
        let Found { value: deep, end } = form(text, next + 1, level + 1)?;
        next = end;
        met = met | deep;
    }
    Ok(Found {
        value: met,
        end: next,
    })
}

// A root object, from its opening bracket to its closing one. One that holds nothing is read without the two functions that call each other.
fn root(text: &[u8], at: usize) -> Result<Found<bool>, Lost>
    requires { at ≤ length text.now }
    ensures { result ≡ object_answer 1 (length text.now) (object_at (drop at text.now)) }
{
    let head = head_at(text, at)?;
    if is_at(text, head.end, b')') {
        return Ok(Found {
            value: false,
            end: head.end + 1,
        });
    }
    form(text, at, 1)
}

// A root object or a task.
fn form_at(text: &[u8], at: usize) -> Result<Found<bool>, Lost>
    requires { at ≤ length text.now }
    ensures { result ≡ form_answer (length text.now) (form_at (drop at text.now)) }
{
    if !is_at(text, at + 1, b't') {
        return root(text, at);
    }
    let task = task_at(text, at)?;
    Ok(Found {
        value: false,
        end: task.end,
    })
}

// The brackets that are open after a byte.
fn opened_by(held: usize, b: u8) -> usize
    requires { held ≤ most_deep }
    ensures { result ≡ opened held b }
{
    match b {
        b'(' => held + 1,
        b')' => held.saturating_sub(1),
        _ => held,
    }
}

// Where the first opening bracket inside eight open ones stands.
fn ninth(text: &[u8]) -> usize
    ensures { result ≡ ninth_from 0 text.now }
{
    let mut held = 0;
    for (at, &b) in text.iter().enumerate() {
        if (b == b'(') & (held >= MOST_LEVELS) {
            return at;
        }
        held = opened_by(held, b);
    }
    text.len()
}

// What a text settles: form is looked at in the whole text, then depth.
pub fn check(text: &[u8]) -> Result<(), Fault>
    ensures { result ≡ text_answer (settled text.now) }
{
    if text.len() > MOST_BYTES {
        return Err(Fault::Broken { at: MOST_BYTES });
    }
    let mut at = 0;
    let mut deepest = false;
    while at < text.len() {
        let Found { value: deep, end } = form_at(text, at)?;
        if !is_at(text, end, b'\n') {
            return Err(Fault::Broken { at: end });
        }
        deepest = deepest | deep;
        at = end + 1;
    }
    if deepest {
        return Err(Fault::Deep { at: ninth(text) });
    }
    Ok(())
}
