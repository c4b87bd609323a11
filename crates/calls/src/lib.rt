// Every call and load over a lent memory: judged, carried out, told and entered in its list of tallies, whichever engine decides.
#![tactic(auto)]

ghost use Rattle.std.specs.Prelude.{◌≡◌, true, eqb};
ghost use Rattle.rows.specs.Size.{numbers};
ghost use Rattle.levels.specs.Order.{order_passes};
ghost use Rattle.model.specs.Verdicts.{granted, row_state, number_of};
ghost use Rattle.model.specs.State.{memory, lengths_fit};
ghost use Rattle.model.specs.Ready.{Ready};
ghost use Rattle.model.specs.Events.{left};
ghost use Rattle.model.specs.Monitor as model;
ghost use Rattle.model.specs.Monitor.{refused_unless, started};
ghost use Rattle.model.specs.Told.{no_word, word_of, told};
ghost use Rattle.model.specs.Load as loads;
ghost use Rattle.model.specs.Load.{in_turn, whole};
ghost use Rattle.loading.specs.Calls.{calls_in};
ghost use Rattle.tallies.specs.Entries.{InList, Enters};
ghost use Rattle.tallies.specs.Counts.{records_in, left_over};
ghost use Rattle.calls.specs.Request.{call_of};
ghost use Rattle.calls.specs.Entered.{CallEntry, ToldEntry, LoadEntry, untold, with_word};
ghost use Rattle.calls.specs.Ends.{ended, Performs, Loads};

use creation::{create, create_root, execute};
use events::{delete, move_object};
use layout::Fault;
use levels::Order;
use model::{Answer, Call, Told, Verdict};
use records::{Lent, Record, TASK};
use rows::Words;
use table::Engine;
use tallies::Entry;

// A call as a C caller writes it: its code, and its numbers in the call's order.
// By hand: C lends it in this layout, so a code is a number.
#[repr(C)]
#[derive(Clone, Copy)]
pub struct Request {
    pub code: u16,
    pub a: u16,
    pub b: u16,
    pub c: u16,
    pub d: u16,
    pub e: u16,
}

// The call that a request is.
#[tactic(auto, unfolding(crate::specs::Request::call_at))]
impl From<Request> for Call {
    ghost from_gives = { λ q r. r ≡ call_of q };

    fn from(request: Request) -> Call {
        let Request {
            code,
            a,
            b,
            c,
            d,
            e,
        } = request;
        match code {
            0 => Call::Start,
            1 => Call::Read(a, b, c),
            2 => Call::Write(a, b, c),
            3 => Call::Execute(a, b, c, d, e),
            4 => Call::Create(a, b, c, d, e),
            5 => Call::CreateRoot(a, b, c, d),
            6 => Call::Move(a, b, c, d, e),
            7 => Call::Delete(a, b, c, d),
            8 => Call::CallTask(a, b),
            9 => Call::Invoke(a, b),
            10 => Call::Pass(a, b, c),
            11 => Call::Post(a, b, c),
            12 => Call::Find(a, b, c),
            13 => Call::Mark(a),
            14 => Call::Step(a),
            15 => Call::Spread,
            _ => Call::Mark(65535),
        }
    }
}

// Both lengths are right.
// By hand: one test of both before the arrays are made, so that a start needs no look at what else a request has.
fn lengths_fit(bytes: &[u8], words: &[u64]) -> bool
    ensures { result ≡ lengths_fit (memory bytes.now words.now) }
{
    (bytes.len() == records::BYTES) & (words.len() == rows::WORDS)
}

// The core alone, at the top; all else zero.
fn set_up(bytes: &mut Lent, words: &mut Words, order: &Order)
    requires { order_passes order.now ≡ true }
    ensures { memory bytes.new words.new ≡ started order.now }
{
    let top = (order.top % 0x100) as u8;
    records::clear_all(bytes);
    let core = Record {
        kind: TASK,
        level: top,
        read_level: top,
        ..Record::FREE
    };
    records::set_record(bytes, 0, core);
    rows::clear_all(words);
}

// A start tests the order only, once the lengths are right.
fn start(bytes: &mut Lent, words: &mut Words, order: &Order) -> Verdict
    ensures { left (number_of result) 0 bytes.new words.new ≡ model.start order.now (memory bytes.old words.old) }
{
    if !levels::order_passes(*order) {
        return Verdict::Order;
    }
    set_up(bytes, words, order);
    Verdict::Granted
}

// What a call comes to, before the driver is told.
#[derive(Clone, Copy)]
struct Outcome {
    verdict: Verdict,
    rounds: u8,
}

// As every call but a granted spread comes to it.
fn plain(verdict: Verdict) -> Outcome
    ensures { (result.verdict ≡ verdict) × (result.rounds ≡ 0) }
{
    Outcome { verdict, rounds: 0 }
}

// No word yet: `tell` gives it last, in one place.
fn untold(number: u16, anew: bool, outcome: Outcome) -> Entry
    ensures { result ≡ untold number anew outcome.verdict outcome.rounds }
{
    Entry {
        number,
        anew,
        verdict: outcome.verdict,
        rounds: outcome.rounds,
        told: Told::Nothing,
    }
}

// The entry on record 0, of a start, of a load, and of a call refused with 2 or 3: a granted one zeroes the list.
fn on_zero(verdict: Verdict) -> Entry
    ensures { (number_of result.verdict ≡ number_of verdict) × (result.rounds ≡ 0) × Enters result 0 (eqb (number_of verdict) granted) × InList result × (word_of result.told ≡ no_word) }
{
    untold(0, verdict == Verdict::Granted, plain(verdict))
}

// A call that has passed rows 2 and 3; a start tests for itself.
fn event<E: Engine>(bytes: &mut Lent, words: &mut Words, order: &Order, call: Call) -> Outcome
    requires { Ready order.now bytes.old words.old }
    ensures { left (number_of result.verdict) result.rounds bytes.new words.new ≡ model.perform order.now (memory bytes.old words.old) call }
{
    match call {
        Call::Start => plain(start(bytes, words, order)),
        Call::Read(e, d, o) => plain(events::read::<E>(bytes, words, order, e, d, o)),
        Call::Write(e, d, o) => plain(events::write::<E>(bytes, words, order, e, d, o)),
        Call::Execute(c, i, n, l, r) => plain(execute(bytes, words, order, c, i, n, l, r)),
        Call::Create(c, d, n, k, l) => plain(create(bytes, words, order, c, d, n, k, l)),
        Call::CreateRoot(c, d, n, l) => plain(create_root(bytes, words, order, c, d, n, l)),
        Call::Move(e, d, o, f, t) => plain(move_object::<E>(bytes, words, order, e, d, o, f, t)),
        Call::Delete(e, d, o, k) => plain(delete::<E>(bytes, words, order, e, d, o, k)),
        Call::CallTask(a, b) => plain(flows::call_task::<E>(bytes, words, order, a, b)),
        Call::Invoke(a, b) => plain(flows::invoke::<E>(bytes, words, order, a, b)),
        Call::Pass(z, x, y) => plain(flows::pass::<E>(bytes, words, order, z, x, y)),
        Call::Post(x, z, y) => plain(flows::post::<E>(bytes, words, order, x, z, y)),
        Call::Find(x, z, y) => plain(flows::find(bytes, words, order, x, z, y)),
        Call::Mark(e) => plain(marking::mark(bytes, words, order, e)),
        Call::Step(x) => plain(marking::step(bytes, words, order, x)),
        Call::Spread => Outcome {
            verdict: Verdict::Granted,
            rounds: marking::spread(bytes, words, order),
        },
    }
}

// A call that is lent bytes, words and a list of the right lengths: done on bytes and words, to be entered afterwards.
fn carry_out<E: Engine>(bytes: &mut Lent, words: &mut Words, order: &Order, call: Call) -> Entry
    ensures { CallEntry (memory bytes.old words.old) call (model.perform order.now (memory bytes.old words.old) call) result bytes.new words.new }
{
    if let Call::Start = call {
        return on_zero(start(bytes, words, order));
    }
    if !records::sound(bytes, order.count, order.top) {
        return on_zero(Verdict::State);
    }
    if !levels::order_passes(*order) {
        return on_zero(Verdict::Order);
    }
    let number = tallies::asker(bytes, call);
    let outcome = event::<E>(bytes, words, order, call);
    untold(number, false, outcome)
}

// The same for what a caller lends, and a list of so many records: another length is refused with 2.
fn judge<E: Engine>(
    bytes: &mut [u8],
    words: &mut [u64],
    lent: usize,
    order: &Order,
    call: Call,
) -> Entry
    ensures { CallEntry (memory bytes.old words.old) call (refused_unless (eqb lent numbers) row_state (memory bytes.old words.old) (model.perform order.now (memory bytes.old words.old) call)) result bytes.new words.new }
{
    if lent != records::RECORDS {
        return on_zero(Verdict::State);
    }
    if !lengths_fit(bytes, words) {
        return on_zero(Verdict::State);
    }
    let Some(bytes) = bytes.as_mut_array() else {
        return on_zero(Verdict::State);
    };
    let Some(words) = words.as_mut_array() else {
        return on_zero(Verdict::State);
    };
    carry_out::<E>(bytes, words, order, call)
}

// The entry with the word that the driver is told.
fn tell(call: Call, entry: Entry) -> Entry
    ensures { (result ≡ with_word result.told entry) × (word_of result.told ≡ told call (number_of entry.verdict)) }
{
    Entry {
        told: telling::told(call, entry.verdict),
        ..entry
    }
}

// A call, judged and told.
pub fn call_lent<E: Engine>(
    bytes: &mut [u8],
    words: &mut [u64],
    lent: usize,
    order: &Order,
    call: Call,
) -> Entry
    ensures { ToldEntry (memory bytes.old words.old) call (refused_unless (eqb lent numbers) row_state (memory bytes.old words.old) (model.perform order.now (memory bytes.old words.old) call)) result bytes.new words.new }
{
    let entry = judge::<E>(bytes, words, lent, order, call);
    tell(call, entry)
}

// A whole call; the list is lent as plain numbers.
pub fn perform<E: Engine>(
    bytes: &mut [u8],
    words: &mut [u64],
    counts: &mut [u32],
    order: &Order,
    call: Call,
) -> Answer
    ensures performs { Performs order.now (memory bytes.old words.old) (records_in counts.old) call (ended result bytes.new words.new (records_in counts.new)) }
    ensures counts_unchanged { left_over counts.new ≡ left_over counts.old }
{
    let lent = tallies::records_in(counts);
    let entry = call_lent::<E>(bytes, words, lent, order, call);
    entry.enter_counts(counts);
    entry.answer()
}

// The calls of a layout's text on the state of a start, which is left again if one of them is refused.
fn make<E: Engine>(bytes: &mut Lent, words: &mut Words, order: &Order, text: &[u8]) -> Verdict
    requires { Ready order.now bytes.old words.old }
    ensures { left (number_of result) 0 bytes.new words.new ≡ whole order.now (in_turn order.now (calls_in text.now) (memory bytes.old words.old)) }
{
    let verdict = loading::lay_out::<E>(bytes, words, order, text);
    if !verdict.is_done() {
        set_up(bytes, words, order);
    }
    verdict
}

// A load is a start, and then the text: its form, its depth, and its calls.
fn load<E: Engine>(bytes: &mut Lent, words: &mut Words, order: &Order, text: &[u8]) -> Verdict
    ensures { left (number_of result) 0 bytes.new words.new ≡ loads.load order.now (memory bytes.old words.old) text.now }
{
    let begun = start(bytes, words, order);
    if !begun.is_done() {
        return begun;
    }
    match layout::check(text) {
        Ok(()) => make::<E>(bytes, words, order, text),
        Err(Fault::Broken { .. }) => Verdict::Form,
        Err(Fault::Deep { .. }) => Verdict::Deep,
    }
}

// A load on what a caller lends, and a list of so many records.
pub fn load_lent<E: Engine>(
    bytes: &mut [u8],
    words: &mut [u64],
    lent: usize,
    order: &Order,
    text: &[u8],
) -> Entry
    ensures { LoadEntry (refused_unless (eqb lent numbers) row_state (memory bytes.old words.old) (loads.load order.now (memory bytes.old words.old) text.now)) result bytes.new words.new }
{
    if lent != records::RECORDS {
        return on_zero(Verdict::State);
    }
    if !lengths_fit(bytes, words) {
        return on_zero(Verdict::State);
    }
    let Some(bytes) = bytes.as_mut_array() else {
        return on_zero(Verdict::State);
    };
    let Some(words) = words.as_mut_array() else {
        return on_zero(Verdict::State);
    };
    on_zero(load::<E>(bytes, words, order, text))
}

// A whole load, as perform is a whole call: the list is lent as plain numbers.
pub fn load_counts<E: Engine>(
    bytes: &mut [u8],
    words: &mut [u64],
    counts: &mut [u32],
    order: &Order,
    text: &[u8],
) -> Answer
    ensures loads { Loads order.now (memory bytes.old words.old) (records_in counts.old) text.now (ended result bytes.new words.new (records_in counts.new)) }
    ensures counts_unchanged { left_over counts.new ≡ left_over counts.old }
{
    let lent = tallies::records_in(counts);
    let entry = load_lent::<E>(bytes, words, lent, order, text);
    entry.enter_counts(counts);
    entry.answer()
}
