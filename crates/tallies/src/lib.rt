// The lists of tallies: who asks, and how a call is entered in the list that it is lent.
#![tactic(auto)]

ghost use Rattle.std.specs.Prelude.{◌≡◌, List, [], ℕ, ◌<◌, length};
ghost use Rattle.rows.specs.Size.{present, numbers};
ghost use Rattle.model.specs.State.{memory};
ghost use Rattle.model.specs.Tallies as model;
ghost use Rattle.model.specs.Tallies.{one_more, raised, raised_at, zeroed, if_task};
ghost use Rattle.model.specs.declared.Tally.{Tally};
ghost use Rattle.tallies.specs.Entries.{InList, answer_of, entered, entered_as};
ghost use Rattle.tallies.specs.Counts.{records_in, left_over};

use model::{Answer, Call, Tally, Told, Verdict};
use records::Lent;

// How many counts a record has, where a list is lent as plain numbers.
pub const COUNTS: usize = 3;

// What a call answers, the number whose record counts it, and whether the list begins anew: it is then zeroed first. In this
// order it has six bytes; with eight, the compiler would pack it into one word and take it apart again.
#[derive(Clone, Copy)]
pub struct Entry {
    pub number: u16,
    pub anew: bool,
    pub verdict: Verdict,
    pub rounds: u8,
    pub told: Told,
}

impl Entry {
    // As C reads it.
    pub fn answer(&self) -> Answer
        ensures { result ≡ answer_of self.now }
    {
        Answer {
            verdict: self.verdict.number(),
            rounds: self.rounds,
            told: self.told.word(),
        }
    }

    // Enters it in a list of records.
    // By hand: InList is asked for, since as an invariant of Entry it would be a part of what `with_word` of calls/specs makes.
    #[tactic(auto, using(crate::proofs::EntryLaws::by_parts))]
    pub fn enter(&self, tallies: &mut [Tally])
        requires { InList self.now }
        ensures { tallies.new ≡ entered_as self.now tallies.old }
    {
        enter(tallies, self.number, self.anew, self.verdict.number());
    }

    // Enters it in a list of plain numbers.
    #[tactic(auto, using(crate::proofs::EntryLaws::by_parts))]
    pub fn enter_counts(&self, counts: &mut [u32])
        requires { InList self.now }
        ensures { (records_in counts.new ≡ entered_as self.now (records_in counts.old)) × (left_over counts.new ≡ left_over counts.old) }
    {
        enter_counts(counts, self.number, self.anew, self.verdict.number());
    }
}

// One more, stopping at the most that 32 bits hold.
#[tactic(auto, unfolding(model::specs::Tallies::one_more))]
fn one_more(n: u32) -> u32
    ensures { result ≡ one_more n }
{
    n.saturating_add(1)
}

// The record with a verdict counted, by its number: every number that is not that of a granted or a slipped call counts as refused.
#[tactic(auto, using(std::proofs::lemmas::Bool::Decides::nat_tests), unfolding(model::specs::Tallies::raised))]
fn raise(tally: Tally, verdict: u8) -> Tally
    ensures { result ≡ raised tally verdict }
{
    if verdict == Verdict::Granted.number() {
        return Tally {
            granted: one_more(tally.granted),
            ..tally
        };
    }
    if verdict == Verdict::Slipped.number() {
        return Tally {
            slipped: one_more(tally.slipped),
            ..tally
        };
    }
    Tally {
        refused: one_more(tally.refused),
        ..tally
    }
}

// The number, if it names a task; otherwise 0.
#[tactic(auto, using(crate::specs::AskerLaws::task_in), unfolding(model::specs::Tallies::if_task, model::specs::State::task))]
fn if_task(bytes: &Lent, x: u16) -> u16
    ensures { ((ws : List ℕ) → result ≡ if_task (memory bytes.now ws) x) × (result < numbers) }
{
    if records::is_task(bytes, x) { x } else { 0 }
}

// Whose record a call counts on that has passed rows 2 and 3: that of the task that asks.
#[tactic(auto, unfolding(model::specs::Tallies::asker))]
pub fn asker(bytes: &Lent, call: Call) -> u16
    ensures { ((ws : List ℕ) → result ≡ model.asker (memory bytes.now ws) call) × (result < numbers) }
{
    match call {
        // By hand: an arm for each, since one arm with twelve alternatives that name x is slower.
        Call::Read(x, ..) => if_task(bytes, x),
        Call::Write(x, ..) => if_task(bytes, x),
        Call::Execute(x, ..) => if_task(bytes, x),
        Call::Create(x, ..) => if_task(bytes, x),
        Call::CreateRoot(x, ..) => if_task(bytes, x),
        Call::Move(x, ..) => if_task(bytes, x),
        Call::Delete(x, ..) => if_task(bytes, x),
        Call::CallTask(x, ..) => if_task(bytes, x),
        Call::Invoke(x, ..) => if_task(bytes, x),
        Call::Pass(x, ..) => if_task(bytes, x),
        Call::Post(x, ..) => if_task(bytes, x),
        Call::Find(x, ..) => if_task(bytes, x),
        Call::Start | Call::Mark(_) | Call::Step(_) | Call::Spread => 0,
    }
}

// What a lent list of tallies is made of: whole records, or plain numbers, three to a record.
trait Element: Copy {
    // the tallies that such a list holds, and the elements that belong to none
    ghost held: { List Self → List Tally };

    ghost rest: { List Self → List Self };

    // How many records a list holds.
    fn records_in(list: &[Self]) -> usize
        ensures { result ≡ length (held list.now) };

    // Zeroes all records of a list of the right length.
    fn zero(list: &mut [Self])
        requires { length (held list.old) ≡ numbers }
        ensures { (held list.new ≡ zeroed present) × (rest list.new ≡ rest list.old) };

    // Raises the record of a number by a verdict.
    fn raise_at(list: &mut [Self], number: usize, verdict: u8)
        requires { number < length (held list.old) }
        ensures { (held list.new ≡ raised_at number verdict (held list.old)) × (rest list.new ≡ rest list.old) };
}

#[tactic(auto, unfolding(model::specs::Tallies::raised_at, model::specs::Tallies::zeroed))]
impl Element for Tally {
    ghost held = { λ ts. ts };

    ghost rest = { λ _. [] };

    fn records_in(list: &[Tally]) -> usize {
        list.len()
    }

    fn zero(list: &mut [Tally]) {
        list.fill(Tally::default());
    }

    fn raise_at(list: &mut [Tally], number: usize, verdict: u8) {
        list[number] = raise(list[number], verdict);
    }
}

#[tactic(auto, using(crate::specs::CountLaws::counts))]
impl Element for u32 {
    ghost held = { records_in };

    ghost rest = { left_over };

    fn records_in(list: &[u32]) -> usize {
        list.len() / COUNTS
    }

    fn zero(list: &mut [u32]) {
        list[..COUNTS * records::RECORDS].fill(0);
    }

    fn raise_at(list: &mut [u32], number: usize, verdict: u8) {
        let i = COUNTS * number;
        let before = Tally {
            granted: list[i],
            slipped: list[i + 1],
            refused: list[i + 2],
        };
        let after = raise(before, verdict);
        list[i] = after.granted;
        list[i + 1] = after.slipped;
        list[i + 2] = after.refused;
    }
}

// Enters a call in its list: what begins anew zeroes it first, then one record is raised. A list of another length stays as it is.
#[tactic(auto, using(crate::proofs::EntryLaws::unfit_kept, crate::proofs::EntryLaws::fit_entered), unfolding(model::specs::Tallies::zeroed))]
fn enter_in<E: Element>(list: &mut [E], number: u16, anew: bool, verdict: u8)
    requires { number < numbers }
    ensures { (E.held list.new ≡ entered number anew verdict (E.held list.old)) × (E.rest list.new ≡ E.rest list.old) }
{
    if E::records_in(list) != records::RECORDS {
        return;
    }
    if anew {
        E::zero(list);
    }
    E::raise_at(list, number as usize, verdict);
}

// Enters a call in a list of records.
pub fn enter(tallies: &mut [Tally], number: u16, anew: bool, verdict: u8)
    requires { number < numbers }
    ensures { tallies.new ≡ entered number anew verdict tallies.old }
{
    enter_in(tallies, number, anew, verdict);
}

// How many records a list of plain numbers holds, three numbers to a record; one or two left over belong to none.
pub fn records_in(counts: &[u32]) -> usize
    ensures { result ≡ length (records_in counts.now) }
{
    u32::records_in(counts)
}

// Enters a call in a list of plain numbers, as programs in Rattle lend it.
pub fn enter_counts(counts: &mut [u32], number: u16, anew: bool, verdict: u8)
    requires { number < numbers }
    ensures { (records_in counts.new ≡ entered number anew verdict (records_in counts.old)) × (left_over counts.new ≡ left_over counts.old) }
{
    enter_in(counts, number, anew, verdict);
}
