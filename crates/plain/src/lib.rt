// Calls and loads by the plain rules, for C and Rust to link beside the monitor: the list of tallies is lent as plain numbers, three to a record. And the decision table's entries by these rules, for whoever prints the table.
#![tactic(auto)]

ghost use Rattle.std.specs.Prelude.{◌≡◌, ◌<◌, ◌≤◌, MatchOption};
ghost use Rattle.model.specs.Verdicts.{number_of};
ghost use Rattle.model.specs.State.{memory};
ghost use Rattle.decisions.specs.Decisions.{numbered};
ghost use Rattle.table.specs.Table.{entry_of, operations, operation_at};
ghost use Rattle.tallies.specs.Counts.{records_in, left_over};
ghost use Rattle.calls.specs.Request.{call_of};
ghost use Rattle.calls.specs.Ends.{ended, Performs, Loads};
ghost use Rattle.plain.specs.Entry.{entry_for};

use calls::Request;
use decisions::Decision;
use levels::Order;
use model::Answer;
use table::{Operation, Rules, SETTINGS};

// A whole call.
#[unsafe(no_mangle)]
pub extern "C" fn tupehiwo_plain_perform(
    bytes: &mut [u8],
    words: &mut [u64],
    counts: &mut [u32],
    order: Order,
    request: Request,
) -> Answer
    ensures performs { Performs order (memory bytes.old words.old) (records_in counts.old) (call_of request) (ended result bytes.new words.new (records_in counts.new)) }
    ensures counts_unchanged { left_over counts.new ≡ left_over counts.old }
{
    calls::perform::<Rules>(bytes, words, counts, &order, request.into())
}

// A whole load.
#[unsafe(no_mangle)]
pub extern "C" fn tupehiwo_plain_load(
    bytes: &mut [u8],
    words: &mut [u64],
    counts: &mut [u32],
    order: Order,
    text: &[u8],
) -> Answer
    ensures loads { Loads order (memory bytes.old words.old) (records_in counts.old) text.now (ended result bytes.new words.new (records_in counts.new)) }
    ensures counts_unchanged { left_over counts.new ≡ left_over counts.old }
{
    calls::load_counts::<Rules>(bytes, words, counts, &order, text)
}

// ---- The decision table's entries, worked out from the rules: the table itself is not looked at.

// Where a number names no operation or no setting.
// By hand: a number and no Option, since `tupehiwo_plain_entry` hands this answer to C.
const NO_ENTRY: u8 = 255;

// The operation of a number, in the table's order, if there is one.
fn operation_at(n: u16) -> Option<Operation>
    ensures { MatchOption result (operations ≤ n) (λ o. (n < operations) × (o ≡ operation_at n)) }
{
    Some(match n {
        0 => Operation::Read,
        1 => Operation::Write,
        2 => Operation::Move,
        3 => Operation::Delete,
        4 => Operation::Call,
        5 => Operation::Invoke,
        6 => Operation::Pass,
        7 => Operation::Post,
        _ => return None,
    })
}

// The number of a decision. The verdicts of the rules are all below 16.
fn entry_of(decision: Decision) -> u8
    requires { number_of decision.verdict < 16 }
    ensures { result ≡ entry_of (numbered decision) }
{
    decision.verdict.number() + 16 * u8::from(decision.first) + 32 * u8::from(decision.second)
}

// The entry of a setting of an operation. Operations have their numbers by the table's order; fact i is bit i of the setting.
#[tactic(auto, using(std::proofs::lemmas::Bool::Decides::nat_tests, table::specs::TableLaws::verdicts), unfolding(crate::specs::Entry::entry_for, decisions::specs::Decisions::settled))]
#[unsafe(no_mangle)]
pub extern "C" fn tupehiwo_plain_entry(operation: u16, setting: u16) -> u8
    ensures { result ≡ entry_for operation setting }
{
    let Some(operation) = operation_at(operation) else {
        return NO_ENTRY;
    };
    if usize::from(setting) >= SETTINGS {
        return NO_ENTRY;
    }
    let s = u64::from(setting);
    entry_of(table::by_rules(
        operation,
        bits::has_bit(s, 0),
        bits::has_bit(s, 1),
        bits::has_bit(s, 2),
        bits::has_bit(s, 3),
        bits::has_bit(s, 4),
        bits::has_bit(s, 5),
    ))
}
