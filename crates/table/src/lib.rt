// The decision table, and the two engines: by the table, and by the plain rules.
#![tactic(auto)]

ghost use Rattle.std.specs.Prelude.{◌≡◌, true, false, ◌<◌};
ghost use Rattle.bits.specs.All.{one};
ghost use Rattle.decisions.specs.Decisions.{numbered, settled, read_decision, write_decision, move_decision, delete_decision, call_decision, invoke_decision, relay_decision};
ghost use Rattle.table.specs.Table.{operations, operation_at, setting, settings, ruled, decided, decision_of, filled};

use decisions::{Decision, settled};
use model::Verdict;

// The eight operations whose decisions are looked up.
#[derive(Clone, Copy)]
pub enum Operation {
    Read,
    Write,
    Move,
    Delete,
    Call,
    Invoke,
    Pass,
    Post,
}

// In the place of a fact that an operation does not have.
pub const UNUSED: bool = false;

// How many operations there are, and settings of six facts, which stand in rows.
pub const OPERATIONS: usize = 8;

pub const SETTINGS: usize = ROWS * ROW;

const ROWS: usize = 8;

const ROW: usize = 8;

// The table: 512 numbers, 64 for each operation in the order above, one for each setting of six facts.
// Above an operation's numbers stand its facts, fact 0 first, and its flows; L and R are the levels of document 01. In the setting s, fact i is bit i of s, and the entry is in row s / 8, column s % 8: a row goes through facts 0, 1 and 2, and the rows through facts 3, 4 and 5. Unused facts make no difference.
// An entry is the verdict, with 16 added where the first flow is recorded and 32 where the second is. docs/DECISION-TABLE.md has it in print.
type Entries = [[[u8; ROW]; ROWS]; OPERATIONS];

const ENTRIES: Entries = [
    // Read: L(e) ≤ L(d), R(e) ≤ L(d), L(e) ≤ L(o), R(e) ≤ L(o), d marked, e marked. Flows: o to e, d to e.
    [
        [10, 11, 11, 11, 10, 16, 0, 16],
        [10, 0, 0, 0, 10, 16, 0, 16],
        [10, 49, 1, 49, 10, 48, 0, 48],
        [10, 48, 0, 48, 10, 48, 0, 48],
        [10, 11, 11, 11, 10, 16, 16, 16],
        [10, 16, 16, 16, 10, 16, 16, 16],
        [10, 49, 49, 49, 10, 48, 48, 48],
        [10, 48, 48, 48, 10, 48, 48, 48],
    ],
    // Write: L(o) ≤ L(e), d marked. Flows: e to o, e to d.
    [
        [11, 16, 49, 48, 11, 16, 49, 48],
        [11, 16, 49, 48, 11, 16, 49, 48],
        [11, 16, 49, 48, 11, 16, 49, 48],
        [11, 16, 49, 48, 11, 16, 49, 48],
        [11, 16, 49, 48, 11, 16, 49, 48],
        [11, 16, 49, 48, 11, 16, 49, 48],
        [11, 16, 49, 48, 11, 16, 49, 48],
        [11, 16, 49, 48, 11, 16, 49, 48],
    ],
    // Move: L(o) ≤ L(e), L(o) ≤ L(to), d marked. Flows: e to o, e to d.
    [
        [11, 11, 11, 0, 11, 11, 49, 48],
        [11, 11, 11, 0, 11, 11, 49, 48],
        [11, 11, 11, 0, 11, 11, 49, 48],
        [11, 11, 11, 0, 11, 11, 49, 48],
        [11, 11, 11, 0, 11, 11, 49, 48],
        [11, 11, 11, 0, 11, 11, 49, 48],
        [11, 11, 11, 0, 11, 11, 49, 48],
        [11, 11, 11, 0, 11, 11, 49, 48],
    ],
    // Delete: L(o) ≤ L(e), d marked. One flow: e to d.
    [
        [11, 0, 11, 16, 11, 0, 11, 16],
        [11, 0, 11, 16, 11, 0, 11, 16],
        [11, 0, 11, 16, 11, 0, 11, 16],
        [11, 0, 11, 16, 11, 0, 11, 16],
        [11, 0, 11, 16, 11, 0, 11, 16],
        [11, 0, 11, 16, 11, 0, 11, 16],
        [11, 0, 11, 16, 11, 0, 11, 16],
        [11, 0, 11, 16, 11, 0, 11, 16],
    ],
    // Call, of b by a: L(a) ≤ L(b), R(a) ≤ L(b), a marked, b marked. Flows: b to a, a to b.
    [
        [10, 16, 0, 16, 10, 16, 16, 16],
        [10, 48, 0, 48, 10, 48, 48, 48],
        [10, 16, 0, 16, 10, 16, 16, 16],
        [10, 48, 0, 48, 10, 48, 48, 48],
        [10, 16, 0, 16, 10, 16, 16, 16],
        [10, 48, 0, 48, 10, 48, 48, 48],
        [10, 16, 0, 16, 10, 16, 16, 16],
        [10, 48, 0, 48, 10, 48, 48, 48],
    ],
    // Invoke, of b by a: L(b) ≤ L(a), a marked. Flows: a to b, b to a.
    [
        [11, 16, 11, 48, 11, 16, 11, 48],
        [11, 16, 11, 48, 11, 16, 11, 48],
        [11, 16, 11, 48, 11, 16, 11, 48],
        [11, 16, 11, 48, 11, 16, 11, 48],
        [11, 16, 11, 48, 11, 16, 11, 48],
        [11, 16, 11, 48, 11, 16, 11, 48],
        [11, 16, 11, 48, 11, 16, 11, 48],
        [11, 16, 11, 48, 11, 16, 11, 48],
    ],
    // Pass, of x by z to y, where dx drives x: L(z) ≤ L(x), R(z) ≤ L(x), L(z) ≤ L(dx), R(z) ≤ L(dx), z marked. One flow: x to y.
    [
        [16, 16, 11, 16, 16, 16, 11, 16],
        [11, 11, 11, 11, 16, 16, 11, 16],
        [16, 16, 16, 16, 16, 16, 16, 16],
        [16, 16, 16, 16, 16, 16, 16, 16],
        [16, 16, 11, 16, 16, 16, 11, 16],
        [11, 11, 11, 11, 16, 16, 11, 16],
        [16, 16, 16, 16, 16, 16, 16, 16],
        [16, 16, 16, 16, 16, 16, 16, 16],
    ],
    // Post, from x by z to y, where dz drives z: L(y) ≤ L(z), R(y) ≤ L(z), L(y) ≤ L(dz), R(y) ≤ L(dz), y marked. One flow: x to y.
    [
        [16, 16, 11, 16, 16, 16, 11, 16],
        [11, 11, 11, 11, 16, 16, 11, 16],
        [16, 16, 16, 16, 16, 16, 16, 16],
        [16, 16, 16, 16, 16, 16, 16, 16],
        [16, 16, 11, 16, 16, 16, 11, 16],
        [11, 11, 11, 11, 16, 16, 11, 16],
        [16, 16, 16, 16, 16, 16, 16, 16],
        [16, 16, 16, 16, 16, 16, 16, 16],
    ],
];

// The table as it stands in memory, once: a constant is made anew wherever it is named.
static STORED: Entries = ENTRIES;

// The table, with the one fact about it: it is filled. It is named here alone, so one proof goes through its 512 numbers.
fn whole_table() -> &'static Entries
    ensures { filled result.now ≡ true }
{
    &STORED
}

// Where the part of an operation stands in the table.
fn place(operation: Operation) -> usize
    ensures { (operation_at result ≡ operation) × (result < operations) }
{
    match operation {
        Operation::Read => 0,
        Operation::Write => 1,
        Operation::Move => 2,
        Operation::Delete => 3,
        Operation::Call => 4,
        Operation::Invoke => 5,
        Operation::Pass => 6,
        Operation::Post => 7,
    }
}

// The number of a setting: six binary digits, so it is below 64.
fn setting(f0: bool, f1: bool, f2: bool, f3: bool, f4: bool, f5: bool) -> usize
    ensures { (result ≡ setting «f0» «f1» «f2» «f3» «f4» «f5») × (result < settings) }
{
    usize::from(f0)
        + 2 * usize::from(f1)
        + 4 * usize::from(f2)
        + 8 * usize::from(f3)
        + 16 * usize::from(f4)
        + 32 * usize::from(f5)
}

// What an entry says.
#[tactic(auto, unfolding(bits::specs::Bit::bit))]
fn meaning(entry: u8) -> Decision
    ensures { numbered result ≡ decision_of entry }
{
    let Ok(verdict) = Verdict::try_from(entry % 16) else {
        unreachable!()
    };
    Decision {
        verdict,
        first: entry / 16 % 2 == 1,
        second: entry / 32 % 2 == 1,
    }
}

// The entry of an operation and a setting of its facts.
fn look_up(
    operation: Operation,
    f0: bool,
    f1: bool,
    f2: bool,
    f3: bool,
    f4: bool,
    f5: bool,
) -> Decision
    ensures { numbered result ≡ decided operation «f0» «f1» «f2» «f3» «f4» «f5» }
{
    let table = whole_table();
    let s = setting(f0, f1, f2, f3, f4, f5);
    meaning(table[place(operation)][s / ROW][s % ROW])
}

// What the plain rule of an operation says of its facts.
fn ruled(
    operation: Operation,
    f0: bool,
    f1: bool,
    f2: bool,
    f3: bool,
    f4: bool,
    f5: bool,
) -> Decision
    ensures { numbered result ≡ ruled operation «f0» «f1» «f2» «f3» «f4» «f5» }
{
    match operation {
        Operation::Read => decisions::read(f0, f1, f2, f3, f4, f5),
        Operation::Write => decisions::write(f0, f1),
        Operation::Move => decisions::move_object(f0, f1, f2),
        Operation::Delete => decisions::delete(f0, f1),
        Operation::Call => decisions::call_task(f0, f1, f2, f3),
        Operation::Invoke => decisions::invoke(f0, f1),
        Operation::Pass | Operation::Post => decisions::relay(f0, f1, f2, f3, f4),
    }
}

// The decision of an operation by the plain rules.
pub fn by_rules(
    operation: Operation,
    f0: bool,
    f1: bool,
    f2: bool,
    f3: bool,
    f4: bool,
    f5: bool,
) -> Decision
    ensures { numbered result ≡ decided operation «f0» «f1» «f2» «f3» «f4» «f5» }
{
    settled(ruled(operation, f0, f1, f2, f3, f4, f5))
}

// What decides: the table, or the plain rules. No engine stands in a contract: both decide alike. An engine is a type and no value,
// so that each is known in all that is made for it.
pub trait Engine {
    // The decision of an operation on its facts, fact 0 first.
    fn decide(
        operation: Operation,
        f0: bool,
        f1: bool,
        f2: bool,
        f3: bool,
        f4: bool,
        f5: bool,
    ) -> Decision
        ensures { numbered result ≡ decided operation «f0» «f1» «f2» «f3» «f4» «f5» };
}

#[derive(Clone, Copy)]
pub struct Table;

impl Engine for Table {
    fn decide(
        operation: Operation,
        f0: bool,
        f1: bool,
        f2: bool,
        f3: bool,
        f4: bool,
        f5: bool,
    ) -> Decision {
        look_up(operation, f0, f1, f2, f3, f4, f5)
    }
}

#[derive(Clone, Copy)]
pub struct Rules;

impl Engine for Rules {
    fn decide(
        operation: Operation,
        f0: bool,
        f1: bool,
        f2: bool,
        f3: bool,
        f4: bool,
        f5: bool,
    ) -> Decision {
        by_rules(operation, f0, f1, f2, f3, f4, f5)
    }
}

// ---- The decisions, by whichever engine.

pub fn read<E: Engine>(
    task_driver: bool,
    read_driver: bool,
    task_object: bool,
    read_object: bool,
    driver_marked: bool,
    task_marked: bool,
) -> Decision
    ensures { numbered result ≡ settled (read_decision task_driver read_driver task_object read_object driver_marked task_marked) }
{
    E::decide(
        Operation::Read,
        task_driver,
        read_driver,
        task_object,
        read_object,
        driver_marked,
        task_marked,
    )
}

pub fn write<E: Engine>(object_task: bool, driver_marked: bool) -> Decision
    ensures { numbered result ≡ settled (write_decision object_task driver_marked) }
{
    E::decide(
        Operation::Write,
        object_task,
        driver_marked,
        UNUSED,
        UNUSED,
        UNUSED,
        UNUSED,
    )
}

pub fn move_object<E: Engine>(object_task: bool, object_to: bool, driver_marked: bool) -> Decision
    ensures { numbered result ≡ settled (move_decision object_task object_to driver_marked) }
{
    E::decide(
        Operation::Move,
        object_task,
        object_to,
        driver_marked,
        UNUSED,
        UNUSED,
        UNUSED,
    )
}

pub fn delete<E: Engine>(object_task: bool, driver_marked: bool) -> Decision
    ensures { numbered result ≡ settled (delete_decision object_task driver_marked) }
{
    E::decide(
        Operation::Delete,
        object_task,
        driver_marked,
        UNUSED,
        UNUSED,
        UNUSED,
        UNUSED,
    )
}

pub fn call_task<E: Engine>(
    caller_callee: bool,
    read_callee: bool,
    caller_marked: bool,
    callee_marked: bool,
) -> Decision
    ensures { numbered result ≡ settled (call_decision caller_callee read_callee caller_marked callee_marked) }
{
    E::decide(
        Operation::Call,
        caller_callee,
        read_callee,
        caller_marked,
        callee_marked,
        UNUSED,
        UNUSED,
    )
}

pub fn invoke<E: Engine>(invokee_invoker: bool, invoker_marked: bool) -> Decision
    ensures { numbered result ≡ settled (invoke_decision invokee_invoker invoker_marked) }
{
    E::decide(
        Operation::Invoke,
        invokee_invoker,
        invoker_marked,
        UNUSED,
        UNUSED,
        UNUSED,
        UNUSED,
    )
}
