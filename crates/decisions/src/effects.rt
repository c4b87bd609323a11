// What the events record in the words.
ghost use Rattle.std.specs.Prelude.{◌≡◌, List, [], ◌∷◌, ℕ, ◌+◌, ◌*◌, ◌≤◌, ◌<◌};
ghost use Rattle.rows.specs.Rows.{add_cell};
ghost use Rattle.rows.specs.Size.{row_size, numbers};
ghost use Rattle.model.specs.State.{memory};
ghost use Rattle.model.specs.Effects.{flow_if, effects};

use crate::Decision;

// The flow a to b where the decision tells to record the first.
pub fn record_first(words: &mut [u64], judged: Decision, a: u16, b: u16)
    ensures { (bs : List ℕ) → memory bs words.new ≡ effects (flow_if judged.first a b ∷ []) (memory bs words.old) }
{
    rows::add_if(words, judged.first, a, b);
}

// That, and the flow c to d where it tells to record the second.
pub fn record_both(words: &mut [u64], judged: Decision, a: u16, b: u16, c: u16, d: u16)
    ensures { (bs : List ℕ) → memory bs words.new ≡ effects (flow_if judged.first a b ∷ flow_if judged.second c d ∷ []) (memory bs words.old) }
{
    rows::add_if(words, judged.first, a, b);
    rows::add_if(words, judged.second, c, d);
}

// An access of the task e to the object x in the table that begins at a row.
pub fn add_access(words: &mut [u64], table: u16, e: u16, x: u16)
    requires { (table ≤ 2 * numbers) × (e < numbers) }
    ensures { words.new ≡ add_cell row_size words.old (table + e) x }
{
    rows::add(words, table + e, x);
}
