// What each event leaves when it is done.
ghost use Rattle.std.specs.Prelude.{◌≡◌, [], ◌∷◌, ◌<◌};
ghost use Rattle.rows.specs.Size.{present, numbers};
ghost use Rattle.records.specs.Records.{Place, container_byte};
ghost use Rattle.model.specs.State.{memory};
ghost use Rattle.model.specs.Effects.{flow_if, make_task, make_object, effects};

use decisions::Decision;
use decisions::effects::{record_both, record_first};
use records::{OBJECT, Record, TASK, set_record};

pub fn execute(
    bytes: &mut [u8],
    words: &mut [u64],
    judged: Decision,
    i: u16,
    n: u16,
    l: u16,
    r: u16,
)
    requires { (l < 16) × (r < 16) }
    ensures { memory bytes.new words.new ≡ effects (make_task n l r ∷ flow_if judged.first i n ∷ []) (memory bytes.old words.old) }
{
    let task = Record {
        kind: TASK,
        level: l as u8,
        read_level: r as u8,
        ..Record::FREE
    };
    set_record(bytes, n, task);
    record_first(words, judged, i, n);
}

// In the place whose container byte is k.
pub fn create(
    bytes: &mut [u8],
    words: &mut [u64],
    judged: Decision,
    c: u16,
    d: u16,
    n: u16,
    k: u16,
    l: u16,
)
    requires { (d < numbers) × (k < 0x100) × (l < 16) }
    ensures { (p : Place) → k ≡ container_byte p present → memory bytes.new words.new ≡ effects (make_object n l d p judged.first ∷ flow_if judged.first c n ∷ flow_if judged.second c d ∷ []) (memory bytes.old words.old) }
{
    let object = Record {
        kind: OBJECT,
        level: l as u8,
        driver: d as u8,
        container: k as u8,
        marks: judged.first as u8,
        ..Record::FREE
    };
    set_record(bytes, n, object);
    record_both(words, judged, c, n, c, d);
}
