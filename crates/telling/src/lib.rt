// What the driver is told of a call: yes, no, or nothing.
#![tactic(auto)]

ghost use Rattle.std.specs.Prelude.{◌≡◌};
ghost use Rattle.model.specs.Verdicts.{number_of};
ghost use Rattle.model.specs.Told as model;
ghost use Rattle.model.specs.Told.{word_of, yes_or_no};

use model::{Call, Told, Verdict};

// Yes for what is granted, and no for all else, a slip too.
#[tactic(auto, unfolding(model::specs::Told::yes_or_no))]
fn yes_or_no(verdict: Verdict) -> Told
    ensures { word_of result ≡ yes_or_no (number_of verdict) }
{
    match verdict {
        Verdict::Granted => Told::Yes,
        _ => Told::No,
    }
}

// The word of a call that came to a verdict.
#[tactic(auto, unfolding(model::specs::Told::told))]
pub fn told(call: Call, verdict: Verdict) -> Told
    ensures { word_of result ≡ model.told call (number_of verdict) }
{
    match call {
        Call::Read(..)
        | Call::Write(..)
        | Call::Execute(..)
        | Call::Create(..)
        | Call::CreateRoot(..)
        | Call::Move(..)
        | Call::CallTask(..)
        | Call::Invoke(..) => yes_or_no(verdict),
        Call::Start
        | Call::Delete(..)
        | Call::Pass(..)
        | Call::Post(..)
        | Call::Find(..)
        | Call::Mark(_)
        | Call::Step(_)
        | Call::Spread => Told::Nothing,
    }
}
