// The types of the monitor's face: calls, answers, tally records and the report.
#![tactic(auto)]

ghost use Rattle.std.specs.Prelude.{◌≡◌};
ghost use Rattle.model.specs.Verdicts.{is_done, number_of, IsVerdict};
ghost use Rattle.model.specs.Told.{word_of};

// A call with its numbers, told by document 01's letters. Levels are as wide as thing numbers, so that what a caller names reaches
// the rules uncut.
#[derive(Clone, Copy)]
pub enum Call {
    Start,
    // e, d, o: the task e reads the object o through its driver d.
    Read(u16, u16, u16),
    // e, d, o: the task e writes the object o through its driver d.
    Write(u16, u16, u16),
    // c, i, n, l, r: the task c runs a new task n from the image i, at level l and read level r.
    Execute(u16, u16, u16, u16, u16),
    // c, d, n, k, l: the task c makes a new object n of the driver d in the container k, at level l.
    Create(u16, u16, u16, u16, u16),
    // c, d, n, l: the same, in no container.
    CreateRoot(u16, u16, u16, u16),
    // e, d, o, f, t: the task e moves the object o, driven by d, from the container f to the container t.
    Move(u16, u16, u16, u16, u16),
    // e, d, o, k: the task e deletes the object o, driven by d, from its container k.
    Delete(u16, u16, u16, u16),
    // a, b: the task a calls the task b.
    CallTask(u16, u16),
    // a, b: the task a invokes the task b.
    Invoke(u16, u16),
    // z, x, y: what the task z read of the object x goes on to y.
    Pass(u16, u16, u16),
    // x, z, y: the task y reads in the object z what came from the task x.
    Post(u16, u16, u16),
    // x, z, y: what came to the task z from the task x goes on to y.
    Find(u16, u16, u16),
    // e: the task e is marked from outside.
    Mark(u16),
    // x: the thing x is marked, if a marked thing feeds it.
    Step(u16),
    Spread,
}

// What a call answers: a verdict of the table, the rounds of a spread, and the word that the driver is told.
// By hand: C reads this, as it does the report and what is checked, so verdict and word stand here by their numbers.
#[repr(C)]
#[derive(Clone, Copy)]
pub struct Answer {
    pub verdict: u8,
    pub rounds: u8,
    pub told: u8,
}

// A tally record: how many calls were granted, slipped and refused.
#[repr(C)]
#[derive(Clone, Copy, Default)]
pub struct Tally {
    pub granted: u32,
    pub slipped: u32,
    pub refused: u32,
}

// A bit for each marked number, and how many ones the words hold.
#[repr(C)]
#[derive(Clone, Copy)]
pub struct Report {
    pub words: [u64; rows::ROW_WORDS],
    pub ones: u32,
    pub verdict: u8,
}

// What a load would answer to a text before any call, and where the reader left: past the end of a text that is fit.
#[repr(C)]
#[derive(Clone, Copy)]
pub struct Checked {
    pub offset: u32,
    pub verdict: u8,
}

// The verdicts, in the order of their numbers. The topmost of those that apply is given.
#[derive(Clone, Copy, Debug, PartialEq, Eq)]
pub enum Verdict {
    Granted,
    // The driver is marked, and only what an honest driver enforces does not hold.
    Slipped,
    State,
    Order,
    Number,
    Taken,
    Driver,
    Place,
    Held,
    Scale,
    Path,
    Rule,
    Filled,
    Still,
    Form,
    Deep,
    Feeding,
}

impl Verdict {
    // As C reads it.
    pub fn number(self) -> u8
        ensures { result ≡ number_of self }
    {
        self as u8
    }

    // Granted or slipped: the effects are recorded.
    pub fn is_done(self) -> bool
        ensures { result ≡ is_done (number_of self) }
    {
        matches!(self, Verdict::Granted | Verdict::Slipped)
    }
}

// A number that is no verdict's.
#[derive(Clone, Copy, Debug, PartialEq, Eq)]
pub struct NoVerdict;

impl TryFrom<u8> for Verdict {
    type Error = NoVerdict;

    ghost try_from_gives = { IsVerdict };

    fn try_from(number: u8) -> Result<Verdict, NoVerdict> {
        match number {
            0 => Ok(Verdict::Granted),
            1 => Ok(Verdict::Slipped),
            2 => Ok(Verdict::State),
            3 => Ok(Verdict::Order),
            4 => Ok(Verdict::Number),
            5 => Ok(Verdict::Taken),
            6 => Ok(Verdict::Driver),
            7 => Ok(Verdict::Place),
            8 => Ok(Verdict::Held),
            9 => Ok(Verdict::Scale),
            10 => Ok(Verdict::Path),
            11 => Ok(Verdict::Rule),
            12 => Ok(Verdict::Filled),
            13 => Ok(Verdict::Still),
            14 => Ok(Verdict::Form),
            15 => Ok(Verdict::Deep),
            16 => Ok(Verdict::Feeding),
            _ => Err(NoVerdict),
        }
    }
}

// What the driver is told of a call, in the order of the numbers.
#[derive(Clone, Copy, Debug, PartialEq, Eq)]
pub enum Told {
    Nothing,
    Yes,
    No,
}

impl Told {
    // The word, as C reads it.
    pub fn word(self) -> u8
        ensures { result ≡ word_of self }
    {
        self as u8
    }
}
