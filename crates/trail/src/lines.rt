// What a line does.
ghost use Rattle.std.specs.Prelude.{◌≡◌};
ghost use Rattle.rows.specs.Size.{present};
ghost use Rattle.model.specs.Monitor.{report};
ghost use Rattle.model.specs.Tallies.{zeroed};
ghost use Rattle.script.specs.Script.{no_order};
ghost use Rattle.trail.specs.Script.{zeros};
ghost use Rattle.trail.specs.Lines.{memory_of, tallies_of, leaves, reply_to, asked, started_with, line_done};

use levels::Order;
use model::{Call, Report, Verdict};
use script::Command;
use script::print::Reply;
use table::Table;

// The list of tallies: a record for each number, three counts to a record.
const TALLIES: usize = tallies::COUNTS * records::RECORDS;

// What is kept from line to line: the memory that the monitor is lent, its tallies, and the order of the last granted start.
#[derive(Drop)]
pub struct Monitor {
    bytes: [u8; records::BYTES],
    words: [u64; rows::WORDS],
    counts: [u32; TALLIES],
    order: Order,
}

impl Monitor {
    // Before the first line. The order is all zero before the first granted start.
    pub fn new() -> Monitor
        ensures { (result.order ≡ no_order) × (memory_of result ≡ zeros) × (tallies_of result ≡ zeroed present) }
    {
        Monitor {
            bytes: [0; records::BYTES],
            words: [0; rows::WORDS],
            counts: [0; TALLIES],
            order: Order {
                rows: [0; 16],
                count: 0,
                top: 0,
            },
        }
    }

    pub fn report(&self) -> Report
        ensures { result ≡ report self.now.order (memory_of self.now) }
    {
        marking::report(&self.bytes, &self.words, &self.order)
    }

    #[tactic(auto, unfolding(crate::specs::Lines::started_with, crate::specs::Lines::answered))]
    fn start(&mut self, order: Order) -> Reply
        ensures { leaves result self.new ≡ started_with (memory_of self.old) (tallies_of self.old) self.old.order order }
    {
        let answer = calls::perform::<Table>(
            &mut self.bytes,
            &mut self.words,
            &mut self.counts,
            &order,
            Call::Start,
        );
        if answer.verdict == Verdict::Granted.number() {
            self.order = order;
        }
        Reply::Verdict(answer.verdict)
    }

    #[tactic(auto, unfolding(crate::specs::Lines::asked, crate::specs::Lines::answered))]
    fn ask(&mut self, call: Call) -> Reply
        ensures { leaves result self.new ≡ asked (memory_of self.old) (tallies_of self.old) self.old.order call }
    {
        let answer = calls::perform::<Table>(
            &mut self.bytes,
            &mut self.words,
            &mut self.counts,
            &self.order,
            call,
        );
        reply_to(call, answer.verdict, answer.rounds)
    }

    #[tactic(auto, unfolding(crate::specs::Lines::line_done, crate::specs::Lines::done_by))]
    pub fn do_line(&mut self, line: &[u8]) -> Reply
        ensures { leaves result self.new ≡ line_done (memory_of self.old) (tallies_of self.old) self.old.order line.now }
    {
        match script::read_line(line) {
            None => Reply::Bad,
            Some(Command::Start(order)) => self.start(order),
            Some(Command::Ask(call)) => self.ask(call),
        }
    }
}

// After a spread the rounds too.
fn reply_to(call: Call, verdict: u8, rounds: u8) -> Reply
    ensures { result ≡ reply_to call verdict rounds }
{
    match call {
        Call::Spread => Reply::Rounds(verdict, rounds),
        _ => Reply::Verdict(verdict),
    }
}
