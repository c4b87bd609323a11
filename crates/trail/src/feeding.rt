// A script whose input comes in pieces. Each is fed as it comes, and what it prints stands in a buffer until it is written.
ghost use Rattle.std.specs.Prelude.{◌+◌, ◌*◌, ◌≤◌, ◌≡◌, length};
ghost use Rattle.trail.specs.Buffers.{answer_size, marked_size, progress_in, reading_in, Room};
ghost use Rattle.trail.specs.Feeding.{nothing_fed, ended, after_piece, closed, finished, emptied};

use crate::lines::Monitor;
use crate::marked;
use script::text::Text;

// How many bytes of a line are kept: as many as settle what it means.
pub const KEPT: usize = 128;

// Room for what a piece of 16,384 bytes prints: eight bytes for each of its bytes.
pub const OUT: usize = 131072;

// Where the reading stands.
#[derive(Drop)]
pub struct State {
    monitor: Monitor,
    // What is kept of the open line.
    line: Text<KEPT>,
    // What is printed and not written yet.
    out: Text<OUT>,
}

impl State {
    // Before the first piece.
    pub fn new() -> State
        ensures { reading_in result ≡ nothing_fed }
    {
        let monitor = Monitor::new();
        let line = Text::new();
        let out = Text::new();
        State { monitor, line, out }
    }

    // A line is done, and its answer printed behind those before it.
    fn end_line(&mut self)
        requires { Room self.old answer_size }
        ensures ends { reading_in self.new ≡ ended (reading_in self.old) }
        ensures room { length (progress_in self.new).printed ≤ length (progress_in self.old).printed + answer_size }
    {
        let reply = self.monitor.do_line(self.line.as_slice());
        self.line.clear();
        self.out.answer(reply);
    }

    // Feeds a piece, a line at a time. Its answers fit: each answers a line, which has at least its line feed, with at most eight bytes.
    pub fn feed(&mut self, piece: &[u8])
        requires { Room self.old (answer_size * length piece.now) }
        ensures { reading_in self.new ≡ after_piece piece.now (reading_in self.old) }
    {
        let mut at = 0;
        // By hand: the loop steps from a line's end to the next one's, which is known only when that is read.
        while at < piece.len() {
            at += self.line.until(&piece[at..], b'\n');
            if at < piece.len() {
                self.end_line();
                at += 1;
            }
        }
    }

    // What was printed has been written.
    pub fn empty(&mut self)
        ensures { reading_in self.new ≡ emptied (reading_in self.old) }
    {
        self.out.clear();
    }

    pub fn printed(&self) -> &[u8]
        ensures { result.now ≡ (progress_in self.now).printed }
    {
        self.out.as_slice()
    }

    // A line that is open at the end of the input is the last one.
    fn last_line(&mut self)
        requires { Room self.old answer_size }
        ensures closes { progress_in self.new ≡ closed (reading_in self.old) }
        ensures room { length (progress_in self.new).printed ≤ length (progress_in self.old).printed + answer_size }
    {
        if !self.line.as_slice().is_empty() {
            self.end_line();
        }
    }

    // The input is at its end: the last line, then the marked numbers.
    pub fn finish(&mut self)
        requires { Room self.old (answer_size + marked_size) }
        ensures { progress_in self.new ≡ finished (reading_in self.old) }
    {
        self.last_line();
        let report = self.monitor.report();
        marked::print(&mut self.out, report);
    }
}
