// Runs a script: a call a line from standard input, an answer a line to standard output, and at the end the marked numbers. That
// these are a script's answers is proved in `feeding`; here are only the reading, the writing and their errors.
#![tactic(auto)]

mod feeding;
mod lines;
mod marked;

ghost use Rattle.std.specs.Prelude.{ℕ, ◌*◌, ◌≤◌, ◌≡◌, [], IfOk, MatchResult, OnOk, length};
ghost use Rattle.trail.specs.declared.feeding.TheConstants.{OUT};
ghost use Rattle.trail.specs.Feeding.{nothing_fed};
ghost use Rattle.trail.specs.Buffers.{answer_size, progress_in, reading_in, Fed, SomeInput, SomeScript};

use feeding::State;
use std::io;
use std::io::{Read, Stderr, Stdin, Stdout, Write};

// The longest piece of input.
const IN: usize = 16384;

// A read or a write has failed, and standard error was told.
#[derive(Clone, Copy)]
struct Failed;

// The standard streams.
#[derive(Clone, Copy)]
struct Streams {
    input: Stdin,
    output: Stdout,
    errors: Stderr,
}

impl Streams {
    // Says on standard error which stream failed, and how. Where that fails too, nobody can be told.
    fn fail(self, which: &str, error: io::Error) -> Failed {
        let mut errors = self.errors;
        let _ = writeln!(errors, "{which}: {error}");
        Failed
    }

    // How many bytes were read: none at the end of the input.
    fn read(self, input: &mut [u8]) -> Result<usize, Failed>
        ensures { IfOk result (λ n. n ≤ length input.new) }
    {
        let mut stdin = self.input;
        stdin
            .read(input)
            .map_err(|error| self.fail("standard input", error))
    }

    fn write(self, out: &[u8]) -> Result<(), Failed> {
        let mut stdout = self.output;
        stdout
            .write_all(out)
            .map_err(|error| self.fail("standard output", error))
    }
}

// Reads a piece, feeds it and writes its answers. It answers how long the piece was: nothing is fed at the end of the input.
fn read_piece(streams: Streams, input: &mut [u8], state: &mut State) -> Result<usize, Failed>
    requires { (answer_size * length input.old ≤ OUT) × ((progress_in state.old).printed ≡ []) }
    ensures { MatchResult result (Fed input.new state.old state.new) (λ _. (n : ℕ) × Fed input.new state.old state.new n) }
{
    let n = streams.read(input)?;
    state.feed(&input[..n]);
    let written = streams.write(state.printed());
    state.empty();
    written?;
    Ok(n)
}

fn read_all(streams: Streams, input: &mut [u8], state: &mut State) -> Result<(), Failed>
    requires { (answer_size * length input.old ≤ OUT) × (reading_in state.old ≡ nothing_fed) }
    ensures { SomeInput (reading_in state.new) }
{
    // A proved loop has to end, and nothing says that the input does. So it has a number of turns that no run uses up; past them the
    // script would end as at the end of its input.
    for _ in 0..u64::MAX {
        if read_piece(streams, input, state)? == 0 {
            break;
        }
    }
    Ok(())
}

// The whole script, but for the writing of what is printed at its end.
fn run(streams: Streams, input: &mut [u8], state: &mut State) -> Result<(), Failed>
    requires { (answer_size * length input.old ≤ OUT) × (reading_in state.old ≡ nothing_fed) }
    ensures { OnOk result (SomeScript (progress_in state.new)) }
{
    read_all(streams, input, state)?;
    state.finish();
    Ok(())
}

fn main(rt: HostRuntime) {
    let streams = Streams {
        input: rt.stdin(),
        output: rt.stdout(),
        errors: rt.stderr(),
    };
    let mut input = [0; IN];
    let mut state = State::new();
    if run(streams, &mut input, &mut state).is_ok() {
        let _ = streams.write(state.printed());
    }
}
