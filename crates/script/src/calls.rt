// The call that a word is with its numbers.
ghost use Rattle.std.specs.Prelude.{◌≡◌};
ghost use Rattle.script.specs.Script.{same_word, call_of};

use crate::Command;
use model::Call;

// The piece is that word.
pub fn is(piece: &[u8], word: &[u8]) -> bool
    ensures { result ≡ same_word piece.now word.now }
{
    piece == word
}

// The call that a word is with the numbers that follow it.
pub fn call_of(word: &[u8], numbers: &[u16]) -> Option<Command>
    ensures { result ≡ call_of word.now numbers.now }
{
    let call = match numbers {
        [] if is(word, b"spread") => Call::Spread,
        [a] if is(word, b"mark") => Call::Mark(*a),
        [a] if is(word, b"step") => Call::Step(*a),
        [a, b] if is(word, b"call") => Call::CallTask(*a, *b),
        [a, b] if is(word, b"invoke") => Call::Invoke(*a, *b),
        [a, b, c] if is(word, b"read") => Call::Read(*a, *b, *c),
        [a, b, c] if is(word, b"write") => Call::Write(*a, *b, *c),
        [a, b, c] if is(word, b"pass") => Call::Pass(*a, *b, *c),
        [a, b, c] if is(word, b"post") => Call::Post(*a, *b, *c),
        [a, b, c] if is(word, b"find") => Call::Find(*a, *b, *c),
        [a, b, c, d] if is(word, b"root") => Call::CreateRoot(*a, *b, *c, *d),
        [a, b, c, d] if is(word, b"delete") => Call::Delete(*a, *b, *c, *d),
        [a, b, c, d, e] if is(word, b"run") => Call::Execute(*a, *b, *c, *d, *e),
        [a, b, c, d, e] if is(word, b"create") => Call::Create(*a, *b, *c, *d, *e),
        [a, b, c, d, e] if is(word, b"move") => Call::Move(*a, *b, *c, *d, *e),
        _ => return None,
    };
    Some(Command::Ask(call))
}
