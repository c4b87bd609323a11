// The numbers, words and brackets of a layout's text, read in place: the heads of objects, and tasks.
// By hand: a text and a place in it are two parameters, and what is read has its end beside it: so one equation says both, where a
// reader that moves would need two.
ghost use Rattle.std.specs.Prelude.{◌≡◌, ◌+◌, ◌<◌, ◌≤◌, false, IsTrue, IfSome, length, get_or, drop};
ghost use Rattle.layout.specs.Reading.{number, field, head, task_at};
ghost use Rattle.layout.specs.Answers.{digit_at, stands_at, answer};

// What was read, and where it ends.
#[derive(Clone, Copy)]
pub struct Found<T> {
    pub value: T,
    pub end: usize,
}

// Where the reader leaves.
#[derive(Clone, Copy)]
pub struct Lost {
    pub at: usize,
}

// The numbers that an object's form names.
#[derive(Clone, Copy)]
pub struct Object {
    pub number: u16,
    pub driver: u16,
    pub level: u16,
}

// The numbers that a task's form names.
#[derive(Clone, Copy)]
pub struct Task {
    pub number: u16,
    pub image: u16,
    pub level: u16,
    pub reads: u16,
}

// Whether the byte b stands at `at`.
pub fn is_at(text: &[u8], at: usize, b: u8) -> bool
    ensures { result ≡ stands_at b (drop at text.now) }
{
    at < text.len() && text[at] == b
}

// The digit at `at`, if there is one.
// By hand: a match on b'0'..=b'9', and is_ascii_digit, were tried: with either the reader of a text takes a fifth longer.
fn digit_at(text: &[u8], at: usize) -> Option<u16>
    ensures value { result ≡ digit_at (drop at text.now) }
    ensures small { IfSome result (λ d. d ≤ 9) }
{
    let b = *text.get(at)?;
    if b < b'0' {
        return None;
    }
    if b > b'9' {
        return None;
    }
    Some((b - b'0') as u16)
}

fn number_at(text: &[u8], at: usize) -> Result<Found<u16>, Lost>
    requires { at ≤ length text.now }
    ensures { result ≡ answer (length text.now) (number (drop at text.now)) }
{
    let Some(a) = digit_at(text, at) else {
        return Err(Lost { at });
    };
    if a == 0 {
        return Ok(Found {
            value: 0,
            end: at + 1,
        });
    }
    let Some(b) = digit_at(text, at + 1) else {
        return Ok(Found {
            value: a,
            end: at + 1,
        });
    };
    let Some(c) = digit_at(text, at + 2) else {
        return Ok(Found {
            value: 10 * a + b,
            end: at + 2,
        });
    };
    Ok(Found {
        value: 10 * (10 * a + b) + c,
        end: at + 3,
    })
}

// Whether a word stands at `at`: its first four bytes do, and its last four. Of a word that is known, each four are compared as one number.
#[inline(always)]
fn stands(text: &[u8], at: usize, word: &[u8]) -> bool
    requires { (at ≤ length text.now) × (4 ≤ length word.now) × (length word.now ≤ 8) }
    ensures { IsTrue result → (at + length word.now ≤ length text.now) × (field word.now (drop at text.now) ≡ number (drop (at + length word.now) text.now)) }
{
    let rest = &text[at..];
    let size = word.len();
    if rest.len() < size {
        return false;
    }
    rest.starts_with(&word[..4]) && rest[size - 4..].starts_with(&word[size - 4..])
}

// How many bytes of a word stand at `at`, from its first one on.
#[cold]
fn same_bytes(text: &[u8], at: usize, word: &[u8]) -> usize
    requires { at ≤ length text.now }
    ensures within { (result ≤ length word.now) × (at + result ≤ length text.now) }
    ensures same { field word.now (drop at text.now) ≡ field (drop result word.now) (drop (at + result) text.now) }
    ensures differs { result < length word.now → stands_at (get_or word.now result 0) (drop (at + result) text.now) ≡ false }
{
    for (i, b) in word.iter().enumerate() {
        if !is_at(text, at + i, *b) {
            return i;
        }
    }
    word.len()
}

// A word at `at`, and the number after it.
#[inline(always)]
fn field_at(text: &[u8], at: usize, word: &[u8]) -> Result<Found<u16>, Lost>
    requires { (at ≤ length text.now) × (4 ≤ length word.now) × (length word.now ≤ 8) }
    ensures { result ≡ answer (length text.now) (field word.now (drop at text.now)) }
{
    if !stands(text, at, word) {
        let same = same_bytes(text, at, word);
        if same < word.len() {
            return Err(Lost { at: at + same });
        }
    }
    number_at(text, at + word.len())
}

// An object's words, up to what it holds.
pub fn head_at(text: &[u8], at: usize) -> Result<Found<Object>, Lost>
    requires { at ≤ length text.now }
    ensures { result ≡ answer (length text.now) (head (drop at text.now)) }
{
    let number = field_at(text, at, b"(object ")?;
    let driver = field_at(text, number.end, b" driver ")?;
    let level = field_at(text, driver.end, b" level ")?;
    Ok(Found {
        value: Object {
            number: number.value,
            driver: driver.value,
            level: level.value,
        },
        end: level.end,
    })
}

// A task's form, from its opening bracket to its closing one.
pub fn task_at(text: &[u8], at: usize) -> Result<Found<Task>, Lost>
    requires { at ≤ length text.now }
    ensures { result ≡ answer (length text.now) (task_at (drop at text.now)) }
{
    let number = field_at(text, at, b"(task ")?;
    let image = field_at(text, number.end, b" image ")?;
    let level = field_at(text, image.end, b" level ")?;
    let reads = field_at(text, level.end, b" reads ")?;
    if !is_at(text, reads.end, b')') {
        return Err(Lost { at: reads.end });
    }
    Ok(Found {
        value: Task {
            number: number.value,
            image: image.value,
            level: level.value,
            reads: reads.value,
        },
        end: reads.end + 1,
    })
}
