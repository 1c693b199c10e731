// Reads a condition into words that can be run one after the other, by recursion: the depth that remains falls at each call.
#![tactic(auto)]

ghost use Rattle.std.specs.Prelude.{◌+◌, ◌≤◌, ◌<◌, ◌≡◌, [], ◌∷◌, IfOk, length, drop, set};
ghost use Rattle.text_format.specs.Condition.{max_number, max_value};
ghost use Rattle.text_format.specs.Reading.{condition};
ghost use Rattle.condition_reader.specs.Words.{atom_of, code, skip_word, joint_node, max_words};
ghost use Rattle.condition_reader.specs.Steps.{NumberSays, FoundSays, AtomSays, JointSays, Room, Goes, GoesOn, Skips, lettered, opening_of};

// Room for the words of any condition: each takes four bytes of a text or more.
pub const WORDS: usize = 512;

// The largest number of an event or a location, and the largest value.
const MAX_NUMBER: u32 = 255;

const MAX_VALUE: u32 = 65535;

// The kinds of words, in byte 0. An atom has its number in byte 1 and its value in bytes 2 and 3; a connective stands behind its
// left side and has above byte 0 the number of words of its right side, so that they can be skipped.
pub const RETURNS: u32 = 0;

pub const ENDS: u32 = 1;

pub const NOT: u32 = 2;

pub const AND: u32 = 3;

pub const OR: u32 = 4;

// The first breach of a text, at a place: a byte that may not stand there, or the end; or a level too many would begin there.
#[derive(Clone, Copy)]
pub enum Breach {
    Illegal(usize),
    TooDeep(usize),
}

// A number, and the place behind it.
#[derive(Clone, Copy)]
pub struct Number {
    pub value: u32,
    pub next: usize,
}

// Where reading goes on, with so many words in the buffer.
#[derive(Clone, Copy)]
pub struct Step {
    pub at: usize,
    pub len: usize,
}

// The connective, and where reading goes on.
#[derive(Clone, Copy)]
pub struct Joint {
    pub and: bool,
    pub step: Step,
}

// What a condition begins with.
#[derive(Clone, Copy)]
pub enum Opening {
    Returns,
    Ends,
    Not,
    Bracket,
    Other,
}

// An atom's word, and the place behind it.
#[derive(Clone, Copy)]
pub struct Atom {
    pub word: u32,
    pub next: usize,
}

// A number of at most `most`, without a leading zero.
pub fn read_number(text: &[u8], from: usize, most: u32) -> Result<Number, Breach>
    requires from_in_bounds { from ≤ length text.now }
    requires le_most { 9 ≤ most }
    ensures { NumberSays text.now from most result }
{
    if text.len() <= from {
        return Err(Breach::Illegal(from));
    }
    let first = text[from];
    if (first < b'0') | (b'9' < first) {
        return Err(Breach::Illegal(from));
    }
    let mut value = u32::from(first - b'0');
    for at in from + 1..text.len() {
        let digit = text[at];
        if (digit < b'0') | (b'9' < digit) {
            return Ok(Number { value, next: at });
        }
        let more = 10 * u64::from(value) + u64::from(digit - b'0');
        if (value == 0) | (u64::from(most) < more) {
            return Err(Breach::Illegal(at));
        }
        value = more as u32;
    }
    Ok(Number {
        value,
        next: text.len(),
    })
}

// The place behind these bytes, one after the other.
pub fn read_word(text: &[u8], at: usize, bytes: &[u8]) -> Result<usize, Breach>
    requires { at ≤ length text.now }
    ensures { FoundSays text.now at bytes.now result }
{
    for (i, byte) in bytes.iter().enumerate() {
        if text.get(at + i) != Some(byte) {
            return Err(Breach::Illegal(at + i));
        }
    }
    Ok(at + bytes.len())
}

// Fixed bytes, from a step.
fn skip(text: &[u8], step: Step, bytes: &[u8]) -> Result<Step, Breach>
    requires { step.at ≤ length text.now }
    ensures { Skips text.now bytes.now step result }
{
    let at = read_word(text, step.at, bytes)?;
    Ok(Step { at, ..step })
}

// One more word.
fn push(words: &mut [u32], step: Step, word: u32) -> Step
    requires { step.len < length words.old }
    ensures { (words.new ≡ set words.old step.len word) × (result.at ≡ step.at) × (result.len ≡ step.len + 1) }
{
    words[step.len] = word;
    Step {
        len: step.len + 1,
        ..step
    }
}

// ` and ` or ` or `.
fn read_joint(text: &[u8], step: Step) -> Result<Joint, Breach>
    requires { step.at ≤ length text.now }
    ensures { JointSays text.now step result }
{
    let space = skip(text, step, b" ")?;
    if text.get(space.at) == Some(&b'o') {
        let step = skip(text, space, b"or ")?;
        Ok(Joint { and: false, step })
    } else {
        let step = skip(text, space, b"and ")?;
        Ok(Joint { and: true, step })
    }
}

// What a condition at a place begins with.
fn begins(text: &[u8], at: usize) -> Opening
    ensures { result ≡ opening_of (drop at text.now) }
{
    match text.get(at) {
        Some(b'r') => Opening::Returns,
        Some(b'x') => Opening::Ends,
        Some(b'n') => Opening::Not,
        Some(b'(') => Opening::Bracket,
        _ => Opening::Other,
    }
}

// The word of an atom.
fn node(returned: bool, k: u32, v: u32) -> u32
    requires { (k ≤ max_number) × (v ≤ max_value) }
    ensures { code (atom_of returned k v) ≡ result ∷ [] }
{
    let kind = if returned { RETURNS } else { ENDS };
    kind + 256 * k + 65536 * v
}

// Behind the letter at `at`: a number, `=` and a value.
fn read_atom(text: &[u8], at: usize, returned: bool) -> Result<Atom, Breach>
    requires { at < length text.now }
    ensures { AtomSays text.now at returned result }
{
    let which = read_number(text, at + 1, MAX_NUMBER)?;
    let equals = read_word(text, which.next, b"=")?;
    let value = read_number(text, equals, MAX_VALUE)?;
    Ok(Atom {
        word: node(returned, which.value, value.value),
        next: value.next,
    })
}

// The atom whose letter stands at a step.
fn put_atom(text: &[u8], step: Step, returned: bool, words: &mut [u32]) -> Result<Step, Breach>
    requires { Room text.now words.old step × (step.at < length text.now) }
    ensures { Goes text.now words.old words.new (lettered returned) step result }
{
    let atom = read_atom(text, step.at, returned)?;
    let behind = Step {
        at: atom.next,
        ..step
    };
    Ok(push(words, behind, atom.word))
}

// The word of a connective whose right side takes `n` words.
fn joint_word(and: bool, n: usize) -> u32
    requires { n ≤ max_words }
    ensures { result ≡ skip_word (joint_node and) n }
{
    let kind = if and { AND } else { OR };
    kind + 256 * (n as u32)
}

// A condition at a step, in which `depth` levels may still begin.
fn condition_at(text: &[u8], step: Step, depth: u8, words: &mut [u32]) -> Result<Step, Breach>
    requires { Room text.now words.old step }
    ensures { Goes text.now words.old words.new (condition depth) step result }
{
    let first = begins(text, step.at);
    match first {
        Opening::Other => Err(Breach::Illegal(step.at)),
        Opening::Returns => put_atom(text, step, true, words),
        Opening::Ends => put_atom(text, step, false, words),
        Opening::Not => {
            if depth == 0 {
                return Err(Breach::TooDeep(step.at));
            }
            let word = skip(text, step, b"not ")?;
            let inner = condition_at(text, word, depth - 1, words)?;
            Ok(push(words, inner, NOT))
        }
        Opening::Bracket => {
            if depth == 0 {
                return Err(Breach::TooDeep(step.at));
            }
            let open = skip(text, step, b"( ")?;
            let left = condition_at(text, open, depth - 1, words)?;
            let joint = read_joint(text, left)?;
            let behind = push(words, joint.step, joint_word(joint.and, 0));
            let right = condition_at(text, behind, depth - 1, words)?;
            let close = skip(text, right, b" )")?;
            let place = joint.step.len;
            words[place] = joint_word(joint.and, close.len - place - 1);
            Ok(close)
        }
    }
}

// The same from a step or from the first breach, which goes through unchanged.
pub fn read_condition(
    text: &[u8],
    step: Result<Step, Breach>,
    depth: u8,
    words: &mut [u32],
) -> Result<Step, Breach>
    requires { IfOk step (Room text.now words.old) }
    ensures { GoesOn text.now words.old words.new (condition depth) step result }
{
    condition_at(text, step?, depth, words)
}
