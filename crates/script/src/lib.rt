// A file under construction, by one character of a script at a time.
//
// Digits are a decimal number n; @ goes to place n; comma, full stop, plus and ^ put n as 1, 2, 4 or 8 bytes; * puts four
// bytes of ones; "text" puts a text; = keeps the file, ! takes the kept one back; a semicolon starts a comment, to the end
// of the line. (text) is to be printed, and any other character is a command to the program that runs the script.
#![tactic(auto)]

mod input;
pub mod print;

ghost use Rattle.std.specs.Prelude.{◌≡◌, ◌<◌, length, take, drop};
ghost use Rattle.script.specs.Scripts.{after, command_of, laid, place_after, put_at, sign_of, started, work};

pub use input::run;

// What the next character belongs to.
#[derive(Clone, Copy, Debug, PartialEq, Eq)]
pub enum Mode {
    Command,
    // A text to put.
    Text,
    // A text to print.
    Label,
    Comment,
}

// What the characters so far have come to.
#[derive(Clone, Copy, Debug, PartialEq, Eq)]
pub struct State {
    pub mode: Mode,
    // Where the next byte goes.
    pub at: usize,
    // The number so far.
    pub n: u64,
}

// What a character means.
#[derive(Clone, Copy, Debug, PartialEq, Eq)]
pub enum Sign {
    // A digit of the number.
    Digit(u8),
    // Go to the place that is the number.
    Go,
    // Put the low bytes of a value.
    Put { width: usize, value: u64 },
    // The next character belongs to this.
    Enter(Mode),
    // Keep the file.
    Keep,
    // Take the kept file back.
    Back,
    // Left to the program: print the character.
    Print,
    // Left to the program: a command of its own, or a space.
    Own,
}

// Four bytes of ones, as a number.
const ONES: u64 = 0xffff_ffff;

// A character among the commands, after the number n.
#[tactic(auto, unfolding(crate::specs::Scripts::command_of))]
fn command(b: u8, n: u64) -> Sign
    ensures { result ≡ command_of b n }
{
    match b {
        b'0'..=b'9' => Sign::Digit(b - b'0'),
        b'@' => Sign::Go,
        b',' => Sign::Put { width: 1, value: n },
        b'.' => Sign::Put { width: 2, value: n },
        b'+' => Sign::Put { width: 4, value: n },
        b'^' => Sign::Put { width: 8, value: n },
        b'*' => Sign::Put {
            width: 4,
            value: ONES,
        },
        b'"' => Sign::Enter(Mode::Text),
        b'(' => Sign::Enter(Mode::Label),
        b';' => Sign::Enter(Mode::Comment),
        b'=' => Sign::Keep,
        b'!' => Sign::Back,
        _ => Sign::Own,
    }
}

// Puts the low bytes of a number at a place, the lowest first, where they fit; answers the place after them.
#[tactic(auto, unfolding(crate::specs::Scripts::place_after, crate::specs::Scripts::put_at))]
fn put(file: &mut [u8], at: usize, width: usize, value: u64) -> usize
    ensures value { result ≡ place_after at width (length file.old) }
    ensures file_after { file.new ≡ put_at at width value file.old }
{
    if file.len() < width || file.len() - width < at {
        return at;
    }
    let place = &mut file[at..at + width];
    // Kept: no to_le_bytes, since the width may be any number (put_at, specs/Scripts.antt).
    let mut rest = value;
    for byte in place.iter_mut() {
        *byte = (rest % 256) as u8;
        rest /= 256;
    }
    at + width
}

// Copies bytes over the first of others, where they fit.
#[tactic(auto, unfolding(crate::specs::Scripts::laid))]
fn copy(from: &[u8], to: &mut [u8])
    ensures { to.new ≡ laid from.now to.old }
{
    if from.len() <= to.len() {
        to[..from.len()].copy_from_slice(from);
    }
}

// The first n bytes, or as many as there are.
pub fn first(s: &[u8], n: usize) -> &[u8]
    ensures { result.now ≡ take n s.now }
{
    &s[..n.min(s.len())]
}

// The n bytes at a place, or as many as there are.
pub fn part(s: &[u8], at: usize, n: usize) -> &[u8]
    ensures { result.now ≡ take n (drop at s.now) }
{
    first(&s[at.min(s.len())..], n)
}

impl State {
    // The state before the first character.
    pub fn start() -> State
        ensures { result ≡ started }
    {
        State {
            mode: Mode::Command,
            at: 0,
            n: 0,
        }
    }

    // What the next character means.
    #[tactic(auto, unfolding(crate::specs::Scripts::sign_of, crate::specs::Scripts::meaning, crate::specs::Scripts::within))]
    pub fn sign(self, b: u8) -> Sign
        ensures { result ≡ sign_of self b }
    {
        match (self.mode, b) {
            (Mode::Command, _) => command(b, self.n),
            (Mode::Text, b'"') | (Mode::Label, b')') | (Mode::Comment, b'\n') => Sign::Enter(
                Mode::Command,
            ),
            (Mode::Text, _) => Sign::Put {
                width: 1,
                value: u64::from(b),
            },
            (Mode::Label, _) => Sign::Print,
            (Mode::Comment, _) => Sign::Enter(Mode::Comment),
        }
    }

    // The state after a character that means this, and the file and the kept file.
    #[tactic(auto, unfolding(crate::specs::Scripts::after))]
    pub fn after(self, sign: Sign, file: &mut [u8], kept: &mut [u8]) -> State
        ensures { work result file.new kept.new ≡ after sign self file.old kept.old }
    {
        let still = State { n: 0, ..self };
        match sign {
            Sign::Digit(d) => State {
                n: (self.n % 0x1000_0000_0000_0000) * 10 + u64::from(d),
                ..self
            },
            Sign::Go => State {
                at: self.n as usize,
                ..still
            },
            Sign::Put { width, value } => State {
                at: put(file, self.at, width, value),
                ..still
            },
            Sign::Enter(mode) => State { mode, ..still },
            Sign::Keep => {
                copy(file, kept);
                still
            }
            Sign::Back => {
                copy(kept, file);
                still
            }
            Sign::Print | Sign::Own => still,
        }
    }
}
