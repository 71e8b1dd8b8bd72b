// The parts of a bext payload: texts, date, time, and what follows Version, each with its rule (001 4.3).
//
// A reader asks what a part holds, a writer whether a part that it is given could have been read. Nothing is asked of the
// bytes.
#![tactic(auto)]

ghost use Rattle.std.specs.Prelude.{◌≡◌, ◌||◌, ◌+◌, ◌≤◌, ◌<◌, true, false, length, ltb};
ghost use Rattle.bext_parts.specs.Parts.{all_zero, text_of, text_good, two_digits, is_separator, date_good, time_good, set_of, rest_good, text_given, date_given, time_given, rest_of, rest_given};
ghost use Rattle.bext_parts.specs.Code.{part_of, run, Past};

// Whether a run of zeros, or of other bytes, ends within these bytes. All of them are looked at, so that where their number is
// known they are compared at once.
fn ends_in(s: &[u8], zeros: bool) -> bool
    ensures { result ≡ ltb (run zeros s.now) (length s.now) }
{
    let mut met = false;
    for &byte in s {
        met |= (byte == 0) != zeros;
    }
    met
}

// What is left of these bytes past the blocks of N bytes that a run takes up: fewer than N bytes of it stand there.
// Kept: a range of places, since split_first_chunk takes bext's reader some 20 instructions more.
fn past<const N: usize>(s: &[u8], zeros: bool) -> &[u8]
    requires { (0 < N) × (N ≤ 64) }
    ensures { Past zeros N s.now result.now }
{
    for i in 0..s.len() / N {
        if ends_in(&s[N * i..N * i + N], zeros) {
            return &s[N * i..];
        }
    }
    &s[s.len() / N * N..]
}

// How many bytes stand before the first zero.
pub fn text_length(s: &[u8]) -> usize
    ensures { result ≡ length (text_of s.now) }
{
    s.len() - past::<1>(past::<8>(past::<64>(s, false), false), false).len()
}

// Whether these bytes are all zero.
pub fn all_zero(s: &[u8]) -> bool
    ensures { result ≡ all_zero s.now }
{
    let Some(last) = s.last_chunk::<8>() else {
        return past::<1>(s, true).is_empty();
    };
    let rest = past::<8>(past::<64>(s, true), true);
    // The last 8 bytes hold what is left.
    rest.len() < 8 && !ends_in(last, true)
}

// Whether these bytes are a text, and zeros after it.
#[tactic(auto, using(crate::proofs::Texts::short_texts), unfolding(crate::specs::Parts::text_good))]
pub fn text_good(s: &[u8]) -> bool
    ensures { result ≡ text_good s.now }
{
    all_zero(&s[text_length(s)..])
}

// The length of the text in these bytes. Like date and time it is inlined: calls take bext's reader some 20 instructions more.
#[tactic(auto, using(crate::proofs::Texts::short_texts), unfolding(crate::specs::Code::part_of, crate::specs::Parts::text_good))]
#[inline(always)]
pub fn text(s: &[u8]) -> Option<u64>
    ensures { result ≡ part_of (text_good s.now) (length (text_of s.now)) }
{
    let n = text_length(s);
    all_zero(&s[n..]).then_some(n as u64)
}

// Two digits at a place, whose number lies from low to high.
#[tactic(auto, unfolding(crate::specs::Parts::two_digits, crate::specs::Parts::is_digit))]
fn two_digits(s: &[u8], at: usize, low: u8, high: u8) -> bool
    requires { at + 2 ≤ length s.now }
    ensures { result ≡ two_digits s.now at low high }
{
    let a = s[at];
    let b = s[at + 1];
    if !a.is_ascii_digit() || !b.is_ascii_digit() {
        return false;
    }
    let n = 10 * (a - b'0') + (b - b'0');
    (low..=high).contains(&n)
}

// Hyphen, underscore, colon, space or full stop.
#[tactic(auto, unfolding(crate::specs::Parts::is_separator))]
fn separator(b: u8) -> bool
    ensures { result ≡ is_separator b }
{
    matches!(b, b'-' | b'_' | b':' | b' ' | b'.')
}

// The rule for a date: yyyy?mm?dd.
// Kept apart from the rule for a time: a request changes each in its own home (docs/DECISIONS.md).
#[tactic(auto, unfolding(crate::specs::Parts::date_good))]
fn date_good(d: &[u8]) -> bool
    requires { 10 ≤ length d.now }
    ensures { result ≡ date_good d.now }
{
    two_digits(d, 0, 0, 99)
        && two_digits(d, 2, 0, 99)
        && separator(d[4])
        && two_digits(d, 5, 1, 12)
        && separator(d[7])
        && two_digits(d, 8, 1, 31)
}

// The rule for a time: hh?mm?ss.
#[tactic(auto, unfolding(crate::specs::Parts::time_good))]
fn time_good(t: &[u8]) -> bool
    requires { 8 ≤ length t.now }
    ensures { result ≡ time_good t.now }
{
    two_digits(t, 0, 0, 24)
        && separator(t[2])
        && two_digits(t, 3, 0, 59)
        && separator(t[5])
        && two_digits(t, 6, 0, 59)
}

// What is set in the bytes of a date or a time, by whether they keep its rule: none where they are all zero. Most are set, so
// that is asked first.
#[tactic(auto, unfolding(crate::specs::Code::part_of, crate::specs::Parts::set_of))]
fn stamp(s: &[u8], good: bool) -> Option<u64>
    requires { good ≡ true → all_zero s.now ≡ false }
    ensures { result ≡ part_of (all_zero s.now || good) (length (set_of s.now)) }
{
    if good {
        return Some(s.len() as u64);
    }
    all_zero(s).then_some(0)
}

// The length of the date in these bytes: none where they are all zero, else the first 10 are judged; fewer are bad.
// Kept: beside time, and date_given beside time_given, a line each: stamp has what they share, and each names its rule.
#[tactic(auto, using(crate::proofs::Stamps::set_or_short))]
#[inline(always)]
pub fn date(d: &[u8]) -> Option<u64>
    ensures { result ≡ part_of (all_zero d.now || date_good d.now) (length (set_of d.now)) }
{
    stamp(d, 10 <= d.len() && date_good(d))
}

// The length of the time in these bytes: none where they are all zero, else the first 8 are judged; fewer are bad.
#[tactic(auto, using(crate::proofs::Stamps::set_or_short))]
#[inline(always)]
pub fn time(t: &[u8]) -> Option<u64>
    ensures { result ≡ part_of (all_zero t.now || time_good t.now) (length (set_of t.now)) }
{
    stamp(t, 8 <= t.len() && time_good(t))
}

// The rule for the bytes after Version.
#[tactic(auto, unfolding(crate::specs::Parts::rest_good))]
pub fn rest_good(version: u64, rest: &[u8]) -> bool
    ensures { result ≡ rest_good version rest.now }
{
    version != 0 || all_zero(rest)
}

// Whether a text to write has at most n bytes, none of them zero.
#[tactic(auto, using(crate::proofs::Runs::whole_text), unfolding(crate::specs::Parts::text_given))]
pub fn text_given(t: &[u8], n: usize) -> bool
    ensures { result ≡ text_given n t.now }
{
    t.len() <= n && !ends_in(t, false)
}

// Whether a date to write is good, or not set.
#[tactic(auto, unfolding(crate::specs::Parts::date_given))]
pub fn date_given(d: &[u8]) -> bool
    ensures { result ≡ date_given d.now }
{
    d.is_empty() || d.len() == 10 && date_good(d)
}

// Whether a time to write is good, or not set.
#[tactic(auto, unfolding(crate::specs::Parts::time_given))]
pub fn time_given(t: &[u8]) -> bool
    ensures { result ≡ time_given t.now }
{
    t.is_empty() || t.len() == 8 && time_good(t)
}

// Whether the bytes after Version to write are good; none stand for zeros.
#[tactic(auto, unfolding(crate::specs::Parts::rest_given, crate::specs::Parts::rest_of))]
pub fn rest_given(version: u64, rest: &[u8]) -> bool
    ensures { result ≡ rest_given version (rest_of rest.now) }
{
    rest.is_empty() || rest.len() == 254 && rest_good(version, rest)
}
