// A header, and the step of the walk over it.
//
// A chunk is told by the place of its payload; its header is the 8 bytes ahead of that. Every place is even: the first is
// 20, and the pad of an odd payload keeps it so.
ghost use Rattle.std.specs.Prelude.{◌≡◌, ◌+◌, ◌-◌, ◌%◌, ◌^◌, ◌≤◌, ◌<◌, length};
ghost use Rattle.chunk.specs.Walks.{entry_of, own_size};
ghost use Rattle.chunk.specs.Code.{HeaderAt, Due, Fits, ends_at, placed_in, step_on};

use super::{Entry, Header, Refusal, Step, TrueSize};
use std::cmp::Ordering;

// The header ahead of a place.
pub fn header(file: &[u8], place: u64) -> Header
    requires { (8 ≤ place) × (place ≤ length file.now) }
    ensures { HeaderAt place file.now result }
{
    let i = place as usize;
    Header {
        name: le::read::<4>(file, i - 8),
        field: le::read::<4>(file, i - 4),
    }
}

// The entry of a chunk of a true size.
pub fn entry(place: u64, name: u64, size: TrueSize) -> Entry
    ensures { result ≡ entry_of place name size }
{
    Entry {
        name,
        place,
        size: size.bytes,
        source: size.source,
    }
}

// The place of the chunk after a payload: 8 bytes past its pad.
pub fn past(place: u64, size: u64) -> u64
    requires { (place % 2 ≡ 0) × (place + size + 9 < 2 ^ 64) }
    ensures { result ≡ place + size + size % 2 + 8 }
{
    (place + size + 9) / 2 * 2
}

// A chunk with no whole header after it: 8, the end, or 1 to 7 bytes. end is past its pad.
#[tactic(auto, unfolding(crate::specs::Code::ends_at, le::specs::Choice::pick))]
fn ends(len: u64, end: u64, e: Entry) -> Step
    ensures { result ≡ ends_at len end e }
{
    match len.cmp(&end) {
        Ordering::Less => Step::Stop(Refusal::PastEnd),
        Ordering::Equal => Step::Last(e),
        Ordering::Greater => Step::Cut(e),
    }
}

// The chunk of a true size, with what follows it. One test tells that all is well.
pub fn found(len: u64, place: u64, name: u64, size: TrueSize) -> Step
    requires { Fits len place size }
    ensures { result ≡ placed_in len (entry_of place name size) }
{
    let e = entry(place, name, size);
    let next = past(place, size.bytes);
    if len < next {
        return ends(len, next - 8, e);
    }
    Step::Chunk(e, next)
}

// A step of the 32-bit walk: every size field is the size, but all ones is 7.
pub fn step32(file: &[u8], place: u64) -> Step
    requires { Due file.now place }
    ensures { result ≡ step_on own_size file.now place }
{
    let h = header(file, place);
    if h.field == super::ONES {
        return Step::Stop(Refusal::UnknownSize);
    }
    let size = TrueSize::own(h.field);
    found(file.len() as u64, place, h.name, size)
}
