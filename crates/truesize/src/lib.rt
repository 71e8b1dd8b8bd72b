// The true size of a chunk with where it came from, and the scan's step over a header.
#![tactic(auto)]

ghost use Rattle.std.specs.Prelude.{◌≡◌, ◌+◌, ◌*◌, ◌≤◌, length, drop, OnErr};
ghost use Rattle.le.specs.Number.{number};
ghost use Rattle.chunk.specs.Code.{HeaderAt, step_on};
ghost use Rattle.form.specs.Forms.{ENTRIES, LEAST, ENTRY};
ghost use Rattle.truesize.specs.Sizes.{entries_in, entries_of, data_size, size_at, entry_size, ones_size, true_size};
ghost use Rattle.truesize.specs.Code.{entry_place, NoneBelow, Reaches, EntriesFit, Knows, IsKnown, Past};

use chunk::{Header, Name, Refusal, Source, Step, TrueSize};
use form::{Ds64, Head};

// The size that ds64 gives data.
fn data_size(ds64: Ds64) -> TrueSize
    ensures { result ≡ data_size ds64 }
{
    TrueSize {
        bytes: ds64.data_size,
        source: Source::DataSize,
    }
}

// Where the entry at a position stands, counted from 0.
fn place(position: u32) -> usize
    ensures { result ≡ entry_place position }
{
    (Ds64::END + Ds64::ENTRY * u64::from(position)) as usize
}

// The size that the entry at a position gives.
fn size_at(file: &[u8], position: u32) -> TrueSize
    requires { entry_place position + ENTRY ≤ length file.now }
    ensures { result ≡ size_at position (number 8 (entry_place position + 4) file.now) }
{
    TrueSize {
        bytes: le::read::<8>(file, place(position) + 4),
        source: Source::EntryAt(position),
    }
}

// The size that the first entry of a name gives, or 7. The first of the name among these places, where an entry may stand,
// is an entry if its position is below the count. Where their number is a constant, the loop is unrolled.
#[inline(always)]
fn first_size(file: &[u8], places: u32, count: u32, name: u64) -> Result<TrueSize, Refusal>
    requires all { count ≤ places }
    requires inside { Reaches file.now name places }
    ensures is { result ≡ entry_size 0 name (entries_in count (drop (20 + LEAST) file.now)) }
    ensures none { OnErr result (NoneBelow file.now name count) }
{
    for i in 0..places {
        if le::read::<4>(file, place(i)) == name {
            if count <= i {
                return Err(Refusal::UnknownSize);
            }
            return Ok(size_at(file, i));
        }
    }
    Err(Refusal::UnknownSize)
}

// The same. A file that a full ds64 would fit in is searched at all the places where an entry may stand.
fn entry_size(file: &[u8], count: u64, name: u64) -> Result<TrueSize, Refusal>
    requires { (20 + LEAST + ENTRY * count ≤ length file.now) × (count ≤ ENTRIES) }
    ensures { result ≡ entry_size 0 name (entries_in count (drop (20 + LEAST) file.now)) }
{
    let count = count as u32;
    if (file.len() as u64) < Ds64::FULL {
        first_size(file, count, count, name)
    } else {
        first_size(file, Ds64::LIMIT as u32, count, name)
    }
}

// What ds64 says of a chunk whose own field is all ones; 7 in RIFF.
fn ones_size(file: &[u8], head: Head, name: u64) -> Result<TrueSize, Refusal>
    requires { EntriesFit head file.now }
    ensures { result ≡ ones_size head.form head.ds64 (entries_of head file.now) name }
{
    if !head.form.is_wide() {
        return Err(Refusal::UnknownSize);
    }
    if name == Name::DATA {
        return Ok(data_size(head.ds64));
    }
    entry_size(file, head.ds64.count, name)
}

// The size of a chunk that ds64 is known to give: nothing is left to refuse, and an entry that isn't among the first 15 is
// the 16th.
pub fn known(file: &[u8], head: Head, name: u64) -> TrueSize
    requires { Knows head file.now name }
    ensures { IsKnown head file.now name result }
{
    if name == Name::DATA {
        return data_size(head.ds64);
    }
    let last = Ds64::LIMIT as u32 - 1;
    match first_size(file, last, last, name) {
        Ok(size) => size,
        Err(_) => size_at(file, last),
    }
}

// A step of the scan past ds64: a ds64 is out of place (4), a field that isn't all ones is the size, and ds64 knows the
// others (7).
pub fn step(file: &[u8], head: Head, place: u64, h: Header) -> Step
    requires { Past head file.now place × HeaderAt place file.now h }
    ensures { result ≡ step_on (true_size head (entries_of head file.now)) file.now place }
{
    if h.name == Name::DS64 {
        return Step::Stop(Refusal::BadDs64);
    }
    let len = file.len() as u64;
    let size = if h.field == chunk::ONES {
        match ones_size(file, head, h.name) {
            Ok(size) if size.bytes <= len - place => size,
            Ok(_) => return Step::Stop(Refusal::PastEnd),
            Err(refusal) => return Step::Stop(refusal),
        }
    } else {
        TrueSize::own(h.field)
    };
    chunk::steps::found(len, place, h.name, size)
}
