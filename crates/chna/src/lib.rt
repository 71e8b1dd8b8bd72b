// The chna record: which channel carries which part of the audio's description (002 8).
//
// A payload is the track count 2 and the UID count 2, then entries of 40 bytes (chna_entry). The record's entries stay in the
// bytes that were lent; entry takes out one.
#![tactic(auto)]

ghost use Rattle.std.specs.Prelude.{◌≡◌};
ghost use Rattle.chunk.specs.Refusals.{Ok};
ghost use Rattle.chunk.specs.Writes.{fitting, output_of, Writes};
ghost use Rattle.chna_entry.specs.Entries.{value_of};
ghost use Rattle.chna.specs.Records.{entry_at, whole_of, whole_good, chna_in, read_as, chna_from, pads_zeroed};

use chna_entry::Entry;
use chunk::Refusal;

// A record: its two counts and how many entries it has.
#[derive(Clone, Copy, Debug, PartialEq, Eq)]
pub struct Chna {
    // The track count: how many different tracks the used entries name.
    pub tracks: u64,
    // The UID count: how many entries are used.
    pub uids: u64,
    // All entries, the unused ones too.
    pub entries: u64,
}

impl Chna {
    // The most entries that a record may have.
    pub const LIMIT: usize = 1024;
    // The bytes of an entry.
    pub const ENTRY: usize = chna_entry::SIZE;
}

// The rules of a record whose entries are given as bytes. It goes from the last entry to the first: an index counts where
// no later entry has it, which its bit in marks tells. Marks has a bit for each index of 16 bits.
// Kept: counts, entries and channels come one by one, here and in write, as C has them (symphedra_write_chna).
fn whole_good(entries: &[u8], tracks: u64, uids: u64, channels: u64) -> bool
    ensures { result ≡ whole_good channels (whole_of tracks uids entries.now) }
{
    let count = entries.len() / Chna::ENTRY;
    if Chna::LIMIT < count {
        return false;
    }
    // Kept: bits in words and no set, since there is no heap (docs/DECISIONS.md).
    let mut marks = [0u64; 1024];
    let mut different = 0;
    let mut used = 0;
    for i in (0..count).rev() {
        let at = i * Chna::ENTRY;
        let e = &entries[at..at + Chna::ENTRY];
        if chna_entry::is_unused(e) {
            continue;
        }
        if !chna_entry::used_good(e, channels) {
            return false;
        }
        let index = le::read::<2>(e, 0);
        let cell = (index / 64) as usize;
        let bit = 1 << (index % 64);
        different += u64::from(marks[cell] & bit == 0);
        marks[cell] |= bit;
        used += 1;
    }
    uids == used && tracks == different
}

// The record of a payload, which may be any bytes at all, in a file of so many channels. A payload that breaks a rule of
// chna is 14.
pub fn read(payload: &[u8], channels: u64) -> Result<Chna, Refusal>
    ensures { result ≡ read_as (chna_in channels payload.now) }
{
    if payload.len() < 4 || (payload.len() - 4) % Chna::ENTRY != 0 {
        return Err(Refusal::BadChna);
    }
    let tracks = le::read::<2>(payload, 0);
    let uids = le::read::<2>(payload, 2);
    let entries = &payload[4..];
    if !whole_good(entries, tracks, uids, channels) {
        return Err(Refusal::BadChna);
    }
    Ok(Chna {
        tracks,
        uids,
        entries: (entries.len() / Chna::ENTRY) as u64,
    })
}

// Entry i, counted from 0, of a payload, which may be any bytes at all. One that isn't there is not used. It judges nothing:
// that is read's part.
pub fn entry(payload: &[u8], i: usize) -> Option<Entry>
    ensures { result ≡ value_of (entry_at i payload.now) }
{
    if payload.len() < 4 || (payload.len() - 4) / Chna::ENTRY <= i {
        return None;
    }
    let at = 4 + i * Chna::ENTRY;
    Entry::read(&payload[at..at + Chna::ENTRY])
}

// Sets the pad of each whole entry of a payload to zero: its last byte, so the first stands at 43.
fn zero_pads(payload: &mut [u8])
    ensures { payload.new ≡ pads_zeroed payload.old }
{
    for at in (43..payload.len()).step_by(Chna::ENTRY) {
        payload[at] = 0;
    }
}

// Copies a payload, which may be any bytes at all, to the start of out, the pad of each whole entry as zero. An out that is
// too short is left as it was. It judges nothing: that is read's part.
pub fn copy(payload: &[u8], out: &mut [u8])
    ensures { out.new ≡ output_of out.old (fitting out.old (Ok (pads_zeroed payload.now))) }
{
    let n = payload.len();
    if out.len() < n {
        return;
    }
    out[..n].copy_from_slice(payload);
    zero_pads(&mut out[..n]);
}

// Writes the payload of a record, whose entries are given as they stand in a payload, to the start of out. The pad of a
// used entry may hold anything, and is written as zero. A refusal changes no byte.
// Kept: the counts and the entries are parameters, and no struct. Only the judgement above takes them too, and each caller has
// them as numbers and bytes.
pub fn write(
    tracks: u64,
    uids: u64,
    entries: &[u8],
    channels: u64,
    out: &mut [u8],
) -> Result<u64, Refusal>
    ensures { Writes (chna_from channels tracks uids entries.now) out.old out.new result }
{
    if entries.len() % Chna::ENTRY != 0 || !whole_good(entries, tracks, uids, channels) {
        return Err(Refusal::BadRecord);
    }
    let size = 4 + entries.len();
    if out.len() < size {
        return Err(Refusal::ShortOutput);
    }
    le::store::<2>(out, 0, tracks);
    le::store::<2>(out, 2, uids);
    out[4..size].copy_from_slice(entries);
    zero_pads(&mut out[..size]);
    Ok(size as u64)
}
