// The records as C callers have them: read into lent words, written from words and runs.
#![tactic(auto)]

ghost use Rattle.std.specs.Prelude.{◌≡◌};
ghost use Rattle.chunk.specs.Refusals.{Ok};
ghost use Rattle.chunk.specs.Writes.{Writes};
ghost use Rattle.fmt.specs.Writing.{format_out};
ghost use Rattle.fmt.specs.Formats.{fmt_values};
ghost use Rattle.bext.specs.Records.{bext_values};
ghost use Rattle.bext.specs.Writing.{asked};
ghost use Rattle.chna.specs.Records.{chna_values};
ghost use Rattle.records.specs.Reading.{ReadsFmt, ReadsBext, PartsOf, ReadsChna, EntryOf};
ghost use Rattle.records.specs.Writing.{of_nine, given_in, WritesFmt, WritesBext, WritesChna};

use bext::{Bext, Parts};
use chna::Chna;
use chunk::Refusal;
use fmt::Format;

// The nine words of a format record.
// Kept: a function and no From for each record, since record and array are other crates' types; and a reader for each name in C.
#[tactic(auto, unfolding(fmt::specs::Formats::fmt_values))]
fn fmt_words(f: Format) -> [u64; 9]
    ensures { result ≡ fmt_values (Ok f) }
{
    [
        f.size, f.tag, f.channels, f.rate, f.byterate, f.block, f.bits, f.valid, f.mask,
    ]
}

// The words of the format record that a payload holds, or zeros.
pub fn read_fmt(payload: &[u8], words: &mut [u64]) -> u32
    ensures { ReadsFmt payload.now words.old result words.new }
{
    words::answer_or_zeros(fmt::read(payload).map(fmt_words), words)
}

// The eight words of a bext record.
#[tactic(auto, unfolding(bext::specs::Records::bext_values, bext::specs::Records::flag_of))]
fn bext_words(b: Bext) -> [u64; 8]
    ensures { result ≡ bext_values (Ok b) }
{
    [
        b.description_len,
        b.originator_len,
        b.reference_len,
        u64::from(b.date_set),
        u64::from(b.time_set),
        b.timeref,
        b.version,
        b.history_len,
    ]
}

// The words of the bext record that a payload holds, or zeros.
pub fn read_bext(payload: &[u8], words: &mut [u64]) -> u32
    ensures { ReadsBext payload.now words.old result words.new }
{
    words::answer_or_zeros(bext::read(payload).map(bext_words), words)
}

// Where each part of a bext payload stands, and how long it is; zeros where the payload is too short.
pub fn bext_parts(payload: &[u8], words: &mut [u64]) -> u32
    ensures { PartsOf payload.now words.old result words.new }
{
    if payload.len() < Bext::HISTORY {
        return words::zeros(0, 14, words);
    }
    let parts = Parts::of(payload);
    let values = [
        0,
        parts.description.len() as u64,
        Bext::ORIGINATOR as u64,
        parts.originator.len() as u64,
        Bext::REFERENCE as u64,
        parts.reference.len() as u64,
        Bext::DATE as u64,
        parts.date.len() as u64,
        Bext::TIME as u64,
        parts.time.len() as u64,
        Bext::REST as u64,
        parts.rest.len() as u64,
        Bext::HISTORY as u64,
        parts.history.len() as u64,
    ];
    words::answer(0, &values, words)
}

// The three words of a chna record.
#[tactic(auto, unfolding(chna::specs::Records::chna_values))]
fn chna_words(c: Chna) -> [u64; 3]
    ensures { result ≡ chna_values (Ok c) }
{
    [c.tracks, c.uids, c.entries]
}

// The words of the chna record that a payload holds in a file of so many channels, or zeros.
pub fn read_chna(payload: &[u8], channels: u16, words: &mut [u64]) -> u32
    ensures { ReadsChna channels payload.now words.old result words.new }
{
    words::answer_or_zeros(
        chna::read(payload, u64::from(channels)).map(chna_words),
        words,
    )
}

// Entry i of a chna payload, counted from 0: 1, its track index, and the places of its UID, track and pack reference; zeros
// for one that is not used or isn't there.
pub fn chna_entry(payload: &[u8], i: usize, words: &mut [u64]) -> u32
    ensures { EntryOf i payload.now words.old result words.new }
{
    let Some(entry) = chna::entry(payload, i) else {
        return words::zeros(0, 5, words);
    };
    let at = (4 + i * Chna::ENTRY) as u64;
    words::answer(0, &[1, entry.index, at + 2, at + 14, at + 28], words)
}

// The format record in these words, where they are nine.
#[tactic(auto, unfolding(crate::specs::Writing::given_in, crate::specs::Writing::format_of, le::specs::Choice::pick))]
pub fn format(words: &[u64]) -> Option<Format>
    ensures { result ≡ given_in words.now }
{
    // Kept: a slice pattern of the nine names proves too, but takes twice the lines.
    if words.len() != 9 {
        return None;
    }
    Some(Format {
        size: words[0],
        tag: words[1],
        channels: words[2],
        rate: words[3],
        byterate: words[4],
        block: words[5],
        bits: words[6],
        valid: words[7],
        mask: words[8],
    })
}

// Writes the payload of the format record in these words; 16 unless they are nine.
fn write_nine(words: &[u64], out: &mut [u8]) -> Result<u64, Refusal>
    ensures { Writes (of_nine words.now format_out) out.old out.new result }
{
    fmt::write(format(words).ok_or(Refusal::BadRecord)?, out)
}

// Writes the payload of a format record, which is nine words.
pub fn write_fmt(record: &[u64], out: &mut [u8], written: &mut [u64]) -> u32
    ensures { WritesFmt «record».now out.old written.old result out.new written.new }
{
    words::lend(out, written, |out| write_nine(record, out))
}

// Writes the payload of a chna record of these counts and entries, in a file of so many channels.
// Kept: the parameters are those of the C interface (symphedra_write_chna).
pub fn write_chna(
    tracks: u16,
    uids: u16,
    entries: &[u8],
    channels: u16,
    out: &mut [u8],
    written: &mut [u64],
) -> u32
    ensures { WritesChna channels tracks uids entries.now out.old written.old result out.new written.new }
{
    words::lend(out, written, |out| {
        chna::write(
            u64::from(tracks),
            u64::from(uids),
            entries,
            u64::from(channels),
            out,
        )
    })
}

// Writes the payload of a bext record. A date or time of no bytes is not set, and a rest of none is 254 zeros.
//
// Kept: the parameters are those of the C interface (symphedra_write_bext); inside they are one Parts.
pub fn write_bext(
    description: &[u8],
    originator: &[u8],
    reference: &[u8],
    date: &[u8],
    time: &[u8],
    timeref: u64,
    version: u16,
    rest: &[u8],
    history: &[u8],
    out: &mut [u8],
    written: &mut [u64],
) -> u32
    ensures { WritesBext (asked description.now originator.now reference.now date.now time.now timeref version rest.now history.now) out.old written.old result out.new written.new }
{
    words::lend(out, written, |out| {
        let parts = Parts {
            description,
            originator,
            reference,
            date,
            time,
            timeref,
            version: u64::from(version),
            rest,
            history,
        };
        bext::write(parts, out)
    })
}
