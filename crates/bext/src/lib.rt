// The bext record: who made a recording, what it is, and when (001 4.3).
//
// A payload has at least 602 bytes: Description 256, Originator 32, Reference 32, date 10, time 8, TimeReference 8,
// Version 2, then 254 bytes, then the coding history to the end. The texts stay in the payload: the record says how long
// each is.
#![tactic(auto)]

mod parts;

ghost use Rattle.std.specs.Prelude.{◌≡◌};
ghost use Rattle.chunk.specs.Writes.{Writes};
ghost use Rattle.bext.specs.Records.{bext_in, read_as};
ghost use Rattle.bext.specs.Code.{numbers_in};
ghost use Rattle.bext.specs.Writing.{asked_of, bext_out};

use chunk::Refusal;
pub use parts::Parts;

// A record by numbers.
// Kept: lengths and flags, since the texts stay in the payload, and C has the record as eight words (symphedra_read_bext).
#[derive(Clone, Copy, Debug, PartialEq, Eq)]
pub struct Bext {
    pub description_len: u64,
    pub originator_len: u64,
    pub reference_len: u64,
    pub date_set: bool,
    pub time_set: bool,
    // Samples since midnight.
    pub timeref: u64,
    pub version: u64,
    // Of the coding history's text, without the zeros after it.
    pub history_len: u64,
}

impl Bext {
    // Where each part of a payload starts; Description starts it.
    pub const ORIGINATOR: usize = 256;

    pub const REFERENCE: usize = 288;

    pub const DATE: usize = 320;

    pub const TIME: usize = 330;

    pub const TIMEREF: usize = 338;

    pub const VERSION: usize = 346;
    // The 254 bytes after Version.
    pub const REST: usize = 348;

    pub const HISTORY: usize = 602;

    // The record of a payload, where it keeps all rules.
    fn of(payload: &[u8]) -> Option<Bext>
        ensures { result ≡ numbers_in payload.now }
    {
        if payload.len() < Bext::HISTORY {
            return None;
        }
        let description_len = bext_parts::text(&payload[..Bext::ORIGINATOR])?;
        let originator_len = bext_parts::text(&payload[Bext::ORIGINATOR..Bext::REFERENCE])?;
        let reference_len = bext_parts::text(&payload[Bext::REFERENCE..Bext::DATE])?;
        let date = bext_parts::date(&payload[Bext::DATE..Bext::TIME])?;
        let time = bext_parts::time(&payload[Bext::TIME..Bext::TIMEREF])?;
        let version = le::read::<2>(payload, Bext::VERSION);
        if !bext_parts::rest_good(version, &payload[Bext::REST..Bext::HISTORY]) {
            return None;
        }
        let history_len = bext_parts::text(&payload[Bext::HISTORY..])?;
        Some(Bext {
            description_len,
            originator_len,
            reference_len,
            date_set: date != 0,
            time_set: time != 0,
            timeref: le::read::<8>(payload, Bext::TIMEREF),
            version,
            history_len,
        })
    }
}

// The record of a payload, which may be any bytes at all: 13 where it breaks a rule of bext. It is inlined, since its answer is
// eight numbers: handed on in memory they take C's reader some 20 instructions more.
#[tactic(auto, using(crate::proofs::Answers::answered))]
#[inline(always)]
pub fn read(payload: &[u8]) -> Result<Bext, Refusal>
    ensures { result ≡ read_as (bext_in payload.now) }
{
    Bext::of(payload).ok_or(Refusal::BadBext)
}

// Writes a record's payload at the start of out; a rest of no bytes stands for 254 zeros. A refusal changes no byte: 16 for a
// record that could not have been read, then 15 where out is too short.
pub fn write(parts: Parts, out: &mut [u8]) -> Result<u64, Refusal>
    ensures { Writes (bext_out (asked_of parts.entry)) out.old out.new result }
{
    if !parts.is_writable() {
        return Err(Refusal::BadRecord);
    }
    let size = Bext::HISTORY + parts.history.len();
    if out.len() < size {
        return Err(Refusal::ShortOutput);
    }
    parts.store(out);
    Ok(size as u64)
}
