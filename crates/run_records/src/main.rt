// Runs the readers and writers of fmt, bext and chna on the payloads that its input describes.
//
// The input is a script (the crate script says how a payload is put together). nf and nb read fmt and bext from the first n
// bytes, and nc chna, with the place as the channel count; each then writes what it read. w writes the fmt record whose
// fields stand as numbers of 8 bytes, and reads it back; nd writes a bext with a description of n bytes, and the date and
// time that stand in their places. nz reads chna from n zeros. ne takes out of a chna of n bytes the entry whose number is
// the place, and np copies such a chna.
//
// Each prints 0 and the record's fields, or the refusal; then how many bytes are written and whether they are those that
// were read, and the answer to an output that is too short. An entry prints its index and identifiers, a copy whether it is
// the same bytes, and whether an output that is too short still is. What is expected stands in the file stdout, worked out from
// document 01.
#![tactic(auto)]

ghost use Rattle.std.specs.Prelude.{◌≤◌, length};

use bext::{Bext, Parts};
use chunk::Refusal;
use fmt::Format;
use script::{first, part};
use std::io;

fn refused(rt: &impl Print, r: Refusal) -> io::Result<()> {
    print!(rt; " {}", u32::from(r))
}

// What a writer answers.
fn answer(rt: &impl Print, written: Result<u64, Refusal>) -> io::Result<()> {
    match written {
        Err(r) => refused(rt, r),
        Ok(n) => print!(rt; " {n}"),
    }
}

// Whether some bytes are those that they were.
fn compared(rt: &impl Print, now: &[u8], before: &[u8]) -> io::Result<()> {
    rt.print(if now == before { " same" } else { " changed" })
}

// What a writer answers, and whether it wrote the bytes that were read.
fn written(
    rt: &impl Print,
    written: Result<u64, Refusal>,
    out: &[u8],
    payload: &[u8],
) -> io::Result<()> {
    print!(rt; "; written")?;
    answer(rt, written)?;
    if let Ok(n) = written {
        compared(rt, first(out, n as usize), payload)?;
    }
    Ok(())
}

// What a writer answers to an output that is too short.
fn short(rt: &impl Print, written: Result<u64, Refusal>) -> io::Result<()> {
    print!(rt; ", short")?;
    answer(rt, written)
}

// What a reader of fmt says: 0 and the fields, or the refusal.
fn format(rt: &impl Print, read: Result<Format, Refusal>) -> io::Result<()> {
    match read {
        Err(r) => refused(rt, r),
        Ok(r) => {
            print!(rt; " 0 {} {} {} {}", r.size, r.tag, r.channels, r.rate)?;
            print!(rt;
                " {} {} {} {} {}",
                r.byterate, r.block, r.bits, r.valid, r.mask
            )
        }
    }
}

// Reads a payload as fmt, and writes the record.
// Kept: beside bext and chna, since they differ in the writer, in what it takes and in the room that is too short.
fn fmt(rt: &impl Print, payload: &[u8]) -> io::Result<()> {
    print!(rt; ":")?;
    let read = fmt::read(payload);
    format(rt, read)?;
    if let Ok(record) = read {
        let mut out = [0u8; 4096];
        let n = fmt::write(record, &mut out);
        written(rt, n, &out, payload)?;
        let mut less = [0u8; 15];
        short(rt, fmt::write(record, &mut less))?;
    }
    Ok(())
}

// The fmt record whose fields stand as numbers of 8 bytes.
fn fields(file: &[u8]) -> Format
    requires { 72 ≤ length file.now }
{
    Format {
        size: le::read::<8>(file, 0),
        tag: le::read::<8>(file, 8),
        channels: le::read::<8>(file, 16),
        rate: le::read::<8>(file, 24),
        byterate: le::read::<8>(file, 32),
        block: le::read::<8>(file, 40),
        bits: le::read::<8>(file, 48),
        valid: le::read::<8>(file, 56),
        mask: le::read::<8>(file, 64),
    }
}

// Writes a fmt record and reads it back.
fn given_fmt(rt: &impl Print, record: Format) -> io::Result<()> {
    let mut out = [0u8; 4096];
    let wrote = fmt::write(record, &mut out);
    print!(rt; ": written")?;
    answer(rt, wrote)?;
    if let Ok(n) = wrote {
        print!(rt; ", back")?;
        format(rt, fmt::read(first(&out, n as usize)))?;
    }
    Ok(())
}

// Whether a date or a time is set.
fn set(flag: bool) -> &'static str {
    if flag { "set" } else { "none" }
}

// The fields of bext.
fn bext_fields(rt: &impl Print, r: Bext) -> io::Result<()> {
    print!(rt;
        " 0 {} {} {}",
        r.description_len, r.originator_len, r.reference_len
    )?;
    print!(rt; " {} {}", set(r.date_set), set(r.time_set))?;
    print!(rt; " {} {} {}", r.timeref, r.version, r.history_len)
}

// Reads a payload as bext, and writes the record.
fn bext(rt: &impl Print, payload: &[u8]) -> io::Result<()> {
    print!(rt; ":")?;
    match bext::read(payload) {
        Err(r) => refused(rt, r),
        Ok(r) => {
            bext_fields(rt, r)?;
            let parts = Parts::of(payload);
            let mut out = [0u8; 4096];
            let n = bext::write(parts, &mut out);
            written(rt, n, &out, payload)?;
            let mut less = [0u8; 601];
            short(rt, bext::write(parts, &mut less))
        }
    }
}

// Writes a bext with a description, the date and the time that stand in their places, and nothing else.
fn given_bext(rt: &impl Print, description: &[u8], file: &[u8]) -> io::Result<()> {
    let parts = Parts {
        description,
        originator: &[],
        reference: &[],
        date: part(file, 320, 10),
        time: part(file, 330, 8),
        timeref: 0,
        version: 0,
        rest: &[],
        history: &[],
    };
    let mut out = [0u8; 4096];
    let n = bext::write(parts, &mut out);
    print!(rt; ": written")?;
    answer(rt, n)
}

// What is read as chna: track count, UID count, entries.
fn chna_fields(rt: &impl Print, payload: &[u8], channels: u64) -> io::Result<()> {
    match chna::read(payload, channels) {
        Err(r) => refused(rt, r),
        Ok(r) => print!(rt; " 0 {} {} {}", r.tracks, r.uids, r.entries),
    }
}

// A chna of the counts and entries in a payload, good or not, written.
fn chna_into(payload: &[u8], channels: u64, out: &mut [u8]) -> Result<u64, Refusal>
    requires { 4 ≤ length payload.now }
{
    chna::write(
        le::read::<2>(payload, 0),
        le::read::<2>(payload, 2),
        &payload[4..],
        channels,
        out,
    )
}

// Reads a payload as chna, and writes them, good or not.
fn chna(rt: &impl Print, payload: &[u8], channels: u64) -> io::Result<()> {
    print!(rt; ":")?;
    chna_fields(rt, payload, channels)?;
    if 4 <= payload.len() {
        let mut out = [0u8; 4096];
        let n = chna_into(payload, channels, &mut out);
        written(rt, n, &out, payload)?;
        let mut less = [0u8; 3];
        short(rt, chna_into(payload, channels, &mut less))?;
    }
    Ok(())
}

// Reads n zeros as chna.
fn zeros(rt: &impl Print, n: usize) -> io::Result<()> {
    let none = [0u8; 65536];
    print!(rt; ":")?;
    chna_fields(rt, first(&none, n), 2)
}

// An entry of a chna payload, good or not.
fn entry(rt: &impl Print, payload: &[u8], i: usize) -> io::Result<()> {
    let Some(e) = chna::entry(payload, i) else {
        return print!(rt; ": unused");
    };
    print!(rt; ": {} ", e.index)?;
    rt.write_all(&e.uid)?;
    print!(rt; " ")?;
    rt.write_all(&e.track)?;
    print!(rt; " ")?;
    rt.write_all(&e.pack)
}

// Copies a chna payload, good or not.
fn copy(rt: &impl Print, payload: &[u8]) -> io::Result<()> {
    let mut out = [0u8; 84];
    chna::copy(payload, &mut out);
    print!(rt; ": copied")?;
    compared(rt, first(&out, payload.len()), payload)?;
    let mut less = [7u8; 3];
    chna::copy(payload, &mut less);
    print!(rt; ", short")?;
    compared(rt, &less, &[7u8; 3])
}

// A line: what a command that is none of the script's asks, at a place and after the number n.
// Kept: a match, since each command takes other things than the next.
fn command(rt: &impl Print, b: u8, at: usize, n: usize, file: &[u8]) -> io::Result<()> {
    let payload = first(file, n);
    match b {
        b'f' => fmt(rt, payload)?,
        b'b' => bext(rt, payload)?,
        b'c' => chna(rt, payload, at as u64)?,
        b'w' if 72 <= file.len() => given_fmt(rt, fields(file))?,
        b'd' => given_bext(rt, payload, file)?,
        b'z' => zeros(rt, n)?,
        b'e' => entry(rt, payload, at)?,
        b'p' => copy(rt, payload)?,
        _ => return Ok(()),
    }
    println!(rt)
}

fn main(rt: HostRuntime) -> io::Result<()> {
    script::run::<2048, _, _>(&rt, |b, state, file, _| {
        command(&rt, b, state.at, state.n as usize, file)
    })
}
