// Writes files of each form, with and without bext and chna, of even, odd and no audio, and prints each file's length, its
// table as the scan has it, and for a 64-bit form the four numbers of its ds64. The document's whole file is printed byte by
// byte. What is expected stands in the file stdout, worked out from document 01.
#![tactic(auto)]

ghost use Rattle.std.specs.Prelude.{◌≤◌};

use chunk::{Name, Refusal};
use file::Input;
use fmt::Format;
use form::Form;
use script::print::{ds64, rows};
use std::io;

// One frame of two channels.
const FRAME: [u8; 4] = [1, 0, 255, 255];

// A track sheet of one entry, whose pad is 7F.
const SHEET: [u8; 44] = *b"\x01\x00\x01\x00\x01\x00ATU_00000001AT_00010001_01AP_00010001\x7F";

// Two channels of 16 bits, 48,000.
const STEREO: Format = Format {
    size: 16,
    tag: 1,
    channels: 2,
    rate: 48000,
    byterate: 192000,
    block: 4,
    bits: 16,
    valid: 0,
    mask: 0,
};

// One channel of 8 bits, 8,000.
const MONO: Format = Format {
    size: 16,
    tag: 1,
    channels: 1,
    rate: 8000,
    byterate: 8000,
    block: 1,
    bits: 8,
    valid: 0,
    mask: 0,
};

// A line of bytes, as the document prints them.
fn bytes_of(rt: &impl Print, file: &[u8]) -> io::Result<()> {
    for b in file {
        print!(rt; "{b:02X} ")?;
    }
    println!(rt)
}

// The number of a scan, the rows of its table, and the numbers of ds64.
fn scan(rt: &impl Print, file: &[u8]) -> io::Result<()> {
    let scan = wave::scan(file);
    print!(rt; " {}", chunk::number(&scan.verdict))?;
    rows(rt, &scan.table)?;
    if 48 <= file.len() && le::read::<4>(file, 12) == Name::DS64 {
        print!(rt; ";")?;
        ds64(rt, file)?;
    }
    Ok(())
}

// What was written at the start of out.
fn written(rt: &impl Print, out: &[u8], answer: Result<u64, Refusal>) -> io::Result<()> {
    match answer {
        Err(r) => print!(rt; " refused {}", u32::from(r)),
        Ok(n) => {
            print!(rt; " {n} bytes:")?;
            match out.get(..n as usize) {
                Some(file) => scan(rt, file),
                None => Ok(()),
            }
        }
    }
}

// A line: what comes of a file, written into out.
fn write(rt: &impl Print, label: &str, form: Form, input: Input, out: &mut [u8]) -> io::Result<()> {
    rt.print(label)?;
    let answer = writer::write(form, input, out);
    written(rt, out, answer)?;
    println!(rt)
}

// A RIFF file of so many bytes of the track sheet and of the frame, written into out.
fn riff(rt: &impl Print, label: &str, chna: usize, audio: usize, out: &mut [u8]) -> io::Result<()>
    requires { (chna ≤ 44) × (audio ≤ 4) }
{
    let input = Input {
        format: STEREO,
        bext: &[],
        chna: &SHEET[..chna],
        audio: &FRAME[..audio],
    };
    write(rt, label, Form::Riff, input, out)
}

// The document's whole file, in an output of 85 bytes: the last one stays.
// Kept: beside short and pad, three lines each, that differ in the room and in the bytes that are printed.
fn whole(rt: &impl Print) -> io::Result<()> {
    let mut out = [0xEEu8; 85];
    riff(rt, "the document's file:", 0, 4, &mut out)?;
    bytes_of(rt, &out)
}

// An output of 83 bytes for it: nothing is written.
fn short(rt: &impl Print) -> io::Result<()> {
    let mut out = [0xEEu8; 83];
    riff(rt, "83 bytes of room:", 0, 4, &mut out)?;
    bytes_of(rt, &out[..4])
}

// The pad of a sheet's entry, in a file with no bext.
fn pad(rt: &impl Print) -> io::Result<()> {
    let mut out = [0xEEu8; 800];
    riff(rt, "the sheet's pad:", 44, 0, &mut out)?;
    bytes_of(rt, &out[112..124])
}

// One file.
fn one(rt: &impl Print, label: &str, form: Form, input: Input) -> io::Result<()> {
    let mut out = [0xEEu8; 800];
    write(rt, label, form, input, &mut out)
}

// Files in each form, of so many bytes of bext, all zero, of the track sheet and of the frame.
fn case(
    rt: &impl Print,
    label: &str,
    format: Format,
    bext: usize,
    chna: usize,
    audio: usize,
) -> io::Result<()>
    requires { (bext ≤ 603) × (chna ≤ 44) × (audio ≤ 4) }
{
    let zeros = [0u8; 603];
    let input = Input {
        format,
        bext: &zeros[..bext],
        chna: &SHEET[..chna],
        audio: &FRAME[..audio],
    };
    println!(rt; "{label}")?;
    one(rt, "  RIFF", Form::Riff, input)?;
    one(rt, "  RF64", Form::Rf64, input)?;
    one(rt, "  BW64", Form::Bw64, input)
}

// Kept: beside records and refused, a line for each case, since a table of them would say no more.
fn audio(rt: &impl Print) -> io::Result<()> {
    case(rt, "one frame", STEREO, 0, 0, 4)?;
    case(rt, "no audio", STEREO, 0, 0, 0)?;
    case(rt, "odd audio", MONO, 0, 0, 3)
}

fn records(rt: &impl Print) -> io::Result<()> {
    case(rt, "bext", STEREO, 602, 0, 4)?;
    case(rt, "chna", STEREO, 0, 44, 4)?;
    case(rt, "bext and chna", STEREO, 602, 44, 4)?;
    case(rt, "odd bext, odd audio", MONO, 603, 0, 3)
}

// What no writer takes.
fn refused(rt: &impl Print) -> io::Result<()> {
    case(rt, "ragged audio", STEREO, 0, 0, 3)?;
    case(rt, "bext of 601", STEREO, 601, 0, 4)?;
    case(rt, "chna of 43", STEREO, 0, 43, 4)
}

fn main(rt: HostRuntime) -> io::Result<()> {
    whole(&rt)?;
    short(&rt)?;
    audio(&rt)?;
    records(&rt)?;
    pad(&rt)?;
    refused(&rt)
}
