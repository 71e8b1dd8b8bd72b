// The exported writers. Each gives its number, and in word 0 of written how many bytes it wrote: 0 after a refusal.
ghost use Rattle.chunk.specs.Writes.{Writes};
ghost use Rattle.bext.specs.Writing.{asked};
ghost use Rattle.records.specs.Writing.{WritesFmt, WritesBext, WritesChna};
ghost use Rattle.symphedra.specs.Exports.{file_of, WritesFile, riff_form, rf64_form, bw64_form};

use chunk::Refusal;
use file::Input;
use form::Form;

// Writes the payload of a format record, which is nine words.
pub fn symphedra_write_fmt(record: &[u64], out: &mut [u8], written: &mut [u64]) -> u32
    ensures { WritesFmt «record».now out.old written.old result out.new written.new }
{
    records::write_fmt(record, out, written)
}

// Writes the payload of a chna record of these counts and entries, in a file of so many channels.
pub fn symphedra_write_chna(
    tracks: u16,
    uids: u16,
    entries: &[u8],
    channels: u16,
    out: &mut [u8],
    written: &mut [u64],
) -> u32
    ensures { WritesChna channels tracks uids entries.now out.old written.old result out.new written.new }
{
    records::write_chna(tracks, uids, entries, channels, out, written)
}

// Writes the payload of a bext record. A date or time of no bytes is not set, and a rest of none is 254 zeros.
pub fn symphedra_write_bext(
    description: &[u8],
    originator: &[u8],
    reference: &[u8],
    date: &[u8],
    time: &[u8],
    timeref: u64,
    version: u16,
    rest: &[u8],
    history: &[u8],
    out: &mut [u8],
    written: &mut [u64],
) -> u32
    ensures { WritesBext (asked description.now originator.now reference.now date.now time.now timeref version rest.now history.now) out.old written.old result out.new written.new }
{
    records::write_bext(
        description,
        originator,
        reference,
        date,
        time,
        timeref,
        version,
        rest,
        history,
        out,
        written,
    )
}

// Writes a file of a form. Any number of words but nine is 16.
fn write_file(
    form: Form,
    words: &[u64],
    bext: &[u8],
    chna: &[u8],
    audio: &[u8],
    out: &mut [u8],
    written: &mut [u64],
) -> u32
    ensures { WritesFile form words.now bext.now chna.now audio.now out.old written.old result out.new written.new }
{
    words::lend(
        out,
        written,
        |out|
            ensures { Writes (file_of form words.entry.now bext.entry.now chna.entry.now audio.entry.now) out.old out.new result }
        {
            let format = records::format(words).ok_or(Refusal::BadRecord)?;
            let input = Input {
                format,
                bext,
                chna,
                audio,
            };
            writer::write(form, input, out)
        },
    )
}

// Kept: three functions for the three forms, since C calls each by its name (include/symphedra.h).

// Writes a RIFF file.
pub fn symphedra_write_riff(
    fmt: &[u64],
    bext: &[u8],
    chna: &[u8],
    audio: &[u8],
    out: &mut [u8],
    written: &mut [u64],
) -> u32
    ensures { WritesFile riff_form fmt.now bext.now chna.now audio.now out.old written.old result out.new written.new }
{
    write_file(Form::Riff, fmt, bext, chna, audio, out, written)
}

// Writes an RF64 file.
pub fn symphedra_write_rf64(
    fmt: &[u64],
    bext: &[u8],
    chna: &[u8],
    audio: &[u8],
    out: &mut [u8],
    written: &mut [u64],
) -> u32
    ensures { WritesFile rf64_form fmt.now bext.now chna.now audio.now out.old written.old result out.new written.new }
{
    write_file(Form::Rf64, fmt, bext, chna, audio, out, written)
}

// Writes a BW64 file.
pub fn symphedra_write_bw64(
    fmt: &[u64],
    bext: &[u8],
    chna: &[u8],
    audio: &[u8],
    out: &mut [u8],
    written: &mut [u64],
) -> u32
    ensures { WritesFile bw64_form fmt.now bext.now chna.now audio.now out.old written.old result out.new written.new }
{
    write_file(Form::Bw64, fmt, bext, chna, audio, out, written)
}
