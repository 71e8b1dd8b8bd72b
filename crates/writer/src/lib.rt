// The file writer: a whole file of one of the three forms, from a format record, the payloads of bext and chna, and audio.
//
// It writes the form's name, its field and WAVE, then JUNK (RIFF) or ds64 (RF64, BW64) of 28 bytes, then fmt, bext, chna
// and data. An empty payload of bext or chna is left out.
#![tactic(auto)]

ghost use Rattle.std.specs.Prelude.{◌≡◌, ◌≤◌, length};
ghost use Rattle.std.proofs.lemmas.List.Edits.{sets};
ghost use Rattle.chunk.specs.Names.{BEXT, CHNA, FMT};
ghost use Rattle.chunk.specs.Writes.{Writes};
ghost use Rattle.fmt.specs.Writing.{format_bytes};
ghost use Rattle.chna.specs.Records.{pads_zeroed};
ghost use Rattle.file_parts.specs.Parts.{chunk_bytes, optional, optional_size};
ghost use Rattle.file_parts.specs.Code.{HasRoom, Puts};
ghost use Rattle.file.specs.Files.{file_bytes, file_out};
ghost use Rattle.writer.specs.Code.{Ready};

use chunk::{Name, Refusal};
use file::Input;
use file_parts::Output;
use fmt::Format;
use form::Form;

// Stores fmt.
fn put_fmt(format: Format, out: &mut Output)
    requires { (format.size ≡ 16) × HasRoom 24 out.old }
    ensures { Puts (chunk_bytes FMT (format_bytes format)) out.old out.new }
{
    out.put_header(Name::FMT, 16);
    out.put_part(16, |part| format.store(part));
}

// Stores bext, if there is one.
fn put_bext(bext: &[u8], out: &mut Output)
    requires { HasRoom (optional_size (length bext.now)) out.old }
    ensures { Puts (optional BEXT bext.now) out.old out.new }
{
    if !bext.is_empty() {
        out.put_chunk(Name::BEXT, bext.len() as u64, bext);
    }
}

// Stores chna, if there is one, the pad of each entry as zero.
//
// Kept: beside put_bext, whose payload is copied as it is by a step that asks for a part as long.
fn put_chna(chna: &[u8], out: &mut Output)
    requires { HasRoom (optional_size (length chna.now)) out.old }
    ensures { Puts (optional CHNA (pads_zeroed chna.now)) out.old out.new }
{
    if !chna.is_empty() {
        out.put_header(Name::CHNA, chna.len() as u64);
        out.put_part(chna.len(), |part| chna::copy(chna, part));
        out.put_pad(chna.len());
    }
}

// Stores the parts of a file of so many bytes.
fn put_file(form: Form, size: u64, input: Input, out: &mut Output)
    requires ready { Ready size input.format input.bext.now input.chna.now input.audio.now }
    requires room { HasRoom size out.old }
    ensures { Puts (file_bytes form input.entry.format input.entry.bext.now input.entry.chna.now input.entry.audio.now) out.old out.new }
{
    let bytes = input.audio.len() as u64;
    out.put_opening(form, size - 8, bytes, bytes / input.format.block);
    put_fmt(input.format, out);
    put_bext(input.bext, out);
    put_chna(input.chna, out);
    let own = file_parts::own_field(form, bytes);
    out.put_chunk(Name::DATA, own, input.audio);
}

// Stores a file of so many bytes at the start of out.
fn store(form: Form, size: u64, input: Input, out: &mut [u8])
    requires ready { Ready size input.format input.bext.now input.chna.now input.audio.now }
    requires room { size ≤ length out.old }
    ensures { out.new ≡ sets out.old 0 (file_bytes form input.entry.format input.entry.bext.now input.entry.chna.now input.entry.audio.now) }
{
    let mut start = Output { bytes: out, at: 0 };
    put_file(form, size, input, &mut start);
}

// Writes a file at the start of out: 16 for an input that no file can be made of, 17 for one too large for its fields,
// 15 where out is too short. A refusal changes no byte.
pub fn write(form: Form, input: Input, out: &mut [u8]) -> Result<u64, Refusal>
    ensures { Writes (file_out form input.entry.format input.entry.bext.now input.entry.chna.now input.entry.audio.now) out.old out.new result }
{
    let size = file::judge(form, input)?;
    if (out.len() as u64) < size {
        return Err(Refusal::ShortOutput);
    }
    store(form, size, input, out);
    Ok(size)
}
