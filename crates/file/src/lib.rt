// The file that is written of a form, a format record, the payloads of bext and chna, and audio: how long it is, or why there
// is none.
//
// An empty payload of bext or chna is left out.
#![tactic(auto)]

ghost use Rattle.std.specs.Prelude.{◌≡◌, ◌^◌, ◌<◌};
ghost use Rattle.chunk.specs.Writes.{written_of};
ghost use Rattle.file_parts.specs.Parts.{chunk_size, optional_size};
ghost use Rattle.file.specs.Files.{file_out};
ghost use Rattle.file.specs.Code.{file_size};

use chunk::Refusal;
use fmt::Format;
use form::Form;

// The largest size that a 32-bit field holds: all ones stands for none.
const LARGEST: u64 = 0xffff_fffe;

// What a file is written of: a format record, the payloads of bext and chna, each empty where the file is to have none, and
// audio.
#[derive(Clone, Copy, Debug, PartialEq, Eq)]
pub struct Input<'a> {
    pub format: Format,
    pub bext: &'a [u8],
    pub chna: &'a [u8],
    pub audio: &'a [u8],
}

impl Input<'_> {
    ghost use Rattle.std.specs.Prelude.{◌||◌, length, eqb};
    ghost use Rattle.std.specs.Result.{is_ok};
    ghost use Rattle.bext.specs.Records.{bext_in};
    ghost use Rattle.chna.specs.Records.{chna_in};
    ghost use Rattle.file.specs.Files.{input_good};

    // Whether bext's payload is absent or keeps its rules.
    // Kept: beside chna_good, since a closure for the reader is as long as the line.
    #[tactic(auto, using(crate::proofs::Inputs::bext_read))]
    fn bext_good(self) -> bool
        ensures { result ≡ eqb (length self.entry.bext.now) 0 || is_ok (bext_in self.entry.bext.now) }
    {
        self.bext.is_empty() || bext::read(self.bext).is_ok()
    }

    // Whether chna's payload is absent or keeps its rules.
    #[tactic(auto, using(crate::proofs::Inputs::chna_read))]
    fn chna_good(self) -> bool
        ensures { result ≡ eqb (length self.entry.chna.now) 0 || is_ok (chna_in self.entry.format.channels self.entry.chna.now) }
    {
        self.chna.is_empty() || chna::read(self.chna, self.format.channels).is_ok()
    }

    // Whether a file can be made of these.
    #[tactic(auto, unfolding(crate::specs::Files::input_good, le::specs::Choice::pick, le::specs::Choice::every))]
    fn is_good(self) -> bool
        ensures { result ≡ input_good self.entry.format self.entry.bext.now self.entry.chna.now self.entry.audio.now }
    {
        self.format.is_writable()
            && self.format.size == 16
            && self.bext_good()
            && self.chna_good()
            && self.audio.len() as u64 % self.format.block == 0
    }
}

// The bytes of a chunk with so large a payload.
fn chunk_size(n: u64) -> u64
    requires { n < 2 ^ 63 }
    ensures { result ≡ chunk_size n }
{
    8 + n + n % 2
}

// None where the payload is empty.
fn optional_size(n: u64) -> u64
    requires { n < 2 ^ 63 }
    ensures { result ≡ optional_size n }
{
    if n == 0 { 0 } else { chunk_size(n) }
}

// The bytes of a file.
fn file_size(bext: u64, chna: u64, audio: u64) -> u64
    requires { (bext < 2 ^ 40) × ((chna < 2 ^ 40) × (audio < 2 ^ 63)) }
    ensures { result ≡ file_size bext chna audio }
{
    72 + optional_size(bext) + optional_size(chna) + chunk_size(audio)
}

// Judges the whole input, and tells how long its file is: 16 where no file can be made of it, 17 where a size does not fit
// its field.
pub fn judge(form: Form, input: Input) -> Result<u64, Refusal>
    ensures { result ≡ written_of (file_out form input.entry.format input.entry.bext.now input.entry.chna.now input.entry.audio.now) }
{
    if !input.is_good() {
        return Err(Refusal::BadRecord);
    }
    if LARGEST < input.bext.len() as u64 {
        return Err(Refusal::TooLarge);
    }
    let size = file_size(
        input.bext.len() as u64,
        input.chna.len() as u64,
        input.audio.len() as u64,
    );
    if !form.is_wide() && LARGEST < size - 8 {
        return Err(Refusal::TooLarge);
    }
    Ok(size)
}
