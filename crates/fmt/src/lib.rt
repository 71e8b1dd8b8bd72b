// The fmt record: how the audio's samples are laid out (000 A.2).
//
// A payload has 16, 18 or 40 bytes: tag 2, channels 2, rate 4, bytes a second 4, block 2, bits 2; then an extra length 2;
// then valid bits 2, channel mask 4, subformat 16.
#![tactic(auto)]

ghost use Rattle.std.specs.Prelude.{◌≡◌, ◌≤◌, ◌<◌, length};
ghost use Rattle.std.proofs.lemmas.List.Edits.{sets};
ghost use Rattle.chunk.specs.Refusals.{Ok};
ghost use Rattle.chunk.specs.Writes.{fitting, output_of, Writes};
ghost use Rattle.fmt.specs.Formats.{size_good, bits_good, samples_good, valid_bits, valid_good, record_good, format_in};
ghost use Rattle.fmt.specs.Code.{Fields, Longer, rest_good};
ghost use Rattle.fmt.specs.Writing.{head_bytes, extra_bytes, format_bytes, fields_fit, writable, format_out};

use chunk::Refusal;

// What a record's tag says of its samples: PCM, or the extensible form of it.
const PCM: u64 = 1;

const EXTENSIBLE: u64 = 0xfffe;

// The subformat of the extensible form, as two numbers of 8 bytes.
const SUBFORMAT_LOW: u64 = 0x0010_0000_0000_0001;

const SUBFORMAT_HIGH: u64 = 0x719b_3800_aa00_0080;

// A format record, which keeps the length of its payload.
// Kept: nine numbers, since C has the record so (symphedra_read_fmt), and one that is given to the writer may hold any.
#[derive(Clone, Copy, Debug, PartialEq, Eq)]
pub struct Format {
    // The payload's length: 16, 18 or 40.
    pub size: u64,
    // 1 or 0xFFFE.
    pub tag: u64,
    pub channels: u64,
    pub rate: u64,
    // Bytes a second, as the payload says.
    pub byterate: u64,
    // Bytes of one frame.
    pub block: u64,
    pub bits: u64,
    // Valid bits of a sample and the channel mask; 0 unless the size is 40.
    pub valid: u64,
    pub mask: u64,
}

impl Format {
    // The fields of a payload, judged by nothing.
    fn of(payload: &[u8]) -> Format
        requires { 16 ≤ length payload.now }
        ensures { Fields payload.now result }
    {
        let (valid, mask) = if payload.len() == 40 {
            (le::read::<2>(payload, 18), le::read::<4>(payload, 20))
        } else {
            (0, 0)
        };
        Format {
            size: payload.len() as u64,
            tag: le::read::<2>(payload, 0),
            channels: le::read::<2>(payload, 2),
            rate: le::read::<4>(payload, 4),
            byterate: le::read::<4>(payload, 8),
            block: le::read::<2>(payload, 12),
            bits: le::read::<2>(payload, 14),
            valid,
            mask,
        }
    }

    // The size is one that the tag allows.
    #[tactic(auto, unfolding(crate::specs::Formats::size_good, le::specs::Choice::pick))]
    fn size_good(self) -> bool
        ensures { result ≡ size_good self.tag self.size }
    {
        match self.tag {
            PCM => self.size == 16 || self.size == 18,
            EXTENSIBLE => self.size == 40,
            _ => false,
        }
    }

    // The bits are some that a sample may have.
    #[tactic(auto, unfolding(crate::specs::Formats::bits_good))]
    fn bits_good(self) -> bool
        ensures { result ≡ bits_good self.bits }
    {
        matches!(self.bits, 8 | 16 | 24 | 32)
    }

    // Channels and rate are at least 1, and a block is one sample of each channel.
    #[tactic(auto, unfolding(crate::specs::Formats::samples_good, le::specs::Choice::pick, le::specs::Choice::every))]
    fn samples_good(self) -> bool
        requires { self.channels < 65536 }
        ensures { result ≡ samples_good self.channels self.rate self.block self.bits }
    {
        1 <= self.channels
            && 1 <= self.rate
            && self.bits_good()
            && self.block == self.channels * self.bits / 8
    }

    // Valid bits lie from 1 to bits.
    #[tactic(auto, unfolding(le::specs::Choice::pick, le::specs::Choice::every))]
    fn valid_bits(self) -> bool
        ensures { result ≡ valid_bits self.bits self.valid }
    {
        (1..=self.bits).contains(&self.valid)
    }

    // The valid bits of a record of 40 bytes; another has zeros.
    #[tactic(auto, unfolding(crate::specs::Formats::valid_good, le::specs::Choice::pick, le::specs::Choice::every))]
    fn valid_good(self) -> bool
        ensures { result ≡ valid_good self.size self.bits self.valid self.mask }
    {
        if self.size == 40 {
            self.valid_bits()
        } else {
            self.valid == 0 && self.mask == 0
        }
    }

    // The rules that a record shows.
    #[tactic(auto, unfolding(crate::specs::Formats::record_good, le::specs::Choice::pick, le::specs::Choice::every))]
    fn record_good(self) -> bool
        requires { self.channels < 65536 }
        ensures { result ≡ record_good self }
    {
        self.size_good() && self.samples_good() && self.valid_good()
    }

    // What is left to judge of a payload of 18 or 40 bytes: the extra length, and of 40 the subformat and the valid bits.
    fn rest_good(self, payload: &[u8]) -> bool
        requires { Longer payload.now self }
        ensures { result ≡ rest_good payload.now self }
    {
        if payload.len() == 18 {
            return le::read::<2>(payload, 16) == 0;
        }
        le::read::<2>(payload, 16) == 22
            && le::read::<8>(payload, 24) == SUBFORMAT_LOW
            && le::read::<8>(payload, 32) == SUBFORMAT_HIGH
            && self.valid_bits()
    }

    // No field is too large for its bytes.
    #[tactic(auto, unfolding(crate::specs::Writing::fields_fit, le::specs::Choice::pick, le::specs::Choice::every))]
    fn fields_fit(self) -> bool
        ensures { result ≡ fields_fit self }
    {
        self.channels < 0x1_0000
            && self.rate < 0x1_0000_0000
            && self.byterate < 0x1_0000_0000
            && self.block < 0x1_0000
            && self.mask < 0x1_0000_0000
    }

    // A record that could have been read, and whose bytes a second are rate times block.
    #[tactic(auto, unfolding(crate::specs::Writing::writable, le::specs::Choice::pick, le::specs::Choice::every))]
    pub fn is_writable(self) -> bool
        ensures { result ≡ writable self }
    {
        self.fields_fit() && self.record_good() && self.byterate == self.rate * self.block
    }

    // Stores the first 16 bytes.
    fn store_head(self, out: &mut [u8])
        requires { 16 ≤ length out.old }
        ensures { out.new ≡ sets out.old 0 (head_bytes self) }
    {
        le::store::<2>(out, 0, self.tag);
        le::store::<2>(out, 2, self.channels);
        le::store::<4>(out, 4, self.rate);
        le::store::<4>(out, 8, self.byterate);
        le::store::<2>(out, 12, self.block);
        le::store::<2>(out, 14, self.bits);
    }

    // Stores what follows the first 16 bytes.
    #[tactic(auto, using(crate::proofs::Payloads::long_18, crate::proofs::Payloads::long_40))]
    fn store_extra(self, out: &mut [u8])
        requires { length (format_bytes self) ≤ length out.old }
        ensures { out.new ≡ sets out.old 16 (extra_bytes self) }
    {
        match self.size {
            18 => le::store::<2>(out, 16, 0),
            40 => {
                le::store::<2>(out, 16, 22);
                le::store::<2>(out, 18, self.valid);
                le::store::<4>(out, 20, self.mask);
                le::store::<8>(out, 24, SUBFORMAT_LOW);
                le::store::<8>(out, 32, SUBFORMAT_HIGH);
            }
            _ => {}
        }
    }

    // How many bytes the payload has.
    fn payload_length(self) -> usize
        ensures { result ≡ length (format_bytes self) }
    {
        match self.size {
            18 => 18,
            40 => 40,
            _ => 16,
        }
    }

    // Stores the payload at the start of out, or nothing where out is too short for it. It judges nothing: a record of a size
    // other than 18 and 40 has a payload of 16 bytes.
    pub fn store(self, out: &mut [u8])
        ensures { out.new ≡ output_of out.old (fitting out.old (Ok (format_bytes self))) }
    {
        if out.len() < self.payload_length() {
            return;
        }
        self.store_head(out);
        self.store_extra(out);
    }
}

// The record of a payload, which may be any bytes at all; 11 where a rule of fmt is broken. Most have 16.
pub fn read(payload: &[u8]) -> Result<Format, Refusal>
    ensures { result ≡ format_in payload.now }
{
    if payload.len() < 16 {
        return Err(Refusal::BadFmt);
    }
    let format = Format::of(payload);
    if format.size_good()
        && format.samples_good()
        && (format.size == 16 || format.rest_good(payload))
    {
        Ok(format)
    } else {
        Err(Refusal::BadFmt)
    }
}

// Writes a record's payload at the start of out, and answers its length. A refusal changes no byte.
pub fn write(format: Format, out: &mut [u8]) -> Result<u64, Refusal>
    ensures { Writes (format_out format) out.old out.new result }
{
    if !format.is_writable() {
        return Err(Refusal::BadRecord);
    }
    if (out.len() as u64) < format.size {
        return Err(Refusal::ShortOutput);
    }
    format.store(out);
    Ok(format.size)
}
