// The parts of a file that is written: a chunk, and all that stands ahead of fmt.
#![tactic(auto)]

ghost use Rattle.std.specs.Prelude.{◌≡◌, ◌++◌, ◌+◌, ◌%◌, ◌≤◌, length};
ghost use Rattle.le.specs.Number.{bytes};
ghost use Rattle.chunk.specs.Names.{WAVE};
ghost use Rattle.form.specs.Forms.{LEAST};
ghost use Rattle.file_parts.specs.Parts.{pad_of, chunk_with, chunk_bytes, chunk_size, own_field, opening_bytes};

use chunk::Name;
use form::{Ds64, Form};

// The size field of a form or of data: all ones in the 64-bit forms.
pub fn own_field(form: Form, size: u64) -> u64
    ensures { result ≡ own_field form size }
{
    if form.is_wide() { chunk::ONES } else { size }
}

// An output that is filled from its start on, and the place of what comes next.
// Kept: each step asks for its own room, since an invariant can't say how many bytes are still to come.
#[derive(Drop)]
pub struct Output<'a> {
    pub bytes: &'a mut [u8],
    pub at: usize,
}

impl<'a> Output<'a> {
    ghost use Rattle.file_parts.specs.Code.{HasRoom, Puts, PutsBy};

    // Stores the low N bytes of a number.
    pub fn put_number<const N: usize>(&mut self, v: u64)
        requires narrow { N ≤ 8 }
        requires room { HasRoom N self.old }
        ensures { Puts (bytes N v) self.old self.new }
    {
        le::store::<N>(self.bytes, self.at, v);
        self.at += N;
    }

    // Stores a chunk's name and size field.
    #[tactic(auto, using(crate::proofs::Stores::sizes))]
    pub fn put_header(&mut self, name: u64, own: u64)
        requires { HasRoom 8 self.old }
        ensures { Puts (bytes 4 name ++ bytes 4 own) self.old self.new }
    {
        self.put_number::<4>(name);
        self.put_number::<4>(own);
    }

    // Copies a payload.
    //
    // Kept: beside put_part, since copy_from_slice can be called at a part of the payload's length alone.
    pub fn put_payload(&mut self, payload: &[u8])
        requires { HasRoom (length payload.now) self.old }
        ensures { Puts payload.now self.old self.new }
    {
        let end = self.at + payload.len();
        self.bytes[self.at..end].copy_from_slice(payload);
        self.at = end;
    }

    // Stores a payload of so many bytes by what stores it at the start of a part.
    pub fn put_part<F: FnOnce(&mut [u8])>(&mut self, len: usize, store: F)
        requires room { HasRoom len self.old }
        requires store { F.IsAlwaysCallable store }
        ensures { PutsBy F.FnOnce store len self.old self.new }
    {
        let end = self.at + len;
        store(&mut self.bytes[self.at..end]);
        self.at = end;
    }

    // Stores the pad of a payload of this size, if it is odd.
    pub fn put_pad(&mut self, size: usize)
        requires { HasRoom (size % 2) self.old }
        ensures { Puts (pad_of size) self.old self.new }
    {
        if size % 2 == 1 {
            self.bytes[self.at] = 0;
            self.at += 1;
        }
    }

    // Stores a chunk with this size field.
    #[tactic(auto, using(crate::proofs::Stores::sizes), unfolding(crate::specs::Parts::chunk_size))]
    pub fn put_chunk(&mut self, name: u64, own: u64, payload: &[u8])
        requires { HasRoom (chunk_size (length payload.now)) self.old }
        ensures { Puts (chunk_with name own payload.now) self.old self.new }
    {
        self.put_header(name, own);
        self.put_payload(payload);
        self.put_pad(payload.len());
    }

    // Stores the form's name and field, WAVE, and a first chunk of 28 bytes.
    #[tactic(auto, using(crate::proofs::Stores::sizes))]
    fn put_first(&mut self, name: u64, own: u64, first: u64, size: u64, audio: u64, third: u64)
        requires { HasRoom (20 + LEAST) self.old }
        ensures { Puts (bytes 4 name ++ (bytes 4 own ++ (bytes 4 WAVE ++ chunk_bytes first (bytes 8 size ++ (bytes 8 audio ++ (bytes 8 third ++ bytes 4 0)))))) self.old self.new }
    {
        self.put_number::<4>(name);
        self.put_number::<4>(own);
        self.put_number::<4>(Name::WAVE);
        self.put_number::<4>(first);
        self.put_number::<4>(Ds64::LEAST);
        self.put_number::<8>(size);
        self.put_number::<8>(audio);
        self.put_number::<8>(third);
        self.put_number::<4>(0);
    }

    // Stores all that stands ahead of fmt.
    //
    // Kept: a row for each form, since they differ in name and third number, and not only in width.
    pub fn put_opening(&mut self, form: Form, size: u64, audio: u64, frames: u64)
        requires { HasRoom (20 + LEAST) self.old }
        ensures { Puts (opening_bytes form size audio frames) self.old self.new }
    {
        match form {
            Form::Riff => self.put_first(Name::RIFF, size, Name::JUNK, 0, 0, 0),
            Form::Rf64 => self.put_first(Name::RF64, chunk::ONES, Name::DS64, size, audio, frames),
            Form::Bw64 => self.put_first(Name::BW64, chunk::ONES, Name::DS64, size, audio, 0),
        }
    }
}
