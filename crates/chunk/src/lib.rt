// Chunks: the refusals, a chunk's entry, the table of them, and a step of the walk from header to header.
//
// A chunk is a 4-byte name, a 32-bit size field, its payload, and one pad byte where the payload is odd.
#![tactic(auto)]

pub mod steps;

ghost use Rattle.std.specs.Prelude.{◌≡◌, ◌+◌, ◌^◌, ◌≤◌, ◌<◌, [], length, drop, get_or};
ghost use Rattle.std.proofs.lemmas.List.Edits.{sets};
ghost use Rattle.chunk.specs.Refusals.{refusal_number, number_of};
ghost use Rattle.chunk.specs.Sources.{source_number, source_of};
ghost use Rattle.chunk.specs.Tables.{table_of, row_words, row_in, begins};
ghost use Rattle.chunk.specs.Walks.{field_size};

use std::error::Error;
use std::fmt::{self, Display, Formatter, Write};

// Why a file, a record or a listing is refused, each with its number: document 01's table, in its order, and then what
// document 02 adds to it.
#[derive(Clone, Copy, Debug, PartialEq, Eq)]
pub enum Refusal {
    // The file has fewer than 12 bytes.
    TooShort = 1,
    // The form's name is unknown, or WAVE is absent.
    NotWave = 2,
    // RIFF with an all-ones form field: the take was never finished.
    Unfinished = 3,
    // ds64 is absent, breaks a rule of its own, or is out of place.
    BadDs64 = 4,
    // 8 and the form size are not the file's length.
    BadFormSize = 5,
    // 1 to 7 bytes are left where a header is due.
    CutHeader = 6,
    // A 65th header.
    TooMany = 9,
    // An all-ones size with no true size known.
    UnknownSize = 7,
    // A payload or its pad passes the end.
    PastEnd = 8,
    // fmt or data missing or out of order, a chunk doubled, or a short fact.
    BadChunkSet = 10,
    // A rule of fmt is broken.
    BadFmt = 11,
    // The audio is not whole blocks.
    RaggedAudio = 12,
    // A rule of bext is broken.
    BadBext = 13,
    // A rule of chna is broken.
    BadChna = 14,
    // A writer was given a bad record, payload or ragged audio.
    BadRecord = 16,
    // A size to write does not fit its 32-bit field.
    TooLarge = 17,
    // The output is too short.
    ShortOutput = 15,
    // The file to upgrade has a 64-bit form already.
    Already64 = 18,
    // The first chunk is no JUNK of 28 bytes or more.
    NoReserve = 19,
    // The words are no fresh listing of the file, or it has none.
    StaleListing = 24,
}

impl From<Refusal> for u32 {
    ghost from_gives = { λ r n. n ≡ refusal_number r };

    // The document's number.
    fn from(refusal: Refusal) -> u32 {
        refusal as u32
    }
}

impl Display for Refusal {
    fn fmt<W: Write>(&self, f: &mut Formatter<W>) -> fmt::Result {
        write!(f, "refusal {}", u32::from(*self))
    }
}

impl Error for Refusal {}

// The number of an answer: 0, or the refusal's.
pub fn number<T>(answer: &Result<T, Refusal>) -> u32
    ensures { result ≡ number_of answer.now }
{
    match answer {
        Ok(_) => 0,
        Err(refusal) => u32::from(*refusal),
    }
}

// Where a chunk's true size came from.
#[derive(Clone, Copy, Debug, PartialEq, Eq)]
pub enum Source {
    // The chunk's own size field.
    Own,
    // The data size of ds64.
    DataSize,
    // The entry of ds64 at this position, counted from 0.
    EntryAt(u32),
}

impl From<Source> for u64 {
    ghost from_gives = { λ s n. n ≡ source_number s };

    // 0, 1, and for an entry 2 + its position.
    fn from(source: Source) -> u64 {
        match source {
            Source::Own => 0,
            Source::DataSize => 1,
            Source::EntryAt(position) => 2 + u64::from(position),
        }
    }
}

impl Source {
    // The source that a number tells.
    // Kept: no TryFrom, since whoever asks knows that the number is below 2^32, and nothing is left to refuse.
    #[tactic(auto, unfolding(crate::specs::Sources::source_of, le::specs::Choice::pick))]
    fn of(number: u64) -> Source
        requires { number < 2 ^ 32 }
        ensures { result ≡ source_of number }
    {
        match number {
            0 => Source::Own,
            1 => Source::DataSize,
            _ => Source::EntryAt((number - 2) as u32),
        }
    }
}

// A chunk's true size, and where it came from.
#[derive(Clone, Copy, Debug, PartialEq, Eq)]
pub struct TrueSize {
    pub bytes: u64,
    pub source: Source,
}

impl TrueSize {
    // The size that a chunk's own field says.
    pub fn own(field: u64) -> TrueSize
        ensures { result ≡ field_size field }
    {
        TrueSize {
            bytes: field,
            source: Source::Own,
        }
    }
}

// A chunk of a file: its 4-byte name as a number, where its payload starts, its true size, and where that came from.
#[derive(Clone, Copy, Debug, PartialEq, Eq)]
pub struct Entry {
    pub name: u64,
    pub place: u64,
    pub size: u64,
    pub source: Source,
}

impl Entry {
    // The four words of its row.
    #[tactic(auto, unfolding(crate::specs::Tables::row_words))]
    pub fn words(self) -> [u64; 4]
        ensures { result ≡ row_words self }
    {
        [self.name, self.place, self.size, u64::from(self.source)]
    }
}

// The chunks of a file, in file order, as words: word 0 is their number, and chunk i has the four words from 1 + 4 i:
// name, place, size, and the number of the size's source.
// Kept: words with their number ahead, since C has a table so (symphedra_scan), and there is no heap.
#[derive(Drop)]
pub struct Table {
    pub words: [u64; Table::WORDS],
}

impl Table {
    // The most chunks that a file may have.
    pub const LIMIT: usize = 64;
    // The words of a full table.
    pub const WORDS: usize = 1 + 4 * Table::LIMIT;

    // The table of no chunks.
    #[tactic(auto, unfolding(crate::specs::Tables::table_of, crate::specs::Tables::tabled, crate::specs::Tables::all_words))]
    pub fn empty() -> Table
        ensures { result ≡ table_of [] }
    {
        Table {
            words: [0u64; Table::WORDS],
        }
    }
}

// Stores an entry as the four words of a row from a place on.
// Kept: by copy_from_slice the compiler tests for an overlap, 13 instructions more a row, and walk, scan and list miss their limits.
pub fn put_row(words: &mut [u64], at: usize, e: Entry)
    requires { at + 4 ≤ length words.old }
    ensures { words.new ≡ sets words.old at (row_words e) }
{
    let row = e.words();
    words[at] = row[0];
    words[at + 1] = row[1];
    words[at + 2] = row[2];
    words[at + 3] = row[3];
}

// Whether the row that starts at a word is an entry's, word for word.
// Kept: a test for each word, so that each can be got wrong alone (must-fail/mark_below_passed).
pub fn is_row(words: &[u64], at: usize, e: Entry) -> bool
    requires { at + 4 ≤ length words.now }
    ensures { result ≡ begins (row_words e) (drop at words.now) }
{
    let row = e.words();
    words[at] == row[0]
        && words[at + 1] == row[1]
        && words[at + 2] == row[2]
        && words[at + 3] == row[3]
}

// The entry in the row that starts at a word.
#[tactic(auto, unfolding(crate::specs::Tables::row_in))]
pub fn row(words: &[u64], at: usize) -> Entry
    requires { (at + 4 ≤ length words.now) × (get_or words.now (at + 3) 0 < 2 ^ 32) }
    ensures { result ≡ row_in at words.now }
{
    Entry {
        name: words[at],
        place: words[at + 1],
        size: words[at + 2],
        source: Source::of(words[at + 3]),
    }
}

// A 32-bit size field that holds no size: document 01's "all ones".
pub const ONES: u64 = 0xFFFF_FFFF;

// The 4-byte names of the format, each as the little-endian number of its bytes.
// Kept: numbers and no enum, since a chunk may have any name, and a row of the table holds it (include/symphedra.h).
#[derive(Drop)]
pub struct Name;

impl Name {
    // What bytes 0 to 3 of a file say: its form.
    pub const RIFF: u64 = 0x4646_4952;

    pub const RF64: u64 = 0x3436_4652;

    pub const BW64: u64 = 0x3436_5742;
    // What bytes 8 to 11 of every form say.
    pub const WAVE: u64 = 0x4556_4157;
    // The chunks.
    pub const DS64: u64 = 0x3436_7364;

    pub const JUNK: u64 = 0x4b4e_554a;

    pub const FMT: u64 = 0x2074_6d66;

    pub const DATA: u64 = 0x6174_6164;

    pub const FACT: u64 = 0x7463_6166;

    pub const BEXT: u64 = 0x7478_6562;

    pub const CHNA: u64 = 0x616e_6863;
}

// A chunk's header: its name and its own size field.
#[derive(Clone, Copy, Debug, PartialEq, Eq)]
pub struct Header {
    pub name: u64,
    pub field: u64,
}

// What a step of the walk finds at a header.
// Kept: the four ends of a step in one enum, each with what it holds; a Result of the other three would be taken apart twice.
#[derive(Clone, Copy, Debug, PartialEq, Eq)]
pub enum Step {
    // A chunk, and the place of the next, whose header is whole.
    Chunk(Entry, u64),
    // A chunk that ends with the file.
    Last(Entry),
    // A chunk with 1 to 7 bytes after it.
    Cut(Entry),
    // No chunk.
    Stop(Refusal),
}
