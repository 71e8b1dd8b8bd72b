// The rows of a table, stored into lent words: the 32-bit walk's as they are met, the scan's once the file is accepted; and
// those of a listed file, compared with words.
ghost use Rattle.std.specs.Prelude.{◌≡◌, ◌+◌, ◌*◌, ◌≤◌, length, drop};
ghost use Rattle.chunk.specs.declared.Entry.{Entry};
ghost use Rattle.chunk.specs.Tables.{all_words, begins, tabled, table_words, WORDS};
ghost use Rattle.chunk.specs.Walks.{own_size};
ghost use Rattle.chunk.specs.Code.{walk_after, full};
ghost use Rattle.form.specs.Forms.{is_wide};
ghost use Rattle.listing.specs.Listings.{headers};
ghost use Rattle.listing.specs.Code.{rule};
ghost use Rattle.wave.specs.Code.{WalkStored, Finishes, Ended, EntryAt, rows_from};

use chunk::{Entry, Refusal, Step, Table, TrueSize};
use form::Head;

// How the 32-bit walk ends at a step after which no header may come: what it found is stored, and the number of rows.
fn finish(found: Step, used: usize, words: &mut [u64]) -> Result<(), Refusal>
    requires { 5 + 4 * used ≤ length words.old }
    ensures { Finishes used (walk_after found full) words.old result words.new }
{
    let (last, end) = match found {
        Step::Chunk(e, _) => (e, Err(Refusal::TooMany)),
        Step::Last(e) => (e, Ok(())),
        Step::Cut(e) => (e, Err(Refusal::CutHeader)),
        Step::Stop(refusal) => {
            words[0] = used as u64;
            return Err(refusal);
        }
    };
    chunk::put_row(words, 1 + 4 * used, last);
    words[0] = used as u64 + 1;
    end
}

// The 32-bit walk from the header at byte 12, its chunks stored as rows.
fn walk32(file: &[u8], words: &mut [u64]) -> Result<(), Refusal>
    requires { (20 ≤ length file.now) × (WORDS ≤ length words.old) }
    ensures { WalkStored own_size file.now words.old result words.new }
{
    let mut place: u64 = 20;
    for used in 0..Table::LIMIT {
        let found = chunk::steps::step32(file, place);
        let Step::Chunk(entry, next) = found else {
            return finish(found, used, words);
        };
        chunk::put_row(words, 1 + 4 * used, entry);
        place = next;
    }
    words[0] = Table::LIMIT as u64;
    Err(Refusal::TooMany)
}

// The 32-bit walk past checks 1, 2 and 5.
pub fn list32(file: &[u8], words: &mut [u64]) -> Result<(), Refusal>
    requires { (12 ≤ length file.now) × (WORDS ≤ length words.old) }
    ensures { WalkStored own_size file.now words.old result words.new }
{
    let len = file.len();
    if 20 <= len {
        return walk32(file, words);
    }
    words[0] = 0;
    if len == 12 {
        return Ok(());
    }
    Err(Refusal::CutHeader)
}

// A listed file, whose headers are read once more: nothing is tested, the listing has.
#[derive(Clone, Copy)]
pub struct Listed<'a> {
    pub file: &'a [u8],
    pub head: Head,
    // The number of its chunks.
    pub count: u64,
    ghost ended: { Ended head file.now count },
}

impl Listed<'_> {
    // The chunk at a place. In a file that isn't WIDE, so RIFF, every field is the size, and none is asked: the test is a
    // constant, since it would cost 2 instructions a row.
    #[inline(always)]
    fn entry<const WIDE: bool>(&self, place: u64) -> Entry
        requires wide { WIDE ≡ is_wide self.now.head.form }
        requires stands { (e : Entry) × EntryAt (rule self.now.head self.now.file.now) self.now.file.now place e }
        ensures { EntryAt (rule self.now.head self.now.file.now) self.now.file.now place result }
    {
        let header = chunk::steps::header(self.file, place);
        let size = if WIDE && header.field == chunk::ONES {
            truesize::known(self.file, self.head, header.name)
        } else {
            TrueSize::own(header.field)
        };
        chunk::steps::entry(place, header.name, size)
    }

    // Stores the rows.
    // Kept: three loops, as one tests, one stores and one compares (docs/DECISIONS.md, "One walk over a size rule").
    #[inline(always)]
    fn put_rows<const WIDE: bool>(&self, words: &mut [u64])
        requires wide { WIDE ≡ is_wide self.now.head.form }
        requires room { 1 + 4 * self.now.count ≤ length words.old }
        ensures { words.new ≡ rows_from words.old 1 (headers self.now.head self.now.file.now).rows }
    {
        let mut place: u64 = 20;
        for i in 0..self.count as usize {
            let entry = self.entry::<WIDE>(place);
            chunk::put_row(words, 1 + 4 * i, entry);
            place = chunk::steps::past(place, entry.size);
        }
    }

    // Stores its table. The scan and the listing each have it inlined, with its loops: as a call it costs the scan of a small
    // file one instruction more in twenty.
    #[inline(always)]
    pub fn fill(&self, words: &mut [u64])
        requires { 1 + 4 * self.now.count ≤ length words.old }
        ensures { words.new ≡ tabled (headers self.now.head self.now.file.now).rows words.old }
    {
        if self.head.form.is_wide() {
            self.put_rows::<true>(words);
        } else {
            self.put_rows::<false>(words);
        }
        words[0] = self.count;
    }

    // Whether words hold, past the first, the rows.
    fn are_rows<const WIDE: bool>(&self, table: &[u64]) -> bool
        requires wide { WIDE ≡ is_wide self.now.head.form }
        requires room { 1 + 4 * self.now.count ≤ length table.now }
        ensures { result ≡ begins (all_words (headers self.now.head self.now.file.now).rows) (drop 1 table.now) }
    {
        let mut place: u64 = 20;
        for i in 0..self.count as usize {
            let entry = self.entry::<WIDE>(place);
            if !chunk::is_row(table, 1 + 4 * i, entry) {
                return false;
            }
            place = chunk::steps::past(place, entry.size);
        }
        true
    }

    // Whether words are its table: the number of its rows, and each row. Words past the last are not looked at.
    pub fn is(&self, table: &[u64]) -> bool
        ensures { result ≡ begins (table_words (headers self.now.head self.now.file.now).rows) table.now }
    {
        let stop = 1 + 4 * self.count as usize;
        if table.len() < stop {
            return false;
        }
        if table[0] != self.count {
            return false;
        }
        if self.head.form.is_wide() {
            self.are_rows::<true>(table)
        } else {
            self.are_rows::<false>(table)
        }
    }
}
