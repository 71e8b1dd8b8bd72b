// The whole file: the scan, the listing and the judgement that it is made of, and the 32-bit walk.
//
// Scan, listing and walk come twice: once by value, and once into words that the caller lends, laid out as chunk::Table has
// them. Nothing is asked of the bytes or of the words.
#![tactic(auto)]

pub mod judgement;
mod rows;

ghost use Rattle.std.specs.Prelude.{◌≡◌, []};
ghost use Rattle.std.specs.Fn.{FnOnceReturnsAtMut};
ghost use Rattle.chunk.specs.Refusals.{verdict_of};
ghost use Rattle.chunk.specs.Tables.{table_of};
ghost use Rattle.wave.specs.Judgements.{judgement};
ghost use Rattle.wave.specs.Words.{ScanDone, ListDone, WalkDone, scan_table, list_table, walk_table};

use chunk::{Refusal, Table};
use rows::Listed;

// A table, and how the operation that made it ended.
// Kept: a verdict beside the table and not around it, since a refused walk has rows (walk_table, specs/Words.antt).
#[derive(Drop)]
pub struct Tabled {
    pub table: Table,
    pub verdict: Result<(), Refusal>,
}

// The table that an operation stores into words, by value.
fn by_value<F: FnOnce(&mut [u64]) -> Result<(), Refusal>>(into: F) -> Tabled
    requires { F.IsAlwaysCallable into }
    ensures { FnOnceReturnsAtMut F.FnOnce into (table_of []).words result.verdict result.table.words }
{
    let mut table = Table::empty();
    let verdict = into(&mut table.words);
    Tabled { table, verdict }
}

// Scans a file into the words of a table. Words past the last chunk stay as they were, and all of them where there are
// fewer than a table has: that is 15, ahead of everything else.
pub fn scan_into(file: &[u8], words: &mut [u64]) -> Result<(), Refusal>
    ensures { ScanDone file.now words.old result words.new }
{
    if words.len() < Table::WORDS {
        return Err(Refusal::ShortOutput);
    }
    words[0] = 0;
    let accepted = judgement::examine(file)?;
    let listed = Listed {
        file,
        head: accepted.head,
        count: accepted.count,
    };
    listed.fill(words);
    Ok(())
}

// Scans a file.
pub fn scan(file: &[u8]) -> Tabled
    ensures { result ≡ scan_table file.now }
{
    by_value(|words| scan_into(file, words))
}

// Lists a file into the words of a table: checks 1 to 10, whatever the survey says of fmt. Words past the last chunk stay as
// they were, and all of them where there are fewer than a table has: that is 15, ahead of everything else.
pub fn list_into(file: &[u8], words: &mut [u64]) -> Result<(), Refusal>
    ensures { ListDone file.now words.old result words.new }
{
    if words.len() < Table::WORDS {
        return Err(Refusal::ShortOutput);
    }
    words[0] = 0;
    let surveyed = judgement::survey(file)?;
    let listed = Listed {
        file,
        head: surveyed.listing.head,
        count: surveyed.listing.count,
    };
    listed.fill(words);
    Ok(())
}

// Lists a file.
pub fn list(file: &[u8]) -> Tabled
    ensures { result ≡ list_table file.now }
{
    by_value(|words| list_into(file, words))
}

// Judges a listing, in words, of a file: 24 where it isn't a fresh one, and then checks 11 and 12. Whoever has just listed
// the file needn't have it listed again: judgement::judge_fresh.
pub fn judge(file: &[u8], table: &[u64]) -> Result<(), Refusal>
    ensures { result ≡ verdict_of (judgement file.now table.now) }
{
    match judgement::survey(file) {
        Err(_) => Err(Refusal::StaleListing),
        Ok(surveyed) => {
            let listed = Listed {
                file,
                head: surveyed.listing.head,
                count: surveyed.listing.count,
            };
            if !listed.is(table) {
                return Err(Refusal::StaleListing);
            }
            surveyed.said?;
            Ok(())
        }
    }
}

// Walks a file as a 32-bit reader would, into the words of a table; the words as for the scan.
pub fn walk32_into(file: &[u8], words: &mut [u64]) -> Result<(), Refusal>
    ensures { WalkDone file.now words.old result words.new }
{
    if words.len() < Table::WORDS {
        return Err(Refusal::ShortOutput);
    }
    words[0] = 0;
    form::open32(file)?;
    rows::list32(file, words)
}

// Walks a file as a 32-bit reader would.
pub fn walk32(file: &[u8]) -> Tabled
    ensures { result ≡ walk_table file.now }
{
    by_value(|words| walk32_into(file, words))
}
