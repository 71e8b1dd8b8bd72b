// The C interface: what include/symphedra.h declares.
//
// A run is a pointer and a length. A number is returned: 0, or the document's number of a refusal. Where the words to
// answer in are too few, that is 15, ahead of everything else, and no word changes.
// Kept: a function for each name that C calls (include/symphedra.h), and words and numbers as C has them.
#![tactic(auto)]

pub mod writers;

ghost use Rattle.records.specs.Reading.{ReadsFmt, ReadsBext, PartsOf, ReadsChna, EntryOf};
ghost use Rattle.symphedra.specs.Exports.{Scans, Lists, Judges, Walks32, Counts, Upgrades, rf64, bw64};

use upgrade::Target;

// The table of a file's chunks, or its refusal and no chunk.
pub fn symphedra_scan(file: &[u8], table: &mut [u64]) -> u32
    ensures { Scans file.now table.old result table.new }
{
    chunk::number(&wave::scan_into(file, table))
}

// The table of a file's chunks, whatever its format; or a refusal and no chunk.
pub fn symphedra_list(file: &[u8], table: &mut [u64]) -> u32
    ensures { Lists file.now table.old result table.new }
{
    chunk::number(&wave::list_into(file, table))
}

// The judgement of a file's format, over words that are to be a fresh listing of it.
pub fn symphedra_judge(file: &[u8], table: &[u64]) -> u32
    ensures { Judges file.now table.now result }
{
    chunk::number(&wave::judge(file, table))
}

// What the 32-bit walk shows, and its stop.
pub fn symphedra_walk32(file: &[u8], table: &mut [u64]) -> u32
    ensures { Walks32 file.now table.old result table.new }
{
    chunk::number(&wave::walk32_into(file, table))
}

// 1 and the sample count, or two zeros.
#[tactic(auto, unfolding(samples::specs::Counts::samples_values))]
pub fn symphedra_sample_count(file: &[u8], out: &mut [u64]) -> u32
    ensures { Counts file.now out.old result out.new }
{
    let count = samples::sample_count(file);
    let values = match count {
        Ok(Some(n)) => [1, n],
        _ => [0, 0],
    };
    words::answer(chunk::number(&count), &values, out)
}

// Upgrades a file to RF64 in place.
pub fn symphedra_upgrade_rf64(file: &mut [u8]) -> u32
    ensures { Upgrades rf64 file.old result file.new }
{
    chunk::number(&upgrade::upgrade(file, Target::Rf64))
}

// Upgrades a file to BW64 in place.
pub fn symphedra_upgrade_bw64(file: &mut [u8]) -> u32
    ensures { Upgrades bw64 file.old result file.new }
{
    chunk::number(&upgrade::upgrade(file, Target::Bw64))
}

// The nine words of a format record, or zeros.
pub fn symphedra_read_fmt(payload: &[u8], record: &mut [u64]) -> u32
    ensures { ReadsFmt payload.now «record».old result «record».new }
{
    records::read_fmt(payload, record)
}

// The eight words of a bext record, or zeros.
pub fn symphedra_read_bext(payload: &[u8], out: &mut [u64]) -> u32
    ensures { ReadsBext payload.now out.old result out.new }
{
    records::read_bext(payload, out)
}

// Place and length of each part of a bext payload, or zeros.
pub fn symphedra_bext_parts(payload: &[u8], out: &mut [u64]) -> u32
    ensures { PartsOf payload.now out.old result out.new }
{
    records::bext_parts(payload, out)
}

// The three words of a chna record, or zeros.
pub fn symphedra_read_chna(payload: &[u8], channels: u16, out: &mut [u64]) -> u32
    ensures { ReadsChna channels payload.now out.old result out.new }
{
    records::read_chna(payload, channels, out)
}

// Entry i of a chna payload: five words, or zeros.
pub fn symphedra_chna_entry(payload: &[u8], i: usize, out: &mut [u64]) -> u32
    ensures { EntryOf i payload.now out.old result out.new }
{
    records::chna_entry(payload, i, out)
}
