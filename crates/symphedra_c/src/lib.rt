// The archive libsymphedra: what include/symphedra.h declares.
//
// Each export is the function of its name in the crate symphedra, with that function's clauses.
// Kept: a function for each name that C calls (include/symphedra.h), in a crate of its own, since a crate is a library or an archive.
#![tactic(auto)]

mod writers;

ghost use Rattle.records.specs.Reading.{ReadsFmt, ReadsBext, PartsOf, ReadsChna, EntryOf};
ghost use Rattle.symphedra.specs.Exports.{Scans, Lists, Judges, Walks32, Counts, Upgrades, rf64, bw64};

// The table of a file's chunks, or its refusal and no chunk.
#[unsafe(no_mangle)]
pub extern "C" fn symphedra_scan(file: &[u8], table: &mut [u64]) -> u32
    ensures { Scans file.now table.old result table.new }
{
    symphedra::symphedra_scan(file, table)
}

// The table of a file's chunks, whatever its format; or a refusal and no chunk.
#[unsafe(no_mangle)]
pub extern "C" fn symphedra_list(file: &[u8], table: &mut [u64]) -> u32
    ensures { Lists file.now table.old result table.new }
{
    symphedra::symphedra_list(file, table)
}

// The judgement of a file's format, over words that are to be a fresh listing of it.
#[unsafe(no_mangle)]
pub extern "C" fn symphedra_judge(file: &[u8], table: &[u64]) -> u32
    ensures { Judges file.now table.now result }
{
    symphedra::symphedra_judge(file, table)
}

// What the 32-bit walk shows, and its stop.
#[unsafe(no_mangle)]
pub extern "C" fn symphedra_walk32(file: &[u8], table: &mut [u64]) -> u32
    ensures { Walks32 file.now table.old result table.new }
{
    symphedra::symphedra_walk32(file, table)
}

// 1 and the sample count, or two zeros.
#[unsafe(no_mangle)]
pub extern "C" fn symphedra_sample_count(file: &[u8], out: &mut [u64]) -> u32
    ensures { Counts file.now out.old result out.new }
{
    symphedra::symphedra_sample_count(file, out)
}

// Upgrades a file to RF64 in place.
#[unsafe(no_mangle)]
pub extern "C" fn symphedra_upgrade_rf64(file: &mut [u8]) -> u32
    ensures { Upgrades rf64 file.old result file.new }
{
    symphedra::symphedra_upgrade_rf64(file)
}

// Upgrades a file to BW64 in place.
#[unsafe(no_mangle)]
pub extern "C" fn symphedra_upgrade_bw64(file: &mut [u8]) -> u32
    ensures { Upgrades bw64 file.old result file.new }
{
    symphedra::symphedra_upgrade_bw64(file)
}

// The nine words of a format record, or zeros.
#[unsafe(no_mangle)]
pub extern "C" fn symphedra_read_fmt(payload: &[u8], record: &mut [u64]) -> u32
    ensures { ReadsFmt payload.now «record».old result «record».new }
{
    symphedra::symphedra_read_fmt(payload, record)
}

// The eight words of a bext record, or zeros.
#[unsafe(no_mangle)]
pub extern "C" fn symphedra_read_bext(payload: &[u8], out: &mut [u64]) -> u32
    ensures { ReadsBext payload.now out.old result out.new }
{
    symphedra::symphedra_read_bext(payload, out)
}

// Place and length of each part of a bext payload, or zeros.
#[unsafe(no_mangle)]
pub extern "C" fn symphedra_bext_parts(payload: &[u8], out: &mut [u64]) -> u32
    ensures { PartsOf payload.now out.old result out.new }
{
    symphedra::symphedra_bext_parts(payload, out)
}

// The three words of a chna record, or zeros.
#[unsafe(no_mangle)]
pub extern "C" fn symphedra_read_chna(payload: &[u8], channels: u16, out: &mut [u64]) -> u32
    ensures { ReadsChna channels payload.now out.old result out.new }
{
    symphedra::symphedra_read_chna(payload, channels, out)
}

// Entry i of a chna payload: five words, or zeros.
#[unsafe(no_mangle)]
pub extern "C" fn symphedra_chna_entry(payload: &[u8], i: usize, out: &mut [u64]) -> u32
    ensures { EntryOf i payload.now out.old result out.new }
{
    symphedra::symphedra_chna_entry(payload, i, out)
}
