// Runs the scan, the listing and its judgement, the 32-bit walk, the sample count and the upgrade on the files that its input
// describes.
//
// The input is a script (the crate script says how a file is put together). n$ asks the first n bytes for the scan, the walk
// and the count, and upgrades them to RF64, n% to BW64; ? prints the form and ds64, n' the 4 bytes at n. n# lists the first n
// bytes and has that listing judged: as it is, altered, and cut; n~ has them judged by the listing of the kept file.
// What is expected stands in the file stdout, worked out from the documents.
#![tactic(auto)]

ghost use Rattle.std.specs.Prelude.{◌+◌, ◌≤◌, length};

use chunk::{Refusal, Table};
use script::print::{ds64, name, rows};
use std::io;
use upgrade::Target;
use wave::Tabled;

// The number of an answer, after a space.
fn verdict(rt: &impl Print, answer: Result<(), Refusal>) -> io::Result<()> {
    print!(rt; " {}", chunk::number(&answer))
}

// How a walk of the headers ended, and its table: its rows, or how many there are where they are more than eight.
fn walked(rt: &impl Print, label: &str, walk: &Tabled) -> io::Result<()> {
    rt.print(label)?;
    verdict(rt, walk.verdict)?;
    let count = walk.table.words[0];
    if 8 < count {
        print!(rt; " of {count}")
    } else {
        rows(rt, &walk.table)
    }
}

fn count(rt: &impl Print, file: &[u8]) -> io::Result<()> {
    match samples::sample_count(file) {
        Ok(Some(n)) => print!(rt; "; count {n}"),
        Ok(None) => print!(rt; "; count none"),
        Err(r) => print!(rt; "; count refused {}", u32::from(r)),
    }
}

// A line: what scan, walk and sample count answer of the first n bytes, and an upgrade of them, which is then made.
fn all(rt: &impl Print, whole: &mut [u8], n: usize, target: Target) -> io::Result<()> {
    let Some(file) = whole.get_mut(..n) else {
        return Ok(());
    };
    walked(rt, ": scan", &wave::scan(file))?;
    walked(rt, "; walk", &wave::walk32(file))?;
    count(rt, file)?;
    print!(rt; "; upgrade")?;
    verdict(rt, upgrade::upgrade(file, target))?;
    println!(rt)
}

// Another number.
fn other(n: u64) -> u64 {
    if n == 0 { 1 } else { n - 1 }
}

// One more than the words of a listing of up to eight rows.
fn span(table: &Table) -> usize
    ensures { result ≤ 34 }
{
    2 + 4 * table.words[0].min(8) as usize
}

// The judgement by a table with each of its words in turn another.
// Kept: by index, since the whole table is judged while one word of it is another.
fn altered(rt: &impl Print, file: &[u8], table: &mut Table) -> io::Result<()> {
    for i in 0..span(table) {
        let word = table.words[i];
        table.words[i] = other(word);
        verdict(rt, wave::judge(file, &table.words))?;
        table.words[i] = word;
    }
    Ok(())
}

// The judgement by the first words of a table, none of them to one less than that.
fn cut(rt: &impl Print, file: &[u8], table: &Table) -> io::Result<()> {
    for n in 0..span(table) {
        verdict(rt, wave::judge(file, &table.words[..n]))?;
    }
    Ok(())
}

// A line: the listing of the first n bytes and its judgement; with each word another, up to the one past the last row; and
// with none of the words, one, and so on up to the last row.
fn triage(rt: &impl Print, whole: &[u8], n: usize) -> io::Result<()> {
    let Some(file) = whole.get(..n) else {
        return Ok(());
    };
    let mut listed = wave::list(file);
    walked(rt, ": list", &listed)?;
    print!(rt; "; judge")?;
    verdict(rt, wave::judge(file, &listed.table.words))?;
    print!(rt; "; altered")?;
    altered(rt, file, &mut listed.table)?;
    print!(rt; "; cut")?;
    cut(rt, file, &listed.table)?;
    println!(rt)
}

// A line: what judges the first n bytes by the listing of the first n that were kept.
fn stale(rt: &impl Print, whole: &[u8], kept: &[u8], n: usize) -> io::Result<()> {
    let (Some(file), Some(kept)) = (whole.get(..n), kept.get(..n)) else {
        return Ok(());
    };
    print!(rt; ": judge by the kept listing")?;
    verdict(rt, wave::judge(file, &wave::list(kept).table.words))?;
    println!(rt)
}

// A name, and the number after it.
fn header(rt: &impl Print, file: &[u8], at: usize) -> io::Result<()>
    requires { at + 8 ≤ length file.now }
{
    name(rt, le::read::<4>(file, at))?;
    print!(rt; " {}", le::read::<4>(file, at + 4))
}

// A line: the form's name and field, the first chunk's name and size, and ds64's four numbers.
fn head(rt: &impl Print, file: &[u8]) -> io::Result<()> {
    if file.len() < 20 {
        return Ok(());
    }
    print!(rt; ":")?;
    header(rt, file, 0)?;
    print!(rt; ",")?;
    header(rt, file, 12)?;
    print!(rt; ":")?;
    if 48 <= file.len() {
        ds64(rt, file)?;
    }
    println!(rt)
}

// A line: the number in the four bytes at a place.
fn field(rt: &impl Print, file: &[u8], at: usize) -> io::Result<()> {
    if file.len() < 4 || file.len() - 4 < at {
        return Ok(());
    }
    println!(rt; ": {}", le::read::<4>(file, at))
}

// A command that is none of the script's, after the number n.
// Kept: a match, since each command takes other things than the next.
fn command(rt: &impl Print, b: u8, n: usize, file: &mut [u8], kept: &[u8]) -> io::Result<()> {
    match b {
        b'$' => all(rt, file, n, Target::Rf64),
        b'%' => all(rt, file, n, Target::Bw64),
        b'#' => triage(rt, file, n),
        b'~' => stale(rt, file, kept, n),
        b'?' => head(rt, file),
        b'\'' => field(rt, file, n),
        _ => Ok(()),
    }
}

fn main(rt: HostRuntime) -> io::Result<()> {
    script::run::<1024, _, _>(&rt, |b, state, file, kept| {
        command(&rt, b, state.n as usize, file, kept)
    })
}
