// What the programs print of a name, of a table and of ds64.
ghost use Rattle.std.specs.Prelude.{◌≤◌, length};

use chunk::Table;
use std::io;

// The four bytes of a name, after a space.
pub fn name(rt: &impl Print, name: u64) -> io::Result<()> {
    rt.write_all(b" ")?;
    rt.write_all(&name.to_le_bytes()[..4])
}

// The rows of a table: name, place and size, and the number of the size's source where that isn't the chunk's own field.
pub fn rows(rt: &impl Print, table: &Table) -> io::Result<()> {
    let count = table.words[0] as usize;
    for row in table.words[1..].chunks_exact(4).take(count) {
        name(rt, row[0])?;
        print!(rt; " {} {}", row[1], row[2])?;
        if row[3] != 0 {
            print!(rt; " from {}", row[3])?;
        }
    }
    Ok(())
}

// The four numbers of the ds64 of a file that starts with one.
pub fn ds64(rt: &impl Print, file: &[u8]) -> io::Result<()>
    requires { 48 ≤ length file.now }
{
    let form_size = le::read::<8>(file, 20);
    let data_size = le::read::<8>(file, 28);
    let third = le::read::<8>(file, 36);
    let count = le::read::<4>(file, 44);
    print!(rt; " {form_size} {data_size} {third} {count}")
}
