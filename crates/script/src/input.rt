// Runs the script that is a program's input.
ghost use Rattle.std.specs.Prelude.{◌^◌, ◌<◌, ◌≤◌, length, IfOk};

use super::{Sign, State};
use std::io::{self, Read};

// The most bytes of input that are read.
const INPUT: usize = 65_536;

// Reads until buf is full or the input ends, and answers how many bytes were read.
// Kept: std's read_exact gives an error, and no count, where the input ends first; read_to_end needs a heap.
fn read_full<R: Read>(reader: &mut R, buf: &mut [u8]) -> io::Result<usize>
    ensures { IfOk result (λ n. n ≤ length buf.new) }
{
    let mut n = 0;
    while n < buf.len() {
        let got = reader.read(&mut buf[n..])?;
        if got == 0 {
            return Ok(n);
        }
        n += got;
    }
    Ok(n)
}

// Runs the input, over a file of N bytes and a kept one. What is to be printed is printed, and a character that is no command
// of the script's is handed on, with the state, the file and the kept file.
pub fn run<
    const N: usize,
    R: Print + Input,
    F: FnMut(u8, State, &mut [u8], &[u8]) -> io::Result<()>,
>(rt: &R, mut own: F) -> io::Result<()>
    requires fits { N < 2 ^ 63 }
    requires callable { F.IsAlwaysCallable own }
{
    // Kept: arrays of fixed size, since there is no heap.
    let mut input = [0u8; INPUT];
    let n = read_full(&mut rt.reader(), &mut input)?;
    let mut file = [0u8; N];
    let mut kept = [0u8; N];
    let mut state = State::start();
    for &b in &input[..n] {
        let sign = state.sign(b);
        match sign {
            Sign::Print => rt.write_all(&[b])?,
            Sign::Own => own(b, state, &mut file, &kept)?,
            _ => {}
        }
        state = state.after(sign, &mut file, &mut kept);
    }
    Ok(())
}
