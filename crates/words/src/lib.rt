// How an answer is told to a C caller: a number, and in lent words what goes with it.
#![tactic(auto)]

ghost use Rattle.std.specs.Prelude.{◌≡◌, length, replicate, eqb};
ghost use Rattle.std.proofs.lemmas.List.Edits.{sets};
ghost use Rattle.le.specs.Choice.{pick};
ghost use Rattle.chunk.specs.Refusals.{number_of};
ghost use Rattle.words.specs.Answers.{Answers, values_of};
ghost use Rattle.words.specs.Code.{Tells, Lends};

use chunk::Refusal;

// Stores an answer's values at the start of lent words, and gives its number. Where the words are too few for the values:
// 15, and no word changes.
// Kept: a number and no Result, since C gets it, and with values that no refusal goes with (symphedra_sample_count).
pub fn answer(number: u32, values: &[u64], words: &mut [u64]) -> u32
    ensures { Answers (length values.now) number (sets words.old 0 values.now) words.old result words.new }
{
    if words.len() < values.len() {
        return u32::from(Refusal::ShortOutput);
    }
    words[..values.len()].copy_from_slice(values);
    number
}

// The same of an answer whose values are n zeros.
pub fn zeros(number: u32, n: usize, words: &mut [u64]) -> u32
    ensures { Answers n number (sets words.old 0 (replicate n 0)) words.old result words.new }
{
    if words.len() < n {
        return u32::from(Refusal::ShortOutput);
    }
    words[..n].fill(0);
    number
}

// The same of an answer of N words, or of N zeros where it is refused.
pub fn answer_or_zeros<const N: usize>(values: Result<[u64; N], Refusal>, words: &mut [u64]) -> u32
    ensures { Answers N (number_of values.entry) (sets words.old 0 (values_of N values.entry)) words.old result words.new }
{
    match values {
        Ok(values) => answer(0, &values, words),
        Err(refusal) => answer(u32::from(refusal), &[0; N], words),
    }
}

// Stores how many bytes were written, or 0, where there is a word for it, and gives the answer's number.
pub fn tell(answer: Result<u64, Refusal>, written: &mut [u64]) -> u32
    ensures { Tells answer written.old result written.new }
{
    if written.len() > 0 {
        written[0] = answer.unwrap_or(0);
    }
    chunk::number(&answer)
}

// Lends a writer the output, or none of it where there is no word to count its bytes in, so that it gives 15; and tells its
// answer.
pub fn lend<F: FnOnce(&mut [u8]) -> Result<u64, Refusal>>(
    out: &mut [u8],
    written: &mut [u64],
    write: F,
) -> u32
    requires { F.IsAlwaysCallable write }
    ensures { Lends F.FnOnce write out.old written.old result out.new written.new }
{
    let end = room(out.len(), written.len());
    tell(write(&mut out[..end]), written)
}

// The bytes of the output that a writer is lent: none where there is no word to count them in, so that it gives 15.
#[tactic(auto, unfolding(le::specs::Choice::pick))]
pub fn room(out: usize, words: usize) -> usize
    ensures { result ≡ pick (eqb words 0) 0 out }
{
    if words == 0 { 0 } else { out }
}
