// The sample count of a file: what fact says, or in RF64 ds64's third number.
#![tactic(auto)]

ghost use Rattle.std.specs.Prelude.{◌≡◌, ◌+◌, ◌≤◌, length};
ghost use Rattle.le.specs.Number.{number};
ghost use Rattle.samples.specs.Counts.{fact_count, samples_of};

use chunk::Refusal;
use form::{Form, Head};

// The sample count of a file whose fact payload starts at a place.
#[tactic(auto, using(std::proofs::lemmas::Bool::Decides::nat_tests), unfolding(crate::specs::Counts::fact_count))]
fn fact_count(file: &[u8], head: Head, place: u64) -> u64
    requires { place + 4 ≤ length file.now }
    ensures { result ≡ fact_count head.form head.ds64.third (number 4 place file.now) }
{
    let own = le::read::<4>(file, place as usize);
    if own == chunk::ONES && head.form == Form::Rf64 {
        return head.ds64.third;
    }
    own
}

// The sample count of a file, or None: it has no fact. The refusals are the scan's.
pub fn sample_count(file: &[u8]) -> Result<Option<u64>, Refusal>
    ensures { result ≡ samples_of file.now }
{
    let a = wave::judgement::examine(file)?;
    Ok(a.fact.map(|place| fact_count(file, a.head, place)))
}
