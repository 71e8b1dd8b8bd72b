// The upgrade of a RIFF file to RF64 or BW64, in place.
//
// It changes only the form name and field, JUNK's name and first 28 payload bytes, data's size field, and, for RF64 with
// fact, fact's first 4 bytes. A refused file is not touched.
#![tactic(auto)]

ghost use Rattle.std.specs.Prelude.{◌≡◌};
ghost use Rattle.upgrade.specs.Upgrades.{patched, target_name};
ghost use Rattle.upgrade.specs.Words.{UpgradeDone};
ghost use Rattle.upgrade.specs.ForTheCode.{KeepsDemand3};
ghost use Rattle.upgrade.specs.Code.{Knows, Inside, reserve_as, third_of, fact_moved, changes_of, stores};

use chunk::{Header, Name, Refusal};
use form::{Ds64, Form};
use wave::judgement::Accepted;

// What a file can be upgraded to: no other target can be named.
#[derive(Clone, Copy, Debug, PartialEq, Eq)]
pub enum Target {
    Rf64,
    Bw64,
}

impl Target {
    // Its 4-byte name.
    #[tactic(auto, unfolding(crate::specs::Upgrades::target_name))]
    fn name(self) -> u64
        ensures { result ≡ target_name self }
    {
        match self {
            Target::Rf64 => Name::RF64,
            Target::Bw64 => Name::BW64,
        }
    }

    // The third number of the new ds64: fact's count, or the frames without fact; for BW64 zero.
    #[tactic(auto, unfolding(crate::specs::Code::third_of, crate::specs::Code::third_as))]
    fn third(self, file: &[u8], a: Accepted) -> u64
        requires { Knows file.now a }
        ensures { result ≡ third_of self a file.now }
    {
        match (self, a.fact) {
            (Target::Bw64, _) => 0,
            (Target::Rf64, Some(place)) => le::read::<4>(file, place as usize),
            (Target::Rf64, None) => a.audio.size / a.format.block,
        }
    }

    // The place of fact's count, if it moves into ds64: RF64 alone has one there.
    #[tactic(auto, unfolding(crate::specs::Code::fact_moved))]
    fn fact_moved(self, fact: Option<u64>) -> Option<u64>
        ensures { result ≡ fact_moved self fact }
    {
        match self {
            Target::Rf64 => fact,
            Target::Bw64 => None,
        }
    }
}

// The JUNK chunk ahead of all others that keeps room for a ds64.
#[derive(Clone, Copy, Debug, PartialEq, Eq)]
pub struct Reserve {
    // The size of its payload.
    pub size: u64,
}

impl Reserve {
    // The bytes that a ds64 without entries needs.
    pub const LEAST: u64 = Ds64::LEAST;

    // The reserve that a file's first header announces, if that is one.
    #[tactic(auto, unfolding(crate::specs::Code::reserve_as, le::specs::Choice::pick))]
    pub fn of(first: Header) -> Option<Reserve>
        ensures { result ≡ reserve_as first }
    {
        if first.name != Name::JUNK || first.field < Reserve::LEAST {
            return None;
        }
        Some(Reserve { size: first.field })
    }
}

// What the upgrade changes in a file.
#[derive(Clone, Copy)]
struct Changes {
    // What the reserve holds from then on.
    ds64: Ds64,
    // The place of fact's count, if that is marked as moved.
    fact: Option<u64>,
    // The place of data's size field.
    data_field: u64,
    // The form's name.
    name: u64,
}

impl Changes {
    // What it changes in a file that the scan accepts.
    #[tactic(auto, unfolding(crate::specs::Code::changes_of))]
    fn of(file: &[u8], target: Target, a: Accepted) -> Changes
        requires { Knows file.now a }
        ensures { result ≡ changes_of target a file.now }
    {
        Changes {
            ds64: Ds64 {
                form_size: file.len() as u64 - 8,
                data_size: a.audio.size,
                third: target.third(file, a),
                count: 0,
            },
            fact: target.fact_moved(a.fact),
            data_field: a.audio.place - 4,
            name: target.name(),
        }
    }

    // Makes the stores, in the order that request (xii) of document 02 gives them.
    fn make(self, file: &mut [u8])
        requires { Inside self file.old }
        ensures { file.new ≡ patched (stores self) file.old }
    {
        le::store::<8>(file, 20, self.ds64.form_size);
        le::store::<8>(file, 28, self.ds64.data_size);
        le::store::<8>(file, 36, self.ds64.third);
        le::store::<4>(file, 44, self.ds64.count);
        le::store::<4>(file, 12, Name::DS64);
        if let Some(place) = self.fact {
            le::store::<4>(file, place as usize, chunk::ONES);
        }
        le::store::<4>(file, self.data_field as usize, chunk::ONES);
        le::store::<4>(file, 4, chunk::ONES);
        le::store::<4>(file, 0, self.name);
    }
}

// Upgrades a RIFF file in place; the scan's own refusal, 18 or 19 leave it as it was. Of an accepted RIFF file the second
// half of demand 3 holds, whole.
pub fn upgrade(file: &mut [u8], target: Target) -> Result<(), Refusal>
    ensures upgrade_done { UpgradeDone target file.old result file.new }
    ensures demand3 { KeepsDemand3 target file.old result file.new }
{
    let a = wave::judgement::examine(file)?;
    // Kept: an arm for each form, so that each can be got wrong alone (must-fail/bw64_not_18).
    match a.head.form {
        Form::Riff => {}
        Form::Rf64 => return Err(Refusal::Already64),
        Form::Bw64 => return Err(Refusal::Already64),
    }
    Reserve::of(a.first).ok_or(Refusal::NoReserve)?;
    Changes::of(file, target, a).make(file);
    Ok(())
}
