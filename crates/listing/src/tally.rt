// What the walk keeps of the chunks it meets: how often each name that check 10 asks for was met, and where.
ghost use Rattle.std.specs.Prelude.{◌≡◌};

use super::Payload;
use chunk::{Entry, Name};

// How many chunks of each name were met, and where the last was; zeros or none before the first.
#[derive(Clone, Copy)]
pub struct Tally {
    // The five counts in one number, eight bits each: a file has at most 64 chunks. A fact below 4 bytes counts twice,
    // since two are refused as one such is.
    // Kept: five numbers in its place push others out of the registers, some 20 instructions a file (docs/DECISIONS.md).
    pub met: u64,
    // Kept: zeros and no Option, since check 10 asks the counts, and what it lets pass has both.
    pub fmt: Payload,
    pub audio: Payload,
    pub fact: Option<u64>,
}

impl Tally {
    ghost use Rattle.listing.specs.Code.{noted, no_tally, tally_good, Small};

    // What one chunk of a name adds.
    const FMT: u64 = 1;

    const DATA: u64 = 0x100;

    const FACT: u64 = 0x1_0000;

    const BEXT: u64 = 0x100_0000;

    const CHNA: u64 = 0x1_0000_0000;

    // Nothing met yet.
    #[tactic(auto, unfolding(crate::specs::Code::no_tally))]
    pub fn none() -> Tally
        ensures { result ≡ no_tally }
    {
        let nothing = Payload { place: 0, size: 0 };
        Tally {
            met: 0,
            fmt: nothing,
            audio: nothing,
            fact: None,
        }
    }

    // The tally after one chunk more. Most chunks have none of the five names.
    #[tactic(auto, unfolding(crate::specs::Code::noted, crate::specs::Code::weight, crate::specs::Code::heavy, crate::specs::Code::counts, crate::specs::Code::changes, crate::specs::Code::payload_of))]
    pub fn note(self, e: Entry) -> Tally
        requires { Small self }
        ensures { result ≡ noted self e }
    {
        let payload = Payload {
            place: e.place,
            size: e.size,
        };
        match e.name {
            Name::FMT => Tally {
                met: self.met + Tally::FMT,
                fmt: payload,
                ..self
            },
            Name::DATA => Tally {
                met: self.met + Tally::DATA,
                audio: payload,
                ..self
            },
            Name::FACT => {
                let times = if e.size < 4 { 2 } else { 1 };
                Tally {
                    met: self.met + times * Tally::FACT,
                    fact: Some(e.place),
                    ..self
                }
            }
            Name::BEXT => Tally {
                met: self.met + Tally::BEXT,
                ..self
            },
            Name::CHNA => Tally {
                met: self.met + Tally::CHNA,
                ..self
            },
            _ => self,
        }
    }

    // Check 10.
    pub fn is_good(self) -> bool
        ensures { result ≡ tally_good self }
    {
        self.met % Tally::FACT == Tally::FMT + Tally::DATA
            && self.fmt.place < self.audio.place
            && self.met / Tally::BEXT % 0x100 <= 1
            && self.met / Tally::CHNA <= 1
            && self.met / Tally::FACT % 0x100 <= 1
    }
}
