// The parts of a record as runs of bytes: those of a payload, judged by nothing, and those that a writer is given.
ghost use Rattle.std.specs.Prelude.{◌≡◌, ◌+◌, ◌≤◌, length};
ghost use Rattle.std.proofs.lemmas.List.Edits.{sets};
ghost use Rattle.bext_parts.specs.Parts.{text_of, set_of, padded};

use crate::Bext;

// The parts of a record, and its two numbers. The three texts come without the zeros after them, the history with its own, if
// any; an empty date or time is not set; rest is the 254 bytes after Version.
#[derive(Clone, Copy, Debug, PartialEq, Eq)]
pub struct Parts<'a> {
    pub description: &'a [u8],
    pub originator: &'a [u8],
    pub reference: &'a [u8],
    pub date: &'a [u8],
    pub time: &'a [u8],
    // Samples since midnight.
    pub timeref: u64,
    pub version: u64,
    pub rest: &'a [u8],
    pub history: &'a [u8],
}

impl<'a> Parts<'a> {
    ghost use Rattle.bext.specs.Slices.{parts_in, whole_of};
    ghost use Rattle.bext.specs.Code.{Fitting};
    ghost use Rattle.bext.specs.Writing.{writable, asked_of, laid};

    // The parts of a payload: what the record of an accepted payload has. A payload of fewer than 602 bytes has none: each is
    // empty, and the numbers are 0.
    #[tactic(auto, unfolding(crate::specs::Slices::whole_of, crate::specs::Slices::parts_in, crate::specs::Slices::no_parts))]
    pub fn of(payload: &'a [u8]) -> Parts<'a>
        ensures { whole_of result ≡ parts_in payload.now }
    {
        if payload.len() < Bext::HISTORY {
            let none = &payload[..0];
            return Parts {
                description: none,
                originator: none,
                reference: none,
                date: none,
                time: none,
                timeref: 0,
                version: 0,
                rest: none,
                history: none,
            };
        }
        Parts {
            description: text(&payload[..Bext::ORIGINATOR]),
            originator: text(&payload[Bext::ORIGINATOR..Bext::REFERENCE]),
            reference: text(&payload[Bext::REFERENCE..Bext::DATE]),
            date: stamp(&payload[Bext::DATE..Bext::TIME]),
            time: stamp(&payload[Bext::TIME..Bext::TIMEREF]),
            timeref: le::read::<8>(payload, Bext::TIMEREF),
            version: le::read::<2>(payload, Bext::VERSION),
            rest: &payload[Bext::REST..Bext::HISTORY],
            history: &payload[Bext::HISTORY..],
        }
    }

    // Whether a record could have been read.
    #[tactic(auto, unfolding(crate::specs::Writing::writable, crate::specs::Writing::asked))]
    pub(crate) fn is_writable(self) -> bool
        ensures { result ≡ writable (asked_of self.entry) }
    {
        bext_parts::text_given(self.description, 256)
            && bext_parts::text_given(self.originator, 32)
            && bext_parts::text_given(self.reference, 32)
            && bext_parts::date_given(self.date)
            && bext_parts::time_given(self.time)
            && self.version < 0x1_0000
            && bext_parts::rest_given(self.version, self.rest)
            && bext_parts::text_good(self.history)
    }

    // Stores a record that could have been read, its payload at the start of out.
    #[tactic(auto, unfolding(crate::specs::Writing::asked))]
    pub(crate) fn store(self, out: &mut [u8])
        requires { Fitting (asked_of self) × (602 + length self.history.now ≤ length out.old) }
        ensures { out.new ≡ sets out.old 0 (laid (asked_of self.entry)) }
    {
        put_text(self.description, &mut out[..Bext::ORIGINATOR]);
        put_text(self.originator, &mut out[Bext::ORIGINATOR..Bext::REFERENCE]);
        put_text(self.reference, &mut out[Bext::REFERENCE..Bext::DATE]);
        put_text(self.date, &mut out[Bext::DATE..Bext::TIME]);
        put_text(self.time, &mut out[Bext::TIME..Bext::TIMEREF]);
        le::store::<8>(out, Bext::TIMEREF, self.timeref);
        le::store::<2>(out, Bext::VERSION, self.version);
        put_text(self.rest, &mut out[Bext::REST..Bext::HISTORY]);
        out[Bext::HISTORY..Bext::HISTORY + self.history.len()].copy_from_slice(self.history);
    }
}

// The text in these bytes.
fn text(s: &[u8]) -> &[u8]
    ensures { result.now ≡ text_of s.now }
{
    &s[..bext_parts::text_length(s)]
}

// The date or time in these bytes, empty where it is not set.
#[tactic(auto, unfolding(bext_parts::specs::Parts::set_of))]
fn stamp(s: &[u8]) -> &[u8]
    ensures { result.now ≡ set_of s.now }
{
    if bext_parts::all_zero(s) {
        return &s[..0];
    }
    s
}

// Puts a text at the start of these bytes, and zeros after it. All are cleared first, and inlined, since their number is known
// where they are lent: clearing what is left by a call takes a record with few texts half as many instructions again.
#[inline(always)]
fn put_text(t: &[u8], place: &mut [u8])
    requires { length t.now ≤ length place.old }
    ensures { place.new ≡ padded (length place.old) t.now }
{
    place.fill(0);
    place[..t.len()].copy_from_slice(t);
}
