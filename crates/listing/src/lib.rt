// The listing of a file: checks 1 to 10, and what they found of it besides the table.
#![tactic(auto)]

mod headers;
mod tally;

ghost use Rattle.std.specs.Prelude.{◌≡◌};
ghost use Rattle.listing.specs.Listings.{listing};
ghost use Rattle.listing.specs.Code.{chunks_as, bare_as, listed_as};

use chunk::{Header, Refusal};
use form::Head;
use headers::Noted;

// A chunk's payload: where it starts, and its true size.
#[derive(Clone, Copy, Debug, PartialEq, Eq)]
pub struct Payload {
    pub place: u64,
    pub size: u64,
}

// What checks 1 to 10 found.
#[derive(Clone, Copy, Debug, PartialEq, Eq)]
pub struct Listing {
    pub head: Head,
    // The header of the first chunk; in a 64-bit form of the first past ds64.
    pub first: Header,
    pub fmt: Payload,
    pub audio: Payload,
    // Where fact's payload starts, if there is a fact.
    pub fact: Option<u64>,
    // The number of chunks.
    pub count: u64,
}

// Check 10.
#[tactic(auto, unfolding(crate::specs::Code::chunks_as))]
fn chunks(head: Head, noted: Noted) -> Result<Listing, Refusal>
    ensures { result ≡ chunks_as head noted }
{
    let tally = noted.tally;
    if !tally.is_good() {
        return Err(Refusal::BadChunkSet);
    }
    Ok(Listing {
        head,
        first: noted.first,
        fmt: tally.fmt,
        audio: tally.audio,
        fact: tally.fact,
        count: noted.count,
    })
}

// A file that ends where a header past ds64 is due has no fmt; else 1 to 7 bytes are left.
#[tactic(auto, unfolding(crate::specs::Code::bare_as))]
fn bare(len: u64, end: u64) -> Refusal
    ensures { result ≡ bare_as len end }
{
    if end == len {
        Refusal::BadChunkSet
    } else {
        Refusal::CutHeader
    }
}

// Checks 1 to 10.
pub fn list(file: &[u8]) -> Result<Listing, Refusal>
    ensures { result ≡ listed_as file.now (listing file.now) }
{
    let start = form::open(file)?;
    let len = file.len() as u64;
    if len < start.place {
        return Err(bare(len, start.place - 8));
    }
    let noted = headers::walk(file, start)?;
    chunks(start.head, noted)
}
