// The judgement of a listing (checks 11 and 12), and the scan but for its table: the listing, then the judgement.
ghost use Rattle.std.specs.Prelude.{◌≡◌};
ghost use Rattle.listing.specs.Listings.{listing};
ghost use Rattle.listing.specs.Code.{Fresh};
ghost use Rattle.wave.specs.Scans.{scan};
ghost use Rattle.wave.specs.Code.{judge_of, known_of, surveyed_as, examined_as};

use chunk::{Header, Refusal};
use fmt::Format;
use form::Head;
use listing::{Listing, Payload};

// What the scan knows of a file that it accepts, besides its table.
#[derive(Clone, Copy, Debug, PartialEq, Eq)]
pub struct Accepted {
    pub head: Head,
    pub first: Header,
    pub audio: Payload,
    pub fact: Option<u64>,
    pub count: u64,
    pub format: Format,
}

impl Accepted {
    // A listed file whose format is good.
    // Kept: by name and no Listing within, since statements and callers name what is known (known_of, specs/Code.antt).
    fn of(listed: Listing, format: Format) -> Accepted
        ensures { result ≡ known_of listed format }
    {
        Accepted {
            head: listed.head,
            first: listed.first,
            audio: listed.audio,
            fact: listed.fact,
            count: listed.count,
            format,
        }
    }
}

// Checks 11 and 12 of a file that has just been listed.
fn judge(file: &[u8], listed: Listing) -> Result<Format, Refusal>
    requires { Fresh file.now listed }
    ensures { result ≡ judge_of listed file.now }
{
    let start = listed.fmt.place as usize;
    let end = (listed.fmt.place + listed.fmt.size) as usize;
    let format = fmt::read(&file[start..end])?;
    if listed.audio.size % format.block != 0 {
        return Err(Refusal::RaggedAudio);
    }
    Ok(format)
}

// The judgement for a caller that has just listed the file: nothing is compared, and 24 can't come.
pub fn judge_fresh(file: &[u8], listed: Listing) -> Result<Accepted, Refusal>
    requires { Fresh file.now listed }
    ensures { result ≡ examined_as file.now (scan file.now) }
{
    let format = judge(file, listed)?;
    Ok(Accepted::of(listed, format))
}

// A listed file, and what checks 11 and 12 say of it.
#[derive(Clone, Copy)]
pub(crate) struct Surveyed {
    pub listing: Listing,
    pub said: Result<Format, Refusal>,
}

// The listing and the judgement in one. The scan, the count, the upgrade, the listing into words and the judgement of words
// all begin with it, so that what is built has the two once, inlined here.
pub(crate) fn survey(file: &[u8]) -> Result<Surveyed, Refusal>
    ensures { result ≡ surveyed_as file.now (listing file.now) }
{
    let listing = listing::list(file)?;
    let said = judge(file, listing);
    Ok(Surveyed { listing, said })
}

// The whole scan but for the table: what is known of an accepted file, or the refusal.
pub fn examine(file: &[u8]) -> Result<Accepted, Refusal>
    ensures { result ≡ examined_as file.now (scan file.now) }
{
    let surveyed = survey(file)?;
    let format = surveyed.said?;
    Ok(Accepted::of(surveyed.listing, format))
}
