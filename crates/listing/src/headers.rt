// The walk of the headers past ds64 by their true sizes, its chunks tallied.
ghost use Rattle.std.specs.Prelude.{◌≡◌, ◌-◌, ◌≤◌};
ghost use Rattle.chunk.specs.Tables.{LIMIT};
ghost use Rattle.chunk.specs.Code.{header_of};
ghost use Rattle.listing.specs.Code.{no_tally, Near, Nears, passed_from, rest_of, Begins, tally_as};

use super::tally::Tally;
use chunk::{Header, Refusal, Step, Table};
use form::Start;

// Where a run of passed chunks ends, and how many headers may still come.
#[derive(Clone, Copy)]
pub struct Passed {
    pub place: u64,
    pub room: u64,
}

// What is noted of chunks: their tally, the first header, and their number.
#[derive(Clone, Copy)]
pub struct Noted {
    pub tally: Tally,
    pub first: Header,
    pub count: u64,
}

// Passes the chunks that no rule asks for: the name starts with none of b to f, and the next header is whole and no
// farther than near, so that the field is the size. One test of the end tells all of that chunk and of the next header.
// Kept: a while, since a for over the room that is left takes two instructions more for each chunk, and the sample count of 64
// chunks then passes its limit.
fn pass(file: &[u8], near: u64, from: u64, rooms: u64) -> Passed
    requires { Nears file.now near from }
    ensures { result ≡ passed_from file.now near rooms from }
{
    let mut place = from;
    let mut room = rooms;
    while 0 < room {
        let i = place as usize;
        let letter = file[i - 8];
        if (b'b'..=b'f').contains(&letter) {
            return Passed { place, room };
        }
        let next = chunk::steps::past(place, le::read::<4>(file, i - 4));
        if near < next {
            return Passed { place, room };
        }
        place = next;
        room -= 1;
    }
    Passed { place, room }
}

// The end of the file, or nearer: an all-ones field, were it a size, would pass it from that place on.
fn near_end(len: u64, place: u64) -> u64
    requires { place ≤ len }
    ensures { Near len place result }
{
    place + (len - place).min(chunk::ONES)
}

// The walk past ds64 by the true sizes, its chunks noted. Nothing is stored, so that a refused file leaves no row behind.
pub fn walk(file: &[u8], start: Start) -> Result<Noted, Refusal>
    requires { Begins file.now start }
    ensures { result ≡ tally_as (header_of start.place file.now) (LIMIT - start.room) no_tally (rest_of start file.now) }
{
    let first = chunk::steps::header(file, start.place);
    let near = near_end(file.len() as u64, start.place);
    let mut tally = Tally::none();
    let mut ahead = Passed {
        place: start.place,
        room: start.room,
    };
    // Kept: a while, since no index is counted: place and room come from pass.
    while 0 < ahead.room {
        let h = chunk::steps::header(file, ahead.place);
        let found = truesize::step(file, start.head, ahead.place, h);
        match found {
            Step::Chunk(entry, next) => {
                tally = tally.note(entry);
                ahead = pass(file, near, next, ahead.room - 1);
            }
            Step::Last(entry) => {
                return Ok(Noted {
                    tally: tally.note(entry),
                    first,
                    count: Table::LIMIT as u64 - ahead.room + 1,
                });
            }
            Step::Cut(_) => return Err(Refusal::CutHeader),
            Step::Stop(r) => return Err(r),
        }
    }
    Err(Refusal::TooMany)
}
