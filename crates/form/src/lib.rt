// The forms RIFF, RF64 and BW64, the ds64 chunk, and checks 1 to 5: the form, its ds64, and the form size.
// The check finds each proof once it may open these definitions.
#![tactic(auto, unfolding(crate::specs::Forms::is_wide, crate::specs::Forms::form_of, crate::specs::Forms::ds64_good, crate::specs::Forms::ds64_at, crate::specs::Forms::no_ds64, crate::specs::Forms::wide_as, crate::specs::Forms::head_as, crate::specs::Forms::form_size, crate::specs::Forms::whole_form, crate::specs::Forms::whole_as, crate::specs::Forms::head_of, crate::specs::Forms::open_for32, crate::specs::Code::parsed_as, crate::specs::Code::wave_of, crate::specs::Code::form_in, crate::specs::Code::whole_of, crate::specs::Code::place_of, crate::specs::Code::room_of, crate::specs::Code::opened_as, chunk::specs::Refusals::check, chunk::specs::Refusals::and_then, chunk::specs::Refusals::verdict_of, le::specs::Choice::pick, le::specs::Choice::every))]

ghost use Rattle.std.specs.Prelude.{◌≡◌, ◌≤◌, length, OnOk};
ghost use Rattle.chunk.specs.Refusals.{verdict_of};
ghost use Rattle.form.specs.Forms.{is_wide, form_of, form_size, head_of, open_for32};
ghost use Rattle.form.specs.Code.{parsed_as, wave_of, form_in, whole_of, opened_as};

use chunk::{Name, Refusal, Table};

// The form that bytes 0 to 3 of a file name.
#[derive(Clone, Copy, Debug, PartialEq, Eq)]
pub enum Form {
    Riff,
    Rf64,
    Bw64,
}

impl TryFrom<u64> for Form {
    type Error = Refusal;

    ghost try_from_gives = { λ name form. form ≡ form_of name };

    // The form of a 4-byte name, or 2.
    fn try_from(name: u64) -> Result<Self, Refusal> {
        match name {
            Name::RIFF => Ok(Form::Riff),
            Name::RF64 => Ok(Form::Rf64),
            Name::BW64 => Ok(Form::Bw64),
            _ => Err(Refusal::NotWave),
        }
    }
}

impl Form {
    // Whether a form has a ds64.
    pub fn is_wide(self) -> bool
        ensures { result ≡ is_wide self }
    {
        match self {
            Form::Riff => false,
            Form::Rf64 | Form::Bw64 => true,
        }
    }
}

// What ds64 says ahead of its entries (000 5.5, 002 2.4).
#[derive(Clone, Copy, Debug, PartialEq, Eq)]
pub struct Ds64 {
    pub form_size: u64,
    pub data_size: u64,
    // The sample count in RF64, nothing in BW64.
    pub third: u64,
    // How many entries follow.
    pub count: u64,
}

impl Ds64 {
    // The most entries that a ds64 may have.
    pub const LIMIT: u64 = 16;
    // The payload's size without entries, and the size of an entry.
    pub const LEAST: u64 = 28;

    pub const ENTRY: u64 = 12;
    // Where the least payload ends in a file, past the form's 12 bytes and a header: the entries start there.
    pub const END: u64 = 20 + Ds64::LEAST;
    // Where the entries of a full ds64 end.
    pub const FULL: u64 = Ds64::END + Ds64::ENTRY * Ds64::LIMIT;
    // What RIFF has in its place.
    const NONE: Ds64 = Ds64 {
        form_size: 0,
        data_size: 0,
        third: 0,
        count: 0,
    };
}

// A form, with the ds64 of a 64-bit one; RIFF has one of zeros.
// Kept: zeros and no Option, since head_as and form_size (specs/Forms.antt) say so of RIFF, and statements name h.ds64.
#[derive(Clone, Copy, Debug, PartialEq, Eq)]
pub struct Head {
    pub form: Form,
    pub ds64: Ds64,
}

impl Head {
    // The form size: what the form's own field says, or ds64 where that is all ones.
    fn form_size(self, own: u64) -> u64
        ensures { result ≡ form_size self own }
    {
        if own == chunk::ONES {
            self.ds64.form_size
        } else {
            own
        }
    }
}

// A file whose form is good, and where its other chunks start: in RIFF the first of all, in a 64-bit form past ds64.
#[derive(Clone, Copy, Debug, PartialEq, Eq)]
pub struct Start {
    pub head: Head,
    // The place of the first of them, if its header is there.
    pub place: u64,
    // How many may come.
    pub room: u64,
}

// A ds64 that keeps its rules, and the place of the chunk past it.
#[derive(Clone, Copy)]
struct Parsed {
    ds64: Ds64,
    next: u64,
}

// The ds64 of a 64-bit form: check 4.
fn parse(file: &[u8]) -> Result<Parsed, Refusal>
    ensures { result ≡ parsed_as file.now }
{
    let len = file.len() as u64;
    if len < Ds64::END {
        return Err(Refusal::BadDs64);
    }
    let h = chunk::steps::header(file, 20);
    let count = le::read::<4>(file, 44);
    if h.name != Name::DS64
        || h.field == chunk::ONES
        || Ds64::LIMIT < count
        || h.field < Ds64::LEAST + Ds64::ENTRY * count
    {
        return Err(Refusal::BadDs64);
    }
    let next = chunk::steps::past(20, h.field);
    if len + 8 < next {
        return Err(Refusal::BadDs64);
    }
    let ds64 = Ds64 {
        form_size: le::read::<8>(file, 20),
        data_size: le::read::<8>(file, 28),
        third: le::read::<8>(file, 36),
        count,
    };
    Ok(Parsed { ds64, next })
}

// Checks 1 and 2, but for the form's name.
fn wave(file: &[u8]) -> Result<(), Refusal>
    ensures is { result ≡ wave_of file.now }
    ensures long { OnOk result (12 ≤ length file.now) }
{
    if file.len() < 12 {
        return Err(Refusal::TooShort);
    }
    if le::read::<4>(file, 8) != Name::WAVE {
        return Err(Refusal::NotWave);
    }
    Ok(())
}

// Checks 1 and 2: the form. No form and no WAVE are both 2.
fn form_in(file: &[u8]) -> Result<Form, Refusal>
    ensures is { result ≡ form_in file.now }
    ensures long { OnOk result (12 ≤ length file.now) }
{
    wave(file)?;
    Form::try_from(le::read::<4>(file, 0))
}

// Check 5.
fn whole(file: &[u8], size: u64) -> Result<(), Refusal>
    requires { 12 ≤ length file.now }
    ensures { result ≡ whole_of (length file.now) size }
{
    if size != file.len() as u64 - 8 {
        return Err(Refusal::BadFormSize);
    }
    Ok(())
}

// Checks 1 to 5 of the scan.
pub fn open(file: &[u8]) -> Result<Start, Refusal>
    ensures { result ≡ opened_as file.now (head_of file.now) }
{
    let form = form_in(file)?;
    let own = le::read::<4>(file, 4);
    if !form.is_wide() {
        if own == chunk::ONES {
            return Err(Refusal::Unfinished);
        }
        whole(file, own)?;
        return Ok(Start {
            head: Head {
                form,
                ds64: Ds64::NONE,
            },
            place: 20,
            room: Table::LIMIT as u64,
        });
    }
    let parsed = parse(file)?;
    let head = Head {
        form,
        ds64: parsed.ds64,
    };
    whole(file, head.form_size(own))?;
    Ok(Start {
        head,
        place: parsed.next,
        room: Table::LIMIT as u64 - 1,
    })
}

// Checks 1, 2 and 5 of the 32-bit walk.
pub fn open32(file: &[u8]) -> Result<(), Refusal>
    ensures { result ≡ verdict_of (open_for32 file.now) }
{
    wave(file)?;
    let own = le::read::<4>(file, 4);
    if own == chunk::ONES {
        return Ok(());
    }
    whole(file, own)
}
