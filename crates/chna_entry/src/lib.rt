// An entry of chna: its identifiers, each by the pattern that 002 prints, and the rules of a used one (002 8.2).
//
// An entry is 40 bytes: track index 2, UID 12, track reference 14, pack reference 11, one pad. An unused one is 40 zeros.
#![tactic(auto)]

ghost use Rattle.std.specs.Prelude.{◌≡◌, ◌||◌, ◌+◌, ◌≤◌, length};
ghost use Rattle.le.specs.Number.{field};
ghost use Rattle.chna_entry.specs.Ids.{fits, UNUSED, UID, TRACK, CHANNEL, PACK, NOPACK};
ghost use Rattle.chna_entry.specs.Entries.{used_in, used_good, whole_entry, value_of};
ghost use Rattle.chna_entry.specs.Code.{hexes};

// The bytes of an entry.
pub const SIZE: usize = 40;

// Those that are judged: all but the pad.
const JUDGED: usize = SIZE - 1;

// What a used entry says.
#[derive(Clone, Copy, Debug, PartialEq, Eq)]
pub struct Entry {
    // The track index.
    pub index: u64,
    pub uid: [u8; 12],
    // The track reference.
    pub track: [u8; 14],
    // The pack reference.
    pub pack: [u8; 11],
}

// Whether N bytes at a place are hexadecimal digits, in either letter case.
fn hex<const N: usize>(s: &[u8], at: usize) -> bool
    requires { at + N ≤ length s.now }
    ensures { result ≡ fits (hexes N) (field N at s.now) }
{
    s[at..at + N].iter().all(|b| b.is_ascii_hexdigit())
}

// The rules of an entry's parts, each over the bytes of the entry. None asks for the pad.
// Kept: a line for each pattern that 002 prints; with prefix and place as parameters it could not be seen.

// ATU_ and eight hexadecimal digits.
fn is_uid(e: &[u8; JUDGED]) -> bool
    ensures { result ≡ fits UID (field 12 2 e.now) }
{
    e[2..].starts_with(b"ATU_") && hex::<8>(e, 6)
}

// AT_, eight hexadecimal digits, an underscore and two hexadecimal digits; or AC_, eight hexadecimal digits and _00.
fn is_reference(e: &[u8; JUDGED]) -> bool
    ensures { result ≡ (fits TRACK (field 14 14 e.now) || fits CHANNEL (field 14 14 e.now)) }
{
    hex::<8>(e, 17)
        && (e[14..].starts_with(b"AT_") && e[25] == b'_' && hex::<2>(e, 26)
            || e[14..].starts_with(b"AC_") && e[25..].starts_with(b"_00"))
}

// AP_ and eight hexadecimal digits.
fn is_pack(e: &[u8; JUDGED]) -> bool
    ensures { result ≡ fits PACK (field 11 28 e.now) }
{
    e[28..].starts_with(b"AP_") && hex::<8>(e, 31)
}

// Eleven zeros where the pack reference is.
// Kept: numbers, here and in is_unused, since the library's comparison of slices is a call for each entry (docs/DECISIONS.md).
fn no_pack(e: &[u8; JUDGED]) -> bool
    ensures { result ≡ fits NOPACK (field 11 28 e.now) }
{
    le::read::<8>(e, 28) == 0 && le::read::<2>(e, 36) == 0 && e[38] == 0
}

// Whether any bytes at all are an unused entry: 40 zeros.
pub fn is_unused(e: &[u8]) -> bool
    ensures { result ≡ fits UNUSED e.now }
{
    if e.len() != SIZE {
        return false;
    }
    le::read::<8>(e, 0) == 0
        && le::read::<8>(e, 8) == 0
        && le::read::<8>(e, 16) == 0
        && le::read::<8>(e, 24) == 0
        && le::read::<8>(e, 32) == 0
}

// The rules of a used entry, of any bytes at all: the first 39 are judged, and fewer are no entry.
pub fn used_good(e: &[u8], channels: u64) -> bool
    ensures { result ≡ used_good channels (used_in e.now) }
{
    let Some(e) = e.first_chunk::<JUDGED>() else {
        return false;
    };
    let index = le::read::<2>(e, 0);
    1 <= index && index <= channels && is_uid(e) && is_reference(e) && (is_pack(e) || no_pack(e))
}

impl Entry {
    // The used entry that 40 bytes hold, good or not. Any other number of bytes is no entry, and so not used.
    pub fn read(e: &[u8]) -> Option<Entry>
        ensures { result ≡ value_of (whole_entry e.now) }
    {
        if e.len() != SIZE || is_unused(e) {
            return None;
        }
        Some(Entry {
            index: le::read::<2>(e, 0),
            uid: e[2..14].try_into().unwrap(),
            track: e[14..28].try_into().unwrap(),
            pack: e[28..39].try_into().unwrap(),
        })
    }
}
