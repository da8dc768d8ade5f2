// What the two formats share: FORMAT.md, "Sections", "Refusals" and "Order of checks". The order of sections, sections 0, 1, 6 and 8, the
// checks at a place as lists, and the verdict on any octets, accepted or refused, by whatever a format says of its own sections 3, 4, 5 and 7. Below it
// stands `rules` (the fields of each section); above it `base_format` (run-length packed files) and `dual_format` (dual-polarisation files) with their own sections, and `walks`.
//
// What is to be believed stands in specs/; proofs/Exact.antt has the theorems that a verdict accepts and refuses exactly the files of
// specs/Accepted.antt and specs/Refused.antt, for every format whose checks say what it says.
#![tactic(auto)]

ghost use Rattle.std.specs.Prelude.{◌≡◌, cond, ◌+◌, ◌≤◌, length, leb};
ghost use Rattle.rules.specs.Fields.{length_at};
ghost use Rattle.sections.specs.Refusal.{number_of, refuse};
ghost use Rattle.sections.specs.Parts.{bins_in, rays_in, time_of, grid_at};
ghost use Rattle.sections.specs.Checks.{FormatChecks, follows, framed, room_for_cut, closes, checks1, checks6};
ghost use Rattle.sections.specs.Ready.{Needs, ReadyBefore7};
ghost use Rattle.sections.specs.Verdict.{first_fault};

// Why a call on a file is refused: one case for each number of specs/Refusal.antt. (12 is of the run calls alone: section 5 holds V.)
#[derive(Clone, Copy, Debug, PartialEq, Eq)]
pub enum Why {
    // 1: the lent file is under 20 or over 8,388,608 octets
    FileSize,
    // 2: section 0 is not as it should be
    Section0,
    // 3: no section of a right length and number stands there, or no `7777` after a 7
    Frame,
    // 4: the section's own length
    SectionLength,
    // 5: a named field
    Field,
    // 6: a point count
    Points,
    // 7: the value table
    Table,
    // 8: the data does not give exactly the bins
    Data,
    // 9: a 65th cut
    CutCount,
    // 10: an argument outside its range
    Argument,
    // 11: lent room too short
    Room,
    // 13: a record by which no ray can be read
    Record,
    // 14: a packing or a scan mode that is not read
    Unread,
}

// A refusal: why, and where: the start of the section concerned, for 8 the octet at fault, 0 where no section is concerned.
#[derive(Clone, Copy, Debug, PartialEq, Eq)]
pub struct Refusal {
    pub why: Why,
    pub place: usize,
}

// The places of a cut's sections.
#[derive(Clone, Copy, Debug, PartialEq, Eq)]
pub struct Cut {
    pub section3: usize,
    pub section4: usize,
    pub section5: usize,
    pub section7: usize,
}

// When a file was observed, as its section 1 says.
#[derive(Clone, Copy, Debug, PartialEq, Eq)]
pub struct Time {
    pub year: u16,
    pub month: u8,
    pub day: u8,
    pub hour: u8,
    pub minute: u8,
    pub second: u8,
}

// What every section 3 says, each number as read.
#[derive(Clone, Copy, Debug, PartialEq, Eq)]
pub struct Grid {
    pub nb: u32,
    pub nr: u32,
    pub latitude: i32,
    pub longitude: u32,
    pub dx: u32,
    pub dstart: u32,
}

// What the checks of a section ask of the sections before it.
#[derive(Clone, Copy, Debug, PartialEq, Eq)]
pub struct Context {
    // the number of the section before
    pub previous: u8,
    // the number of cuts before: sections 7
    pub cuts: usize,
    // the place of the first cut's section 4, where the section is a 4 or comes after one
    pub first: usize,
    // the places of the sections 3, 4 and 5 last seen
    pub section3: usize,
    pub section4: usize,
    pub section5: usize,
}

// What a file may be read as: a format, by the checks of the sections that are its own. The walk is written once, for any of them.
pub trait FileFormat {
    // the checks of its own sections, by the section's number
    ghost own: { FormatChecks };

    // what its checks of a section 7 go by, of the sections before it
    ghost Ready: { Needs };

    // The checks of its own sections other than a 7.
    fn judge(s: &[u8], x: Context, at: usize, n: u8) -> Result<(), Refusal>
        requires at_in_bounds { at + length_at s.now at ≤ length s.now }
        requires fact { n ≡ 7 → ⊥ }
        ensures { result ≡ first_fault (own s.now x at n) };

    // The checks of a section 7.
    fn judge7(s: &[u8], x: Context, at: usize) -> Result<(), Refusal>
        requires at_in_bounds { at + length_at s.now at ≤ length s.now }
        requires ready { Ready s.now x }
        ensures { result ≡ first_fault (own s.now x at 7) };

    // Where the sections before a 7 have passed, all is ready for it.
    ghost ready_before_7: { ReadyBefore7 own Ready };
}

// The number of each in FORMAT.md, "Refusals".
impl From<Why> for u32 {
    ghost from_gives = { λ why number. number ≡ number_of why };

    fn from(why: Why) -> u32 {
        match why {
            Why::FileSize => 1,
            Why::Section0 => 2,
            Why::Frame => 3,
            Why::SectionLength => 4,
            Why::Field => 5,
            Why::Points => 6,
            Why::Table => 7,
            Why::Data => 8,
            Why::CutCount => 9,
            Why::Argument => 10,
            Why::Room => 11,
            Why::Record => 13,
            Why::Unread => 14,
        }
    }
}

pub fn refuse(why: Why, place: usize) -> Refusal
    ensures { result ≡ refuse why place }
{
    Refusal { why, place }
}

// One check: it holds, or the refusal. Each of a section's checks is followed by `?`, so that the first that fails is the answer.
pub fn check(ok: bool, why: Why, place: usize) -> Result<(), Refusal>
    ensures { result ≡ cond ok (Ok tt) (Err (refuse why place)) }
{
    if ok { Ok(()) } else { Err(refuse(why, place)) }
}

// The place past the section at a place. Past the file a length reads as 0.
pub fn end_at(s: &[u8], at: usize) -> usize
    ensures { result ≡ at + length_at s.now at }
{
    if at < s.len() {
        at + rules::length_at(s, at) as usize
    } else {
        at
    }
}

// ---- what every format says alike

pub fn time_of(s: &[u8]) -> Time
    ensures { result ≡ time_of s.now }
{
    let year = rules::field::<u16>(s, 16, 13);
    let month = rules::field::<u8>(s, 16, 15);
    let day = rules::field::<u8>(s, 16, 16);
    let hour = rules::field::<u8>(s, 16, 17);
    let minute = rules::field::<u8>(s, 16, 18);
    let second = rules::field::<u8>(s, 16, 19);
    Time {
        year,
        month,
        day,
        hour,
        minute,
        second,
    }
}

// Nb and Nr of a cut.
pub fn bins_in(s: &[u8], c: Cut) -> usize
    ensures { result ≡ bins_in s.now c }
{
    rules::bins_at(s, c.section3) as usize
}

pub fn rays_in(s: &[u8], c: Cut) -> usize
    ensures { result ≡ rays_in s.now c }
{
    rules::rays_at(s, c.section3) as usize
}

pub fn grid_at(s: &[u8], at: usize) -> Grid
    ensures { result ≡ grid_at s.now at }
{
    let nb = rules::bins_at(s, at);
    let nr = rules::rays_at(s, at);
    let latitude = octets::signed(rules::field::<u32>(s, at, 23));
    let longitude = rules::field::<u32>(s, at, 27);
    let dx = rules::field::<u32>(s, at, 31);
    let dstart = rules::field::<u32>(s, at, 35);
    Grid {
        nb,
        nr,
        latitude,
        longitude,
        dx,
        dstart,
    }
}

// ---- the checks that every format has

// Whether n octets from `at` on end at `end` or before.
fn ends_by(at: usize, n: usize, end: usize) -> bool
    ensures { result ≡ leb (at + n) end }
{
    if end < at { false } else { n <= end - at }
}

// The order of sections: the next number follows, but a 3 after a 1, and a 3 or a 4 after a 7.
fn may_follow(p: u8, n: u8) -> bool
    ensures { result ≡ follows p n }
{
    if p == 7 {
        return (n == 3) | (n == 4);
    }
    if p == 1 {
        return n == 3;
    }
    if 7 < p {
        return false;
    }
    (p != 2) & (n == p + 1)
}

// The five octets that every section begins with are taken as a part of the file: what is read in a part of a known length needs no test of its own.
pub fn is_framed(s: &[u8], end: usize, x: Context, at: usize) -> bool
    requires { end ≤ length s.now }
    ensures { result ≡ framed s.now end x at }
{
    if ends_by(at, 5, end) {
        let head = &s[at..at + 5];
        let len = rules::length_at(head, 0) as usize;
        let n = rules::number_at(head, 0);
        return (5 <= len) & (ends_by(at, len, end) & may_follow(x.previous, n));
    }
    false
}

pub fn has_room(s: &[u8], x: Context, at: usize) -> bool
    ensures { result ≡ room_for_cut s.now x at }
{
    let n = rules::number_at(s, at);
    !((64 <= x.cuts) & ((n == 3) | (n == 4)))
}

// Whether `7777` stands at the cursor, after a 7.
pub fn is_closed(s: &[u8], x: Context, at: usize) -> bool
    ensures { result ≡ closes s.now x at }
{
    (x.previous == 7) & rules::fields8(s, at)
}

// The sections that every format has: the length first, then the fields, read in the part of the file that is the section. Two functions: one that took the
// length and the fields' function would be no plainer than these two lines.

pub fn judge1(s: &[u8], at: usize) -> Result<(), Refusal>
    requires { at + length_at s.now at ≤ length s.now }
    ensures { result ≡ first_fault (checks1 s.now at) }
{
    check(rules::length_at(s, at) == 21, Why::SectionLength, at)?;
    check(rules::fields1(&s[at..at + 21], 0), Why::Field, at)
}

pub fn judge6(s: &[u8], at: usize) -> Result<(), Refusal>
    requires { at + length_at s.now at ≤ length s.now }
    ensures { result ≡ first_fault (checks6 s.now at) }
{
    check(rules::length_at(s, at) == 6, Why::SectionLength, at)?;
    check(rules::fields6(&s[at..at + 6], 0), Why::Field, at)
}
