// The whole text of a file's list, written page by page: FORMAT.md, "The lister". specs/Listing.antt has the text as one definition, `text_of`; `start`
// gives the standing before the first octet, and `page` writes the next octets of the text and hands the next standing on (proofs/Pages.antt: the
// pages joined are the text). The file's checks are made once. The words of a listing are kept between pages, so that a cut is listed in few
// portions, however small the page. Below it stand `walks`, `cuts`, `stretches` and `lines`; above it the programs.
#![tactic(auto)]

ghost use Rattle.std.specs.Prelude.{◌≡◌, false, List, ℕ, ◌+◌, ◌≤◌, ◌<◌, length};
ghost use Rattle.sections.specs.Refusal.{number_of};
ghost use Rattle.stretches.specs.Stretch.{per_entry};
ghost use Rattle.lent.specs.Put.{Put};
ghost use Rattle.lines.specs.Rooms.{line_room};
ghost use Rattle.listing.specs.Listing.{head_of, text_of};
ghost use Rattle.listing.specs.Progress.{step_room, cut_begun, text_from, part_text, finished, rank, AtCut, Listed, InWords, Sound, ToCome, StepTo, Paged};

use base_format::RunLength;
use sections::{Cut, Refusal, Why};
use stretches::Listing;

// How many octets a file may have that is listed.
pub const LARGEST: usize = 65536;

// How many lines of entries a step writes at most, and how much room it asks.
const LINES: usize = 256;

const ROOM: usize = LINES * lines::ENTRY_ROOM;

// Part of a cut: the cut, the point from which its entries are to come, and how many entries came before.
#[derive(Clone, Copy)]
pub struct CutPart {
    pub number: usize,
    pub cuts: usize,
    pub cut: Cut,
    pub ray: usize,
    pub bin: usize,
    pub total: usize,
}

// Where the writing stands.
#[derive(Clone, Copy)]
pub enum Progress {
    // the line of a refusal is all there is
    Refused(Refusal),
    // the first line of a cut
    Head(CutPart),
    // entries, which are to be listed into the words
    ToList(CutPart),
    // entries that the words hold, of which so many were written
    ToWrite(CutPart, Listing, usize),
    // the last line
    End(usize),
    Finished,
}

// Where the octets written so far end, and where the writing then stands.
#[derive(Clone, Copy)]
struct AfterStep {
    at: usize,
    next: Progress,
}

// How many octets were written, and where the writing then stands: a number of octets, and no place.
#[derive(Clone, Copy)]
pub struct Written {
    pub len: usize,
    pub next: Progress,
}

// A cut from its beginning on.
fn cut_begun(number: usize, cuts: usize, cut: Cut, total: usize) -> CutPart
    ensures { result ≡ cut_begun number cuts cut total }
{
    CutPart {
        number,
        cuts,
        cut,
        ray: 0,
        bin: 0,
        total,
    }
}

// Before the first octet.
pub fn start(file: &[u8]) -> Progress
    ensures result_value { text_from file.now result ≡ text_of file.now }
    ensures by_index { (ws : List ℕ) → Sound file.now ws result }
{
    if LARGEST < file.len() {
        return Progress::Refused(sections::refuse(Why::FileSize, 0));
    }
    match walks::walk::<RunLength>(file, 0) {
        Ok(found) => Progress::Head(cut_begun(0, found.cuts, found.cut, 0)),
        Err(refusal) => Progress::Refused(refusal),
    }
}

// Whether nothing is to come any more.
pub fn is_finished(p: Progress) -> bool
    ensures { result ≡ finished p }
{
    if let Progress::Finished = p {
        true
    } else {
        false
    }
}

fn put_first_line(file: &[u8], part: CutPart, text: &mut [u8], at: usize) -> usize
    requires { at + line_room ≤ length text.old }
    ensures { Put text.old at (head_of file.now part.number part.cut) text.new result }
{
    let cut = part.cut;
    let product = base_format::product_number(base_format::product_in(file, cut)) as usize;
    let bins = sections::bins_in(file, cut);
    let rays = sections::rays_in(file, cut);
    lines::put_head(
        text,
        at,
        part.number,
        product,
        bins,
        rays,
        stretches::HOUSE as usize,
    )
}

// Past the entries of a listing: more of the same cut, the next cut, or the end.
fn moved_on(file: &[u8], part: CutPart, l: Listing) -> Progress
    requires { Listed file.now part l }
    ensures { (ws : List ℕ) → ToCome file.now ws (part_text file.now part l.count) result }
{
    let cut = part.cut;
    let total = part.total + l.count;
    if l.ray < sections::rays_in(file, cut) {
        return Progress::ToList(CutPart {
            number: part.number,
            cuts: part.cuts,
            cut,
            ray: l.ray,
            bin: l.bin,
            total,
        });
    }
    let number = part.number + 1;
    if number < part.cuts {
        let cut = cuts::next_cut(file, cut);
        return Progress::Head(cut_begun(number, part.cuts, cut, total));
    }
    Progress::End(total)
}

// The entries of a part, listed into the words.
fn list_part(file: &[u8], part: CutPart, words: &mut [u32]) -> Progress
    requires { (AtCut file.now part) × (per_entry ≤ length words.old) }
    ensures to_come { ToCome file.now words.new (part_text file.now part 0) result }
    ensures result_value { rank result ≡ 0 }
{
    let cut = part.cut;
    let listing = cuts::list_into(file, cut, stretches::HOUSE, part.ray, part.bin, words);
    Progress::ToWrite(part, listing, 0)
}

// Some more lines of the entries that the words hold.
fn put_more_lines(
    file: &[u8],
    part: CutPart,
    l: Listing,
    written: usize,
    words: &[u32],
    text: &mut [u8],
    at: usize,
) -> AfterStep
    requires in_words { InWords file.now words.now part l written }
    requires step_room_in_bounds { at + step_room ≤ length text.old }
    ensures { StepTo file.now words.now text.old (Progress.ToWrite part l written) at text.new result }
{
    let n = (l.count - written).min(LINES);
    let to = lines::put_entries(text, at, words, written, n);
    if written + n < l.count {
        return AfterStep {
            at: to,
            next: Progress::ToWrite(part, l, written + n),
        };
    }
    let next = moved_on(file, part, l);
    AfterStep { at: to, next }
}

// One step: a line, some lines, or a listing.
fn step(file: &[u8], p: Progress, words: &mut [u32], text: &mut [u8], at: usize) -> AfterStep
    requires sound { Sound file.now words.old p }
    requires per_entry_in_bounds { (per_entry ≤ length words.old) × (at + step_room ≤ length text.old) }
    ensures { StepTo file.now words.new text.old p at text.new result }
{
    match p {
        Progress::Refused(refusal) => {
            let number = u32::from(refusal.why) as usize;
            let to = lines::put_refused(text, at, number, refusal.place);
            AfterStep {
                at: to,
                next: Progress::Finished,
            }
        }
        Progress::Head(part) => {
            let to = put_first_line(file, part, text, at);
            AfterStep {
                at: to,
                next: Progress::ToList(part),
            }
        }
        Progress::ToList(part) => {
            let next = list_part(file, part, words);
            AfterStep { at, next }
        }
        Progress::ToWrite(part, l, written) => put_more_lines(
            file, part, l, written, words, text, at,
        ),
        Progress::End(total) => {
            let to = lines::put_end(text, at, total);
            AfterStep {
                at: to,
                next: Progress::Finished,
            }
        }
        Progress::Finished => AfterStep {
            at,
            next: Progress::Finished,
        },
    }
}

// The next page of the text, at the front of `text`.
pub fn page(file: &[u8], p: Progress, words: &mut [u32], text: &mut [u8]) -> Written
    requires sound { Sound file.now words.old p }
    requires per_entry_in_bounds { (per_entry ≤ length words.old) × (step_room ≤ length text.old) }
    ensures paged { Paged file.now words.new text.old p text.new result }
    ensures len_nonzero { finished p ≡ false → 0 < result.len }
{
    let mut next = p;
    let mut at: usize = 0;
    let last = text.len() - ROOM;
    while at <= last {
        if is_finished(next) {
            break;
        }
        let s = step(file, next, words, text, at);
        at = s.at;
        next = s.next;
    }
    Written { len: at, next }
}
