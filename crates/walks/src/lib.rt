// The walk over the sections of a file, which answers the verdict on any octets: accepted, with the number of cuts and the places of one cut's sections;
// or the refusal. One walk for any format, as the formats differ in the checks of their own sections alone. Below it stands `sections` (what every file has, and what
// a format is); above it `calls`, by which every call finds its cut, and `listing`.
#![tactic(auto)]

ghost use Rattle.std.specs.Prelude.{◌≡◌, [], ◌+◌, ◌^◌, ◌≤◌, ◌<◌, length};
ghost use Rattle.rules.specs.Fields.{length_at};
ghost use Rattle.sections.specs.Checks.{section_checks, checks_at};
ghost use Rattle.sections.specs.Verdict.{first_fault, sections, verdict_by};
ghost use Rattle.walks.specs.Answer.{answer_for};
ghost use Rattle.walks.specs.Places.{first_in, context_in};
ghost use Rattle.walks.specs.Walk.{past, cut_ended, chosen_after, Sound, step_of};

use sections::{Context, Cut, FileFormat, Refusal, Why};

// An accepted file: how many cuts it has, and the one that was asked for.
#[derive(Clone, Copy)]
pub struct Found {
    pub cuts: usize,
    pub cut: Cut,
}

// Where the walk stands, with the number of the section before, the cuts ended and the places of the sections that later checks go by.
#[derive(Clone, Copy)]
struct State {
    at: usize,
    previous: u8,
    cuts: usize,
    first: usize,
    section3: usize,
    section4: usize,
    section5: usize,
}

// The checks of the section's own kind, other than a 7: 1 and 6 are every format's.
fn judge<F: FileFormat>(s: &[u8], x: Context, at: usize, n: u8) -> Result<(), Refusal>
    requires at_in_bounds { at + length_at s.now at ≤ length s.now }
    requires fact { n ≡ 7 → ⊥ }
    ensures { result ≡ first_fault (section_checks F.own s.now x at n) }
{
    match n {
        1 => sections::judge1(s, at),
        6 => sections::judge6(s, at),
        _ => F::judge(s, x, at, n),
    }
}

// The place of the first cut's section 4; no section stands at 0, so 0 says that none was seen.
fn first_in(st: State) -> usize
    ensures { result ≡ first_in st }
{
    if st.first == 0 { st.at } else { st.first }
}

// What the checks at the cursor go by.
fn context_in(st: State) -> Context
    ensures { result ≡ context_in st }
{
    Context {
        previous: st.previous,
        cuts: st.cuts,
        first: first_in(st),
        section3: st.section3,
        section4: st.section4,
        section5: st.section5,
    }
}

// All the checks at the cursor, in order: 3, 9, then the section's own. No cut begins with a section 7, so 9 is not asked there and it goes straight
// to its checks: the compiler then makes a better loop of the scan, where nearly all the time goes.
fn judge_here<F: FileFormat>(s: &[u8], end: usize, x: Context, at: usize) -> Result<(), Refusal>
    requires { (end ≤ length s.now) × (x.previous ≡ 6 → F.Ready s.now x) }
    ensures { result ≡ first_fault (checks_at F.own s.now end x at) }
{
    if at == end {
        return sections::check(sections::is_closed(s, x, at), Why::Frame, at);
    }
    sections::check(sections::is_framed(s, end, x, at), Why::Frame, at)?;
    let n = rules::number_at(s, at);
    if n == 7 {
        return F::judge7(s, x, at);
    }
    sections::check(sections::has_room(s, x, at), Why::CutCount, at)?;
    judge::<F>(s, x, at, n)
}

fn passed(st: State, n: u8, len: usize) -> State
    requires { (st.at + len < 2 ^ 63) × (st.cuts ≤ st.at) }
    ensures { result ≡ past st n len }
{
    let past = State {
        at: st.at + len,
        previous: n,
        ..st
    };
    match n {
        3 => State {
            section3: st.at,
            ..past
        },
        4 => State {
            first: first_in(st),
            section4: st.at,
            ..past
        },
        5 => State {
            section5: st.at,
            ..past
        },
        7 => State {
            cuts: st.cuts + 1,
            ..past
        },
        _ => past,
    }
}

// One step of the walk: the checks at the cursor, and past the section where they hold; None at the end.
fn one_step<F: FileFormat>(s: &[u8], end: usize, st: State) -> Result<Option<State>, Refusal>
    requires { Sound F.Ready s.now end st }
    ensures { result ≡ step_of F.own s.now end st }
{
    let at = st.at;
    judge_here::<F>(s, end, context_in(st), at)?;
    if at == end {
        return Ok(None);
    }
    let n = rules::number_at(s, at);
    let len = rules::length_at(s, at) as usize;
    Ok(Some(passed(st, n, len)))
}

fn cut_ended(st: State) -> Cut
    ensures { result ≡ cut_ended st }
{
    Cut {
        section3: st.section3,
        section4: st.section4,
        section5: st.section5,
        section7: st.at,
    }
}

// The chosen cut, past a section of number n.
fn chosen_after(want: usize, st: State, n: u8, chosen: Cut) -> Cut
    ensures { result ≡ chosen_after want st n chosen }
{
    if n != 7 {
        return chosen;
    }
    if st.cuts == want {
        return cut_ended(st);
    }
    chosen
}

// Section after section up to `end`, from section 1 on.
fn walk_to<F: FileFormat>(s: &[u8], end: usize, want: usize) -> Result<Found, Refusal>
    requires { (16 ≤ end) × (end + 4 ≤ length s.now) }
    ensures { result ≡ answer_for want (sections F.own (length s.now) s.now end [] 16) }
{
    let mut st = State {
        at: 16,
        previous: 0,
        cuts: 0,
        first: 0,
        section3: 0,
        section4: 0,
        section5: 0,
    };
    let mut chosen = Cut {
        section3: 0,
        section4: 0,
        section5: 0,
        section7: 0,
    };
    while let Some(next) = one_step::<F>(s, end, st)? {
        chosen = chosen_after(want, st, next.previous, chosen);
        st = next;
    }
    Ok(Found {
        cuts: st.cuts,
        cut: chosen,
    })
}

// The verdict on any octets as a file of a format, with the number of cuts and the places of cut `want`.
pub fn walk<F: FileFormat>(s: &[u8], want: usize) -> Result<Found, Refusal>
    ensures { result ≡ answer_for want (verdict_by F.own s.now) }
{
    let n = s.len();
    sections::check((20 <= n) & (n <= 8388608), Why::FileSize, 0)?;
    sections::check(rules::fields0(s), Why::Section0, 0)?;
    walk_to::<F>(s, n - 4, want)
}
