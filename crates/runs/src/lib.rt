// Template 7.200, reading: octets to levels under a greatest level V, by FORMAT.md, "Run-length rule".
// specs/Run.antt holds the one definition of decoding, `levels`. The functions ask of their callers what is known to them; the calls that ask nothing are in
// `bare`. Below stands `lent`; the crates `scan` (whether data gives its bins), `packing` (writing) and `stretches` (the list, run by run) stand above and go by
// `levels`, `gives` and their laws.
#![tactic(auto)]

ghost use Rattle.std.specs.Prelude.{true, ◌≡◌, ◌≤◌, ◌<◌, ◌-◌, length, get_or, leb};
ghost use Rattle.lent.specs.Lent.{front, between};
ghost use Rattle.runs.specs.Run.{levels, opens, run_len};
ghost use Rattle.runs.specs.Inner.{known_step, cut_step, InHand, Holds};

// A run: its level, the bins that it gives, and the place past its digits. A step over runs answers one, or None where nothing more is wanted or nothing
// more is there.
#[derive(Clone, Copy, Debug, PartialEq, Eq)]
pub struct Run {
    pub level: u8,
    pub len: usize,
    pub next: usize,
}

// The run at a place, as long as something is wanted, where the run is known to be there and to be no longer than the bins of the largest cut: what a
// scan has shown is not tested again.
pub fn known_run(octets: &[u8], v: u8, at: usize, left: usize) -> Option<Run>
    requires { (v ≤ 253) × (0 < left → (at < length octets.now) × (run_len v octets.now at ≤ 2097152)) }
    ensures { result ≡ known_step v left octets.now at }
{
    if left == 0 {
        return None;
    }
    let level = octets[at];
    let base = 255 - v as usize; // of a run that is known
    let mut i: usize = at + 1;
    let mut len: usize = 1;
    let mut weight: usize = 1;
    while i < octets.len() {
        let o = octets[i];
        if o <= v {
            break;
        }
        len += (o - v - 1) as usize * weight;
        i += 1;
        if weight <= 2097152 {
            weight *= base;
        }
    }
    Some(Run {
        level,
        len,
        next: i,
    })
}

// The run at a place, cut off at the bins that are wanted: for octets that no scan has looked at, whose runs may be of any length. Of a run that is cut off the place
// past its digits is not sought.
pub fn run_upto(octets: &[u8], v: u8, at: usize, left: usize) -> Option<Run>
    requires { (v ≤ 253) × (left ≤ 1099511627775) }
    ensures { result ≡ cut_step v left octets.now at }
{
    if left == 0 {
        return None;
    }
    if octets.len() <= at {
        return None;
    }
    let level = octets[at];
    let base = 255 - v as usize;
    let mut i: usize = at + 1;
    let mut len: usize = 1;
    let mut weight: usize = 1;
    while i < octets.len() {
        let o = octets[i];
        if o <= v {
            break;
        }
        len += (o - v - 1) as usize * weight;
        if left < len {
            return Some(Run {
                level,
                len: left,
                next: at,
            });
        }
        i += 1;
        if weight <= left {
            weight *= base;
        }
    }
    Some(Run {
        level,
        len,
        next: i,
    })
}

// What x has above y.
pub fn excess(x: usize, y: usize) -> usize
    ensures { result ≡ x - y }
{
    if y <= x { x - y } else { 0 }
}

// A walk over runs has one in hand: the place of its level octet, the bins before it and up to its end, and the place past its digits.
#[derive(Clone, Copy)]
pub struct RunInHand {
    pub at: usize,
    pub bins: usize,
    pub end: usize,
    pub next: usize,
}

// The run that holds bin a, from a run in hand on: the runs before it are passed over, each once, and nothing is stored.
pub fn seek_from(octets: &[u8], v: u8, from: RunInHand, a: usize) -> RunInHand
    requires v_bound { (v ≤ 253) × (length (levels v octets.now) ≤ 2097152) × (a < length (levels v octets.now)) }
    requires in_hand { InHand v octets.now from × (from.bins ≤ a) }
    ensures { Holds v octets.now a result }
{
    let mut at = from.at;
    let mut bins = from.bins;
    let mut end = from.end;
    let mut next = from.next;
    while let Some(run) = known_run(octets, v, next, excess(a + 1, end)) {
        at = next;
        bins = end;
        end += run.len;
        next = run.next;
    }
    RunInHand {
        at,
        bins,
        end,
        next,
    }
}

// The same from the front on.
pub fn seek(octets: &[u8], v: u8, a: usize) -> RunInHand
    requires v_bound { (v ≤ 253) × (opens v octets.now ≡ true) × (length (levels v octets.now) ≤ 2097152) }
    requires a_in_bounds { a < length (levels v octets.now) }
    ensures { Holds v octets.now a result }
{
    let front = RunInHand {
        at: 0,
        bins: 0,
        end: 0,
        next: 0,
    };
    seek_from(octets, v, front, a)
}

// The level of bin a.
pub fn level_at(octets: &[u8], v: u8, a: usize) -> u8
    requires v_bound { (v ≤ 253) × (opens v octets.now ≡ true) × (length (levels v octets.now) ≤ 2097152) }
    requires a_in_bounds { a < length (levels v octets.now) }
    ensures { result ≡ get_or (levels v octets.now) a 0 }
{
    let hand = seek(octets, v, a);
    let at = hand.at;
    octets[at]
}

// The bins a up to b of what the octets give, at the front of out, however long their runs are; or false where the octets end first: out then holds what there was of
// them. Octets past the run that reaches b are not looked at.
pub fn levels_upto(octets: &[u8], v: u8, a: usize, b: usize, out: &mut [u8]) -> bool
    requires v_bound { (v ≤ 253) × (b ≤ 1099511627775) × (opens v octets.now ≡ true) }
    requires a_le_b { (a ≤ b) × (b - a ≤ length out.old) }
    ensures value { result ≡ leb b (length (levels v octets.now)) }
    ensures out_after { result ≡ true → out.new ≡ front (between a b (levels v octets.now)) out.old }
{
    let mut at: usize = 0;
    let mut bins: usize = 0;
    while let Some(run) = run_upto(octets, v, at, b - bins) {
        let to = bins + run.len;
        lent::stamp(out, excess(bins, a), excess(to, a), run.level);
        bins = to;
        at = run.next;
    }
    bins == b
}

// The same of octets that are known to give no more than the bins of the largest cut: the runs before bin a are passed over.
pub fn levels_into(octets: &[u8], v: u8, a: usize, b: usize, out: &mut [u8])
    requires v_bound { (v ≤ 253) × (opens v octets.now ≡ true) × (length (levels v octets.now) ≤ 2097152) }
    requires a_le_b { (a ≤ b) × (b ≤ length (levels v octets.now)) × (b - a ≤ length out.old) }
    ensures { out.new ≡ front (between a b (levels v octets.now)) out.old }
{
    if b <= a {
        return;
    }
    let hand = seek(octets, v, a);
    let at = hand.at;
    let passed = hand.bins;
    levels_upto(&octets[at..], v, a - passed, b - passed, out);
}
