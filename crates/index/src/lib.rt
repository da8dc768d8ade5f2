// An index of a cut's rays (FORMAT.md, "Rays by a record"): where in the data each ray begins, and what decoding from such a place gives. specs/Index.antt says both. The data is bare octets
// here, and for decoding from a record nothing is asked of it. Below it stands `runs`; above it `cuts`, which knows the data of a cut, and `records`, whose calls make the
// file's checks.
#![tactic(auto)]

ghost use Rattle.std.specs.Prelude.{true, cond, ◌≡◌, ◌-◌, ◌≤◌, ◌<◌, length, take, leb};
ghost use Rattle.runs.specs.Run.{levels, opens};
ghost use Rattle.lent.specs.Lent.{front};
ghost use Rattle.index.specs.Index.{usable, from_record, records};
ghost use Rattle.index.specs.Pace.{longer_run, data_in, Along, Onward, Going};

use runs::RunInHand;

// Where a ray begins: the offset in the data of the level octet whose run holds its first bin, and how many bins of that run came before.
#[repr(C)]
#[derive(Clone, Copy)]
pub struct RayRecord {
    pub offset: u32,
    pub before: u32,
}

// Whether the octets give as many bins as are wanted.
fn reaches(octets: &[u8], v: u8, want: usize) -> bool
    requires { (v ≤ 253) × (want ≤ 1099511627775) × (opens v octets.now ≡ true) }
    ensures { result ≡ leb want (length (levels v octets.now)) }
{
    let mut at: usize = 0;
    let mut bins: usize = 0;
    while let Some(run) = runs::run_upto(octets, v, at, want - bins) {
        bins += run.len;
        at = run.next;
    }
    bins == want
}

// The first n octets of a row, at the front of out.
fn carry(row: &[u8], n: usize, out: &mut [u8])
    requires { (n ≤ length row.now) × (n ≤ length out.old) }
    ensures { out.new ≡ front (take n row.now) out.old }
{
    lent::put_octets(out, 0, &row[..n]);
}

// Whether a run of more than so many bins stands at the octets' front. They are a record's earlier bins, 2^32 - 1 at most, with up to 2,048 of its ray.
fn longer(octets: &[u8], v: u8, before: usize) -> bool
    requires { (v ≤ 253) × (before ≤ 4294969343) }
    ensures { result ≡ longer_run v octets.now before }
{
    match runs::run_upto(octets, v, 0, before + 1) {
        Some(run) => (run.level <= v) & (before < run.len),
        None => false,
    }
}

// The levels from a record at the octets' front, whose earlier bins are given, by way of a row of our own: not until the last of them is there is it known that the record fits, and where it
// does not the lent memory is as it was.
fn levels_apart(octets: &[u8], v: u8, nb: usize, before: usize, out: &mut [u8]) -> bool
    requires { (v ≤ 253) × (nb ≤ 2048) × (before ≤ 4294967295) × (nb ≤ length out.old) }
    ensures value { result ≡ usable v nb octets.now (record { offset = 0; before = before }) }
    ensures out_after { out.new ≡ cond result (front (from_record v nb octets.now (record { offset = 0; before = before })) out.old) out.old }
{
    if !longer(octets, v, before) {
        return false;
    }
    let mut row = [0u8; 2048];
    if runs::levels_upto(octets, v, before, before + nb, &mut row) {
        carry(&row, nb, out);
        return true;
    }
    false
}

// The same. One run may hold all the bins, as where the radar was blind: that it does is known before the first is stored.
fn levels_in(octets: &[u8], v: u8, nb: usize, before: usize, out: &mut [u8]) -> bool
    requires { (v ≤ 253) × (nb ≤ 2048) × (before ≤ 4294967295) × (nb ≤ length out.old) }
    ensures value { result ≡ usable v nb octets.now (record { offset = 0; before = before }) }
    ensures out_after { out.new ≡ cond result (front (from_record v nb octets.now (record { offset = 0; before = before })) out.old) out.old }
{
    if 0 < nb {
        if longer(octets, v, before + nb - 1) {
            lent::stamp(out, 0, nb, octets[0]);
            return true;
        }
    }
    levels_apart(octets, v, nb, before, out)
}

// The nb levels that decoding from a record gives, at the front of out; or false, and out as it was, where the record does not fit the data.
pub fn levels_from(octets: &[u8], v: u8, nb: usize, rec: RayRecord, out: &mut [u8]) -> bool
    requires { (v ≤ 253) × (nb ≤ 2048) × (nb ≤ length out.old) }
    ensures value { result ≡ usable v nb octets.now rec }
    ensures out_after { out.new ≡ cond result (front (from_record v nb octets.now rec) out.old) out.old }
{
    let at = rec.offset as usize;
    if octets.len() <= at {
        return false;
    }
    let before = rec.before as usize;
    levels_in(&octets[at..], v, nb, before, out)
}

// Whether a record at the octets' front, whose earlier bins are given, fits them.
fn fits_in(octets: &[u8], v: u8, nb: usize, before: usize) -> bool
    requires { (v ≤ 253) × (nb ≤ 2048) × (before ≤ 4294967295) }
    ensures { result ≡ usable v nb octets.now (record { offset = 0; before = before }) }
{
    if !longer(octets, v, before) {
        return false;
    }
    reaches(octets, v, before + nb)
}

// Whether a record fits the data: whether decoding from it gives nb levels.
pub fn fits(octets: &[u8], v: u8, nb: usize, rec: RayRecord) -> bool
    requires { (v ≤ 253) × (nb ≤ 2048) }
    ensures { result ≡ usable v nb octets.now rec }
{
    let at = rec.offset as usize;
    if octets.len() <= at {
        return false;
    }
    let before = rec.before as usize;
    fits_in(&octets[at..], v, nb, before)
}

// The walk over the runs of a cut's data, ray by ray: the record made last; where the data stands in the octets lent, V and the bins of a
// ray; the first bin of the next ray; and the run in hand.
#[derive(Clone, Copy)]
pub struct Pace {
    pub rec: RayRecord,
    pub from: usize,
    pub to: usize,
    pub v: u8,
    pub nb: usize,
    pub bin: usize,
    pub hand: RunInHand,
}

// Before the first run.
pub fn at_front(from: usize, to: usize, v: u8, nb: usize) -> Pace
    ensures { result ≡ record { rec = record { offset = 0; before = 0 }; from = from; to = to; v = v; nb = nb; bin = 0; hand = record { at = 0; bins = 0; end = 0; next = 0 } } }
{
    Pace {
        rec: RayRecord {
            offset: 0,
            before: 0,
        },
        from,
        to,
        v,
        nb,
        bin: 0,
        hand: RunInHand {
            at: 0,
            bins: 0,
            end: 0,
            next: 0,
        },
    }
}

// One ray on, over the data: runs that end before its first bin are passed over, each once.
fn ray_on(part: &[u8], p: Pace) -> Pace
    requires { Along part.now p × (p.bin < length (levels p.v part.now)) }
    ensures { Onward part.now p result }
{
    let bin = p.bin;
    let held = p.hand;
    let hand = runs::seek_from(part, p.v, held, bin);
    Pace {
        rec: RayRecord {
            offset: hand.at as u32,
            before: (bin - hand.bins) as u32,
        },
        from: p.from,
        to: p.to,
        v: p.v,
        nb: p.nb,
        bin: bin + p.nb,
        hand,
    }
}

// One ray on, over the octets lent.
pub fn next_ray(octets: &[u8], p: Pace) -> Pace
    requires { Going octets.now p 1 }
    ensures { Onward (data_in octets.now p) p result }
{
    let from = p.from;
    let to = p.to;
    ray_on(&octets[from..to], p)
}

// The records of n rays from the next one on, at the front of a lent row.
pub fn lay(octets: &[u8], start: Pace, n: usize, row: &mut [RayRecord])
    requires { Going octets.now start n × (n ≤ length row.old) }
    ensures { row.new ≡ front (records n start.nb start.v (data_in octets.now start) start.bin) row.old }
{
    let mut p = start;
    for slot in &mut row[..n] {
        p = next_ray(octets, p);
        *slot = p.rec;
    }
}
