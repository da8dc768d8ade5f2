// The bins of a block of octets by sums of digits, with no branch for an octet: a digit past k others of its run weighs B^k, so the digits past 0, past 1, past 2 .. others are each added up over the whole
// block, and a sum is multiplied once. It asks that V is in range and a whole block there. Below it stands `runs`, which says what octets give; above it `scan`, which goes from block to block.
#![tactic(auto)]

ghost use Rattle.std.specs.Prelude.{◌≡◌, IfSome, ◌-◌, ◌≤◌, ◌<◌, length, get_or};
ghost use Rattle.sums.specs.Inner.{total, alone, behind, Laid, Shifted, Fronts};

// The octets of a block: as many as add less than 65,536 where every weight is 1, since each then adds at most 254.
pub const BLOCK: usize = 256;

// A row beside a block: a place for each octet, and a last one that stays 0.
pub const ROW: usize = BLOCK + 1;

// An octet's digit, 0 for a level: by the same subtraction as `by_itself`, so that both take one; by two of `saturating_sub` the scan of noise took a tenth longer.
fn digit(o: u8, v: u8) -> u8
    ensures { result ≡ o - v - 1 }
{
    if o <= v { 0 } else { o - v - 1 }
}

// What an octet adds where the weight is 1.
fn by_itself(o: u8, v: u8) -> u8
    ensures { result ≡ alone v o }
{
    if o <= v { 1 } else { o - v - 1 }
}

// What is kept of a digit behind the octet o.
fn kept(o: u8, v: u8, d: u8) -> u8
    ensures { result ≡ behind v o d }
{
    if o <= v { 0 } else { d }
}

// The digits of a block in their row; answers what its octets add where every weight is 1.
fn lay(octets: &[u8], v: u8, row: &mut [u8]) -> u16
    requires { (256 ≤ length octets.now) × (length row.old ≡ 257) }
    ensures value { result ≡ total (λ j. alone v (get_or octets.now j 0)) 256 }
    ensures laid { Laid v octets.now 256 row.new }
{
    let mut sum: u16 = 0;
    for i in 0..BLOCK {
        let o = octets[i];
        row[i] = digit(o, v);
        sum += by_itself(o, v) as u16;
    }
    row[BLOCK] = 0;
    sum
}

// The row one place down where the octet is a digit, and 0 where it is a level; answers its sum. After k times a place has the digit that stands k places on, if all octets from the place up to that one are digits:
// so the sum is of the digits past k others of their run. Masks and lanes come of the fixed length.
fn shift(octets: &[u8], v: u8, row: &mut [u8]) -> u16
    requires { (256 ≤ length octets.now) × (length row.old ≡ 257) }
    ensures value { result ≡ total (λ j. get_or row.new j 0) 256 }
    ensures shifted { Shifted v octets.now row.old row.new }
{
    let mut sum: u16 = 0;
    for j in 0..BLOCK {
        let d = kept(octets[j], v, row[j + 1]);
        row[j] = d;
        sum += d as u16;
    }
    sum
}

// The octets of a block before its last level, and what they add where every weight is 1.
#[derive(Clone, Copy)]
pub struct Whole {
    pub octets: usize,
    pub sum: u16,
}

// The last run, which may go on behind the block, is taken out of the row and of the sum: one pass from the end finds its level and takes out the digits behind it.
fn whole_runs(octets: &[u8], v: u8, sum: u16, row: &mut [u8]) -> Whole
    requires { (256 ≤ length octets.now) × (length row.old ≡ 257) × (get_or octets.now 0 0 ≤ v) × (sum ≡ total (λ j. alone v (get_or octets.now j 0)) 256) × Laid v octets.now 256 row.old }
    ensures octets_bound { (result.octets < 256) × (get_or octets.now result.octets 0 ≤ v) × (result.sum ≡ total (λ j. alone v (get_or octets.now j 0)) result.octets) }
    ensures laid { Laid v octets.now result.octets row.new }
{
    let mut e = BLOCK - 1;
    let mut rest = sum;
    while v < octets[e] {
        rest -= row[e] as u16;
        row[e] = 0;
        e -= 1;
    }
    Whole {
        octets: e,
        sum: rest - 1,
    }
}

// Octets at the front of a block, and the bins that they give.
#[derive(Clone, Copy)]
pub struct Front {
    pub octets: usize,
    pub bins: usize,
}

// Whole runs at the front of a block. A sum less the next one is of the digits past exactly so many others of their run, which have one weight; a sum of 0 ends it. A digit other than 0 whose weight is
// over the bins of the largest cut is left to the loop over runs, as is data that opens with a digit: the sums do not tell its bins.
pub fn count_front(octets: &[u8], v: u8, row: &mut [u8]) -> Option<Front>
    requires { (v ≤ 253) × (256 ≤ length octets.now) × (length row.old ≡ 257) }
    ensures { IfSome result (λ f. (0 < f.octets) × Fronts v octets.now f.octets f.bins) }
{
    if v < octets[0] {
        return None;
    }
    let all = lay(octets, v, row);
    let whole = whole_runs(octets, v, all, row);
    if whole.octets == 0 { // one run fills the block, and may go on behind it
        return None;
    }
    let base = 255 - v as usize; // B
    let mut sum = whole.sum;
    let mut weight: usize = 1;
    let mut bins: usize = 0;
    while sum != 0 {
        if 2097152 < weight {
            return None;
        }
        let deeper = shift(octets, v, row);
        bins += (sum - deeper) as usize * weight;
        weight *= base;
        sum = deeper;
    }
    Some(Front {
        octets: whole.octets,
        bins,
    })
}
