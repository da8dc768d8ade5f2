// Template 7.200, writing: levels to octets, by FORMAT.md, "Run-length rule". What it writes reads back as the same levels (proofs/ReadBack.antt), and no octets
// that do are fewer (proofs/Shortest.antt).
// Below stands the crate `runs`, which has the one definition of decoding; above stands `bare`, with the call.
#![tactic(auto)]

ghost use Rattle.std.specs.Prelude.{◌≡◌, ◌≤◌, ◌+◌, length, leb};
ghost use Rattle.lent.specs.Lent.{front, placed};
ghost use Rattle.packing.specs.Write.{greatest, digits_of, code, written};

// The greatest level.
pub fn greatest_of(levels: &[u8]) -> u8
    ensures { result ≡ greatest levels.now }
{
    levels.iter().copied().max().unwrap_or(0)
}

// How many digits a number has: by a loop, since how many come is known only at its end.
fn digit_count(number: usize, base: usize) -> usize
    requires { (2 ≤ base) × (number ≤ 2097152) }
    ensures { result ≡ length (digits_of base number) }
{
    let mut m = number;
    let mut n: usize = 0;
    while m != 0 {
        m /= base;
        n += 1;
    }
    n
}

// How many octets the levels take.
fn measure(levels: &[u8], v: u8) -> usize
    requires { (v ≤ 252) × (length levels.now ≤ 2097152) }
    ensures { result ≡ length (written v levels.now) }
{
    let Some((&first, rest)) = levels.split_first() else {
        return 0;
    };
    let base = 255 - v as usize;
    let mut x = first;
    let mut k: usize = 0;
    let mut total: usize = 0;
    for &y in rest {
        if y == x {
            k += 1;
        } else {
            total += 1 + digit_count(k, base);
            x = y;
            k = 0;
        }
    }
    total + 1 + digit_count(k, base)
}

// One run at a place, of k + 1 bins; the place past it. Its digits come of divisions, and how many there are is known only at their end.
fn put_run(out: &mut [u8], at: usize, v: u8, x: u8, k: usize) -> usize
    requires { (v ≤ 252) × (k ≤ 2097152) × (at + length (code v x k) ≤ length out.old) }
    ensures value { result ≡ at + length (code v x k) }
    ensures out_after { out.new ≡ placed out.old at (code v x k) }
{
    let base = 255 - v as usize;
    out[at] = x;
    let mut j = at + 1;
    let mut m = k;
    while m != 0 { // the last digit is not zero
        out[j] = v + 1 + (m % base) as u8;
        m /= base;
        j += 1;
    }
    j
}

// Whether the octets for the levels fit a room. They are never more than the levels, so that it seldom takes a pass to tell.
pub fn has_room(levels: &[u8], v: u8, room: usize) -> bool
    requires { (v ≤ 252) × (length levels.now ≤ 2097152) }
    ensures { result ≡ leb (length (written v levels.now)) room }
{
    if levels.len() <= room {
        return true;
    }
    measure(levels, v) <= room
}

// All runs at the front of out; how many octets they are.
pub fn put_all(levels: &[u8], v: u8, out: &mut [u8]) -> usize
    requires { (v ≤ 252) × (length levels.now ≤ 2097152) × (length (written v levels.now) ≤ length out.old) }
    ensures value { result ≡ length (written v levels.now) }
    ensures out_after { out.new ≡ front (written v levels.now) out.old }
{
    let Some((&first, rest)) = levels.split_first() else { // no levels give no octets
        return 0;
    };
    let mut x = first;
    let mut k: usize = 0;
    let mut at: usize = 0;
    // not `chunk_by`: on levels with no two neighbours alike it took 3.4 times as long
    for &y in rest {
        if y == x { // the run goes on
            k += 1;
        } else {
            at = put_run(out, at, v, x, k);
            x = y;
            k = 0;
        }
    }
    put_run(out, at, v, x, k)
}
