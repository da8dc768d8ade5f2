// Lent memory: what it holds after a call has written to it (specs/Lent.antt), and what every writer goes by: octets copied to a place and
// big-endian numbers, which answer the place past what they put; and one element over a row of places. Below it stands `octets`, which says how a
// number is written; above it stands whatever writes to lent memory.
#![tactic(auto)]

ghost use Rattle.std.specs.Prelude.{◌≡◌, ◌+◌, ◌-◌, ◌≤◌, length, replicate};
ghost use Rattle.octets.specs.Octets.{in_octets};
ghost use Rattle.lent.specs.Lent.{placed};
ghost use Rattle.lent.specs.Put.{Put};

use octets::Number;

// Octets as they are.
pub fn put_octets(out: &mut [u8], at: usize, s: &[u8]) -> usize
    requires { at + length s.now ≤ length out.old }
    ensures { Put out.old at s.now out.new result }
{
    let end = at + s.len();
    out[at..end].copy_from_slice(s);
    end
}

// A number, its most significant octet first.
pub fn put_be<T: Number>(out: &mut [u8], at: usize, n: T) -> usize
    requires { at + T.WIDTH ≤ length out.old }
    ensures { Put out.old at (in_octets T.WIDTH (T.value n)) out.new result }
{
    let octets = n.wide().to_be_bytes();
    put_octets(out, at, &octets[8 - T::WIDTH..])
}

// One element, from lo up to hi. The first is stored by itself: most runs of noisy data are one bin, and a loop, which becomes a call, costs more
// (reading noise took three times as long with the loop alone).
pub fn stamp<T: Copy>(out: &mut [T], lo: usize, hi: usize, x: T)
    requires { (lo ≤ hi) × (hi ≤ length out.old) }
    ensures { out.new ≡ placed out.old lo (replicate (hi - lo) x) }
{
    if lo < hi {
        out[lo] = x;
        for i in lo + 1..hi {
            out[i] = x;
        }
    }
}
