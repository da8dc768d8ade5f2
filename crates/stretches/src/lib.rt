// The stretch list: every longest stretch of one kind on each ray of a cut, by ray and then by first bin. specs/Meaning.antt says what
// that list is, specs/Stretch.antt computes it, and proofs/ has that they agree, that there is only one such list, and that the
// portions of a fetching join to it. Stands on `runs` (a cut's levels) and `values` (the kind of a level); `polar` calls it for a file.
//
// The work goes straight over the runs: in time it is the data's octets and the entries, whatever the number of bins.
#![tactic(auto)]

ghost use Rattle.std.specs.Prelude.{true, ◌≡◌, [], ◌∷◌, ◌+◌, ◌*◌, ◌≤◌, ◌<◌, length};
ghost use Rattle.std.proofs.lemmas.List.Edits.{sets};
ghost use Rattle.values.specs.Published.{level_count};
ghost use Rattle.stretches.specs.Stretch.{per_entry};
ghost use Rattle.stretches.specs.Inner.{must_list};
ghost use Rattle.stretches.specs.Inner.{CutData, kind_by_table};
ghost use Rattle.stretches.specs.Call.{kind_by_threshold, stretches_from, answer_of, out_of, right_t, right_point};

use values::Product;

// How many words an entry takes.
pub const PER_ENTRY: usize = 4;

// The house threshold, in hundredths.
pub const HOUSE: i32 = 4000;

// How many entries were written, and the point where the next call goes on.
#[derive(Clone, Copy)]
pub struct Listing {
    pub count: usize,
    pub ray: usize,
    pub bin: usize,
}

// Whether the bins of a ray from first up to end are a stretch to list, where the list begins at place from.
fn must_list(nb: usize, from: usize, ray: usize, first: usize, end: usize) -> bool
    requires { (nb ≤ 2048) × (ray ≤ 1024) × (first ≤ 2048) }
    ensures { result ≡ must_list from (ray * nb + first) (ray * nb + end) }
{
    if ray * nb + first < from {
        return false;
    }
    first < end
}

// Writes an entry after the first count.
fn put(out: &mut [u32], count: usize, ray: usize, first: usize, len: usize, kind: u32)
    requires { (ray ≤ 1024) × (first ≤ 2048) × (len ≤ 2048) × (per_entry * count + per_entry ≤ length out.old) }
    ensures { out.new ≡ sets out.old (per_entry * count) (ray ∷ first ∷ len ∷ kind ∷ []) }
{
    let i = PER_ENTRY * count;
    out[i] = ray as u32;
    out[i + 1] = first as u32;
    out[i + 2] = len as u32;
    out[i + 3] = kind;
}

// The stretches by a table of kinds that start at place from or past it, as many as out has room for.
//
// A turn takes a run. The stretch in hand, bins first up to bin of the ray, ends before it if the kinds differ. Where the run reaches the
// end of the ray, the stretch ends there whatever comes after, and the rest of the run stands on the rays that follow: a turn of the
// inner loop for each.
fn list_by(
    octets: &[u8],
    v: u8,
    kinds: &[u32; 256],
    nb: usize,
    nr: usize,
    from: usize,
    out: &mut [u32],
) -> Listing
    requires { CutData v nb nr octets.now }
    ensures value { result ≡ answer_of nr (length out.old) (stretches_from (kind_by_table kinds.now) v octets.now nb nr from) }
    ensures out_after { out.new ≡ out_of out.old (stretches_from (kind_by_table kinds.now) v octets.now nb nr from) }
{
    if nb == 0 { // no cut has rays without bins: once it is said here, the loop over rays does not ask it at each
        return Listing {
            count: 0,
            ray: nr,
            bin: 0,
        };
    }
    let cap = out.len() / PER_ENTRY;
    let mut at: usize = 0;
    let mut ray: usize = 0;
    let mut bin: usize = 0;
    let mut first: usize = 0;
    let mut held: u32 = 0;
    let mut count: usize = 0;
    while let Some(run) = runs::known_run(octets, v, at, nr - ray) {
        at = run.next;
        let kind = kinds[run.level as usize];
        let other = kind != held;
        if other {
            if must_list(nb, from, ray, first, bin) {
                if cap <= count {
                    return Listing {
                        count,
                        ray,
                        bin: first, // no room: the next call begins with this stretch
                    };
                }
                put(out, count, ray, first, bin - first, held);
                count = count + 1;
            }
            first = bin;
            held = kind;
        }
        bin = bin + run.len;
        while nb <= bin {
            if must_list(nb, from, ray, first, nb) {
                if cap <= count {
                    return Listing {
                        count,
                        ray,
                        bin: first,
                    };
                }
                put(out, count, ray, first, nb - first, held);
                count = count + 1;
            }
            ray = ray + 1;
            bin = bin - nb;
            first = 0;
        }
    }
    Listing {
        count,
        ray: nr,
        bin: 0,
    }
}

// Whether a threshold may be asked for.
pub fn right_t(t: i32) -> bool
    ensures { result ≡ right_t t }
{
    if t < -32767 {
        return false;
    }
    if 32767 < t { false } else { true }
}

// Whether a point may be asked for.
pub fn right_point(nb: usize, nr: usize, ray: usize, bin: usize) -> bool
    ensures { result ≡ right_point nb nr ray bin }
{
    if ray < nr {
        return bin < nb;
    }
    if ray == nr { bin == 0 } else { false }
}

// The stretches of a cut's data that start at the point (ray, bin) or past it, as many as out has room for. Not inlined: beside the reads of a file's fields the
// loops of `list_by` have too few registers. When `list_by` was left as a call in its place, and asked at each ray whether a ray has bins, the loop over rays took up to 1.9 times the time.
#[inline(never)]
pub fn list_from(
    octets: &[u8],
    v: u8,
    product: Product,
    t: i32,
    nb: usize,
    nr: usize,
    ray: usize,
    bin: usize,
    out: &mut [u32],
) -> Listing
    requires cut_data { CutData v nb nr octets.now }
    requires v_bound { (v ≤ level_count product) × (right_point nb nr ray bin ≡ true) }
    ensures value { result ≡ answer_of nr (length out.old) (stretches_from (kind_by_threshold product t) v octets.now nb nr (ray * nb + bin)) }
    ensures out_after { out.new ≡ out_of out.old (stretches_from (kind_by_threshold product t) v octets.now nb nr (ray * nb + bin)) }
{
    let kinds = values::kinds_by(product, t);
    list_by(octets, v, &kinds, nb, nr, ray * nb + bin, out)
}
