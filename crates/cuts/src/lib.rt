// One cut of an accepted file, read by the places of its sections: Nb, Nr, V, its data; a ray's levels, a bin's level, its stretches. Every function that
// reads data asks that the cut is good (specs/Good.antt of `base_format`), which the file's checks have shown, and tests nothing again; those that go by a record ask it but for
// the data. Below it stand `sections`, `base_format`, `runs`, `index`, `values` and `stretches`; above it `polar` and `records`, whose calls make the checks, and `lister`, which goes over all cuts of a file.
#![tactic(auto)]

ghost use Rattle.std.specs.Prelude.{◌≡◌, true, cond, ◌+◌, ◌*◌, ◌≤◌, ◌<◌, length};
ghost use Rattle.lent.specs.Lent.{front};
ghost use Rattle.index.specs.Index.{usable, from_record};
ghost use Rattle.values.specs.Published.{level_count};
ghost use Rattle.values.specs.Ray.{marks_of, values_of};
ghost use Rattle.sections.specs.Parts.{bins_in, rays_in};
ghost use Rattle.base_format.specs.Parts.{data_at, product_in, greatest_in, level_in};
ghost use Rattle.base_format.specs.Good.{AnyDataCut, GoodCut};
ghost use Rattle.stretches.specs.Call.{answer_of, out_of, right_point};
ghost use Rattle.cuts.specs.Bins.{bins_from, ray_in, stretches_in};
ghost use Rattle.cuts.specs.Records.{usable_in, ray_from};
ghost use Rattle.cuts.specs.After.{body_at, cut_after};

use index::RayRecord;
use sections::Cut;
use stretches::Listing;
use values::Product;

// V of a cut.
pub fn greatest_in(file: &[u8], c: Cut) -> u8
    requires { AnyDataCut file.now c }
    ensures { result ≡ greatest_in file.now c }
{
    base_format::greatest_at(file, c.section5) as u8
}

// The data of a cut.
pub fn data_in(file: &[u8], c: Cut) -> &[u8]
    requires { AnyDataCut file.now c }
    ensures { result.now ≡ data_at file.now c.section7 }
{
    let at = c.section7;
    let from = at + 5;
    let to = sections::end_at(file, at);
    &file[from..to]
}

// The levels of `count` bins of a cut from place `from` on, at the front of out.
fn bins_into(file: &[u8], c: Cut, from: usize, count: usize, out: &mut [u8])
    requires good_cut { GoodCut file.now c }
    requires count_bound { (from + count ≤ rays_in file.now c * bins_in file.now c) × (count ≤ length out.old) }
    ensures { out.new ≡ front (bins_from file.now c from count) out.old }
{
    let v = greatest_in(file, c);
    runs::levels_into(data_in(file, c), v, from, from + count, out)
}

// The levels of a ray, at the front of out.
pub fn ray_into(file: &[u8], c: Cut, ray: usize, out: &mut [u8])
    requires good_cut { GoodCut file.now c }
    requires ray_bound { (ray < rays_in file.now c) × (bins_in file.now c ≤ length out.old) }
    ensures { out.new ≡ front (ray_in file.now c ray) out.old }
{
    let nb = sections::bins_in(file, c);
    bins_into(file, c, ray * nb, nb, out)
}

// The readings of a ray: its marks at the front of `marks`, and its numbers in `values`.
pub fn readings_into(file: &[u8], c: Cut, ray: usize, marks: &mut [u8], values: &mut [i32])
    requires good_cut { GoodCut file.now c }
    requires ray_bound { (ray < rays_in file.now c) × (bins_in file.now c ≤ length marks.old) × (bins_in file.now c ≤ length values.old) }
    ensures marks_after { marks.new ≡ marks_of (product_in file.now c) (ray_in file.now c ray) marks.old }
    ensures values_after { values.new ≡ values_of (product_in file.now c) (ray_in file.now c ray) values.old }
{
    let nb = sections::bins_in(file, c);
    let from = ray * nb;
    let v = greatest_in(file, c);
    let product = base_format::product_in(file, c);
    values::readings_into(product, data_in(file, c), v, from, from + nb, marks, values)
}

// The levels that decoding from a record gives, at the front of out; or false, and out as it was, where the record does not fit the data.
pub fn levels_from(file: &[u8], c: Cut, rec: RayRecord, out: &mut [u8]) -> bool
    requires any_data_cut { AnyDataCut file.now c }
    requires c_in_bounds { bins_in file.now c ≤ length out.old }
    ensures value { result ≡ usable_in file.now c rec }
    ensures out_after { out.new ≡ cond result (front (ray_from file.now c rec) out.old) out.old }
{
    let nb = sections::bins_in(file, c);
    let v = greatest_in(file, c);
    index::levels_from(data_in(file, c), v, nb, rec, out)
}

// The readings that decoding data from a record gives. The data is gone over twice: not until its last bin is there is it known that the record fits.
fn readings_by(
    product: Product,
    octets: &[u8],
    v: u8,
    nb: usize,
    rec: RayRecord,
    marks: &mut [u8],
    values: &mut [i32],
) -> bool
    requires { (v ≤ level_count product) × (nb ≤ 2048) × (nb ≤ length marks.old) × (nb ≤ length values.old) }
    ensures value { result ≡ usable v nb octets.now rec }
    ensures marks_after { marks.new ≡ cond result (marks_of product (from_record v nb octets.now rec) marks.old) marks.old }
    ensures values_after { values.new ≡ cond result (values_of product (from_record v nb octets.now rec) values.old) values.old }
{
    if index::fits(octets, v, nb, rec) {
        let at = rec.offset as usize;
        let before = rec.before as usize;
        values::readings_from(
            product,
            &octets[at..],
            v,
            before,
            before + nb,
            marks,
            values,
        );
        return true;
    }
    false
}

// The same as readings: marks at the front of `marks`, and numbers in `values`.
pub fn readings_from(
    file: &[u8],
    c: Cut,
    rec: RayRecord,
    marks: &mut [u8],
    values: &mut [i32],
) -> bool
    requires any_data_cut { AnyDataCut file.now c }
    requires c_in_bounds { (bins_in file.now c ≤ length marks.old) × (bins_in file.now c ≤ length values.old) }
    ensures value { result ≡ usable_in file.now c rec }
    ensures marks_after { marks.new ≡ cond result (marks_of (product_in file.now c) (ray_from file.now c rec) marks.old) marks.old }
    ensures values_after { values.new ≡ cond result (values_of (product_in file.now c) (ray_from file.now c rec) values.old) values.old }
{
    let nb = sections::bins_in(file, c);
    let v = greatest_in(file, c);
    let product = base_format::product_in(file, c);
    readings_by(product, data_in(file, c), v, nb, rec, marks, values)
}

// The level of one bin.
pub fn level_in(file: &[u8], c: Cut, ray: usize, bin: usize) -> u8
    requires good_cut { GoodCut file.now c }
    requires ray_bound { (ray < rays_in file.now c) × (bin < bins_in file.now c) }
    ensures { (result ≡ level_in file.now c ray bin) × (result ≤ level_count (product_in file.now c)) }
{
    let at = ray * sections::bins_in(file, c) + bin;
    let v = greatest_in(file, c);
    runs::level_at(data_in(file, c), v, at)
}

// The stretches that start at the point (ray, bin) or past it, as many as the words have room for.
pub fn list_into(file: &[u8], c: Cut, t: i32, ray: usize, bin: usize, words: &mut [u32]) -> Listing
    requires good_cut { GoodCut file.now c }
    requires bin_value { right_point (bins_in file.now c) (rays_in file.now c) ray bin ≡ true }
    ensures value { result ≡ answer_of (rays_in file.now c) (length words.old) (stretches_in file.now c t ray bin) }
    ensures words_after { words.new ≡ out_of words.old (stretches_in file.now c t ray bin) }
{
    let nr = sections::rays_in(file, c);
    let nb = sections::bins_in(file, c);
    let product = base_format::product_in(file, c);
    let v = greatest_in(file, c);
    stretches::list_from(data_in(file, c), v, product, t, nb, nr, ray, bin, words)
}

// The cut whose section 4 stands at a place, under the section 3 at another.
fn body_at(file: &[u8], section3: usize, section4: usize) -> Cut
    ensures { result ≡ body_at file.now section3 section4 }
{
    let section5 = sections::end_at(file, section4);
    let section7 = sections::end_at(file, sections::end_at(file, section5));
    Cut {
        section3,
        section4,
        section5,
        section7,
    }
}

// The cut that follows a cut of an accepted file, by the lengths of its sections: no check is made again.
pub fn next_cut(file: &[u8], c: Cut) -> Cut
    ensures { result ≡ cut_after file.now c }
{
    let at = sections::end_at(file, c.section7);
    if rules::number_at(file, at) == 3 {
        body_at(file, at, sections::end_at(file, at))
    } else {
        body_at(file, c.section3, at)
    }
}
