// The published values in hundredths, as constant tables; what a level is (missing, or a number), its mark, value and kind; the readings
// of a row of bins, run by run; and section 5's table, octet for octet. It stands on `runs`, and its laws on `octets` (sign and magnitude) and
// `fraction` (a value as a float); `base_format` judges section 5 with it, `cuts` and `stretches` take readings and kinds from it.
// The table of a product stands in memory once, and one function lends it (src/tables.rt).
#![tactic(auto)]

ghost use Rattle.std.specs.Prelude.{◌≡◌, ◌≤◌, ◌<◌, ◌-◌, length, replicate};
ghost use Rattle.runs.specs.Run.{levels};
ghost use Rattle.lent.specs.Lent.{placed, between};
ghost use Rattle.values.specs.Published.{level_count, published, table_of};
ghost use Rattle.values.specs.Reading.{reading_of, mark_of, kind_of};
ghost use Rattle.values.specs.Inner.{KindsBy};
ghost use Rattle.values.specs.Ray.{marks_of, values_of};
ghost use Rattle.octets.specs.Octets.{same};
ghost use Rattle.values.specs.Table.{sign_magnitude, octets_of, table_right};
ghost use Rattle.values.specs.Inner.{pair_right};
ghost use Rattle.values.specs.Inner.{number_of, numbered_to, InTwoOctets, Bins};

use kinds::Kind;

mod tables;

// Parameter 1 and parameter 2.
#[derive(Clone, Copy)]
pub enum Product {
    Reflectivity,
    Velocity,
}

// What a level tells: nothing, or a number of hundredths. No Option: a level tells one of named things, of which FORMAT.md, "To come", gives reflectivity a
// third, and to say missing by `None` would be no plainer.
#[derive(Clone, Copy)]
pub enum Reading {
    Missing,
    Number(i32),
}

// M, the number of levels above 0.
pub fn level_count(product: Product) -> usize
    ensures { result ≡ level_count product }
{
    match product {
        Product::Reflectivity => 252,
        Product::Velocity => 251,
    }
}

// The value of a level above 0.
fn value_in(product: Product, level: u8) -> i32
    requires { (1 ≤ level) × (level ≤ level_count product) }
    ensures { result ≡ published product level }
{
    let table = tables::table_of(product);
    table[level as usize - 1] as i32
}

// What a level tells.
pub fn reading_of(product: Product, level: u8) -> Reading
    requires { level ≤ level_count product }
    ensures { result ≡ reading_of product level }
{
    if level == 0 {
        return Reading::Missing;
    }
    Reading::Number(value_in(product, level))
}

// 0 missing, 1 measured.
fn mark_of(reading: Reading) -> u8
    ensures { result ≡ mark_of reading }
{
    match reading {
        Reading::Missing => 0,
        Reading::Number(_) => 1,
    }
}

// Where the places that get a number end, of those from lo up to hi: a missing reading has none, so its places keep what they held.
fn numbered_to(reading: Reading, lo: usize, hi: usize) -> usize
    ensures { result ≡ numbered_to reading lo hi }
{
    match reading {
        Reading::Missing => lo,
        Reading::Number(_) => hi,
    }
}

// The number, where there is one.
fn number_of(reading: Reading) -> i32
    ensures { result ≡ number_of reading }
{
    match reading {
        Reading::Missing => 0i32,
        Reading::Number(z) => z,
    }
}

// A reading's kind against a threshold.
fn kind_of(reading: Reading, t: i32) -> Kind
    ensures { result ≡ kind_of reading t }
{
    match reading {
        Reading::Missing => Kind::Missing,
        Reading::Number(z) => if z < t { Kind::Under } else { Kind::Over },
    }
}

// The number of each level's kind, for whatever has many levels to tell the kind of.
pub fn kinds_by(product: Product, t: i32) -> [u32; 256]
    ensures { KindsBy product t result }
{
    let mut numbers = [0u32; 256];
    for level in 0..=level_count(product) {
        numbers[level] = kinds::number_of(kind_of(reading_of(product, level as u8), t));
    }
    numbers
}

// A reading from lo up to hi of a ray: its mark in each place, and its number where it has one.
fn put_reading(reading: Reading, lo: usize, hi: usize, marks: &mut [u8], values: &mut [i32])
    requires { (lo ≤ hi) × (hi ≤ length marks.old) × (hi ≤ length values.old) }
    ensures marks_after { marks.new ≡ placed marks.old lo (replicate (hi - lo) (mark_of reading)) }
    ensures values_after { values.new ≡ placed values.old lo (replicate (numbered_to reading lo hi - lo) (number_of reading)) }
{
    lent::stamp(marks, lo, hi, mark_of(reading));
    lent::stamp(values, lo, numbered_to(reading, lo, hi), number_of(reading));
}

// The readings of the bins a up to b of what the octets give, from their front on, run by run, however long their runs are: their marks at the front of `marks`,
// and their numbers in `values`.
// Not inlined: in `readings_into` the walk to the ray made the ray values of a cut of noise take a third longer (5.4 ms for 4.0).
#[inline(never)]
pub fn readings_from(
    product: Product,
    octets: &[u8],
    v: u8,
    a: usize,
    b: usize,
    marks: &mut [u8],
    values: &mut [i32],
)
    requires { Bins product v a b octets.now (length marks.old) (length values.old) }
    ensures marks_after { marks.new ≡ marks_of product (between a b (levels v octets.now)) marks.old }
    ensures values_after { values.new ≡ values_of product (between a b (levels v octets.now)) values.old }
{
    let mut at: usize = 0;
    let mut bins: usize = 0;
    while let Some(run) = runs::run_upto(octets, v, at, b - bins) {
        let reading = reading_of(product, run.level);
        let to = bins + run.len;
        put_reading(
            reading,
            runs::excess(bins, a),
            runs::excess(to, a),
            marks,
            values,
        );
        bins = to;
        at = run.next;
    }
}

// The same of octets that are known to give no more than a cut's bins: the runs before bin a are passed over, and nothing is stored.
pub fn readings_into(
    product: Product,
    octets: &[u8],
    v: u8,
    a: usize,
    b: usize,
    marks: &mut [u8],
    values: &mut [i32],
)
    requires bins { Bins product v a b octets.now (length marks.old) (length values.old) }
    requires a_lt_b { (a < b) × (length (levels v octets.now) ≤ 2097152) }
    ensures marks_after { marks.new ≡ marks_of product (between a b (levels v octets.now)) marks.old }
    ensures values_after { values.new ≡ values_of product (between a b (levels v octets.now)) values.old }
{
    let hand = runs::seek(octets, v, a);
    let at = hand.at;
    let passed = hand.bins;
    readings_from(
        product,
        &octets[at..],
        v,
        a - passed,
        b - passed,
        marks,
        values,
    )
}

// A value in 16 bits, sign and magnitude. (-32768 has no such form.)
fn sign_magnitude(value: i16) -> u16
    requires { sign_magnitude value < 65536 }
    ensures { result ≡ sign_magnitude value }
{
    let w = value as i32;
    if w < 0 {
        return (32768 + ((0 - w) as u32)) as u16;
    }
    w as u16
}

// Whether two octets write a value. Both sides are taken with the first octet least, as the machine reads two octets: a compiler then
// compares eight pairs at once.
fn pair_right(high: u8, low: u8, value: i16) -> bool
    requires { sign_magnitude value < 65536 }
    ensures { result ≡ pair_right high low value }
{
    let due = sign_magnitude(value);
    high as u16 + low as u16 * 256 == due % 256 * 256 + due / 256
}

// Whether octets are a table's, octet for octet. All pairs are looked at, whatever the first come to.
fn right_in(octets: &[u8], table: &[i16]) -> bool
    requires { InTwoOctets table.now }
    ensures { result ≡ same octets.now (octets_of table.now) }
{
    let m = table.len();
    if octets.len() / 2 != m {
        return false;
    }
    if octets.len() % 2 != 0 {
        return false;
    }
    let mut right = true;
    for i in 0..m {
        right = right & pair_right(octets[2 * i], octets[2 * i + 1], table[i]);
    }
    right
}

// Whether octets are the product's published table, octet for octet.
pub fn table_right(octets: &[u8], product: Product) -> bool
    ensures { result ≡ table_right octets.now product }
{
    right_in(octets, tables::table_of(product))
}
