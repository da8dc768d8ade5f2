// Run-length packed files: FORMAT.md, "Sections", of sections 3, 4, 5 and 7, which are this format's own. Below it stand `sections` (what every
// file has), `rules` (the fields of each section), `runs` and `scan` (the data) and `values` (the value table); above it the calls, for which `walks` goes over a file by these checks.
//
// What is to be believed stands in specs/Accepted.antt, by the octets of each section, and in specs/Checks.antt, by places and in the order of checks,
// with the rule lists of specs/Rules.antt; proofs/Exact.antt has the theorems that `verdict` accepts and refuses exactly these files.
#![tactic(auto)]

ghost use Rattle.std.specs.Prelude.{◌≡◌, ◌+◌, ◌≤◌, length};
ghost use Rattle.rules.specs.Fields.{length_at, points_at};
ghost use Rattle.values.specs.Table.{table_right};
ghost use Rattle.sections.specs.Verdict.{first_fault};
ghost use Rattle.rules.specs.Rules.{meets, meets_all, within, magnitude, either};
ghost use Rattle.base_format.specs.Rules.{rules3, rules4, rules5};
ghost use Rattle.base_format.specs.Fields.{site_at, greatest_at, count_at};
ghost use Rattle.base_format.specs.Parts.{product_of, product_number, table_at, product_in};
ghost use Rattle.base_format.specs.Checks.{checks3, checks4, checks5, past_length5, checks7, base_checks, any_data_checks7, any_data_checks};
ghost use Rattle.base_format.specs.Ready.{DataReady, data_ready, NothingAsked, nothing_asked};

use sections::{Context, Cut, FileFormat, Refusal, Why};
use values::Product;

// The fields that other sections and the calls go by: each octet number stands here alone.

pub fn site_at(s: &[u8], at: usize) -> u16
    ensures { result ≡ site_at s.now at }
{
    rules::field::<u16>(s, at, 29)
}

pub fn greatest_at(s: &[u8], at: usize) -> u16
    ensures { result ≡ greatest_at s.now at }
{
    rules::field::<u16>(s, at, 13)
}

fn count_at(s: &[u8], at: usize) -> u16
    ensures { result ≡ count_at s.now at }
{
    rules::field::<u16>(s, at, 15)
}

// The field rules of each section, as one chain of tests without branches.

fn fields3(s: &[u8], at: usize) -> bool
    ensures { result ≡ meets_all s.now at rules3 }
{
    rules::grid_fields(s, at, 50120)
        & rules::within::<u8>(s, at, 39, 0, 0)
        & rules::within::<u16>(s, at, 40, 0, 36000)
}

fn fields4(s: &[u8], at: usize, parameter: u8, site: u16) -> bool
    ensures { result ≡ meets_all s.now at (rules4 parameter site) }
{
    rules::within::<u16>(s, at, 6, 0, 0)
        & rules::within::<u16>(s, at, 8, 51022, 51022)
        & rules::within::<u8>(s, at, 10, 15, 15)
        & rules::within::<u8>(s, at, 11, 1, 2)
        & rules::within::<u8>(s, at, 12, 8, 8)
        & rules::within::<u8>(s, at, 13, 1, 1)
        & rules::within::<u8>(s, at, 14, 13, 13)
        & rules::mode_ok(s, at, 38)
        & elevation_ok(s, at)
        & rules::within::<u8>(s, at, 11, parameter, parameter)
        & rules::within::<u16>(s, at, 29, site, site)
}

fn elevation_ok(s: &[u8], at: usize) -> bool
    ensures { result ≡ meets s.now at (either (magnitude 42 2 9000) (within 42 2 0xFFFF 0xFFFF)) }
{
    rules::magnitude::<u16>(s, at, 42, 9000) | rules::within::<u16>(s, at, 42, 0xFFFF, 0xFFFF)
}

fn fields5(s: &[u8], at: usize, m: u16) -> bool
    ensures { result ≡ meets_all s.now at (rules5 m) }
{
    rules::within::<u16>(s, at, 10, 200, 200)
        & rules::within::<u8>(s, at, 12, 8, 8)
        & rules::within::<u16>(s, at, 13, 0, m)
        & rules::within::<u16>(s, at, 15, m, m)
        & rules::within::<u8>(s, at, 17, 2, 2)
}

fn product_of(parameter: u8) -> Product
    ensures { result ≡ product_of parameter }
{
    if parameter == 1 {
        Product::Reflectivity
    } else {
        Product::Velocity
    }
}

// The parameter's number of a product. No `From`: the number is of this format's section 4, and the impl would have to stand with the enum, in `values`.
pub fn product_number(product: Product) -> u8
    ensures { result ≡ product_number product }
{
    match product {
        Product::Reflectivity => 1,
        Product::Velocity => 2,
    }
}

// The product of a cut.
pub fn product_in(s: &[u8], c: Cut) -> Product
    ensures { result ≡ product_in s.now c }
{
    product_of(rules::parameter_at(s, c.section4))
}

// The value table of the section 5 at a place, which lies within the file.

fn table_at(s: &[u8], at: usize, product: Product) -> bool
    requires { (17 ≤ length_at s.now at) × (at + length_at s.now at ≤ length s.now) }
    ensures { result ≡ table_right (table_at s.now at) product }
{
    let from = at + 17;
    let to = sections::end_at(s, at);
    values::table_right(&s[from..to], product)
}

// Each kind of section: the length first, then the fields, which are read in the part of the file that they stand in. In a part of a known length no
// field needs a test of its own.

fn judge3(s: &[u8], at: usize) -> Result<(), Refusal>
    requires { at + length_at s.now at ≤ length s.now }
    ensures { result ≡ first_fault (checks3 s.now at) }
{
    sections::check(rules::length_at(s, at) == 41, Why::SectionLength, at)?;
    let part = &s[at..at + 41];
    sections::check(fields3(part, 0), Why::Field, at)?;
    let said = u64::from(rules::field::<u32>(part, 0, 7));
    sections::check(said == rules::points_at(part, 0), Why::Points, at)
}

fn judge4(s: &[u8], x: Context, at: usize) -> Result<(), Refusal>
    requires { at + length_at s.now at ≤ length s.now }
    ensures { result ≡ first_fault (checks4 s.now x at) }
{
    let len = u64::from(rules::length_at(s, at));
    let due = 60 + 4 * u64::from(rules::rays_at(s, x.section3));
    sections::check(len == due, Why::SectionLength, at)?;
    let parameter = rules::parameter_at(s, x.first);
    let site = site_at(s, x.first);
    let fields = fields4(&s[at..at + 60], 0, parameter, site);
    sections::check(fields, Why::Field, at)
}

// The checks of section 5 past its length.
fn judge5_fields(s: &[u8], x: Context, at: usize) -> Result<(), Refusal>
    requires { (17 ≤ length_at s.now at) × (at + length_at s.now at ≤ length s.now) }
    ensures { result ≡ first_fault (past_length5 s.now x at) }
{
    let part = &s[at..at + 17];
    let product = product_of(rules::parameter_at(s, x.section4));
    let m = values::level_count(product) as u16;
    sections::check(fields5(part, 0, m), Why::Field, at)?;
    let said = u64::from(rules::field::<u32>(part, 0, 6));
    let points = rules::points_at(s, x.section3);
    sections::check(said == points, Why::Points, at)?;
    sections::check(table_at(s, at, product), Why::Table, at)
}

fn judge5(s: &[u8], x: Context, at: usize) -> Result<(), Refusal>
    requires { at + length_at s.now at ≤ length s.now }
    ensures { result ≡ first_fault (checks5 s.now x at) }
{
    let due = 17 + 2 * count_at(s, at) as u32;
    sections::check(rules::length_at(s, at) == due, Why::SectionLength, at)?;
    judge5_fields(s, x, at)
}

// Run-length packed files, as the walk reads them.
pub struct RunLength;

impl FileFormat for RunLength {
    ghost own = { base_checks };

    ghost Ready = { DataReady };

    ghost ready_before_7 = { data_ready };

    fn judge(s: &[u8], x: Context, at: usize, n: u8) -> Result<(), Refusal> {
        match n {
            3 => judge3(s, at),
            4 => judge4(s, x, at),
            5 => judge5(s, x, at),
            _ => Ok(()),
        }
    }

    // The checks before it have held the bins and V to what a scan takes. The data is the section's octets from the sixth on, and the place of 8 is the octet at fault.
    fn judge7(s: &[u8], x: Context, at: usize) -> Result<(), Refusal>
        requires at_in_bounds { at + length_at s.now at ≤ length s.now }
        requires ready { DataReady s.now x }
        ensures { result ≡ first_fault (checks7 s.now x at) }
    {
        RunLengthAnyData::judge7(s, x, at)?;
        let len = rules::length_at(s, at);
        let v = greatest_at(s, x.section5) as u8;
        let bins = rules::points_at(s, x.section3) as usize;
        let from = at + 5;
        let to = at + len as usize;
        match scan::scan_runs(&s[from..to], v, bins) {
            Ok(()) => Ok(()),
            Err(i) => {
                let place = from + i;
                Err(sections::refuse(Why::Data, place))
            }
        }
    }
}

// The same, where the data may be anything.
pub struct RunLengthAnyData;

impl FileFormat for RunLengthAnyData {
    ghost own = { any_data_checks };

    ghost Ready = { NothingAsked };

    ghost ready_before_7 = { nothing_asked };

    fn judge(s: &[u8], x: Context, at: usize, n: u8) -> Result<(), Refusal> {
        RunLength::judge(s, x, at, n)
    }

    fn judge7(s: &[u8], x: Context, at: usize) -> Result<(), Refusal>
        ensures { result ≡ first_fault (any_data_checks7 s.now at) }
    {
        sections::check(6 <= rules::length_at(s, at), Why::SectionLength, at)
    }
}
