// THE CALLS of a run-length packed file: FORMAT.md, "Calls". Each is lent the whole file, makes all the file's checks itself, then answers or refuses by 10, then 11;
// none asks anything of its caller. What each answers, and what it leaves in lent memory, is one definition of specs/. Below it stand `walks` (the
// file's checks) and `cuts` (one cut of an accepted file), and `calls` (what a call on a file comes to); above it `demands` and `c_words` (the calls for C and Rust).
#![tactic(auto)]

ghost use Rattle.std.specs.Prelude.{◌≡◌, ◌&&◌, min, length};
ghost use Rattle.lent.specs.Lent.{front};
ghost use Rattle.values.specs.Ray.{marks_of, values_of};
ghost use Rattle.base_format.specs.Parts.{product_in};
ghost use Rattle.base_format.specs.Good.{GoodCut};
ghost use Rattle.sections.specs.Parts.{bins_in, rays_in};
ghost use Rattle.stretches.specs.Call.{out_of, right_t, right_point};
ghost use Rattle.cuts.specs.Bins.{ray_in, stretches_in};
ghost use Rattle.calls.specs.Cuts.{if_written};
ghost use Rattle.polar.specs.Opening.{summary_of, elevation_of, info_of};
ghost use Rattle.polar.specs.Rays.{ray_on, bin_of, bin_on};
ghost use Rattle.polar.specs.Stretching.{stretches_on, if_listed, house};
ghost use Rattle.polar.specs.Promises.{OpenPromise, CutPromise, LevelsPromise, ValuesPromise, BinPromise, StretchesPromise};

use base_format::RunLength;
use sections::{Cut, Grid, Refusal, Time};
use stretches::Listing;
use values::{Product, Reading};

// What is common to all cuts of a file.
#[derive(Clone, Copy)]
pub struct Summary {
    pub product: Product,
    pub time: Time,
    pub site: u16,
    pub cuts: usize,
}

// A cut as the file describes it, each number as read; the elevation in hundredths, where it is not missing.
#[derive(Clone, Copy)]
pub struct CutInfo {
    pub grid: Grid,
    pub start_azimuth: u16,
    pub mode: u8,
    pub elevation: Option<i32>,
}

// ---- open and cut

fn summary_of(file: &[u8], n: usize, c: Cut) -> Summary
    ensures { result ≡ summary_of file.now n c }
{
    let section4 = c.section4;
    let product = base_format::product_in(file, c);
    let time = sections::time_of(file);
    let site = base_format::site_at(file, section4);
    Summary {
        product,
        time,
        site,
        cuts: n,
    }
}

// Open: product, time, site and number of cuts.
pub fn open(file: &[u8]) -> Result<Summary, Refusal>
    ensures { OpenPromise file.now result }
{
    let found = walks::walk::<RunLength>(file, 0)?;
    Ok(summary_of(file, found.cuts, found.cut))
}

fn elevation_of(n: u16) -> Option<i32>
    ensures { result ≡ elevation_of n }
{
    if n == 0xFFFF {
        None
    } else {
        Some(octets::signed(n))
    }
}

fn info_of(file: &[u8], c: Cut) -> CutInfo
    ensures { result ≡ info_of file.now c }
{
    let section3 = c.section3;
    let section4 = c.section4;
    let grid = sections::grid_at(file, section3);
    let start_azimuth = rules::field::<u16>(file, section3, 40);
    let mode = rules::field::<u8>(file, section4, 38);
    let elevation = elevation_of(rules::field::<u16>(file, section4, 42));
    CutInfo {
        grid,
        start_azimuth,
        mode,
        elevation,
    }
}

// Cut: what the file says of cut i.
pub fn cut_info(file: &[u8], i: usize) -> Result<CutInfo, Refusal>
    ensures { CutPromise file.now i result }
{
    let c = calls::find::<RunLength>(file, i)?;
    Ok(info_of(file, c))
}

// ---- rays and bins

fn ray_levels_on(file: &[u8], c: Cut, ray: usize, out: &mut [u8]) -> Result<(), Refusal>
    requires { GoodCut file.now c }
    ensures value { result ≡ ray_on file.now ray (length out.old) c }
    ensures out_after { out.new ≡ if_written result (front (ray_in file.now c ray) out.old) out.old }
{
    calls::judge_ray(file, c, ray, out.len())?;
    cuts::ray_into(file, c, ray, out);
    Ok(())
}

// Ray levels: Nb octets at the front of out.
pub fn ray_levels(file: &[u8], i: usize, ray: usize, out: &mut [u8]) -> Result<(), Refusal>
    ensures { LevelsPromise file.now i ray out.old result out.new }
{
    ray_levels_on(file, calls::find::<RunLength>(file, i)?, ray, out)
}

fn ray_values_on(
    file: &[u8],
    c: Cut,
    ray: usize,
    marks: &mut [u8],
    values: &mut [i32],
) -> Result<(), Refusal>
    requires { GoodCut file.now c }
    ensures value { result ≡ ray_on file.now ray (min (length marks.old) (length values.old)) c }
    ensures marks_after { marks.new ≡ if_written result (marks_of (product_in file.now c) (ray_in file.now c ray) marks.old) marks.old }
    ensures values_after { values.new ≡ if_written result (values_of (product_in file.now c) (ray_in file.now c ray) values.old) values.old }
{
    let room = marks.len().min(values.len());
    calls::judge_ray(file, c, ray, room)?;
    cuts::readings_into(file, c, ray, marks, values);
    Ok(())
}

// Ray values: Nb marks, and the value at each measured place.
pub fn ray_values(
    file: &[u8],
    i: usize,
    ray: usize,
    marks: &mut [u8],
    values: &mut [i32],
) -> Result<(), Refusal>
    ensures { ValuesPromise file.now i ray marks.old values.old result marks.new values.new }
{
    ray_values_on(file, calls::find::<RunLength>(file, i)?, ray, marks, values)
}

// A reading as the bin call answers it.
fn bin_of(reading: Reading) -> Option<f64>
    ensures { result ≡ bin_of reading }
{
    match reading {
        Reading::Missing => None,
        Reading::Number(z) => Some(fraction::hundredths_of(z)),
    }
}

fn bin_value_on(file: &[u8], c: Cut, ray: usize, bin: usize) -> Result<Option<f64>, Refusal>
    requires { GoodCut file.now c }
    ensures { result ≡ bin_on file.now ray bin c }
{
    calls::judge_bin(file, c, ray, bin)?;
    let product = base_format::product_in(file, c);
    let level = cuts::level_in(file, c, ray, bin);
    Ok(bin_of(values::reading_of(product, level)))
}

// Bin value: the value; None where it is missing.
pub fn bin_value(file: &[u8], i: usize, ray: usize, bin: usize) -> Result<Option<f64>, Refusal>
    ensures { BinPromise file.now i ray bin result }
{
    bin_value_on(file, calls::find::<RunLength>(file, i)?, ray, bin)
}

// ---- stretches

// Whether T and the point may be asked for.
fn right_list(file: &[u8], c: Cut, t: i32, ray: usize, bin: usize) -> bool
    ensures { result ≡ (right_t t && right_point (bins_in file.now c) (rays_in file.now c) ray bin) }
{
    let nb = sections::bins_in(file, c);
    let nr = sections::rays_in(file, c);
    stretches::right_t(t) & stretches::right_point(nb, nr, ray, bin)
}

fn stretches_on(
    file: &[u8],
    c: Cut,
    t: i32,
    ray: usize,
    bin: usize,
    words: &mut [u32],
) -> Result<Listing, Refusal>
    requires { GoodCut file.now c }
    ensures value { result ≡ stretches_on file.now t ray bin (length words.old) c }
    ensures words_after { words.new ≡ if_listed result (out_of words.old (stretches_in file.now c t ray bin)) words.old }
{
    let right = right_list(file, c, t, ray, bin);
    calls::judge(right, stretches::PER_ENTRY <= words.len())?;
    Ok(cuts::list_into(file, c, t, ray, bin, words))
}

// Stretches: those that start at or past the point (ray, bin), as many as the words have room for.
pub fn stretches(
    file: &[u8],
    i: usize,
    t: i32,
    ray: usize,
    bin: usize,
    words: &mut [u32],
) -> Result<Listing, Refusal>
    ensures { StretchesPromise file.now i t ray bin words.old result words.new }
{
    stretches_on(file, calls::find::<RunLength>(file, i)?, t, ray, bin, words)
}

// The house form: a function of its own for the C interface, which has it as a call.
pub fn house_stretches(
    file: &[u8],
    i: usize,
    ray: usize,
    bin: usize,
    words: &mut [u32],
) -> Result<Listing, Refusal>
    ensures { StretchesPromise file.now i house ray bin words.old result words.new }
{
    stretches(file, i, stretches::HOUSE, ray, bin, words)
}
