// THE CALLS of a dual-polarisation file: FORMAT.md, "Dual-polarisation files". Each is lent the whole file, makes all the file's checks itself, then answers or refuses by 10; none asks
// anything of its caller. What each answers is one definition of specs/. Below it stand `walks` (the file's checks), `dual_format` (this format's own
// sections), `scaled` (what a cell tells) and `calls`; above it `c_words` (the calls for C and Rust).
#![tactic(auto)]

ghost use Rattle.std.specs.Prelude.{◌≡◌, ◌⊎◌, ◌+◌, ◌*◌, ◌/◌, ◌≤◌, ◌<◌, length};
ghost use Rattle.rules.specs.Rules.{field};
ghost use Rattle.scaled.specs.Scaled.{RightCell};
ghost use Rattle.sections.specs.Parts.{bins_in, rays_in};
ghost use Rattle.dual_format.specs.Parts.{reference_in, binary_scale_in, decimal_scale_in, cell_in, told_in};
ghost use Rattle.dual_format.specs.Good.{GoodCut};
ghost use Rattle.dualpol.specs.Answers.{summary_of, OpenPromise, CutPromise, bin_on, RightIn, BinPromise};

use dual_format::DualPolarisation;
use sections::{Cut, Grid, Refusal, Time};

// What is common to all cuts of a file: of this format the parameter's number, and no product.
#[derive(Clone, Copy)]
pub struct DualSummary {
    pub parameter: u8,
    pub time: Time,
    pub site: u16,
    pub cuts: usize,
}

// ---- open and cut

fn summary_of(file: &[u8], n: usize, c: Cut) -> DualSummary
    ensures { result ≡ summary_of file.now n c }
{
    let section4 = c.section4;
    let parameter = rules::parameter_at(file, section4);
    let time = sections::time_of(file);
    let site = dual_format::site_at(file, section4);
    DualSummary {
        parameter,
        time,
        site,
        cuts: n,
    }
}

// Open: parameter, time, site and number of cuts.
pub fn open(file: &[u8]) -> Result<DualSummary, Refusal>
    ensures { OpenPromise file.now result }
{
    let found = walks::walk::<DualPolarisation>(file, 0)?;
    Ok(summary_of(file, found.cuts, found.cut))
}

// Cut: what the file says of cut i, Nb to Dstart.
pub fn cut_info(file: &[u8], i: usize) -> Result<Grid, Refusal>
    ensures { CutPromise file.now i result }
{
    let c = calls::find::<DualPolarisation>(file, i)?;
    Ok(sections::grid_at(file, c.section3))
}

// ---- bin value

// Cell n of the section 7 at a place, of 8 or 16 bits.
fn cell_at(file: &[u8], at: usize, width: u8, n: usize) -> u16
    requires { (at ≤ length file.now) × (n ≤ 2097152) × ((width ≡ 8) ⊎ (width ≡ 16)) }
    ensures { result ≡ field file.now at (6 + n * (width / 8)) (width / 8) }
{
    let from = at + 5;
    if width == 8 {
        return octets::be::<u8>(file, from + n) as u16;
    }
    octets::be::<u16>(file, from + 2 * n)
}

// The value that the cell of a bin tells, if it tells one.
fn told_in(file: &[u8], c: Cut, ray: usize, bin: usize) -> Option<f64>
    requires { GoodCut file.now c × (ray < rays_in file.now c) × (bin < bins_in file.now c) }
    ensures exact { result ≡ told_in file.now c ray bin }
    ensures near { RightCell result (reference_in file.now c) (cell_in file.now c ray bin) (binary_scale_in file.now c) (decimal_scale_in file.now c) }
{
    let section5 = c.section5;
    let r = dual_format::reference_at(file, section5);
    let e = dual_format::binary_scale_at(file, section5);
    let d = dual_format::decimal_scale_at(file, section5);
    let width = dual_format::width_at(file, section5);
    let n = ray * sections::bins_in(file, c) + bin;
    scaled::cell_of(r, e, d, width, cell_at(file, c.section7, width, n))
}

fn bin_value_on(file: &[u8], c: Cut, ray: usize, bin: usize) -> Result<Option<f64>, Refusal>
    requires { GoodCut file.now c }
    ensures exact { result ≡ bin_on file.now ray bin c }
    ensures near { RightIn file.now ray bin c result }
{
    calls::judge_bin(file, c, ray, bin)?;
    Ok(told_in(file, c, ray, bin))
}

// Bin value: the value; None where it is missing.
pub fn bin_value(file: &[u8], i: usize, ray: usize, bin: usize) -> Result<Option<f64>, Refusal>
    ensures { BinPromise file.now i ray bin result }
{
    bin_value_on(file, calls::find::<DualPolarisation>(file, i)?, ray, bin)
}
