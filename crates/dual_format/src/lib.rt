// Dual-polarisation files: FORMAT.md, "Dual-polarisation files", of sections 3, 4, 5 and 7, which are this format's own. Below it stand `sections` (what
// every file has), `rules` (the base format's rules on fields, of which it shares some) and `scaled` (R, and what a cell tells); above it `dualpol`, the
// calls, for which `walks` goes over a file by these checks.
//
// What is to be believed stands in specs/Accepted.antt, by the octets of each section, and in specs/Checks.antt, by places and in the order of checks,
// with the rule lists of specs/Rules.antt; proofs/Exact.antt has the theorems that `verdict` accepts and refuses exactly these files.
#![tactic(auto)]

ghost use Rattle.std.specs.Prelude.{◌≡◌, ◌&&◌, ◌+◌, ◌≤◌, length};
ghost use Rattle.rules.specs.Rules.{meets, meets_all};
ghost use Rattle.rules.specs.Fields.{length_at, points_at};
ghost use Rattle.scaled.specs.Scaled.{finite_single};
ghost use Rattle.sections.specs.Verdict.{first_fault};
ghost use Rattle.dual_format.specs.Rules.{rules3, scan_rules, rules4, rules5, width_rule};
ghost use Rattle.dual_format.specs.Fields.{site_at, with_lists, reference_at, binary_scale_at, decimal_scale_at, width_at, length7};
ghost use Rattle.dual_format.specs.Checks.{checks3, checks4, checks5, checks7, dual_checks};
ghost use Rattle.dual_format.specs.Ready.{FewPoints, few_ready};

use sections::{Context, FileFormat, Refusal, Why};

// The field rules of each section, as one chain of tests without branches.

fn fields3(s: &[u8], at: usize) -> bool
    ensures { result ≡ meets_all s.now at rules3 }
{
    rules::grid_fields(s, at, 50121)
        & rules::within::<u8>(s, at, 53, 0, 1)
        & rules::within::<u8>(s, at, 54, 0, 1)
}

fn scan_fields(s: &[u8], at: usize) -> bool
    ensures { result ≡ meets_all s.now at scan_rules }
{
    rules::within::<u8>(s, at, 39, 0, 0) & rules::within::<u8>(s, at, 40, 255, 255)
}

fn fields4(s: &[u8], at: usize, parameter: u8, site: u16) -> bool
    ensures { result ≡ meets_all s.now at (rules4 parameter site) }
{
    rules::within::<u16>(s, at, 6, 0, 0)
        & rules::within::<u16>(s, at, 8, 51123, 51123)
        & rules::within::<u8>(s, at, 10, 15, 15)
        & rules::within::<u8>(s, at, 12, 8, 8)
        & rules::within::<u8>(s, at, 13, 1, 1)
        & rules::within::<u8>(s, at, 32, 13, 13)
        & rules::mode_ok(s, at, 42)
        & rules::within::<u8>(s, at, 56, 0, 1)
        & rules::within::<u8>(s, at, 57, 0, 1)
        & rules::within::<u8>(s, at, 11, parameter, parameter)
        & rules::within::<u16>(s, at, 28, site, site)
}

fn fields5(s: &[u8], at: usize) -> bool
    ensures { result ≡ meets_all s.now at rules5 }
{
    rules::within::<u16>(s, at, 10, 0, 0)
        & rules::within::<u16>(s, at, 16, 0, 2)
        & rules::within::<u16>(s, at, 18, 0, 4)
}

fn width_ok(s: &[u8], at: usize) -> bool
    ensures { result ≡ meets s.now at width_rule }
{
    rules::within::<u8>(s, at, 20, 8, 8) | rules::within::<u8>(s, at, 20, 16, 16)
}

// R is a number, and the width one that is read.
fn packing_ok(s: &[u8], at: usize) -> bool
    ensures { result ≡ (finite_single (reference_at s.now at) && meets s.now at width_rule) }
{
    scaled::is_finite(reference_at(s, at)) & width_ok(s, at)
}

// The fields that other sections and the calls go by: each octet number stands here alone.

pub fn site_at(s: &[u8], at: usize) -> u16
    ensures { result ≡ site_at s.now at }
{
    rules::field::<u16>(s, at, 28)
}

pub fn reference_at(s: &[u8], at: usize) -> u32
    ensures { result ≡ reference_at s.now at }
{
    rules::field::<u32>(s, at, 12)
}

pub fn binary_scale_at(s: &[u8], at: usize) -> u16
    ensures { result ≡ binary_scale_at s.now at }
{
    rules::field::<u16>(s, at, 16)
}

pub fn decimal_scale_at(s: &[u8], at: usize) -> u16
    ensures { result ≡ decimal_scale_at s.now at }
{
    rules::field::<u16>(s, at, 18)
}

pub fn width_at(s: &[u8], at: usize) -> u8
    ensures { result ≡ width_at s.now at }
{
    rules::field::<u8>(s, at, 20)
}

// The lengths that sections must have.

// A section of n octets with two lists, each there where its flag, in octet k or l, is 1.
fn with_lists(s: &[u8], at: usize, n: u8, k: u8, l: u8, rays: u32) -> u64
    ensures { result ≡ with_lists n k l s.now at rays }
{
    let flags = rules::field::<u8>(s, at, k) as u64 + rules::field::<u8>(s, at, l) as u64;
    n as u64 + 2 * flags * rays as u64
}

fn length7_at(s: &[u8], section3: usize, section5: usize) -> u64
    requires { points_at s.now section3 ≤ 2097152 }
    ensures { result ≡ length7 (points_at s.now section3) (width_at s.now section5) }
{
    5 + rules::points_at(s, section3) * width_at(s, section5) as u64 / 8
}

// Each kind of section: first whether it is long enough, then its fields, which are read in the part of the file that they stand in. In a part of a
// known length no field needs a test of its own.

fn judge3(s: &[u8], at: usize) -> Result<(), Refusal>
    requires { at + length_at s.now at ≤ length s.now }
    ensures { result ≡ first_fault (checks3 s.now at) }
{
    let len = u64::from(rules::length_at(s, at));
    sections::check(58 <= len, Why::SectionLength, at)?;
    let part = &s[at..at + 58];
    let due = with_lists(part, 0, 58, 53, 54, rules::rays_at(part, 0));
    sections::check(len == due, Why::SectionLength, at)?;
    sections::check(fields3(part, 0), Why::Field, at)?;
    sections::check(scan_fields(part, 0), Why::Unread, at)?;
    let said = u64::from(rules::field::<u32>(part, 0, 7));
    sections::check(said == rules::points_at(part, 0), Why::Points, at)
}

fn judge4(s: &[u8], x: Context, at: usize) -> Result<(), Refusal>
    requires { at + length_at s.now at ≤ length s.now }
    ensures { result ≡ first_fault (checks4 s.now x at) }
{
    let len = u64::from(rules::length_at(s, at));
    sections::check(61 <= len, Why::SectionLength, at)?;
    let part = &s[at..at + 61];
    let due = with_lists(part, 0, 61, 56, 57, rules::rays_at(s, x.section3));
    sections::check(due <= len, Why::SectionLength, at)?;
    let parameter = rules::parameter_at(s, x.first);
    let site = site_at(s, x.first);
    sections::check(fields4(part, 0, parameter, site), Why::Field, at)
}

fn judge5(s: &[u8], x: Context, at: usize) -> Result<(), Refusal>
    requires { at + length_at s.now at ≤ length s.now }
    ensures { result ≡ first_fault (checks5 s.now x at) }
{
    sections::check(rules::length_at(s, at) == 21, Why::SectionLength, at)?;
    let part = &s[at..at + 21];
    sections::check(fields5(part, 0), Why::Field, at)?;
    sections::check(packing_ok(part, 0), Why::Unread, at)?;
    let said = u64::from(rules::field::<u32>(part, 0, 6));
    let points = rules::points_at(s, x.section3);
    sections::check(said == points, Why::Points, at)
}

// Dual-polarisation files, as the walk reads them.
pub struct DualPolarisation;

impl FileFormat for DualPolarisation {
    ghost own = { dual_checks };

    ghost Ready = { FewPoints };

    ghost ready_before_7 = { few_ready };

    fn judge(s: &[u8], x: Context, at: usize, n: u8) -> Result<(), Refusal> {
        match n {
            3 => judge3(s, at),
            4 => judge4(s, x, at),
            5 => judge5(s, x, at),
            _ => Ok(()),
        }
    }

    fn judge7(s: &[u8], x: Context, at: usize) -> Result<(), Refusal>
        requires { FewPoints s.now x }
        ensures { result ≡ first_fault (checks7 s.now x at) }
    {
        let len = u64::from(rules::length_at(s, at));
        let due = length7_at(s, x.section3, x.section5);
        sections::check(len == due, Why::SectionLength, at)
    }
}
