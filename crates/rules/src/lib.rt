// The rules on a section's named fields: FORMAT.md, "Sections", each section's rules as one chain of tests without branches. Below it stands
// `octets`; above it `sections`, which puts the sections in order, and the two formats, `base_format` and `dual_format`.
#![tactic(auto)]

ghost use Rattle.std.specs.Prelude.{◌≡◌, ℕ, ◌*◌, length};
ghost use Rattle.octets.specs.Octets.{be};
ghost use Rattle.rules.specs.Rules.{field, meets, meets_all, within, magnitude, rules0, rules1, grid_rules, mode_rule, rules6, rules8};
ghost use Rattle.rules.specs.Fields.{length_at, number_at, bins_at, rays_at, points_at, parameter_at};

use octets::Number;

// Fields by octet, counted from 1 inside a section. No call has a condition: what is past the end reads as 0.

// A place that reads as octet k of the section at `at` does.
fn spot(s: &[u8], at: usize, k: u8) -> usize
    ensures { (w : ℕ) → be s.now result w ≡ field s.now at k w }
{
    if s.len() < at {
        return s.len();
    }
    (at + usize::from(k)).saturating_sub(1)
}

pub fn field<T: Number>(s: &[u8], at: usize, k: u8) -> T
    ensures { T.value result ≡ field s.now at k T.WIDTH }
{
    octets::be(s, spot(s, at, k))
}

pub fn within<T: Number>(s: &[u8], at: usize, k: u8, lo: T, hi: T) -> bool
    ensures { result ≡ meets s.now at (within k T.WIDTH (T.value lo) (T.value hi)) }
{
    let n = field::<T>(s, at, k).wide();
    (lo.wide() <= n) & (n <= hi.wide())
}

pub fn magnitude<T: Number>(s: &[u8], at: usize, k: u8, m: T) -> bool
    ensures { result ≡ meets s.now at (magnitude k T.WIDTH (T.value m)) }
{
    field::<T>(s, at, k).wide() % octets::sign_bit::<T>() <= m.wide()
}

// The field rules of each section, as one chain of tests without branches.

pub fn fields0(s: &[u8]) -> bool
    ensures { result ≡ meets_all s.now 0 (rules0 (length s.now)) }
{
    let n = s.len() as u64;
    within::<u32>(s, 0, 1, 0x47524942, 0x47524942)
        & within::<u8>(s, 0, 7, 0, 0)
        & within::<u8>(s, 0, 8, 2, 2)
        & within::<u64>(s, 0, 9, n, n)
}

pub fn fields1(s: &[u8], at: usize) -> bool
    ensures { result ≡ meets_all s.now at rules1 }
{
    within::<u16>(s, at, 6, 34, 34)
        & within::<u16>(s, at, 8, 0, 0)
        & within::<u8>(s, at, 12, 3, 3)
        & within::<u16>(s, at, 13, 1000, 9999)
        & within::<u8>(s, at, 15, 1, 12)
        & within::<u8>(s, at, 16, 1, 31)
        & within::<u8>(s, at, 17, 0, 23)
        & within::<u8>(s, at, 18, 0, 59)
        & within::<u8>(s, at, 19, 0, 59)
        & within::<u8>(s, at, 20, 0, 0)
        & within::<u8>(s, at, 21, 7, 7)
}

// Section 3 of a grid template, up to octet 34.
pub fn grid_fields(s: &[u8], at: usize, template: u16) -> bool
    ensures { result ≡ meets_all s.now at (grid_rules template) }
{
    within::<u8>(s, at, 6, 0, 0)
        & within::<u8>(s, at, 11, 0, 0)
        & within::<u8>(s, at, 12, 0, 0)
        & within::<u16>(s, at, 13, template, template)
        & within::<u32>(s, at, 15, 1, 2048)
        & within::<u32>(s, at, 19, 1, 1024)
        & magnitude::<u32>(s, at, 23, 90000000)
        & within::<u32>(s, at, 27, 0, 360000000)
        & within::<u32>(s, at, 31, 1, 0xFFFFFFFF)
}

// An octet that is 0, 1, 2 or 255.
pub fn mode_ok(s: &[u8], at: usize, k: u8) -> bool
    ensures { result ≡ meets s.now at (mode_rule k) }
{
    within::<u8>(s, at, k, 0, 2) | within::<u8>(s, at, k, 255, 255)
}

pub fn fields6(s: &[u8], at: usize) -> bool
    ensures { result ≡ meets_all s.now at rules6 }
{
    within::<u8>(s, at, 6, 255, 255)
}

pub fn fields8(s: &[u8], at: usize) -> bool
    ensures { result ≡ meets_all s.now at rules8 }
{
    within::<u32>(s, at, 1, 0x37373737, 0x37373737)
}

// The fields that other sections and the calls go by: each octet number stands here alone.

pub fn length_at(s: &[u8], at: usize) -> u32
    ensures { result ≡ length_at s.now at }
{
    field(s, at, 1)
}

pub fn number_at(s: &[u8], at: usize) -> u8
    ensures { result ≡ number_at s.now at }
{
    field(s, at, 5)
}

pub fn bins_at(s: &[u8], at: usize) -> u32
    ensures { result ≡ bins_at s.now at }
{
    field(s, at, 15)
}

pub fn rays_at(s: &[u8], at: usize) -> u32
    ensures { result ≡ rays_at s.now at }
{
    field(s, at, 19)
}

pub fn parameter_at(s: &[u8], at: usize) -> u8
    ensures { result ≡ parameter_at s.now at }
{
    field(s, at, 11)
}

// Nb x Nr.
pub fn points_of(nb: u32, nr: u32) -> u64
    ensures { result ≡ nb * nr }
{
    u64::from(nb) * u64::from(nr)
}

// Nb x Nr, by the section 3 at a place.
pub fn points_at(s: &[u8], at: usize) -> u64
    ensures { result ≡ points_at s.now at }
{
    points_of(bins_at(s, at), rays_at(s, at))
}
