// The library as C links it, libpolar_c.a: each public call of `polar_c` exported under its own name, with its clauses. A slice passes as a pointer and a
// length, an array as a pointer. Nothing is said here that `polar_c` does not say, and nothing is decided; include/polar.h declares these functions, and
// C programs and the Rust crates in rust/ call them.
#![tactic(auto)]

ghost use Rattle.polar.specs.Stretching.{house};
ghost use Rattle.polar_c.specs.Runs.{RunCheckCall, RunReadCall, RunWriteCall};
ghost use Rattle.polar_c.specs.Dual.{DualOpenCall, DualCutCall, DualBinCall};
ghost use Rattle.polar_c.specs.Records.{BuildIndexCall, RayLevelsFromCall, RayValuesFromCall};
ghost use Rattle.polar_c.specs.Files.{OpenCall, CutCall, RayLevelsCall, RayValuesCall, BinValueCall, StretchesCall};

use index::RayRecord;

// ---- runs, without a file

// Run check: what run read would find, with nothing lent.
#[unsafe(no_mangle)]
pub extern "C" fn polar_run_check(octets: &[u8], v: u64, n: usize) -> u64
    ensures { RunCheckCall v n octets.now result }
{
    polar_c::polar_run_check(octets, v, n)
}

// Run read: n levels at the front of `out`.
#[unsafe(no_mangle)]
pub extern "C" fn polar_run_read(octets: &[u8], v: u64, n: usize, out: &mut [u8]) -> u64
    ensures { RunReadCall v n octets.now out.old result out.new }
{
    polar_c::polar_run_read(octets, v, n, out)
}

// Run write: the octets for the levels at the front of `out`; `answer` is V, number of octets.
#[unsafe(no_mangle)]
pub extern "C" fn polar_run_write(levels: &[u8], out: &mut [u8], answer: &mut [u64; 2]) -> u64
    ensures { RunWriteCall levels.now out.old answer.old result out.new answer.new }
{
    polar_c::polar_run_write(levels, out, answer)
}

// ---- files

// Open: `answer` is product, year, month, day, hour, minute, second, site, number of cuts.
#[unsafe(no_mangle)]
pub extern "C" fn polar_open(file: &[u8], answer: &mut [u64; 9]) -> u64
    ensures { OpenCall file.now answer.old result answer.new }
{
    polar_c::polar_open(file, answer)
}

// Cut: what sections 3 and 4 say of one cut.
#[unsafe(no_mangle)]
pub extern "C" fn polar_cut(file: &[u8], cut: usize, answer: &mut [i64; 10]) -> u64
    ensures { CutCall file.now cut answer.old result answer.new }
{
    polar_c::polar_cut(file, cut, answer)
}

// Ray levels: Nb levels at the front of `levels`.
#[unsafe(no_mangle)]
pub extern "C" fn polar_ray_levels(file: &[u8], cut: usize, ray: usize, levels: &mut [u8]) -> u64
    ensures { RayLevelsCall file.now cut ray levels.old result levels.new }
{
    polar_c::polar_ray_levels(file, cut, ray, levels)
}

// Ray values: Nb marks, and the value at each measured place.
#[unsafe(no_mangle)]
pub extern "C" fn polar_ray_values(
    file: &[u8],
    cut: usize,
    ray: usize,
    marks: &mut [u8],
    values: &mut [i32],
) -> u64
    ensures { RayValuesCall file.now cut ray marks.old values.old result marks.new values.new }
{
    polar_c::polar_ray_values(file, cut, ray, marks, values)
}

// Bin value: `value` is set where the bin is measured; `answer` is the mark.
#[unsafe(no_mangle)]
pub extern "C" fn polar_bin_value(
    file: &[u8],
    cut: usize,
    ray: usize,
    bin: usize,
    value: &mut f64,
    answer: &mut [u64; 1],
) -> u64
    ensures { BinValueCall file.now cut ray bin value.old answer.old result value.new answer.new }
{
    polar_c::polar_bin_value(file, cut, ray, bin, value, answer)
}

// Stretches: four words to an entry at the front of `words`; `answer` is count of entries, the next point's ray and bin.
#[unsafe(no_mangle)]
pub extern "C" fn polar_stretches(
    file: &[u8],
    cut: usize,
    t: i64,
    ray: usize,
    bin: usize,
    words: &mut [u32],
    answer: &mut [u64; 3],
) -> u64
    ensures { StretchesCall file.now cut t ray bin words.old answer.old result words.new answer.new }
{
    polar_c::polar_stretches(file, cut, t, ray, bin, words, answer)
}

// The same at the house threshold.
#[unsafe(no_mangle)]
pub extern "C" fn polar_house_stretches(
    file: &[u8],
    cut: usize,
    ray: usize,
    bin: usize,
    words: &mut [u32],
    answer: &mut [u64; 3],
) -> u64
    ensures { StretchesCall file.now cut house ray bin words.old answer.old result words.new answer.new }
{
    polar_c::polar_house_stretches(file, cut, ray, bin, words, answer)
}

// ---- an index of a cut's rays, and rays by its records

// Build an index: a record for each ray at the front of `records`.
#[unsafe(no_mangle)]
pub extern "C" fn polar_build_index(file: &[u8], cut: usize, records: &mut [RayRecord]) -> u64
    ensures { BuildIndexCall file.now cut records.old result records.new }
{
    polar_c::polar_build_index(file, cut, records)
}

// Ray levels by a record: Nb levels, of what decoding from there gives, at the front of `levels`.
#[unsafe(no_mangle)]
pub extern "C" fn polar_ray_levels_from(
    file: &[u8],
    cut: usize,
    ray: usize,
    offset: u32,
    before: u32,
    levels: &mut [u8],
) -> u64
    ensures { RayLevelsFromCall file.now cut ray offset before levels.old result levels.new }
{
    polar_c::polar_ray_levels_from(file, cut, ray, offset, before, levels)
}

// Ray values by a record: Nb marks, and the value at each measured place.
#[unsafe(no_mangle)]
pub extern "C" fn polar_ray_values_from(
    file: &[u8],
    cut: usize,
    ray: usize,
    offset: u32,
    before: u32,
    marks: &mut [u8],
    values: &mut [i32],
) -> u64
    ensures { RayValuesFromCall file.now cut ray offset before marks.old values.old result marks.new values.new }
{
    polar_c::polar_ray_values_from(file, cut, ray, offset, before, marks, values)
}

// ---- dual-polarisation files

// Open: `answer` is parameter, year, month, day, hour, minute, second, site, number of cuts.
#[unsafe(no_mangle)]
pub extern "C" fn polar_dual_open(file: &[u8], answer: &mut [u64; 9]) -> u64
    ensures { DualOpenCall file.now answer.old result answer.new }
{
    polar_c::polar_dual_open(file, answer)
}

// Cut: `answer` is Nb, Nr, latitude, longitude, Dx, Dstart.
#[unsafe(no_mangle)]
pub extern "C" fn polar_dual_cut(file: &[u8], cut: usize, answer: &mut [i64; 6]) -> u64
    ensures { DualCutCall file.now cut answer.old result answer.new }
{
    polar_c::polar_dual_cut(file, cut, answer)
}

// Bin value: `value` is set where the bin is measured; `answer` is the mark.
#[unsafe(no_mangle)]
pub extern "C" fn polar_dual_bin_value(
    file: &[u8],
    cut: usize,
    ray: usize,
    bin: usize,
    value: &mut f64,
    answer: &mut [u64; 1],
) -> u64
    ensures { DualBinCall file.now cut ray bin value.old answer.old result value.new answer.new }
{
    polar_c::polar_dual_bin_value(file, cut, ray, bin, value, answer)
}
