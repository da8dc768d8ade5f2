// The library's public calls for C and Rust, of numbers and slices alone: `polar_c_c` exports each of them to C with the same clauses.
// Each call returns 0, or a refusal in one word: FORMAT.md's number + 256 x its place. The words of an answer go to a lent array; on a refusal nothing lent
// has changed. Nothing is decided here: the crates below decide, and `c_words` says how each of their answers goes out.
#![tactic(auto)]

ghost use Rattle.std.specs.Prelude.{◌≡◌};
ghost use Rattle.polar.specs.Stretching.{house};
ghost use Rattle.polar_c.specs.Runs.{RunCheckCall, RunReadCall, RunWriteCall};
ghost use Rattle.polar_c.specs.Dual.{DualOpenCall, DualCutCall, DualBinCall};
ghost use Rattle.polar_c.specs.Records.{BuildIndexCall, RayLevelsFromCall, RayValuesFromCall};
ghost use Rattle.polar_c.specs.Files.{OpenCall, CutCall, RayLevelsCall, RayValuesCall, BinValueCall, StretchesCall};

use index::RayRecord;

// ---- runs, without a file

// Run check: what run read would find, with nothing lent.
pub fn polar_run_check(octets: &[u8], v: u64, n: usize) -> u64
    ensures { RunCheckCall v n octets.now result }
{
    let octet = c_words::narrow_v(v);
    c_words::check_return(bare::run_check(octets, octet, n))
}

// Run read: n levels at the front of `out`.
pub fn polar_run_read(octets: &[u8], v: u64, n: usize, out: &mut [u8]) -> u64
    ensures { RunReadCall v n octets.now out.old result out.new }
{
    let octet = c_words::narrow_v(v);
    c_words::read_return(bare::run_read(octets, octet, n, out))
}

// Run write: the octets for the levels at the front of `out`; `answer` is V, number of octets.
pub fn polar_run_write(levels: &[u8], out: &mut [u8], answer: &mut [u64; 2]) -> u64
    ensures { RunWriteCall levels.now out.old answer.old result out.new answer.new }
{
    c_words::put_write(bare::run_write(levels, out), answer)
}

// ---- files

// Open: `answer` is product, year, month, day, hour, minute, second, site, number of cuts.
pub fn polar_open(file: &[u8], answer: &mut [u64; 9]) -> u64
    ensures { OpenCall file.now answer.old result answer.new }
{
    c_words::put_open(polar::open(file), answer)
}

// Cut: what sections 3 and 4 say of one cut.
pub fn polar_cut(file: &[u8], cut: usize, answer: &mut [i64; 10]) -> u64
    ensures { CutCall file.now cut answer.old result answer.new }
{
    c_words::put_cut(polar::cut_info(file, cut), answer)
}

// Ray levels: Nb levels at the front of `levels`.
pub fn polar_ray_levels(file: &[u8], cut: usize, ray: usize, levels: &mut [u8]) -> u64
    ensures { RayLevelsCall file.now cut ray levels.old result levels.new }
{
    c_words::ray_return(polar::ray_levels(file, cut, ray, levels))
}

// Ray values: Nb marks, and the value at each measured place.
pub fn polar_ray_values(
    file: &[u8],
    cut: usize,
    ray: usize,
    marks: &mut [u8],
    values: &mut [i32],
) -> u64
    ensures { RayValuesCall file.now cut ray marks.old values.old result marks.new values.new }
{
    c_words::ray_return(polar::ray_values(file, cut, ray, marks, values))
}

// Bin value: `value` is set where the bin is measured; `answer` is the mark.
pub fn polar_bin_value(
    file: &[u8],
    cut: usize,
    ray: usize,
    bin: usize,
    value: &mut f64,
    answer: &mut [u64; 1],
) -> u64
    ensures { BinValueCall file.now cut ray bin value.old answer.old result value.new answer.new }
{
    c_words::put_bin(polar::bin_value(file, cut, ray, bin), value, answer)
}

// Stretches: four words to an entry at the front of `words`; `answer` is count of entries, the next point's ray and bin.
pub fn polar_stretches(
    file: &[u8],
    cut: usize,
    t: i64,
    ray: usize,
    bin: usize,
    words: &mut [u32],
    answer: &mut [u64; 3],
) -> u64
    ensures { StretchesCall file.now cut t ray bin words.old answer.old result words.new answer.new }
{
    let threshold = c_words::narrow_threshold(t);
    c_words::put_stretches(
        polar::stretches(file, cut, threshold, ray, bin, words),
        answer,
    )
}

// The same at the house threshold.
pub fn polar_house_stretches(
    file: &[u8],
    cut: usize,
    ray: usize,
    bin: usize,
    words: &mut [u32],
    answer: &mut [u64; 3],
) -> u64
    ensures { StretchesCall file.now cut house ray bin words.old answer.old result words.new answer.new }
{
    c_words::put_stretches(polar::house_stretches(file, cut, ray, bin, words), answer)
}

// ---- an index of a cut's rays, and rays by its records

// Build an index: a record for each ray at the front of `records`.
pub fn polar_build_index(file: &[u8], cut: usize, records: &mut [RayRecord]) -> u64
    ensures { BuildIndexCall file.now cut records.old result records.new }
{
    let built = records::build_index(file, cut, records);
    c_words::ray_return(built)
}

// Ray levels by a record: Nb levels, of what decoding from there gives, at the front of `levels`.
pub fn polar_ray_levels_from(
    file: &[u8],
    cut: usize,
    ray: usize,
    offset: u32,
    before: u32,
    levels: &mut [u8],
) -> u64
    ensures { RayLevelsFromCall file.now cut ray offset before levels.old result levels.new }
{
    let rec = RayRecord { offset, before };
    c_words::ray_return(records::ray_levels_from(file, cut, ray, rec, levels))
}

// Ray values by a record: Nb marks, and the value at each measured place.
pub fn polar_ray_values_from(
    file: &[u8],
    cut: usize,
    ray: usize,
    offset: u32,
    before: u32,
    marks: &mut [u8],
    values: &mut [i32],
) -> u64
    ensures { RayValuesFromCall file.now cut ray offset before marks.old values.old result marks.new values.new }
{
    let rec = RayRecord { offset, before };
    c_words::ray_return(records::ray_values_from(file, cut, ray, rec, marks, values))
}

// ---- dual-polarisation files

// Open: `answer` is parameter, year, month, day, hour, minute, second, site, number of cuts.
pub fn polar_dual_open(file: &[u8], answer: &mut [u64; 9]) -> u64
    ensures { DualOpenCall file.now answer.old result answer.new }
{
    c_words::put_dual_open(dualpol::open(file), answer)
}

// Cut: `answer` is Nb, Nr, latitude, longitude, Dx, Dstart.
pub fn polar_dual_cut(file: &[u8], cut: usize, answer: &mut [i64; 6]) -> u64
    ensures { DualCutCall file.now cut answer.old result answer.new }
{
    c_words::put_dual_cut(dualpol::cut_info(file, cut), answer)
}

// Bin value: `value` is set where the bin is measured; `answer` is the mark.
pub fn polar_dual_bin_value(
    file: &[u8],
    cut: usize,
    ray: usize,
    bin: usize,
    value: &mut f64,
    answer: &mut [u64; 1],
) -> u64
    ensures { DualBinCall file.now cut ray bin value.old answer.old result value.new answer.new }
{
    c_words::put_bin(dualpol::bin_value(file, cut, ray, bin), value, answer)
}
