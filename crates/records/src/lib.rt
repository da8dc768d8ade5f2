// THE CALLS by a record (FORMAT.md, "Rays by a record"): an index of a cut's rays, built in a lent row of records, and both ray calls by one record. Each is
// lent the whole file and asks nothing of its caller. Building makes all the file's checks, then answers or refuses by 10, then 11; a call by a record makes all but 8,
// then 10, 11, 13. Below it stand `walks`, `cuts`, `index` (records of bare data) and `calls`; above it `indexed` (their theorems)
// and `c_words` (the calls for C and Rust).
#![tactic(auto)]

ghost use Rattle.std.specs.Prelude.{◌≡◌, min, length};
ghost use Rattle.lent.specs.Lent.{front};
ghost use Rattle.index.specs.Pace.{Going};
ghost use Rattle.values.specs.Ray.{marks_of, values_of};
ghost use Rattle.sections.specs.Parts.{rays_in};
ghost use Rattle.base_format.specs.Parts.{product_in};
ghost use Rattle.base_format.specs.Good.{AnyDataCut, GoodCut};
ghost use Rattle.cuts.specs.Records.{records_in, ray_from};
ghost use Rattle.calls.specs.Cuts.{if_written};
ghost use Rattle.records.specs.Records.{from_on, build_on};
ghost use Rattle.records.specs.Promises.{BuildPromise, LevelsFromPromise, ValuesFromPromise};
ghost use Rattle.records.specs.Building.{start_in};

use base_format::{RunLength, RunLengthAnyData};
use index::{Pace, RayRecord};
use sections::{Cut, Refusal, Why};

// ---- building

// The walk before the first ray of a good cut.
fn start_in(file: &[u8], c: Cut) -> Pace
    requires { GoodCut file.now c }
    ensures { (result ≡ start_in file.now c) × Going file.now result (rays_in file.now c) }
{
    let at = c.section7;
    let v = cuts::greatest_in(file, c);
    let nb = sections::bins_in(file, c);
    let len = rules::length_at(file, at);
    index::at_front(at + 5, at + len as usize, v, nb)
}

fn build_on(file: &[u8], c: Cut, row: &mut [RayRecord]) -> Result<(), Refusal>
    requires { GoodCut file.now c }
    ensures value { result ≡ build_on file.now (length row.old) c }
    ensures row_after { row.new ≡ if_written result (front (records_in file.now c) row.old) row.old }
{
    let rays = sections::rays_in(file, c);
    sections::check(rays <= row.len(), Why::Room, 0)?;
    index::lay(file, start_in(file, c), rays, row);
    Ok(())
}

// Build an index: a record for each ray of cut i, at the front of row.
pub fn build_index(file: &[u8], i: usize, row: &mut [RayRecord]) -> Result<(), Refusal>
    ensures { BuildPromise file.now i row.old result row.new }
{
    build_on(file, calls::find::<RunLength>(file, i)?, row)
}

// ---- rays by a record

fn ray_levels_from_on(
    file: &[u8],
    c: Cut,
    ray: usize,
    rec: RayRecord,
    out: &mut [u8],
) -> Result<(), Refusal>
    requires { AnyDataCut file.now c }
    ensures value { result ≡ from_on file.now ray rec (length out.old) c }
    ensures out_after { out.new ≡ if_written result (front (ray_from file.now c rec) out.old) out.old }
{
    calls::judge_ray(file, c, ray, out.len())?;
    sections::check(
        cuts::levels_from(file, c, rec, out),
        Why::Record,
        c.section7,
    )
}

// Ray levels by a record: what decoding from there gives, Nb octets at the front of out. The data before it is not looked at.
pub fn ray_levels_from(
    file: &[u8],
    i: usize,
    ray: usize,
    rec: RayRecord,
    out: &mut [u8],
) -> Result<(), Refusal>
    ensures { LevelsFromPromise file.now i ray rec out.old result out.new }
{
    ray_levels_from_on(
        file,
        calls::find::<RunLengthAnyData>(file, i)?,
        ray,
        rec,
        out,
    )
}

fn ray_values_from_on(
    file: &[u8],
    c: Cut,
    ray: usize,
    rec: RayRecord,
    marks: &mut [u8],
    values: &mut [i32],
) -> Result<(), Refusal>
    requires { AnyDataCut file.now c }
    ensures value { result ≡ from_on file.now ray rec (min (length marks.old) (length values.old)) c }
    ensures marks_after { marks.new ≡ if_written result (marks_of (product_in file.now c) (ray_from file.now c rec) marks.old) marks.old }
    ensures values_after { values.new ≡ if_written result (values_of (product_in file.now c) (ray_from file.now c rec) values.old) values.old }
{
    let room = marks.len().min(values.len());
    calls::judge_ray(file, c, ray, room)?;
    let fits = cuts::readings_from(file, c, rec, marks, values);
    sections::check(fits, Why::Record, c.section7)
}

// Ray values by a record: Nb marks, and the value at each measured place, of what decoding from there gives.
pub fn ray_values_from(
    file: &[u8],
    i: usize,
    ray: usize,
    rec: RayRecord,
    marks: &mut [u8],
    values: &mut [i32],
) -> Result<(), Refusal>
    ensures { ValuesFromPromise file.now i ray rec marks.old values.old result marks.new values.new }
{
    ray_values_from_on(
        file,
        calls::find::<RunLengthAnyData>(file, i)?,
        ray,
        rec,
        marks,
        values,
    )
}
