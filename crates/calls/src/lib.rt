// What a call on a file comes to, for any format: the file's own refusal; 10 where it has no such cut; or what the call says of the cut.
// Below it stand `walks` (the file's checks) and both formats; above it the calls, `polar`, `records` and `dualpol`, which are siblings.
#![tactic(auto)]

ghost use Rattle.std.specs.Prelude.{◌≡◌, true, ◌&&◌, ltb, leb};
ghost use Rattle.sections.specs.Parts.{bins_in, rays_in};
ghost use Rattle.sections.specs.Verdict.{verdict_by};
ghost use Rattle.calls.specs.Cuts.{sought_in, sought_by, judged_by};

use sections::{Cut, FileFormat, Refusal, Why};
use walks::Found;

// The cut that was asked for, where the file has so many.
fn sought_by(found: Found, i: usize) -> Result<Cut, Refusal>
    ensures { result ≡ sought_by i found }
{
    sections::check(i < found.cuts, Why::Argument, 0)?;
    Ok(found.cut)
}

// Cut i of a file of a format.
pub fn find<F: FileFormat>(file: &[u8], i: usize) -> Result<Cut, Refusal>
    ensures { result ≡ sought_in i (verdict_by F.own file.now) }
{
    sought_by(walks::walk::<F>(file, i)?, i)
}

// What a call asks of its arguments and of the room that it is lent: 10, then 11.
pub fn judge(right: bool, roomy: bool) -> Result<(), Refusal>
    ensures { result ≡ judged_by right roomy }
{
    sections::check(right, Why::Argument, 0)?;
    sections::check(roomy, Why::Room, 0)
}

// The same of a call on a ray of the cut, which is lent so much room.
pub fn judge_ray(file: &[u8], c: Cut, ray: usize, room: usize) -> Result<(), Refusal>
    ensures { result ≡ judged_by (ltb ray (rays_in file.now c)) (leb (bins_in file.now c) room) }
{
    judge(
        ray < sections::rays_in(file, c),
        sections::bins_in(file, c) <= room,
    )
}

// And of a call on a bin.
pub fn judge_bin(file: &[u8], c: Cut, ray: usize, bin: usize) -> Result<(), Refusal>
    ensures { result ≡ judged_by (ltb ray (rays_in file.now c) && ltb bin (bins_in file.now c)) true }
{
    judge(
        (ray < sections::rays_in(file, c)) & (bin < sections::bins_in(file, c)),
        true,
    )
}
