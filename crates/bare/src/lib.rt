// THE CALLS without a file: run read, run check, run write (FORMAT.md, "Calls"). Nothing here asks anything of its caller: what is out of range is
// refused, by FORMAT.md's numbers. Below stand `scan` and `runs`, which read, `sums`, by whose block few octets are told from many, and `packing`, which writes; above stand the calls for C and Rust.
#![tactic(auto)]

ghost use Rattle.std.specs.Prelude.{◌≡◌};
ghost use Rattle.bare.specs.Read.{ReadPromise, CheckPromise};
ghost use Rattle.bare.specs.Write.{WritePromise};

// Why run read refuses, a case for each of its numbers in FORMAT.md, "Refusals": 12, 10, 11, 8.
// The last has the offset of the octet at fault, which is the refusal's place.
#[derive(Clone, Copy, Debug, PartialEq, Eq)]
pub enum ReadRefusal {
    V,
    Argument,
    Room,
    Data(usize),
}

// Run read: the n levels that the octets give under V, at the front of out.
pub fn run_read(octets: &[u8], v: u8, n: usize, out: &mut [u8]) -> Result<(), ReadRefusal>
    ensures { ReadPromise v n octets.now out.old result out.new }
{
    if 253 < v {
        return Err(ReadRefusal::V);
    }
    if 2097152 < n { // 10 comes before 11
        return Err(ReadRefusal::Argument);
    }
    if out.len() < n {
        return Err(ReadRefusal::Room);
    }
    scan::scan_runs(octets, v, n).map_err(ReadRefusal::Data)?;
    runs::levels_upto(octets, v, 0, n, out);
    Ok(())
}

// Why run check refuses: 12, 10, 8, the last with the offset of the octet at fault.
#[derive(Clone, Copy, Debug, PartialEq, Eq)]
pub enum CheckRefusal {
    V,
    Argument,
    Data(usize),
}

// Run check: whether octets give exactly n bins under V, as run read would find, with nothing lent.
pub fn run_check(octets: &[u8], v: u8, n: usize) -> Result<(), CheckRefusal>
    ensures { CheckPromise v n octets.now result }
{
    if 253 < v {
        return Err(CheckRefusal::V);
    }
    if 2097152 < n {
        return Err(CheckRefusal::Argument);
    }
    if octets.len() < sums::BLOCK { // a few octets go straight to the loop, which spares them a call
        return scan::by_runs(octets, v, n).map_err(CheckRefusal::Data);
    }
    scan::scan_runs(octets, v, n).map_err(CheckRefusal::Data)
}

// Why run write refuses, a case for each of its numbers in FORMAT.md, "Refusals": 10 (too many levels, or a level over 252) and 11.
#[derive(Clone, Copy, Debug, PartialEq, Eq)]
pub enum WriteRefusal {
    Argument,
    Room,
}

// What run write wrote: V, and the number of octets.
#[derive(Clone, Copy, Debug, PartialEq, Eq)]
pub struct Wrote {
    pub v: u8,
    pub len: usize,
}

// Run write: the octets for the levels, at the front of out.
pub fn run_write(levels: &[u8], out: &mut [u8]) -> Result<Wrote, WriteRefusal>
    ensures { WritePromise levels.now out.old result out.new }
{
    if 2097152 < levels.len() {
        return Err(WriteRefusal::Argument);
    }
    let v = packing::greatest_of(levels);
    if 252 < v {
        return Err(WriteRefusal::Argument);
    }
    if !packing::has_room(levels, v, out.len()) {
        return Err(WriteRefusal::Room);
    }
    let len = packing::put_all(levels, v, out);
    Ok(Wrote { v, len })
}
