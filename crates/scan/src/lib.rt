// The scan: whether octets give exactly the bins wanted, by FORMAT.md, "Run-length rule", once over the data and with no level stored. It asks that V and the bins are in range. Below it stand `runs`, which says what octets
// give, and `sums`, which counts a block of them with no branch for an octet; above it `bare` (run read, run check) and `base_format` (the data of a file).
#![tactic(auto)]

ghost use Rattle.std.specs.Prelude.{◌≡◌, ◌≤◌, length, drop};
ghost use Rattle.scan.specs.Inner.{scanned, moved};

// A scan answers whether octets give exactly the bins wanted; if not, the offset of the octet at fault, which is their length where there are too few.

// Run by run, digits inside: an octet that opens no run, or adds more bins than are left, leaves it at once and is the one at fault.
// The weight grows no more once it is over the bins of the largest cut: a digit other than zero then adds more than are left, and a tail of
// zero digits cannot overflow it.
pub fn by_runs(octets: &[u8], v: u8, n: usize) -> Result<(), usize>
    requires { (v ≤ 253) × (n ≤ 2097152) }
    ensures { result ≡ scanned v n octets.now }
{
    if octets.len() == 0 {
        if n == 0 {
            return Ok(());
        }
        return Err(0);
    }
    let base = 255 - v as usize; // B
    let mut i: usize = 0;
    let mut left = n; // bins still to come
    let mut o = octets[0];
    'runs: while o <= v {
        if left < 1 {
            break 'runs;
        }
        left -= 1;
        i += 1;
        if octets.len() <= i {
            break 'runs;
        }
        o = octets[i];
        let mut weight: usize = 1;
        'digits: while v < o {
            let more = (o - v - 1) as usize * weight;
            if left < more {
                break 'runs;
            }
            left -= more;
            i += 1;
            if octets.len() <= i {
                break 'runs;
            }
            o = octets[i];
            if weight <= 2097152 {
                weight *= base;
            }
        }
    }
    if i < octets.len() {
        return Err(i);
    }
    if left == 0 { // no bin is owed
        return Ok(());
    }
    Err(i)
}

// How far whole blocks of data go, and the bins still to come from there on.
#[derive(Clone, Copy)]
pub struct Far {
    pub at: usize,
    pub left: usize,
}

// Block by block, as long as there is a whole one whose sums tell its bins and those are not more than are left. Each ends where a run opens, so that the loop over runs can go on there.
fn by_blocks(octets: &[u8], v: u8, n: usize) -> Far
    requires { (v ≤ 253) × (n ≤ 2097152) }
    ensures { (result.at ≤ length octets.now) × (result.left ≤ n) × (moved result.at (scanned v result.left (drop result.at octets.now)) ≡ scanned v n octets.now) }
{
    let mut at: usize = 0;
    let mut left = n;
    if octets.len() < sums::BLOCK {
        return Far { at, left };
    }
    let mut row = [0u8; sums::ROW];
    while sums::BLOCK <= octets.len() - at {
        let Some(front) = sums::count_front(&octets[at..], v, &mut row) else {
            break;
        };
        if left < front.bins {
            break;
        }
        at += front.octets;
        left -= front.bins;
    }
    Far { at, left }
}

// Block by block; the loop over runs then decides: on a last part that is no block, and where a block does not fit, whose octet at fault it finds.
pub fn scan_runs(octets: &[u8], v: u8, n: usize) -> Result<(), usize>
    requires { (v ≤ 253) × (n ≤ 2097152) }
    ensures { result ≡ scanned v n octets.now }
{
    let far = by_blocks(octets, v, n);
    match by_runs(&octets[far.at..], v, far.left) {
        Ok(()) => Ok(()),
        Err(i) => {
            let place = far.at + i;
            Err(place)
        }
    }
}
