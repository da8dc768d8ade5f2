// The kinds of a stretch, each with its number and its word: specs/KindTable.antt has them as one table, and what is said of a kind anywhere is taken from here.
// Below stands `lent` (a word is put there); above stand `values` (which kind a reading is), `stretches` (numbers in entries) and `lines` (words).
#![tactic(auto)]

ghost use Rattle.std.specs.Prelude.{◌≡◌, ◌+◌, ◌≤◌, length};
ghost use Rattle.lent.specs.Put.{Put};
ghost use Rattle.kinds.specs.KindTable.{kind_number, kind_word, kind_by, word_room};

// No number; a value under the threshold; one at the threshold or over it.
#[derive(Clone, Copy, Debug, PartialEq, Eq)]
pub enum Kind {
    Missing,
    Under,
    Over,
}

// Their numbers.
const MISSING: u32 = 0;

const UNDER: u32 = 1;

const OVER: u32 = 2;

pub fn number_of(kind: Kind) -> u32
    ensures { result ≡ kind_number kind }
{
    match kind {
        Kind::Missing => MISSING,
        Kind::Under => UNDER,
        Kind::Over => OVER,
    }
}

// The kind that a number stands for, if it is one's.
pub fn by_number(number: u32) -> Option<Kind>
    ensures { result ≡ kind_by number }
{
    match number {
        MISSING => Some(Kind::Missing),
        UNDER => Some(Kind::Under),
        OVER => Some(Kind::Over),
        _ => None,
    }
}

// The word of a kind.
pub fn put_word(out: &mut [u8], at: usize, kind: Kind) -> usize
    requires { at + word_room ≤ length out.old }
    ensures put { Put out.old at (kind_word kind) out.new result }
    ensures upper_bound { result ≤ at + word_room }
{
    match kind {
        Kind::Missing => lent::put_octets(out, at, b"missing"),
        Kind::Under => lent::put_octets(out, at, b"under"),
        Kind::Over => lent::put_octets(out, at, b"over"),
    }
}
