// The text of the stretch list, line by line: FORMAT.md, "The lister". specs/Text.antt has each line as octets; each function here puts one at a
// place of lent octets and answers the place past it. Below it stand `runs` (what stands at a place) and `stretches` (entries as words); above it
// `listing`, the whole text of a file.
#![tactic(auto)]

ghost use Rattle.std.specs.Prelude.{◌≡◌, ◌++◌, ◌+◌, ◌*◌, ◌≤◌, ◌<◌, length, get_or};
ghost use Rattle.kinds.specs.KindTable.{kind_by};
ghost use Rattle.stretches.specs.Stretch.{per_entry};
ghost use Rattle.lent.specs.Put.{Put};
ghost use Rattle.lines.specs.Rooms.{entry_room, line_room};
ghost use Rattle.lines.specs.Text.{decimal, kind_text, newline, entry_line, entry_lines, head_line, refused_line, end_line};
ghost use Rattle.lines.specs.Words.{entry_in, entries_in};

// How many octets the line of an entry may take.
pub const ENTRY_ROOM: usize = 82;

// A number in decimal, the digits before the last first.
fn put_decimal(out: &mut [u8], at: usize, n: usize) -> usize
    requires { at + length (decimal n) ≤ length out.old }
    ensures { Put out.old at (decimal n) out.new result }
{
    if n < 10 {
        out[at] = 48 + n as u8;
        return at + 1;
    }
    let last = put_decimal(out, at, n / 10);
    out[last] = 48 + (n % 10) as u8;
    last + 1
}

// A number, and what stands before it.
fn put_named(out: &mut [u8], at: usize, name: &[u8], n: usize) -> usize
    requires { at + length name.now + 20 ≤ length out.old }
    ensures put { Put out.old at (name.now ++ decimal n) out.new result }
    ensures upper_bound { result ≤ at + length name.now + 20 }
{
    let a = lent::put_octets(out, at, name);
    put_decimal(out, a, n)
}

// The last number of a line, what stands before it, and the end of the line.
fn put_last(out: &mut [u8], at: usize, name: &[u8], n: usize) -> usize
    requires { at + length name.now + 21 ≤ length out.old }
    ensures { Put out.old at ((name.now ++ decimal n) ++ newline) out.new result }
{
    let a = put_named(out, at, name, n);
    lent::put_octets(out, a, b"\n")
}

// The number in a word of entries, and what stands before it.
fn put_word(out: &mut [u8], at: usize, name: &[u8], words: &[u32], k: usize) -> usize
    requires { (k < length words.now) × (at + length name.now + 20 ≤ length out.old) }
    ensures put { Put out.old at (name.now ++ decimal (get_or words.now k 0)) out.new result }
    ensures upper_bound { result ≤ at + length name.now + 20 }
{
    put_named(out, at, name, words[k] as usize)
}

// The word of the kind that a number stands for, and the end of its line. A number that is no kind's has no word.
fn put_kind(out: &mut [u8], at: usize, number: u32) -> usize
    requires { at + 20 ≤ length out.old }
    ensures put { Put out.old at (kind_text (kind_by number) ++ newline) out.new result }
    ensures upper_bound { result ≤ at + 20 }
{
    let Some(kind) = kinds::by_number(number) else {
        return lent::put_octets(out, at, b"\n");
    };
    let a = lent::put_octets(out, at, b" ");
    let b = kinds::put_word(out, a, kind);
    lent::put_octets(out, b, b"\n")
}

// The line of entry i of the words.
fn put_entry(out: &mut [u8], at: usize, words: &[u32], i: usize) -> usize
    requires { (per_entry * i + per_entry ≤ length words.now) × (at + entry_room ≤ length out.old) }
    ensures put { Put out.old at (entry_line (entry_in words.now i)) out.new result }
    ensures upper_bound { result ≤ at + entry_room }
{
    let k = stretches::PER_ENTRY * i;
    let a = put_word(out, at, b"", words, k);
    let b = put_word(out, a, b" ", words, k + 1);
    let c = put_word(out, b, b" ", words, k + 2);
    put_kind(out, c, words[k + 3])
}

// The lines of `count` entries of the words, from entry `first` on.
pub fn put_entries(out: &mut [u8], at: usize, words: &[u32], first: usize, count: usize) -> usize
    requires { (per_entry * (first + count) ≤ length words.now) × (at + entry_room * count ≤ length out.old) }
    ensures { Put out.old at (entry_lines (entries_in words.now first count)) out.new result }
{
    let mut to = at;
    for i in first..first + count {
        to = put_entry(out, to, words, i);
    }
    to
}

// The first line of a cut.
pub fn put_head(
    out: &mut [u8],
    at: usize,
    cut: usize,
    product: usize,
    bins: usize,
    rays: usize,
    t: usize,
) -> usize
    requires { at + line_room ≤ length out.old }
    ensures { Put out.old at (head_line cut product bins rays t) out.new result }
{
    let a = put_named(out, at, b"cut ", cut);
    let b = put_named(out, a, b" product ", product);
    let c = put_named(out, b, b" bins ", bins);
    let d = put_named(out, c, b" rays ", rays);
    put_last(out, d, b" threshold ", t)
}

// The line of a refusal.
pub fn put_refused(out: &mut [u8], at: usize, number: usize, place: usize) -> usize
    requires { at + line_room ≤ length out.old }
    ensures { Put out.old at (refused_line number place) out.new result }
{
    let a = put_named(out, at, b"refused ", number);
    put_last(out, a, b" at ", place)
}

// The last line.
pub fn put_end(out: &mut [u8], at: usize, total: usize) -> usize
    requires { at + line_room ≤ length out.old }
    ensures { Put out.old at (end_line total) out.new result }
{
    put_last(out, at, b"end ", total)
}
