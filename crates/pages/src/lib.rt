// Writes the list of a file to a writer, page by page, and reads a file into lent room: the two loops that both programs have. What is written is said by
// `listing`; no contract speaks of what a reader gives or a writer takes.
#![tactic(auto)]

ghost use Rattle.std.specs.Prelude.{◌≤◌, length};
ghost use Rattle.std.specs.Io.{ReadsAtMost};
ghost use Rattle.stretches.specs.Stretch.{per_entry};
ghost use Rattle.listing.specs.Progress.{step_room};

use std::io;
use std::io::{Read, Write};

// How much room a program has: for a file, one octet more than may be listed, so that a longer one is seen; for the words of 8,192 entries; for a page.
// The last two are small, since all of it is cleared first: a longer list is fetched in portions and written in pages.
pub const FILE: usize = listing::LARGEST + 1;

pub const WORDS: usize = stretches::PER_ENTRY * 8192;

pub const TEXT: usize = 32768;

// Reads until `buf` is full or the input ends, in however many parts it comes, and returns how many octets it put at the start of `buf`.
// By a loop: the library's `read_to_end` fills a Vec, and there is no heap here.
pub fn read_full<R: Read>(from: &mut R, buf: &mut [u8]) -> io::Result<usize>
    ensures { ReadsAtMost result buf.new }
{
    let mut done = 0;
    while done < buf.len() {
        let n = from.read(&mut buf[done..])?;
        if n == 0 {
            break;
        }
        done += n;
    }
    Ok(done)
}

// `words` and `text` are room for the work: a listing's words, and a page. A write that fails ends it.
pub fn write_list<W: Write>(
    to: &mut W,
    file: &[u8],
    words: &mut [u32],
    text: &mut [u8],
) -> io::Result<()>
    requires { (per_entry ≤ length words.old) × (step_room ≤ length text.old) }
{
    let mut p = listing::start(file);
    while !listing::is_finished(p) {
        let page = listing::page(file, p, words, text);
        let len = page.len;
        to.write_all(&text[0..len])?;
        p = page.next;
    }
    Ok(())
}
