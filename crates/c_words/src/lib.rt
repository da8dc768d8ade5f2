// How answers go out to C, and how wide arguments come in: the word that a call returns, the words of its lent answer, V and a threshold narrowed once they cannot wrap.
// On a refusal nothing is written. Nothing is decided here: the calls decide, and specs/ says how each of their answers goes out. Below it stand the calls;
// above it `polar_c`, whose functions C calls.
#![tactic(auto)]

ghost use Rattle.std.specs.Prelude.{◌≡◌, [], ◌≤◌, length};
ghost use Rattle.std.proofs.lemmas.List.Edits.{sets};
ghost use Rattle.c_words.specs.Word.{refusal_word, word_of, place_told, InWord};
ghost use Rattle.c_words.specs.Arguments.{narrow_v, narrow_threshold};
ghost use Rattle.c_words.specs.Runs.{check_return, read_return, write_return, write_words};
ghost use Rattle.c_words.specs.Files.{summary_words, grid_words, open_return, open_words, elevation_words, info_words, cut_return, cut_words, ray_return, bin_return, bin_words, bin_held, stretch_return, stretch_words};
ghost use Rattle.c_words.specs.Dual.{dual_open_return, dual_open_words, dual_cut_return, dual_cut_words};

use bare::{CheckRefusal, ReadRefusal, WriteRefusal, Wrote};
use dualpol::DualSummary;
use polar::{CutInfo, Summary};
use sections::{Grid, Refusal, Time};
use stretches::Listing;

// ---- arguments

// (Not by `try_from`: out of range is an answer here, and no error.)

// V as an octet: past 253 it is one that is past 253.
pub fn narrow_v(v: u64) -> u8
    ensures { result ≡ narrow_v v }
{
    if 253 < v {
        return 254;
    }
    v as u8
}

// A threshold in 32 bits: outside its range it is one that is outside.
pub fn narrow_threshold(t: i64) -> i32
    ensures { result ≡ narrow_threshold t }
{
    if t < -32767 {
        return 32768;
    }
    if 32767 < t {
        return 32768;
    }
    t as i32
}

// ---- what a call returns

// A refusal in one word: its number + 256 x its place.
fn word_of(refusal: Refusal) -> u64
    requires { InWord (word_of refusal) }
    ensures { result ≡ word_of refusal }
{
    u32::from(refusal.why) as u64 + 256 * refusal.place as u64
}

// 8 of a bare run call, at a place among its octets: over 56 bits, which no memory has, it goes out as the greatest that they hold.
fn data_word(at: usize) -> u64
    ensures { result ≡ refusal_word 8 (place_told at) }
{
    if 0xFFFFFFFFFFFFFF < at {
        return 0xFFFFFFFFFFFFFF08;
    }
    8 + 256 * at as u64
}

// Of run check; but for 8 the place of a bare run call's refusal is 0.
pub fn check_return(answer: Result<(), CheckRefusal>) -> u64
    ensures { result ≡ check_return answer }
{
    match answer {
        Ok(()) => 0,
        Err(CheckRefusal::V) => 12,
        Err(CheckRefusal::Argument) => 10,
        Err(CheckRefusal::Data(at)) => data_word(at),
    }
}

// Of run read. No one function for both: their refusals have other cases.
pub fn read_return(answer: Result<(), ReadRefusal>) -> u64
    ensures { result ≡ read_return answer }
{
    match answer {
        Ok(()) => 0,
        Err(ReadRefusal::V) => 12,
        Err(ReadRefusal::Argument) => 10,
        Err(ReadRefusal::Room) => 11,
        Err(ReadRefusal::Data(at)) => data_word(at),
    }
}

// Of the ray calls, by a record or without one, and of index building.
pub fn ray_return(answer: Result<(), Refusal>) -> u64
    requires { InWord (ray_return answer) }
    ensures { result ≡ ray_return answer }
{
    match answer {
        Ok(()) => 0,
        Err(refusal) => word_of(refusal),
    }
}

// ---- what a call returns, and the words of its answer

// Of run write: V, number of octets.
pub fn put_write(answer: Result<Wrote, WriteRefusal>, words: &mut [u64; 2]) -> u64
    ensures value { result ≡ write_return answer }
    ensures words_after { words.new ≡ write_words answer words.old }
{
    match answer {
        Ok(wrote) => {
            words[0] = wrote.v as u64;
            words[1] = wrote.len as u64;
            0
        }
        Err(WriteRefusal::Argument) => 10,
        Err(WriteRefusal::Room) => 11,
    }
}

// Of both formats' open: product or parameter, year, month, day, hour, minute, second, site, number of cuts.
fn put_summary(product: u64, time: Time, site: u16, cuts: usize, words: &mut [u64; 9])
    ensures { words.new ≡ sets words.old 0 (summary_words product time site cuts) }
{
    words[0] = product;
    words[1] = time.year as u64;
    words[2] = time.month as u64;
    words[3] = time.day as u64;
    words[4] = time.hour as u64;
    words[5] = time.minute as u64;
    words[6] = time.second as u64;
    words[7] = site as u64;
    words[8] = cuts as u64;
}

// Open and cut of each format: what they share is above; the rest is one `match`, which a closure for it would only hide.

pub fn put_open(answer: Result<Summary, Refusal>, words: &mut [u64; 9]) -> u64
    requires { InWord (open_return answer) }
    ensures value { result ≡ open_return answer }
    ensures words_after { words.new ≡ open_words answer words.old }
{
    match answer {
        Ok(f) => {
            let product = base_format::product_number(f.product) as u64;
            put_summary(product, f.time, f.site, f.cuts, words);
            0
        }
        Err(refusal) => word_of(refusal),
    }
}

pub fn put_dual_open(answer: Result<DualSummary, Refusal>, words: &mut [u64; 9]) -> u64
    requires { InWord (dual_open_return answer) }
    ensures value { result ≡ dual_open_return answer }
    ensures words_after { words.new ≡ dual_open_words answer words.old }
{
    match answer {
        Ok(f) => {
            put_summary(f.parameter as u64, f.time, f.site, f.cuts, words);
            0
        }
        Err(refusal) => word_of(refusal),
    }
}

// Of both formats' cut, at the front: Nb, Nr, latitude, longitude, Dx, Dstart.
fn put_grid(grid: Grid, words: &mut [i64])
    requires { 6 ≤ length words.old }
    ensures { words.new ≡ sets words.old 0 (grid_words grid []) }
{
    words[0] = grid.nb as i64;
    words[1] = grid.nr as i64;
    words[2] = grid.latitude as i64;
    words[3] = grid.longitude as i64;
    words[4] = grid.dx as i64;
    words[5] = grid.dstart as i64;
}

// Whether the elevation is known, and the elevation where it is.
fn put_elevation(elevation: Option<i32>, words: &mut [i64; 10])
    ensures { words.new ≡ sets words.old 8 (elevation_words elevation) }
{
    match elevation {
        Some(z) => {
            words[8] = 1;
            words[9] = z as i64;
        }
        None => {
            words[8] = 0;
        }
    }
}

// The grid's words, start azimuth, mode of operation, elevation.
fn put_info(info: CutInfo, words: &mut [i64; 10])
    ensures { words.new ≡ sets words.old 0 (info_words info) }
{
    put_grid(info.grid, words);
    words[6] = info.start_azimuth as i64;
    words[7] = info.mode as i64;
    put_elevation(info.elevation, words);
}

pub fn put_cut(answer: Result<CutInfo, Refusal>, words: &mut [i64; 10]) -> u64
    requires { InWord (cut_return answer) }
    ensures value { result ≡ cut_return answer }
    ensures words_after { words.new ≡ cut_words answer words.old }
{
    match answer {
        Ok(info) => {
            put_info(info, words);
            0
        }
        Err(refusal) => word_of(refusal),
    }
}

pub fn put_dual_cut(answer: Result<Grid, Refusal>, words: &mut [i64; 6]) -> u64
    requires { InWord (dual_cut_return answer) }
    ensures value { result ≡ dual_cut_return answer }
    ensures words_after { words.new ≡ dual_cut_words answer words.old }
{
    match answer {
        Ok(grid) => {
            put_grid(grid, words);
            0
        }
        Err(refusal) => word_of(refusal),
    }
}

// Of both formats' bin value: mark. The value goes to a float of its own.
pub fn put_bin(answer: Result<Option<f64>, Refusal>, value: &mut f64, words: &mut [u64; 1]) -> u64
    requires { InWord (bin_return answer) }
    ensures value { result ≡ bin_return answer }
    ensures value_after { value.new ≡ bin_held answer value.old }
    ensures words_after { words.new ≡ bin_words answer words.old }
{
    match answer {
        Ok(None) => {
            words[0] = 0;
            0
        }
        Ok(Some(x)) => {
            *value = x;
            words[0] = 1;
            0
        }
        Err(refusal) => word_of(refusal),
    }
}

// Of both stretch calls: count of entries, the next point's ray and bin.
pub fn put_stretches(answer: Result<Listing, Refusal>, words: &mut [u64; 3]) -> u64
    requires { InWord (stretch_return answer) }
    ensures value { result ≡ stretch_return answer }
    ensures words_after { words.new ≡ stretch_words answer words.old }
{
    match answer {
        Ok(l) => {
            words[0] = l.count as u64;
            words[1] = l.ray as u64;
            words[2] = l.bin as u64;
            0
        }
        Err(refusal) => word_of(refusal),
    }
}
