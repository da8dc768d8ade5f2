// Lists each file that an argument names, under its name: what the lister writes of many files, in one run. An argument of more than 4,096 octets is left
// out. A file that cannot be opened, or whose name is not UTF-8, is no such file; a read or a write that fails ends the run with that error.
#![tactic(auto)]

use std::env::FillError;
use std::fs::File;
use std::io;
use std::io::Write;
use std::rt::{Env, Files};

fn sample<W: Write>(
    rt: &impl Files,
    to: &mut W,
    path: &[u8],
    words: &mut [u32; pages::WORDS],
    text: &mut [u8; pages::TEXT],
) -> io::Result<()> {
    to.write_all(path)?;
    to.write_all(b"\n")?;
    let Ok(name) = str::from_utf8(path) else {
        return to.write_all(b"no such file\n");
    };
    let Ok(mut from) = File::open(rt, name) else {
        return to.write_all(b"no such file\n");
    };
    let mut file = [0u8; pages::FILE];
    let n = pages::read_full(&mut from, &mut file)?;
    pages::write_list(to, &file[..n], words, text)
}

fn main(rt: HostRuntime) -> io::Result<()> {
    let mut words = [0u32; pages::WORDS];
    let mut text = [0u8; pages::TEXT];
    let mut path = [0u8; 4096];
    for i in 1..usize::MAX {
        match rt.arg(i, &mut path) {
            Ok(n) => sample(&rt, &mut rt.stdout(), &path[..n], &mut words, &mut text)?,
            Err(FillError::TooLong) => {}
            Err(FillError::NotPresent) => break,
        }
    }
    Ok(())
}
