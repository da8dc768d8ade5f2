// The lister: FORMAT.md, "The lister". A read or a write that fails ends it with that error.
#![tactic(auto)]

use std::io;

fn main(rt: HostRuntime) -> io::Result<()> {
    let mut file = [0u8; pages::FILE];
    let mut words = [0u32; pages::WORDS];
    let mut text = [0u8; pages::TEXT];
    let n = pages::read_full(&mut rt.stdin(), &mut file)?;
    pages::write_list(&mut rt.stdout(), &file[..n], &mut words, &mut text)
}
