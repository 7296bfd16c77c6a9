// The examples of document 01 that are run, and its edges. The rows stand in the file `stdin`; the file `stdout` shows each with its reply
// and was written by hand from document 01.
#![tactic(auto)]

mod calls;
mod fields;
mod lent;
mod rows;
mod show;

use std::io;

fn main(rt: HostRuntime) -> io::Result<()> {
    let mut rows = [0u8; 65536];
    let n = full_read::read_full(&mut rt.stdin(), &mut rows)?;
    rows::show_all(&rt, &rows[..n])
}
