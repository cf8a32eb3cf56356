//! Makes calls of a journal on a disk in memory. The cases are lines of standard input; each is
//! written again, and behind it what was answered. Lines that are empty or begin with `#` are written
//! and ask nothing.
//!
//! A case is the numbers of the disk's calls that are to fail, with commas between them, or `-`, then
//! `:` and its steps, with `;` between them. `L..H` makes the case once for each number from L to H,
//! and `N+L..H` once for each of these that comes so long after the call N, which fails too. Behind a
//! first `|` the disk is walked, and the steps are those of the journal; behind the next the journal
//! is shut, and so on.
//!
//! The steps of a disk:
//!
//! - `format LIMIT BODY`: a format; the answer is its own
//! - `put AREA PLACE HEX`, `cut AREA SIZE`: bytes put into an area, or an area cut, where it reaches there
//! - `read AREA`: what the area reads, in hex
//! - `images`: what stands on each image: what was synced, what reads, and what was written since
//!   filled with 42, 5a and a5 (the area and its bodies, or why it can't be walked)
//!
//! A walk is answered by the area and its bodies, with `+` between them, or by why there is none:
//! `none` where the selected area isn't formatted. The steps of a journal:
//!
//! - `append BODY`, `free BODY` (free of the limit), `flip BODY`; while a doubt stands none of them is
//!   asked, which is answered `in doubt`
//! - `mend`
//! - `seat`: the area and the used length
//!
//! A body is a word. `WORD*N` is N times that word; one of over eight bytes is said by its first
//! byte and its length.
#![tactic(auto)]

mod case;
mod disks;
mod fault;
mod journals;
mod walking;
mod words;

use std::io;

fn main(rt: HostRuntime) -> io::Result<()> {
    for line in rt.lines(rt.alloc()) {
        let line = line?;
        println!(rt; "{line}")?;
        if !line.is_empty() && !line.starts_with('#') {
            print!(rt; "{}", case::answers(rt.alloc(), &line)?)?;
        }
    }
    Ok(())
}
