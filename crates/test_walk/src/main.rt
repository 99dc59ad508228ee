//! Lists where columns of text may end, and how far they may go, three files at a time:
//! `test_walk STYLE GALLEY PLACES ..`. A line of PLACES is a place and rooms in points, as `0 0 0: 34.0 10.0`;
//! `22.0+2.0-4.0` is a room of 22 points beside gaps that may be stretched by 2 and shrunk by 4.
//!
//! For each place it prints the reach, and for each room the ends with their picks and numbers. The stored run has cases
//! worked by hand; the script bench/ends compares what it prints with a second search, and bench/walk measures it.
#![tactic(auto)]

mod files;
mod lists;
mod places;

use anyhow::anyhow;
use files::list_files;
use std::env;

fn main(rt: HostRuntime) -> anyhow::Result<()> {
    let words: Vec<String> = env::args(&rt)?.skip(1).collect(rt.alloc())?;
    let mut left = words.as_slice();
    'files: while let [style, galley, places, after @ ..] = left {
        list_files(&rt, style.as_str(), galley.as_str(), places.as_str())?;
        left = after;
    }
    if left.is_empty() {
        Ok(())
    } else {
        Err(anyhow!("STYLE GALLEY PLACES are wanted"))
    }
}
