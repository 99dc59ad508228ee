//! Galleys that agree below a block, the spaces of their pages, and what an edit changes.
//!
//! Proved: where two galleys agree below a block t, beginnings that end in a block b with b + 1 below t are the same,
//! with their states and costs; the spaces of their pages, with the reaches of places, agree below t; and an edit
//! changes nothing below the block that it touches. The statements are in `specs/Agreeing`. There is no code here.
#![tactic(auto)]

mod laws;

pub use laws::{beginnings_agree, edits_agree, pages_agree};
