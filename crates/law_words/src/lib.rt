//! Words that are written read back.
//!
//! Proved: each number, whole number, length, list of counts, side and place that pg_words writes is read again as what
//! was written, where it is in the range of its type. The statements are in `specs/Laws`; the lemmas (`proofs/Cut`,
//! `proofs/Words`, `proofs/Blanks`) also say how a text of such words is cut. There is no code here.
#![tactic(auto)]

mod laws;

pub use laws::written_reads_back;
