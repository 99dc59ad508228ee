//! Numbers of a style that may change one way without loss. There is no code here.
//!
//! Proved: what is legal under a style is legal under a greater tolerance, under a greater looseness, where a text may be
//! lower, and where more floats may stand at the top or bottom of a text or in a column without text (`specs/Looser`). So
//! where one of these numbers is the least that has a legal pagination, no smaller has one.
#![tactic(auto)]

mod laws;

pub use laws::looser_keeps_legal;
