//! The program that tells in words what `pg` says by a number: each refusal with the line of the file that is at fault,
//! and of a galley under a style its pages, or how far pages come where none are legal.
//!
//! Proved: the words are read as `specs/Words` says; a refusal is the one that `pg run` gives for the same files, in its
//! order, and is told behind the line of `pg`, with its status; the best pages are counted and priced, with the parts of
//! their cost, or none is legal and the furthest place of a beginning is told; nothing is written unless all of it can
//! be (`specs/Course`, `specs/Lines`). Of the words behind these lines no more is proved than that printing them is safe
//! and ends; what stands in a file cannot end a string of JSON (pg_pieces).
#![tactic(auto)]

mod changes;
mod course;
mod ends;
mod faults;
mod findings;
mod help;
mod letters;
mod like;
mod none;
mod open;
mod pages;
mod paragraphs;
mod reasons;
mod refusal;
mod said;
mod system;
mod waits;
mod words;

pub use course::serve;
pub use system::program;
