//! First fit: a page builder after TeX's (TeX: The Program, §1005), which ends each page at the best break that it sees
//! and never goes back; and what the best pagination saves.
//!
//! Proved: `first_fit` gives the one pagination of the definition (`specs/FirstFit`), which is a relation on the whole
//! list of pages, and each of its refusals comes exactly where it is due (`specs/Faults`); where the pages are legal, the
//! best ones cost no more. `proofs/WorkedFits` computes small galleys.
#![tactic(auto)]

mod builder;
mod fault;
mod judged;
mod laws;
mod look;
mod print;
mod read;
mod refuse;

pub use builder::first_fit;
pub use fault::GreedyFault;
pub use laws::{first_fit_is_one, saving_is_not_negative};
pub use print::{print_best, print_broken, print_saved};
