//! What is made without input: the generator's galleys and their style.
//!
//! Proved: the style is the stated one (`specs/Made`), and the galley too, for up to 2000 paragraphs (`specs/Generated`).
#![tactic(auto)]

mod galley;
mod style;

pub use galley::{MakeFault, make_galley};
pub use style::make_style;
