//! What pages are printed from.
use pg_floats::FloatList;
use pg_list::Galley;
use pg_style::Style;

/// A galley, its style, the list of its floats, and for each class of floats the bodies of its floats.
#[derive(Clone, Copy)]
pub struct Matter<'a, 'b> {
    pub galley: &'a Galley,
    pub style: &'a Style,
    pub floats: &'a FloatList,
    pub bodies: &'a [Vec<&'b [u8]>],
}
