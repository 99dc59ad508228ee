//! Whether two items are equal.
ghost use Rattle.std.specs.Prelude.{◌≡◌, IsTrue, ◌↔◌};
ghost use Rattle.pg_list.specs.declared.item.Item.TheVariants as kind;

use crate::bytes::Bytes;
use crate::item::{Item, Order};

impl Item {
    fn is_box(&self, high: i32, deep: i32, shown: &Bytes) -> bool
        ensures { IsTrue result ↔ (self.now ≡ kind.BoxItem high deep shown.now) }
    {
        match self {
            Item::BoxItem {
                height,
                depth,
                body,
            } => *height == high && *depth == deep && body.is_same(shown),
            _ => false,
        }
    }

    fn is_rule(&self, high: i32, deep: i32, shown: &Bytes) -> bool
        ensures { IsTrue result ↔ (self.now ≡ kind.Rule high deep shown.now) }
    {
        match self {
            Item::Rule {
                height,
                depth,
                body,
            } => *height == high && *depth == deep && body.is_same(shown),
            _ => false,
        }
    }

    fn is_glue(&self, wide: i32, more: i32, infinity: Order, less: i32, shown: &Bytes) -> bool
        ensures { IsTrue result ↔ (self.now ≡ kind.Glue wide more infinity less shown.now) }
    {
        match self {
            Item::Glue {
                width,
                stretch,
                order,
                shrink,
                body,
            } => {
                *width == wide
                    && *stretch == more
                    && *order == infinity
                    && *shrink == less
                    && body.is_same(shown)
            }
            _ => false,
        }
    }

    fn is_kern(&self, wide: i32, shown: &Bytes) -> bool
        ensures { IsTrue result ↔ (self.now ≡ kind.Kern wide shown.now) }
    {
        match self {
            Item::Kern { width, body } => *width == wide && body.is_same(shown),
            _ => false,
        }
    }

    fn is_penalty(&self, of: i32, shown: &Bytes) -> bool
        ensures { IsTrue result ↔ (self.now ≡ kind.Penalty of shown.now) }
    {
        match self {
            Item::Penalty { value, body } => *value == of && body.is_same(shown),
            _ => false,
        }
    }

    fn is_insert(&self, number: u8, large: i32, shown: &Bytes) -> bool
        ensures { IsTrue result ↔ (self.now ≡ kind.Insert number large shown.now) }
    {
        match self {
            Item::Insert { class, size, body } => {
                *class == number && *size == large && body.is_same(shown)
            }
            _ => false,
        }
    }

    fn is_carry(&self, shown: &Bytes) -> bool
        ensures { IsTrue result ↔ (self.now ≡ kind.Carry shown.now) }
    {
        match self {
            Item::Carry { body } => body.is_same(shown),
            _ => false,
        }
    }

    /// The items are equal, in kind, in numbers and in body.
    pub fn is_same(&self, other: &Item) -> bool
        ensures { IsTrue result ↔ (self.now ≡ other.now) }
    {
        match other {
            Item::BoxItem {
                height,
                depth,
                body,
            } => self.is_box(*height, *depth, body),
            Item::Rule {
                height,
                depth,
                body,
            } => self.is_rule(*height, *depth, body),
            Item::Glue {
                width,
                stretch,
                order,
                shrink,
                body,
            } => self.is_glue(*width, *stretch, *order, *shrink, body),
            Item::Kern { width, body } => self.is_kern(*width, body),
            Item::Penalty { value, body } => self.is_penalty(*value, body),
            Item::Insert { class, size, body } => self.is_insert(*class, *size, body),
            Item::Carry { body } => self.is_carry(body),
        }
    }
}
