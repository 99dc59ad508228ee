//! The sums of notes by class.
ghost use Rattle.std.specs.Prelude.{replicate, ◌≡◌, ◌==◌, ℕ, List, ◌++◌, ◌∷◌, [], ◌+◌, ◌*◌, ◌<◌, ◌≤◌, ◌^◌, length, nat_abs, is_none, pos, ◌≤ℤ◌};
ghost use Rattle.std.specs.List.{position, sum_by};
ghost use Rattle.pg_list.specs.Ranges.{IsItemInRange};
ghost use Rattle.pg_scaled.specs.Ranges.{IsScaled};
ghost use Rattle.pg_list.specs.declared.item.Item.{Item as AnItem};
ghost use Rattle.pg_style.specs.Values.{StyleValue};
ghost use Rattle.pg_style.specs.Ranges.{AreClasses, AreInOrder, IsStyle};
ghost use Rattle.pg_list.specs.declared.item.Item.TheVariants.{Insert};
ghost use Rattle.pg_notes.specs.declared.sums.NoteSum.{NoteSum as ANoteSum};
ghost use Rattle.pg_rules.specs.Floats.{gap_stretch, gap_shrink};
ghost use Rattle.pg_rules.specs.Room.{notes, skips_give, are_notes_within_limits};
ghost use Rattle.pg_notes.specs.NotesValue.{note_height as note_height_of, heights as heights_of, note_give as note_give_of, skips as skips_of, smallest_by, is_over_limit as is_over_limit_of, first_over_limit};
ghost use Rattle.pg_notes.specs.AreNotes.{AreNotes, AreNoteSums, first_over};
ghost use Rattle.pg_notes.specs.Step.{no_note, with_insert, with_note};

use pg_list::Item;
use pg_scaled::minus;
use pg_style::{Class, Give, Kind, Style};
use std::marker::Model;

/// The sum of the sizes of a class's inserts in scaled points, and whether there is one.
#[derive(Clone, Copy, PartialEq, Eq)]
pub struct NoteSum {
    pub size: u64,
    pub is_there: bool,
}

/// The sums of the notes of a segment so far, for each class of a style in increasing number.
///
/// Every call with a style wants the style with which all items so far were added.
#[derive(Clone, Copy)]
pub struct NoteSums {
    sums: [NoteSum; 8],
    count: u32,
}

impl Model for NoteSums {
    ghost use Rattle.pg_notes.specs.NotesValue.{NotesValue};

    ghost Value = { NotesValue };

    ghost use Rattle.pg_notes.specs.NotesValue.{IsWellKept};

    ghost view = { λ a. record { sums = a.sums; count = a.count } };

    ghost inverse = { λ v. record { sums = v.sums; count = v.count } };

    ghost invariant = { λ a. IsWellKept a.sums a.count };
}

// The classes of a style, which stand in increasing number.
fn classes_of(style: &Style) -> &[Class]
    ensures classes { result.now ≡ style.now.classes }
    ensures range { AreClasses style.now.classes }
{
    style.classes.as_slice()
}

fn position_of(classes: &[Class], number: u8) -> Option<usize>
    ensures { result ≡ position (λ (class : Class). class.number == number) classes.now }
{
    classes.iter().position(|class| class.number == number)
}

// The sum of the class with this number, where there is one, with an insert of this size.
fn add_insert(sums: &mut [NoteSum], classes: &[Class], number: u8, size: u64)
    requires places { length classes.now ≤ length sums.old }
    requires room { sum_by (λ (sum : ANoteSum). sum.size) sums.old + size < 2 ^ 62 }
    ensures sums { (items : List AnItem) (body : List ℕ) → AreInOrder classes.now →
        AreNoteSums items classes.now sums.old →
        AreNoteSums (items ++ Insert number (pos size) body ∷ []) classes.now sums.new }
    ensures value { sums.new ≡ with_insert classes.now sums.old number size }
    ensures bound { sum_by (λ (sum : ANoteSum). sum.size) sums.new
        ≤ sum_by (λ (sum : ANoteSum). sum.size) sums.old + size }
{
    if let Some(index) = position_of(classes, number) {
        let sum = &mut sums[index];
        sum.size += size;
        sum.is_there = true;
    }
}

// The size of an insert, which is not negative.
fn size_of(size: &i32) -> u64
    requires from { pos 0 ≤ℤ size.now }
    requires to { IsScaled size.now }
    ensures value { pos result ≡ size.now }
    ensures size { result < 2 ^ 30 }
{
    size.unsigned_abs() as u64
}

// The sums with one more item.
fn add_item(sums: &mut [NoteSum], classes: &[Class], item: &Item)
    requires places { length classes.now ≤ length sums.old }
    requires room { sum_by (λ (sum : ANoteSum). sum.size) sums.old + 2 ^ 30 < 2 ^ 62 }
    requires in_range { IsItemInRange item.now }
    ensures sums { (items : List AnItem) → AreInOrder classes.now → AreNoteSums items classes.now sums.old →
        AreNoteSums (items ++ item.now ∷ []) classes.now sums.new }
    ensures value { sums.new ≡ with_note classes.now sums.old item.now }
    ensures bound { sum_by (λ (sum : ANoteSum). sum.size) sums.new
        ≤ sum_by (λ (sum : ANoteSum). sum.size) sums.old + 2 ^ 30 }
{
    if let Item::Insert { class, size, .. } = item {
        add_insert(sums, classes, *class, size_of(size));
    }
}

// What the notes of a class take: nothing where there are none, else its skip and their sizes.
fn note_height(class: &Class, sum: &NoteSum) -> u64
    requires { note_height_of class.now.kind sum.now < 2 ^ 62 }
    ensures { result ≡ note_height_of class.now.kind sum.now }
{
    match &class.kind {
        Kind::Note { skip, .. } => {
            if sum.is_there {
                skip.size.unsigned_abs() as u64 + sum.size
            } else {
                0
            }
        }
        Kind::Float { .. } => 0,
    }
}

fn heights(classes: &[Class], sums: &[NoteSum]) -> u64
    requires { heights_of classes.now sums.now < 2 ^ 62 }
    ensures { result ≡ heights_of classes.now sums.now }
{
    let mut height = 0u64;
    let mut rest = classes;
    let mut left = sums;
    'classes: while let [class, after @ ..] = rest {
        let [sum, behind @ ..] = left else {
            return height;
        };
        height += note_height(class, sum);
        rest = after;
        left = behind;
    }
    height
}

// What the skip of a class gives: nothing where it has no note.
fn note_give(class: &Class, sum: &NoteSum) -> Give
    ensures stretch { result.stretch ≡ note_give_of gap_stretch class.now.kind sum.now }
    ensures shrink { result.shrink ≡ note_give_of gap_shrink class.now.kind sum.now }
    ensures size { (nat_abs result.stretch ≤ 2 ^ 31) × (nat_abs result.shrink ≤ 2 ^ 31) }
{
    match &class.kind {
        Kind::Note { skip, .. } => {
            if !sum.is_there {
                Give::none()
            } else {
                skip.give()
            }
        }
        Kind::Float { .. } => Give::none(),
    }
}

fn gives(classes: &[Class], sums: &[NoteSum]) -> Give
    requires { length classes.now ≤ 8 }
    ensures value { result ≡ skips_of classes.now sums.now }
    ensures size { (nat_abs result.stretch ≤ 2 ^ 34) × (nat_abs result.shrink ≤ 2 ^ 34) }
{
    let mut give = Give::none();
    let mut rest = classes;
    let mut left = sums;
    'classes: while let [class, after @ ..] = rest {
        let [sum, behind @ ..] = left else {
            return give;
        };
        give = give.plus(note_give(class, sum));
        rest = after;
        left = behind;
    }
    give
}

fn is_over_limit(class: &Class, sum: &NoteSum) -> bool
    ensures { result ≡ is_over_limit_of class.now.kind sum.now }
{
    match &class.kind {
        Kind::Note { limit, .. } => sum.size > limit.unsigned_abs() as u64,
        Kind::Float { .. } => false,
    }
}

fn first_over_in(classes: &[Class], sums: &[NoteSum]) -> Option<u8>
    ensures { result ≡ first_over_limit classes.now sums.now }
{
    let mut rest = classes;
    let mut left = sums;
    'classes: while let [class, after @ ..] = rest {
        let [sum, behind @ ..] = left else {
            return None;
        };
        if is_over_limit(class, sum) {
            return Some(class.number);
        }
        rest = after;
        left = behind;
    }
    None
}

impl NoteSums {
    /// The sums of no items, whatever the style.
    pub fn start() -> NoteSums
        ensures notes { (style : StyleValue) → IsStyle style → AreNotes style [] result }
        ensures count { result.count ≡ 0 }
        ensures value { result.sums ≡ replicate 8 no_note }
    {
        NoteSums {
            sums: [NoteSum {
                size: 0,
                is_there: false,
            }; 8],
            count: 0,
        }
    }

    /// Adds the next item. At most 2^20 items are added.
    pub fn add(&mut self, style: &Style, item: &Item)
        requires few { self.old.count < 2 ^ 20 }
        requires in_range { IsItemInRange item.now }
        ensures notes { (items : List AnItem) → AreNotes style.now items self.old →
            AreNotes style.now (items ++ item.now ∷ []) self.new }
        ensures count { self.new.count ≡ self.old.count + 1 }
        ensures value { self.new.sums ≡ with_note style.now.classes self.old.sums item.now }
    {
        add_item(&mut self.sums, classes_of(style), item);
        self.count += 1;
    }

    /// Counts so many more items, none of which is a note.
    pub fn count_others(&mut self, more: u32)
        requires { self.old.count + more ≤ 2 ^ 20 }
        ensures { self.new ≡ record { sums = self.old.sums; count = self.old.count + more } }
    {
        self.count += more;
    }

    /// The sum of each class.
    pub fn as_slice(&self) -> &[NoteSum]
        ensures { result.now ≡ self.now.sums }
    {
        &self.sums
    }

    // The heights of all classes, within the bound that the number of items gives.
    fn taken(&self, style: &Style) -> u64
        ensures value { result ≡ heights_of style.now.classes self.now.sums }
        ensures size { result < 2 ^ 51 }
        ensures range { AreClasses style.now.classes }
    {
        heights(classes_of(style), &self.sums)
    }

    // What the skips of all classes give.
    fn given(&self, style: &Style) -> Give
        ensures value { result ≡ skips_of style.now.classes self.now.sums }
        ensures size { (nat_abs result.stretch ≤ 2 ^ 34) × (nat_abs result.shrink ≤ 2 ^ 34) }
    {
        gives(classes_of(style), &self.sums)
    }

    // The number of the first class above its limit.
    fn first_above(&self, style: &Style) -> Option<u8>
        ensures value { result ≡ first_over_limit style.now.classes self.now.sums }
        ensures range { AreClasses style.now.classes }
    {
        first_over_in(classes_of(style), &self.sums)
    }

    /// What the notes take of a column's room, in scaled points: for each note class with a note its skip and the
    /// sizes of its notes.
    pub fn height(&self, style: &Style) -> i64
        ensures sums { (items : List AnItem) → AreNotes style.now items self.now → result ≡ notes style.now items }
        ensures size { nat_abs result < 2 ^ 51 }
        ensures value { result ≡ pos (heights_of style.now.classes self.now.sums) }
    {
        self.taken(style) as i64
    }

    /// By how much the skips of the notes may be stretched and shrunk: those of each note class with a note.
    pub fn give(&self, style: &Style) -> Give
        ensures value { result ≡ skips_of style.now.classes self.now.sums }
        ensures stretch { (items : List AnItem) → AreNotes style.now items self.now →
            result.stretch ≡ skips_give gap_stretch style.now items }
        ensures shrink { (items : List AnItem) → AreNotes style.now items self.now →
            result.shrink ≡ skips_give gap_shrink style.now items }
        ensures size { (nat_abs result.stretch ≤ 2 ^ 34) × (nat_abs result.shrink ≤ 2 ^ 34) }
    {
        self.given(style)
    }

    /// What the notes take of a column's room where their skips are shrunk.
    pub fn smallest(&self, style: &Style) -> i64
        ensures value { result ≡ smallest_by style.now.classes self.now.sums }
        ensures size { nat_abs result < 2 ^ 52 }
    {
        minus(self.height(style), self.given(style).shrink)
    }

    /// The least number of a note class whose notes together are above its limit. None exactly where no class is.
    pub fn first_over(&self, style: &Style) -> Option<u8>
        ensures first { (items : List AnItem) → AreNotes style.now items self.now →
            result ≡ first_over style.now items }
        ensures none { (items : List AnItem) → AreNotes style.now items self.now →
            is_none result ≡ are_notes_within_limits style.now items }
        ensures value { result ≡ first_over_limit style.now.classes self.now.sums }
    {
        self.first_above(style)
    }
}
