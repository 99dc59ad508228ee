//! Carries that are marks, labels and uses.
ghost use Rattle.std.specs.Prelude.{◌≡◌, option_map, codes, List, ℕ};
ghost use Rattle.std.specs.List.{list_any};
ghost use Rattle.pg_marks.specs.Carries.{before_brace as before_brace_in, between as between_in, first_line as first_line_of, if_name as if_name_is, is_brace, is_name as is_name_of, label_of as label_in, mark_of as mark_in, named as named_in, use_of as use_in};

use pg_list::Item;
use pg_scan::{skip, split_part};

// What stands before a closing brace at the end.
fn before_brace(text: &[u8]) -> Option<&[u8]>
    ensures { option_map (λ b. b.now) result ≡ before_brace_in text.now }
{
    text.strip_suffix(b"}")
}

// What stands between a text in front and a closing brace at the end.
fn between<'a>(front: &[u8], text: &'a [u8]) -> Option<&'a [u8]>
    ensures { option_map (λ b. b.now) result ≡ between_in front.now text.now }
{
    match skip(front, text) {
        Some(rest) => before_brace(rest),
        None => None,
    }
}

fn first_line(body: &[u8]) -> &[u8]
    ensures { result.now ≡ first_line_of body.now }
{
    split_part(b'\n', body).0
}

/// The text of a mark: what stands in the braces of `\mark{..}`, where the first line of a carry's body is that. None
/// exactly where the item is no mark. The text may be empty.
pub fn mark_of(item: &Item) -> Option<&[u8]>
    ensures { option_map (λ b. b.now) result ≡ mark_in item.now }
{
    match item {
        Item::Carry { body } => between(b"\\mark{", first_line(body.as_slice())),
        _ => None,
    }
}

fn has_brace(text: &[u8]) -> bool
    ensures { result ≡ list_any is_brace text.now }
{
    text.iter().any(|byte| *byte == b'}')
}

// Whether a text is a name: not empty, and without a closing brace.
fn is_name(text: &[u8]) -> bool
    ensures { result ≡ is_name_of text.now }
{
    !text.is_empty() && !has_brace(text)
}

// A text, where it is a name.
fn if_name(text: &[u8]) -> Option<&[u8]>
    ensures { option_map (λ b. b.now) result ≡ if_name_is text.now }
{
    if is_name(text) { Some(text) } else { None }
}

// The name of a carry whose body is this front, a name and a closing brace.
fn named<'a>(front: &[u8], item: &'a Item) -> Option<&'a [u8]>
    ensures { option_map (λ b. b.now) result ≡ named_in front.now item.now }
{
    match item {
        Item::Carry { body } => match between(front, body.as_slice()) {
            Some(text) => if_name(text),
            None => None,
        },
        _ => None,
    }
}

/// The name of a label: what stands for NAME in a carry whose body is `\special{ref:label NAME}`. None exactly where
/// the item is no label.
pub fn label_of(item: &Item) -> Option<&[u8]>
    ensures { option_map (λ b. b.now) result ≡ label_in item.now }
{
    named(b"\\special{ref:label ", item)
}

/// The name of a use: what stands for NAME in a carry whose body is `\special{ref:use NAME}`. None exactly where the
/// item is no use.
pub fn use_of(item: &Item) -> Option<&[u8]>
    ensures { option_map (λ b. b.now) result ≡ use_in item.now }
{
    named(b"\\special{ref:use ", item)
}
