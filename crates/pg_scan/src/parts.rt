//! Parts of a text.
ghost use Rattle.std.specs.Prelude.{◌≡◌, ◌<◌, length, [], ◌∷◌, IfSome, MatchOption, None, true};
ghost use Rattle.std.specs.List.{prefix_len};
ghost use Rattle.std.specs.Option.{option_map};
ghost use Rattle.pg_scan.specs.Parts.{after, past, named as named_said, begins_with_letter, parts_of, differs_from};

/// What stands behind a fixed text, where the bytes begin with it.
#[tactic(auto, unfolding(crate::specs::Parts::after))]
pub fn skip<'a>(text: &[u8], bytes: &'a [u8]) -> Option<&'a [u8]>
    ensures { option_map (λ b. b.now) result ≡ after text.now bytes.now }
{
    bytes.strip_prefix(text)
}

/// What stands behind a text that may be missing.
#[tactic(auto, unfolding(crate::specs::Parts::past))]
pub fn skip_if<'a>(text: &[u8], bytes: &'a [u8]) -> &'a [u8]
    ensures { result.now ≡ past text.now bytes.now }
{
    match skip(text, bytes) {
        Some(rest) => rest,
        None => bytes,
    }
}

/// An ASCII letter stands first.
pub fn letter_first(bytes: &[u8]) -> bool
    ensures { result ≡ begins_with_letter bytes.now }
{
    match bytes {
        [c, ..] => c.is_ascii_alphabetic(),
        [] => false,
    }
}

// Both have a second byte, and these differ, as those of most names do.
fn differ_early(name: &[u8], bytes: &[u8]) -> bool
    ensures { result ≡ true → after name.now bytes.now ≡ None }
{
    if name.len() < 2 || bytes.len() < 2 {
        return false;
    }
    bytes[1] != name[1]
}

/// What stands behind a name that no letter follows.
#[tactic(auto, unfolding(crate::specs::Parts::named))]
pub fn named<'a>(name: &[u8], bytes: &'a [u8]) -> Option<&'a [u8]>
    ensures { option_map (λ b. b.now) result ≡ named_said name.now bytes.now }
{
    if differ_early(name, bytes) {
        return None;
    }
    match skip(name, bytes) {
        Some(rest) => { if letter_first(rest) { None } else { Some(rest) } }
        None => None,
    }
}

// How many bytes stand before the first separator.
fn part_len(separator: u8, text: &[u8]) -> usize
    ensures { result ≡ prefix_len (differs_from separator) text.now }
{
    text.iter().take_while(|b| **b != separator).count()
}

/// The first part of a text that is cut at each separator, and what follows the first separator, if there is one.
pub fn split_part(separator: u8, text: &[u8]) -> (&[u8], Option<&[u8]>)
    ensures parts { MatchOption result.1 (parts_of separator text.now ≡ result.0.now ∷ [])
        (λ rest. parts_of separator text.now ≡ result.0.now ∷ parts_of separator rest.now) }
    ensures shorter { IfSome result.1 (λ rest. length rest.now < length text.now) }
{
    let len = part_len(separator, text);
    if len >= text.len() {
        return (text, None);
    }
    (&text[..len], Some(&text[len + 1..]))
}
