//! The signs that a log shows behind a font, as print has them.
ghost use Rattle.std.specs.Prelude.{◌≡◌, ◌≤◌, ◌∷◌, []};
ghost use Rattle.std.specs.List.{list_all};
ghost use Rattle.std.specs.Option.{option_map};
ghost use Rattle.pg_drawing.specs.Signs.{byte_sign as byte_sign_so, in_print as in_print_so, is_behind as is_behind_so, is_t1 as is_t1_so, quote_in_print as quote_so, sign_of as sign_so, t1_letter as t1_letter_so, t1_mark as t1_mark_so, wide_sign as wide_sign_so};

use pg_scan::skip;

// The signs of a font of T1 from 128 on: each has two bytes.
const T1_LETTERS: &str =
    "ĂĄĆČĎĚĘĞĹĽŁŃŇŊŐŔŘŚŠŞŤŢŰŮŸŹŽŻĲİđ§ăąćčďěęğĺľłńňŋőŕřśšşťţűůÿźžżĳ¡¿£ÀÁÂÃÄÅÆÇÈÉÊËÌÍÎÏÐÑÒÓÔÕÖŒØÙÚÛÜÝÞSSàáâãäåæçèéêëìíîïðñòóôõöœøùúûüýþß";

// TeX's quotes in print.
#[tactic(auto, unfolding(crate::specs::Signs::quote_in_print))]
fn quote_in_print(made: &[u8]) -> &[u8]
    ensures { result.now ≡ quote_so made.now }
{
    if made == b"`".as_slice() {
        "‘".as_bytes()
    } else if made == b"'".as_slice() {
        "’".as_bytes()
    } else if made == b"``".as_slice() {
        "“".as_bytes()
    } else if made == b"''".as_slice() {
        "”".as_bytes()
    } else if made == b",,".as_slice() {
        "„".as_bytes()
    } else {
        made
    }
}

/// TeX's dashes and quotes in print, other signs as they are.
#[tactic(auto, unfolding(crate::specs::Signs::in_print))]
pub fn in_print(made: &[u8]) -> &[u8]
    ensures { result.now ≡ in_print_so made.now }
{
    if made == b"--".as_slice() {
        "–".as_bytes()
    } else if made == b"---".as_slice() {
        "—".as_bytes()
    } else {
        quote_in_print(made)
    }
}

// Whether a font is one of T1.
fn is_t1(font: &[u8]) -> bool
    ensures { result ≡ is_t1_so font.now }
{
    skip(b"\\T1/", font).is_some()
}

// The letter of T1 of a byte.
fn t1_letter(byte: u8) -> &'static [u8]
    requires { 128 ≤ byte }
    ensures { result.now ≡ t1_letter_so byte }
{
    let first = 2 * usize::from(byte - 128);
    let (_, letters) = T1_LETTERS.as_bytes().split_at(first);
    let (letter, _) = letters.split_at(2);
    letter
}

// A quote or a dash of T1, by its number.
#[tactic(auto, unfolding(crate::specs::Signs::t1_mark))]
fn t1_mark(sign: &[u8]) -> Option<&'static [u8]>
    ensures { option_map (λ mark. mark.now) result ≡ t1_mark_so sign.now }
{
    if sign == b"^^P".as_slice() {
        Some("“".as_bytes())
    } else if sign == b"^^Q".as_slice() {
        Some("”".as_bytes())
    } else if sign == b"^^R".as_slice() {
        Some("„".as_bytes())
    } else if sign == b"^^S".as_slice() {
        Some("«".as_bytes())
    } else if sign == b"^^T".as_slice() {
        Some("»".as_bytes())
    } else if sign == b"^^U".as_slice() {
        Some("–".as_bytes())
    } else if sign == b"^^V".as_slice() {
        Some("—".as_bytes())
    } else {
        None
    }
}

// Whether a byte of UTF-8 stands behind the first of its sign.
fn is_behind(byte: u8) -> bool
    ensures { result ≡ is_behind_so byte }
{
    128 <= byte && byte <= 191
}

// Whether all bytes do.
fn are_behind(bytes: &[u8]) -> bool
    ensures { result ≡ list_all is_behind_so bytes.now }
{
    bytes.iter().all(|b| is_behind(*b))
}

// What one byte behind a font shows, of which this is the text.
fn byte_sign<'a>(font: &[u8], byte: u8, sign: &'a [u8]) -> Option<&'a [u8]>
    requires { sign.now ≡ byte ∷ [] }
    ensures { option_map (λ letter. letter.now) result ≡ byte_sign_so font.now byte }
{
    if 33 <= byte && byte <= 126 {
        Some(sign)
    } else if 128 <= byte && is_t1(font) {
        Some(t1_letter(byte))
    } else {
        None
    }
}

// What a sign of several bytes behind a font shows.
fn wide_sign<'a>(font: &[u8], sign: &'a [u8], is_utf8: bool) -> Option<&'a [u8]>
    ensures { option_map (λ letter. letter.now) result ≡ wide_sign_so font.now sign.now is_utf8 }
{
    if is_utf8 {
        Some(sign)
    } else if is_t1(font) {
        t1_mark(sign)
    } else {
        None
    }
}

/// What a font and one sign show; beyond ASCII a sign is one of UTF-8, or of T1.
pub fn sign_of<'a>(font: &[u8], sign: &'a [u8]) -> Option<&'a [u8]>
    ensures { option_map (λ letter. letter.now) result ≡ sign_so font.now sign.now }
{
    match sign {
        [] => None,
        [byte] => byte_sign(font, *byte, sign),
        [first, behind @ ..] => wide_sign(font, sign, 194 <= *first && are_behind(behind)),
    }
}
