//! The words of the program.
ghost use Rattle.std.specs.Prelude.{◌≡◌, IfSome, map};
ghost use Rattle.std.specs.Option.{option_map};
ghost use Rattle.std.specs.String.{string_bytes};
ghost use Rattle.pg_outside.specs.Words.{texts_of};
ghost use Rattle.pg_command.specs.Words.{IsHeight, height_of, wrap_of};
ghost use Rattle.pg_tell.specs.Words.{IsInRange, both_pages, command_in, command_of, files_of, plain_pages};
ghost use Rattle.pg_tell.specs.Words.{styled_pages, tall_pages, word_alone, wrap_in, wrapped_pages};

use pg_command::StyleWord;
use pg_outside::is_file_name;
use pg_pieces::Form;
use pg_scaled::{Front, read_scaled};
use pg_scan::whole_word;

/// What the words ask for.
#[derive(Clone, Copy)]
pub enum Job<'a> {
    /// To tell how the program is used.
    Help,
    /// To tell its version.
    Version,
    /// To tell all faults that `pg` tells by a number.
    Faults,
    /// To tell of the pages of a galley under a style, where lines are joined at this width.
    Tell {
        style: StyleWord<'a>,
        galley: &'a str,
        wrap: Option<u32>,
        form: Form,
    },
}

// A whole scaled number above 0.
fn height(word: &str) -> Option<i32>
    ensures value { result ≡ height_of word.now }
    ensures in_range { IfSome result IsHeight }
{
    match read_scaled(word.as_bytes()) {
        Front::Value { value, len } if len == word.len() && value > 0 => Some(value),
        _ => None,
    }
}

// A width at which lines are joined.
fn wrap_width(word: &str) -> Option<u32>
    ensures { result ≡ wrap_of word.now }
{
    whole_word(1, 65535, word.as_bytes())
}

// The pages of a galley under the style of a file.
fn styled<'a>(form: Form, wrap: Option<u32>, style: &'a str, galley: &'a str) -> Option<Job<'a>>
    ensures job { option_map command_in result ≡ styled_pages form wrap style.now galley.now }
    ensures in_range { IfSome result IsInRange }
{
    if is_file_name(style) && is_file_name(galley) {
        Some(Job::Tell {
            style: StyleWord::Named(style),
            galley,
            wrap,
            form,
        })
    } else {
        None
    }
}

// The pages of a galley under the plain style of a height.
fn plain<'a>(form: Form, wrap: Option<u32>, word: &str, galley: &'a str) -> Option<Job<'a>>
    ensures job { option_map command_in result ≡ plain_pages form wrap word.now galley.now }
    ensures in_range { IfSome result IsInRange }
{
    if !is_file_name(galley) {
        return None;
    }
    let height = height(word)?;
    Some(Job::Tell {
        style: StyleWord::Plain(height),
        galley,
        wrap,
        form,
    })
}

// The width behind its option.
fn wrap_option(option: &str, value: &str) -> Option<u32>
    ensures { result ≡ wrap_in option.now value.now }
{
    if option == "--wrap" {
        wrap_width(value)
    } else {
        None
    }
}

// The pages of a galley whose lines are joined.
fn wrapped<'a>(
    form: Form,
    option: &str,
    value: &str,
    style: &'a str,
    galley: &'a str,
) -> Option<Job<'a>>
    ensures job { option_map command_in result ≡ wrapped_pages form option.now value.now style.now galley.now }
    ensures in_range { IfSome result IsInRange }
{
    let wrap = wrap_option(option, value)?;
    styled(form, Some(wrap), style, galley)
}

// The pages of a galley under the height behind its option.
fn tall<'a>(
    form: Form,
    wrap: Option<u32>,
    option: &str,
    value: &str,
    galley: &'a str,
) -> Option<Job<'a>>
    ensures job { option_map command_in result ≡ tall_pages form wrap option.now value.now galley.now }
    ensures in_range { IfSome result IsInRange }
{
    if option == "--height" {
        plain(form, wrap, value, galley)
    } else {
        None
    }
}

// The pages of a galley behind both options.
fn both<'a>(
    form: Form,
    one: &str,
    two: &str,
    three: &str,
    four: &str,
    galley: &'a str,
) -> Option<Job<'a>>
    ensures job { option_map command_in result
        ≡ both_pages form one.now two.now three.now four.now galley.now }
    ensures in_range { IfSome result IsInRange }
{
    if one == "--wrap" {
        let wrap = wrap_width(two)?;
        tall(form, Some(wrap), three, four, galley)
    } else {
        let wrap = wrap_option(three, four)?;
        tall(form, Some(wrap), one, two, galley)
    }
}

// The pages of a galley, by the words for it.
fn files<'a>(form: Form, words: &'a [String]) -> Option<Job<'a>>
    ensures job { option_map command_in result ≡ files_of form (map string_bytes words.now) }
    ensures in_range { IfSome result IsInRange }
{
    match words {
        [style, galley] => styled(form, None, style.as_str(), galley.as_str()),
        [option, value, galley] => {
            tall(form, None, option.as_str(), value.as_str(), galley.as_str())
        }
        [option, value, style, galley] => wrapped(
            form,
            option.as_str(),
            value.as_str(),
            style.as_str(),
            galley.as_str(),
        ),
        [one, two, three, four, galley] => both(
            form,
            one.as_str(),
            two.as_str(),
            three.as_str(),
            four.as_str(),
            galley.as_str(),
        ),
        [] => None,
        [_] => None,
        [_, _, _, _, _, _, ..] => None,
    }
}

// A word that stands alone.
fn alone<'a>(word: &str) -> Option<Job<'a>>
    ensures job { option_map command_in result ≡ word_alone word.now }
    ensures in_range { IfSome result IsInRange }
{
    if word == "--help" {
        Some(Job::Help)
    } else if word == "--version" {
        Some(Job::Version)
    } else if word == "--faults" {
        Some(Job::Faults)
    } else {
        None
    }
}

/// What the words after the program's name ask for: `--help`, `--version` or `--faults` alone; or `[--wrap N] STYLE
/// GALLEY` or `--height H [--wrap N] GALLEY`, with `--json` in front or without. A name is not empty and does not begin
/// with a minus. None comes where they are none of these. No memory is taken.
pub fn read_job(words: &Vec<String>) -> Option<Job<'_>>
    ensures job { option_map command_in result ≡ command_of (texts_of words.now) }
    ensures in_range { IfSome result IsInRange }
{
    match words.as_slice() {
        [] => None,
        [word] => alone(word.as_str()),
        [word, rest @ ..] => {
            if word.as_str() == "--json" {
                files(Form::Json, rest)
            } else {
                files(Form::Plain, words.as_slice())
            }
        }
    }
}
