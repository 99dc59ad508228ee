//! The words of the program.
ghost use Rattle.std.specs.Prelude.{◌≡◌, map};
ghost use Rattle.std.specs.Option.{option_map};
ghost use Rattle.std.specs.String.{string_bytes};
ghost use Rattle.pg_outside.specs.Words.{texts_of};
ghost use Rattle.pg_draw.specs.Words.{Draw, asked_in, asked_of, names_in, names_of, no_options, once as once_so, one_option as one_option_so, option_names, output_named, with_option as with_option_so};

use pg_outside::is_file_name;

/// What the options name: a style, another text, and the file that the page goes to.
#[derive(Clone, Copy)]
pub struct Options<'a> {
    pub style: Option<&'a str>,
    pub other: Option<&'a str>,
    pub target: Option<&'a str>,
}

/// The text that is drawn, and what the options name.
#[derive(Clone, Copy)]
pub struct Job<'a> {
    pub output: &'a str,
    pub options: Options<'a>,
}

/// What is asked of the program.
#[derive(Clone, Copy)]
pub enum Request<'a> {
    Help,
    Version,
    Draw(Job<'a>),
}

// The name, where there was none before.
fn once<'a>(before: Option<&'a str>, name: &'a str) -> Option<&'a str>
    ensures { option_map (λ n. n.now) result ≡ once_so (option_map (λ n. n.now) before.entry) name.now }
{
    match before {
        Some(_) => None,
        None => { if is_file_name(name) { Some(name) } else { None } }
    }
}

// One option more.
fn with_option<'a>(it: Options<'a>, option: &str, name: &'a str) -> Option<Options<'a>>
    ensures { option_map option_names result ≡ with_option_so (option_names it.entry) option.now name.now }
{
    if option == "--style" {
        let style = once(it.style, name)?;
        return Some(Options {
            style: Some(style),
            ..it
        });
    }
    if option == "--other" {
        let other = once(it.other, name)?;
        return Some(Options {
            other: Some(other),
            ..it
        });
    }
    if option == "-o" {
        let target = once(it.target, name)?;
        return Some(Options {
            target: Some(target),
            ..it
        });
    }
    None
}

// The option in front of words, where they begin with one, and the words behind it.
#[tactic(auto, unfolding(crate::specs::Words::one_option))]
fn one_option<'a>(it: Options<'a>, words: &'a [String]) -> Option<(Options<'a>, &'a [String])>
    ensures { option_map (λ r. (option_names r.0, map string_bytes r.1.now)) result
        ≡ one_option_so (option_names it.entry) (map string_bytes words.now) }
{
    match words {
        [option, name, after @ ..] => {
            let more = with_option(it, option.as_str(), name.as_str())?;
            Some((more, after))
        }
        _ => Some((it, words)),
    }
}

// A text alone behind the options.
fn output_of<'a>(it: Options<'a>, words: &'a [String]) -> Option<Job<'a>>
    ensures { option_map names_in result ≡ output_named (option_names it.entry) (map string_bytes words.now) }
{
    match words {
        [output] => {
            if is_file_name(output.as_str()) {
                Some(Job {
                    output: output.as_str(),
                    options: it,
                })
            } else {
                None
            }
        }
        _ => None,
    }
}

// No options.
fn none<'a>() -> Options<'a>
    ensures { option_names result ≡ no_options }
{
    Options {
        style: None,
        other: None,
        target: None,
    }
}

// Options in any order, of which there are three, and a text.
#[tactic(auto, unfolding(crate::specs::Words::names_of))]
fn read_job<'a>(words: &'a [String]) -> Option<Job<'a>>
    ensures { option_map names_in result ≡ names_of (map string_bytes words.now) }
{
    let (first, words) = one_option(none(), words)?;
    let (second, words) = one_option(first, words)?;
    let (third, words) = one_option(second, words)?;
    output_of(third, words)
}

// A job, asked for.
fn read_drawing_request<'a>(words: &'a [String]) -> Option<Request<'a>>
    ensures { option_map asked_in result ≡ option_map Draw (names_of (map string_bytes words.now)) }
{
    let job = read_job(words)?;
    Some(Request::Draw(job))
}

/// What the words after the program's name ask for: `--help`, `--version`, or `OUTPUT` behind options, each of which
/// stands once at most: `--style STYLE`, `--other OUTPUT`, `-o FILE`. A name is not empty and does not begin with a minus.
/// None comes where they are none of these. No memory is taken.
pub fn read_request(words: &Vec<String>) -> Option<Request<'_>>
    ensures { option_map asked_in result ≡ asked_of (texts_of words.now) }
{
    let words = words.as_slice();
    match words {
        [word] => {
            if word.as_str() == "--help" {
                Some(Request::Help)
            } else if word.as_str() == "--version" {
                Some(Request::Version)
            } else {
                read_drawing_request(words)
            }
        }
        _ => read_drawing_request(words),
    }
}
