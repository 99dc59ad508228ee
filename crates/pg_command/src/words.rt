//! The words of a command.
ghost use Rattle.std.specs.Prelude.{◌≡◌, ◌≤◌, ◌∷◌, [], IfSome, map};
ghost use Rattle.std.specs.Option.{option_map};
ghost use Rattle.std.specs.String.{string_bytes};
ghost use Rattle.pg_outside.specs.Words.{texts_of};
ghost use Rattle.pg_command.specs.Words.{command_in, command_of, job_of, paragraphs_of};
ghost use Rattle.pg_command.specs.Words.{plain_job_of, run_named, edit_named, show_named, make_named, check_named};
ghost use Rattle.pg_command.specs.Words.{lines_named, pages_named, fold_named, heads, compare, two_files};
ghost use Rattle.pg_command.specs.Words.{AreOptions, IsInRange};

use crate::job::{CheckJob, EditJob, FoldJob, Job, LinesJob, PagesJob, RunJob, StyleWord};
use crate::options::{Options, has_folding, has_line_rule, split_options};
use pg_outside::is_file_name;
use pg_scan::whole_word;

// How many paragraphs are made.
fn paragraph_count(word: &str) -> Option<u32>
    ensures value { result ≡ paragraphs_of word.now }
    ensures few { IfSome result (λ count. count ≤ 2000) }
{
    whole_word(0, 2000, word.as_bytes())
}

// A run with these options and names.
fn run_job<'a>(options: &Options, names: &'a [String]) -> Option<Job<'a>>
    requires { AreOptions options.now }
    ensures job { option_map command_in result ≡ run_named options.now (map string_bytes names.now) }
    ensures in_range { IfSome result IsInRange }
{
    match names {
        [galley] => plain_job(options, galley.as_str()),
        [style, galley] => styled_job(options, style.as_str(), galley.as_str()),
        _ => None,
    }
}

// A run with the plain style.
fn plain_job<'a>(options: &Options, galley: &'a str) -> Option<Job<'a>>
    requires { AreOptions options.now }
    ensures job { option_map command_in result ≡ run_named options.now (galley.now ∷ []) }
    ensures in_range { IfSome result IsInRange }
{
    if !is_file_name(galley) {
        return None;
    }
    let height = options.height?;
    Some(Job::Run(RunJob {
        style: StyleWord::Plain(height),
        galley,
        labels: options.labels,
        wrap: options.wrap,
    }))
}

// A run with the style of a file.
fn styled_job<'a>(options: &Options, style: &'a str, galley: &'a str) -> Option<Job<'a>>
    ensures job { option_map command_in result ≡ run_named options.now (style.now ∷ galley.now ∷ []) }
    ensures in_range { IfSome result IsInRange }
{
    if is_file_name(style) && (is_file_name(galley) && !options.height.is_some()) {
        Some(Job::Run(RunJob {
            style: StyleWord::Named(style),
            galley,
            labels: options.labels,
            wrap: options.wrap,
        }))
    } else {
        None
    }
}

// An edit with these options and names.
fn edit_job<'a>(options: &Options, names: &'a [String]) -> Option<Job<'a>>
    ensures job { option_map command_in result ≡ edit_named options.now (map string_bytes names.now) }
    ensures in_range { IfSome result IsInRange }
{
    match names {
        [style, galley, script] => named_edit(
            options,
            style.as_str(),
            galley.as_str(),
            script.as_str(),
        ),
        _ => None,
    }
}

// An edit over the files of these names.
fn named_edit<'a>(
    options: &Options,
    style: &'a str,
    galley: &'a str,
    script: &'a str,
) -> Option<Job<'a>>
    ensures job { option_map command_in result
        ≡ edit_named options.now (style.now ∷ galley.now ∷ script.now ∷ []) }
    ensures in_range { IfSome result IsInRange }
{
    if is_file_name(style)
        && (is_file_name(galley) && (is_file_name(script) && !options.height.is_some()))
    {
        Some(Job::Edit(EditJob {
            style,
            galley,
            script,
            labels: options.labels,
            wrap: options.wrap,
        }))
    } else {
        None
    }
}

// A show with these options and names.
fn show_job<'a>(options: &Options, names: &'a [String]) -> Option<Job<'a>>
    ensures job { option_map command_in result ≡ show_named options.now (map string_bytes names.now) }
    ensures in_range { IfSome result IsInRange }
{
    let [galley] = names else {
        return None;
    };
    let galley = galley.as_str();
    if !is_file_name(galley) || options.height.is_some() || options.labels {
        return None;
    }
    Some(Job::Show {
        galley,
        wrap: options.wrap,
    })
}

// A make with these options and names.
fn make_job<'a>(options: &Options, names: &'a [String]) -> Option<Job<'a>>
    ensures job { option_map command_in result ≡ make_named options.now (map string_bytes names.now) }
    ensures in_range { IfSome result IsInRange }
{
    let [word] = names else {
        return None;
    };
    if options.height.is_some() || options.labels || options.wrap.is_some() {
        return None;
    }
    let count = paragraph_count(word.as_str())?;
    Some(Job::Make { count })
}

// A check with these options and names.
fn check_job<'a>(options: &Options, names: &'a [String]) -> Option<Job<'a>>
    ensures job { option_map command_in result ≡ check_named options.now (map string_bytes names.now) }
    ensures in_range { IfSome result IsInRange }
{
    match names {
        [style, galley, output] => named_check(
            options,
            style.as_str(),
            galley.as_str(),
            output.as_str(),
        ),
        _ => None,
    }
}

// A check of the files of these names.
fn named_check<'a>(
    options: &Options,
    style: &'a str,
    galley: &'a str,
    output: &'a str,
) -> Option<Job<'a>>
    ensures job { option_map command_in result
        ≡ check_named options.now (style.now ∷ galley.now ∷ output.now ∷ []) }
    ensures in_range { IfSome result IsInRange }
{
    if is_file_name(style)
        && (is_file_name(galley)
            && (is_file_name(output) && !(options.height.is_some() || options.labels)))
    {
        Some(Job::Check(CheckJob {
            style,
            galley,
            output,
            wrap: options.wrap,
        }))
    } else {
        None
    }
}

// The style and the galley of a command that tells of pages.
fn page_files<'a>(options: &Options, names: &'a [String]) -> Option<(&'a str, &'a str)>
    ensures { option_map (λ x. (x.0.now, x.1.now)) result ≡ two_files options.now (map string_bytes names.now) }
{
    let [style, galley] = names else {
        return None;
    };
    let style = style.as_str();
    let galley = galley.as_str();
    if is_file_name(style)
        && (is_file_name(galley) && !(options.height.is_some() || options.labels))
    {
        Some((style, galley))
    } else {
        None
    }
}

// The heads of pages, with these options and names.
fn heads_job<'a>(options: &Options, names: &'a [String]) -> Option<Job<'a>>
    ensures job { option_map command_in result ≡ pages_named heads options.now (map string_bytes names.now) }
    ensures in_range { IfSome result IsInRange }
{
    let (style, galley) = page_files(options, names)?;
    Some(Job::Heads(PagesJob {
        style,
        galley,
        wrap: options.wrap,
    }))
}

// First fit beside the best pages, with these options and names.
fn compare_job<'a>(options: &Options, names: &'a [String]) -> Option<Job<'a>>
    ensures job { option_map command_in result ≡ pages_named compare options.now (map string_bytes names.now) }
    ensures in_range { IfSome result IsInRange }
{
    let (style, galley) = page_files(options, names)?;
    Some(Job::Compare(PagesJob {
        style,
        galley,
        wrap: options.wrap,
    }))
}

// Lines with these options and names.
fn lines_job<'a>(options: &Options, names: &'a [String]) -> Option<Job<'a>>
    requires { AreOptions options.now }
    ensures job { option_map command_in result ≡ lines_named options.now (map string_bytes names.now) }
    ensures in_range { IfSome result IsInRange }
{
    let [file] = names else {
        return None;
    };
    let file = file.as_str();
    if !is_file_name(file)
        || options.height.is_some()
        || options.labels
        || options.wrap.is_some()
        || has_folding(options)
    {
        return None;
    }
    let width = options.width?;
    let tolerance = options.tolerance?;
    let around = options.around?;
    Some(Job::Lines(LinesJob {
        width,
        tolerance,
        around,
        file,
    }))
}

// Sheets with these options and names.
fn fold_job<'a>(options: &Options, names: &'a [String]) -> Option<Job<'a>>
    requires { AreOptions options.now }
    ensures job { option_map command_in result ≡ fold_named options.now (map string_bytes names.now) }
    ensures in_range { IfSome result IsInRange }
{
    let (style, galley) = page_files(options, names)?;
    if has_line_rule(options) {
        return None;
    }
    let folds = options.folds?;
    let nest = options.nest?;
    Some(Job::Fold(FoldJob {
        style,
        galley,
        folds,
        nest,
        wrap: options.wrap,
    }))
}

// What a command that breaks no paragraphs and folds no sheets asks for, with these options and names.
fn plain_command<'a>(name: &str, options: &Options, names: &'a [String]) -> Option<Job<'a>>
    requires { AreOptions options.now }
    ensures job { option_map command_in result ≡ plain_job_of name.now options.now (map string_bytes names.now) }
    ensures in_range { IfSome result IsInRange }
{
    match name {
        "run" => run_job(options, names),
        "show" => show_job(options, names),
        "make" => make_job(options, names),
        "check" => check_job(options, names),
        "edit" => edit_job(options, names),
        "heads" => heads_job(options, names),
        "compare" => compare_job(options, names),
        _ => None,
    }
}

// What the command of this name asks for, with these options and names.
fn named_job<'a>(name: &str, options: &Options, names: &'a [String]) -> Option<Job<'a>>
    requires { AreOptions options.now }
    ensures job { option_map command_in result ≡ job_of name.now (options.now, map string_bytes names.now) }
    ensures in_range { IfSome result IsInRange }
{
    match name {
        "lines" => lines_job(options, names),
        "fold" => fold_job(options, names),
        _ => {
            if has_line_rule(options) || has_folding(options) {
                None
            } else {
                plain_command(name, options, names)
            }
        }
    }
}

/// What the words after the program's name ask for, or None where they are no command.
///
/// A command is `run [--labels] [--wrap W] STYLE GALLEY`, `run [--labels] --height H [--wrap W] GALLEY`,
/// `edit [--labels] [--wrap W] STYLE GALLEY SCRIPT`, `check [--wrap W] STYLE GALLEY OUTPUT`, `show [--wrap W] GALLEY`,
/// `make N`, `lines --width L --tolerance T --around K FILE`, `heads [--wrap W] STYLE GALLEY`,
/// `compare [--wrap W] STYLE GALLEY` or `fold --folds F --nest S [--wrap W] STYLE GALLEY`. Options stand between the
/// command and the names, in any order, each at most once, and the value of one as the next word behind it. H and L are
/// wholly a scaled number above 0 and below 16384. W is 1 to 65535, N is 0 to 2000, T is 0 to 10000, K is 0 to 2, F is
/// 1 to 4 and S is 1 to 16, each in 1 to 10 digits. A name is not empty and does not begin with a minus. No memory is
/// taken.
pub fn command(words: &Vec<String>) -> Option<Job<'_>>
    ensures command { option_map command_in result ≡ command_of (texts_of words.now) }
    ensures in_range { IfSome result IsInRange }
{
    let [name, rest @ ..] = words.as_slice() else {
        return None;
    };
    let (options, names) = split_options(rest)?;
    named_job(name.as_str(), &options, names)
}
