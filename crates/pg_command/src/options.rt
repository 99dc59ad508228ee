//! The options between a command and its names.
ghost use Rattle.std.specs.Prelude.{◌≡◌, ◌≤◌, IfSome, map};
ghost use Rattle.std.specs.Option.{option_map};
ghost use Rattle.std.specs.String.{string_bytes};
ghost use Rattle.pg_command.specs.Words.{height_of, wrap_of, tolerance_of, around_of, folds_of, nest_of};
ghost use Rattle.pg_command.specs.Words.{is_labels as is_labels_word, no_options, option_named, options_in};
ghost use Rattle.pg_command.specs.Words.{with_labels as labels_too, with_option as one_more};
ghost use Rattle.pg_command.specs.Words.{has_line_rule as tells_lines, has_folding as tells_folding};
ghost use Rattle.pg_command.specs.Words.{AreOptions, IsFolds, IsHeight, IsNest};
ghost use Rattle.pg_command.specs.declared.options.OptionName.TheVariants as option;

use pg_scaled::{Front, read_scaled};
use pg_scan::whole_word;

/// The name of an option that has a value.
#[derive(Clone, Copy)]
pub enum OptionName {
    Height,
    Wrap,
    Width,
    Tolerance,
    Around,
    Folds,
    Nest,
}

/// What the options between a command and its names say.
#[derive(Clone, Copy)]
pub struct Options {
    pub height: Option<i32>,
    pub labels: bool,
    pub wrap: Option<u32>,
    pub width: Option<i32>,
    pub tolerance: Option<u16>,
    pub around: Option<u8>,
    pub folds: Option<u8>,
    pub nest: Option<u8>,
}

// A whole scaled number above 0.
fn height(word: &str) -> Option<i32>
    ensures value { result ≡ height_of word.now }
    ensures in_range { IfSome result IsHeight }
{
    match read_scaled(word.as_bytes()) {
        Front::Value { value, len } if len == word.len() && value > 0 => Some(value),
        _ => None,
    }
}

// A width at which lines are joined.
fn wrap_width(word: &str) -> Option<u32>
    ensures { result ≡ wrap_of word.now }
{
    whole_word(1, 65535, word.as_bytes())
}

// How bad a line may be.
fn line_tolerance(word: &str) -> Option<u16>
    ensures value { result ≡ tolerance_of word.now }
    ensures in_range { IfSome result (λ tolerance. tolerance ≤ 10000) }
{
    let tolerance = whole_word(0, 10000, word.as_bytes())?;
    Some(tolerance as u16)
}

// How many lines more and less than the best are wanted.
fn lines_around(word: &str) -> Option<u8>
    ensures value { result ≡ around_of word.now }
    ensures in_range { IfSome result (λ around. around ≤ 2) }
{
    let around = whole_word(0, 2, word.as_bytes())?;
    Some(around as u8)
}

// How often a sheet is folded.
fn fold_count(word: &str) -> Option<u8>
    ensures value { result ≡ folds_of word.now }
    ensures in_range { IfSome result IsFolds }
{
    let folds = whole_word(1, 4, word.as_bytes())?;
    Some(folds as u8)
}

// How many sheets are put into each other.
fn nest_count(word: &str) -> Option<u8>
    ensures value { result ≡ nest_of word.now }
    ensures in_range { IfSome result IsNest }
{
    let nest = whole_word(1, 16, word.as_bytes())?;
    Some(nest as u8)
}

fn is_labels(word: &str) -> bool
    ensures { result ≡ is_labels_word word.now }
{
    word == "--labels"
}

// The option of this name that has a value.
fn option_name(word: &str) -> Option<OptionName>
    ensures { result ≡ option_named word.now }
{
    match word {
        "--height" => Some(OptionName::Height),
        "--wrap" => Some(OptionName::Wrap),
        "--width" => Some(OptionName::Width),
        "--tolerance" => Some(OptionName::Tolerance),
        "--around" => Some(OptionName::Around),
        "--folds" => Some(OptionName::Folds),
        "--nest" => Some(OptionName::Nest),
        _ => None,
    }
}

/// Whether an option tells how paragraphs are broken.
pub fn has_line_rule(options: &Options) -> bool
    ensures { result ≡ tells_lines options.now }
{
    options.width.is_some() || options.tolerance.is_some() || options.around.is_some()
}

/// Whether an option tells how sheets are folded.
pub fn has_folding(options: &Options) -> bool
    ensures { result ≡ tells_folding options.now }
{
    options.folds.is_some() || options.nest.is_some()
}

// The options with that for labels, which may not stand among them.
fn with_labels(options: &Options) -> Option<Options>
    requires { AreOptions options.now }
    ensures value { result ≡ labels_too options.now }
    ensures in_range { IfSome result AreOptions }
{
    if options.labels {
        return None;
    }
    Some(Options {
        labels: true,
        ..*options
    })
}

// The options with that for a height, which may not stand among them.
fn with_height(options: &Options, value: &str) -> Option<Options>
    requires { AreOptions options.now }
    ensures value { result ≡ one_more options.now option.Height value.now }
    ensures in_range { IfSome result AreOptions }
{
    if options.height.is_some() {
        return None;
    }
    let height = height(value)?;
    Some(Options {
        height: Some(height),
        ..*options
    })
}

// The options with that for joined lines, which may not stand among them.
fn with_wrap(options: &Options, value: &str) -> Option<Options>
    requires { AreOptions options.now }
    ensures value { result ≡ one_more options.now option.Wrap value.now }
    ensures in_range { IfSome result AreOptions }
{
    if options.wrap.is_some() {
        return None;
    }
    let wrap = wrap_width(value)?;
    Some(Options {
        wrap: Some(wrap),
        ..*options
    })
}

// The options with that for the width of lines, which may not stand among them.
fn with_width(options: &Options, value: &str) -> Option<Options>
    requires { AreOptions options.now }
    ensures value { result ≡ one_more options.now option.Width value.now }
    ensures in_range { IfSome result AreOptions }
{
    if options.width.is_some() {
        return None;
    }
    let width = height(value)?;
    Some(Options {
        width: Some(width),
        ..*options
    })
}

// The options with that for bad lines, which may not stand among them.
fn with_tolerance(options: &Options, value: &str) -> Option<Options>
    requires { AreOptions options.now }
    ensures value { result ≡ one_more options.now option.Tolerance value.now }
    ensures in_range { IfSome result AreOptions }
{
    if options.tolerance.is_some() {
        return None;
    }
    let tolerance = line_tolerance(value)?;
    Some(Options {
        tolerance: Some(tolerance),
        ..*options
    })
}

// The options with that for more and fewer lines, which may not stand among them.
fn with_around(options: &Options, value: &str) -> Option<Options>
    requires { AreOptions options.now }
    ensures value { result ≡ one_more options.now option.Around value.now }
    ensures in_range { IfSome result AreOptions }
{
    if options.around.is_some() {
        return None;
    }
    let around = lines_around(value)?;
    Some(Options {
        around: Some(around),
        ..*options
    })
}

// The options with that for folds, which may not stand among them.
fn with_folds(options: &Options, value: &str) -> Option<Options>
    requires { AreOptions options.now }
    ensures value { result ≡ one_more options.now option.Folds value.now }
    ensures in_range { IfSome result AreOptions }
{
    if options.folds.is_some() {
        return None;
    }
    let folds = fold_count(value)?;
    Some(Options {
        folds: Some(folds),
        ..*options
    })
}

// The options with that for sheets in each other, which may not stand among them.
fn with_nest(options: &Options, value: &str) -> Option<Options>
    requires { AreOptions options.now }
    ensures value { result ≡ one_more options.now option.Nest value.now }
    ensures in_range { IfSome result AreOptions }
{
    if options.nest.is_some() {
        return None;
    }
    let nest = nest_count(value)?;
    Some(Options {
        nest: Some(nest),
        ..*options
    })
}

// The options with one more that has a value, which may not stand among them.
fn with_option(options: &Options, name: OptionName, value: &str) -> Option<Options>
    requires { AreOptions options.now }
    ensures value { result ≡ one_more options.now name value.now }
    ensures in_range { IfSome result AreOptions }
{
    match name {
        OptionName::Height => with_height(options, value),
        OptionName::Wrap => with_wrap(options, value),
        OptionName::Width => with_width(options, value),
        OptionName::Tolerance => with_tolerance(options, value),
        OptionName::Around => with_around(options, value),
        OptionName::Folds => with_folds(options, value),
        OptionName::Nest => with_nest(options, value),
    }
}

/// The options in front, and the names behind them.
pub fn split_options(words: &[String]) -> Option<(Options, &[String])>
    ensures value { option_map (λ x. (x.0, map string_bytes x.1.now)) result
        ≡ options_in no_options (map string_bytes words.now) }
    ensures in_range { IfSome result (λ x. AreOptions x.0) }
{
    let mut options = Options {
        height: None,
        labels: false,
        wrap: None,
        width: None,
        tolerance: None,
        around: None,
        folds: None,
        nest: None,
    };
    let mut rest = words;
    'options: while let [word, value, after @ ..] = rest {
        if is_labels(word.as_str()) {
            options = with_labels(&options)?;
            rest = &rest[1..];
        } else if let Some(name) = option_name(word.as_str()) {
            options = with_option(&options, name, value.as_str())?;
            rest = after;
        } else {
            return Some((options, rest));
        }
    }
    Some((options, rest))
}
