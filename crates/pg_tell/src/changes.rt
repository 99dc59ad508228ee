//! Changes of a style that help.
ghost use Rattle.std.specs.Prelude.{◌≡◌, ◌++◌, true, OnOk};
ghost use Rattle.pg_tell.specs.Lines.{change_end, change_head, change_key, change_middle, change_text, change_value};
ghost use Rattle.pg_tell.specs.Lines.{changes_end, changes_from, changes_head, changes_text, distance_name};
ghost use Rattle.pg_tell.specs.Lines.{help_text, pair_head, pair_lines, pair_text, some_pair};
ghost use Rattle.pg_tell.specs.Lines.{is_length as is_length_of, limit_name, number_name, value_text};

use pg_changes::{Change, Helping, Number, Pair};
use pg_pieces::{Form, Piece, print};
use std::alloc::AllocError;

// The key of the limit of a class.
fn print_limit_name(class: u8, out: &mut Vec<u8>) -> Result<(), AllocError>
    ensures { OnOk result (out.new.items ≡ out.old.items ++ limit_name class) }
{
    print(
        Form::Plain,
        out,
        &[
            Piece::Mark("limit of class "),
            Piece::Count(u64::from(class)),
        ],
    )
}

// The key of the entries of a class.
fn print_distance_name(class: u8, out: &mut Vec<u8>) -> Result<(), AllocError>
    ensures { OnOk result (out.new.items ≡ out.old.items ++ distance_name class) }
{
    print(
        Form::Plain,
        out,
        &[
            Piece::Mark("distance entries of class "),
            Piece::Count(u64::from(class)),
        ],
    )
}

// The key of a number.
fn print_name(number: Number, out: &mut Vec<u8>) -> Result<(), AllocError>
    ensures { OnOk result (out.new.items ≡ out.old.items ++ number_name number) }
{
    match number {
        Number::Tolerance => out.extend_from_slice(b"tolerance"),
        Number::Looseness => out.extend_from_slice(b"max_looseness"),
        Number::LeastText => out.extend_from_slice(b"min_text"),
        Number::Height => out.extend_from_slice(b"height"),
        Number::TopCount => out.extend_from_slice(b"top.count"),
        Number::BottomCount => out.extend_from_slice(b"bottom.count"),
        Number::WideCount => out.extend_from_slice(b"wide.count"),
        Number::ColumnCount => out.extend_from_slice(b"float_column.count"),
        Number::Limit { class, .. } => print_limit_name(class, out),
        Number::Distance { class, .. } => print_distance_name(class, out),
    }
}

// Whether a number is a length.
fn is_length(number: Number) -> bool
    ensures { result ≡ is_length_of number }
{
    match number {
        Number::LeastText => true,
        Number::Height => true,
        Number::Limit { .. } => true,
        _ => false,
    }
}

// A value as a style has it.
fn print_value(is_length: bool, value: u32, out: &mut Vec<u8>) -> Result<(), AllocError>
    ensures { OnOk result (out.new.items ≡ out.old.items ++ value_text is_length value) }
{
    if is_length {
        print(
            Form::Plain,
            out,
            &[
                Piece::Mark("\""),
                Piece::Length(i64::from(value)),
                Piece::Mark("\""),
            ],
        )
    } else {
        print(Form::Plain, out, &[Piece::Count(u64::from(value))])
    }
}

// What stands before the key of a change.
fn print_change_head(form: Form, is_first: bool, out: &mut Vec<u8>) -> Result<(), AllocError>
    ensures { OnOk result (out.new.items ≡ out.old.items ++ change_head form is_first) }
{
    match form {
        Form::Plain => out.extend_from_slice(b"  "),
        Form::Json => {
            if is_first {
                out.extend_from_slice(b"{\"key\":\"")
            } else {
                out.extend_from_slice(b",{\"key\":\"")
            }
        }
    }
}

// What stands before its value.
fn print_change_middle(form: Form, out: &mut Vec<u8>) -> Result<(), AllocError>
    ensures { OnOk result (out.new.items ≡ out.old.items ++ change_middle form) }
{
    match form {
        Form::Plain => out.extend_from_slice(b" = "),
        Form::Json => out.extend_from_slice(b"\",\"value\":"),
    }
}

// Whether it is the least.
fn print_change_end(form: Form, is_least: bool, out: &mut Vec<u8>) -> Result<(), AllocError>
    ensures { OnOk result (out.new.items ≡ out.old.items ++ change_end form is_least) }
{
    match form {
        Form::Plain => {
            if is_least {
                out.extend_from_slice(b", the least change\n")
            } else {
                out.extend_from_slice(b", tried\n")
            }
        }
        Form::Json => {
            if is_least {
                out.extend_from_slice(b",\"least\":true}")
            } else {
                out.extend_from_slice(b",\"least\":false}")
            }
        }
    }
}

// The key of a change.
#[tactic(auto, unfolding(crate::specs::Lines::change_key))]
fn print_key(
    form: Form,
    is_first: bool,
    number: Number,
    out: &mut Vec<u8>,
) -> Result<(), AllocError>
    ensures { OnOk result (out.new.items ≡ out.old.items ++ change_key form is_first number) }
{
    print_change_head(form, is_first, out)?;
    print_name(number, out)
}

// Its value.
#[tactic(auto, unfolding(crate::specs::Lines::change_value))]
fn print_change_value(form: Form, change: &Change, out: &mut Vec<u8>) -> Result<(), AllocError>
    ensures { OnOk result (out.new.items ≡ out.old.items ++ change_value form change.now) }
{
    print_change_middle(form, out)?;
    print_value(is_length(change.number), change.value, out)?;
    print_change_end(form, change.is_least, out)
}

// A change.
fn print_change(
    form: Form,
    is_first: bool,
    change: &Change,
    out: &mut Vec<u8>,
) -> Result<(), AllocError>
    ensures { OnOk result (out.new.items ≡ out.old.items ++ change_text form is_first change.now) }
{
    print_key(form, is_first, change.number, out)?;
    print_change_value(form, change, out)
}

// Each change.
fn print_each(form: Form, changes: &[Change], out: &mut Vec<u8>) -> Result<(), AllocError>
    ensures { OnOk result (out.new.items ≡ out.old.items ++ changes_from form true changes.now) }
{
    let mut rest = changes;
    let mut is_first = true;
    'changes: while let [change, after @ ..] = rest {
        print_change(form, is_first, change, out)?;
        rest = after;
        is_first = false;
    }
    Ok(())
}

// What stands before the changes.
fn print_changes_head(form: Form, changes: &[Change], out: &mut Vec<u8>) -> Result<(), AllocError>
    ensures { OnOk result (out.new.items ≡ out.old.items ++ changes_head form changes.now) }
{
    match form {
        Form::Plain => match changes {
            [] => out.extend_from_slice(
                b"No number of the style that was tried helps by itself.\n",
            ),
            [_, ..] => out.extend_from_slice(b"What would help, all else as it is:\n"),
        },
        Form::Json => out.extend_from_slice(b",\"changes\":["),
    }
}

// What stands behind them.
fn print_changes_end(form: Form, out: &mut Vec<u8>) -> Result<(), AllocError>
    ensures { OnOk result (out.new.items ≡ out.old.items ++ changes_end form) }
{
    match form {
        Form::Plain => Ok(()),
        Form::Json => out.extend_from_slice(b"]"),
    }
}

// The changes of one number that help.
#[tactic(auto, unfolding(crate::specs::Lines::changes_text))]
fn print_changes(form: Form, changes: &[Change], out: &mut Vec<u8>) -> Result<(), AllocError>
    ensures { OnOk result (out.new.items ≡ out.old.items ++ changes_text form changes.now) }
{
    print_changes_head(form, changes, out)?;
    print_each(form, changes, out)?;
    print_changes_end(form, out)
}

// What stands before two changes.
fn print_pair_head(form: Form, out: &mut Vec<u8>) -> Result<(), AllocError>
    ensures { OnOk result (out.new.items ≡ out.old.items ++ pair_head form) }
{
    match form {
        Form::Plain => out.extend_from_slice(b"These would help together:\n"),
        Form::Json => out.extend_from_slice(b",\"together\":["),
    }
}

// Two changes.
#[tactic(auto, unfolding(crate::specs::Lines::pair_lines))]
fn print_pair_lines(form: Form, pair: &Pair, out: &mut Vec<u8>) -> Result<(), AllocError>
    ensures { OnOk result (out.new.items ≡ out.old.items ++ pair_lines form pair.now) }
{
    print_pair_head(form, out)?;
    print_change(form, true, &pair.one, out)?;
    print_change(form, false, &pair.other, out)
}

// Two changes, with what stands behind them.
fn print_some_pair(form: Form, pair: &Pair, out: &mut Vec<u8>) -> Result<(), AllocError>
    ensures { OnOk result (out.new.items ≡ out.old.items ++ some_pair form pair.now) }
{
    print_pair_lines(form, pair, out)?;
    print_changes_end(form, out)
}

// Two changes that help together, if there are two.
#[tactic(auto, unfolding(crate::specs::Lines::pair_text))]
fn print_pair(form: Form, pair: &Option<Pair>, out: &mut Vec<u8>) -> Result<(), AllocError>
    ensures { OnOk result (out.new.items ≡ out.old.items ++ pair_text form pair.now) }
{
    match pair {
        None => Ok(()),
        Some(pair) => print_some_pair(form, pair, out),
    }
}

/// What would help.
#[tactic(auto, unfolding(crate::specs::Lines::help_text))]
pub fn print_help(form: Form, helping: &Helping, out: &mut Vec<u8>) -> Result<(), AllocError>
    ensures { OnOk result (out.new.items ≡ out.old.items ++ help_text form helping.now) }
{
    print_changes(form, &helping.changes, out)?;
    print_pair(form, &helping.together, out)
}
