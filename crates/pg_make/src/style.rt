//! The style of the generated galleys.
ghost use Rattle.std.specs.Prelude.{◌≡◌, ◌∷◌, [], pos, negsuc};
ghost use Rattle.pg_style.specs.Plain.{no_area};
ghost use Rattle.pg_style.specs.Ranges.{IsClass};
ghost use Rattle.pg_make.specs.Made.{made_style, made_runs, made_classes, made_floats, made_notes};

use pg_style::{
    Area, AreaRule, Class, Classes, ColumnRule, Distance, First, Gap, Kind, Run, Runs, Style,
};
use std::alloc::Global;

// A point in scaled points.
pub const POINT: i32 = 65536;

/// Three runs: of the height itself, and longer or shorter by 12 points for 1000 demerits.
fn make_runs(alloc: Global) -> Runs
    ensures { result ≡ made_runs }
{
    let mut runs = Runs::new(
        alloc,
        Run {
            extra: 0,
            demerits: 0,
        },
    );
    runs.push(Run {
        extra: 12 * POINT,
        demerits: 1000,
    });
    runs.push(Run {
        extra: -12 * POINT,
        demerits: 1000,
    });
    runs
}

fn make_floats(alloc: Global) -> Class
    ensures class { result ≡ made_floats }
    ensures range { IsClass result }
{
    match Distance::new(alloc, &[0, 500, 2000]) {
        Ok(distance) => Class {
            number: 100,
            kind: Kind::Float {
                area: Area::Top,
                distance,
            },
        },
        Err(_) => unreachable!(),
    }
}

fn make_notes() -> Class
    ensures class { result ≡ made_notes }
    ensures range { IsClass result }
{
    Class {
        number: 200,
        kind: Kind::Note {
            skip: Gap::rigid(12 * POINT),
            limit: 200 * POINT,
        },
    }
}

/// Floats of class 100 and notes of class 200.
fn make_classes(alloc: Global) -> Classes
    ensures { result ≡ made_classes }
{
    let mut classes = Classes::new(alloc);
    classes.insert(make_floats(alloc));
    classes.insert(make_notes());
    classes
}

fn no_area() -> AreaRule
    ensures { result ≡ no_area }
{
    AreaRule {
        count: 0,
        sep: Gap::rigid(0),
        gap: Gap::rigid(0),
    }
}

/// The style of the generator: one column of 550 points, spreads of three runs, floats of class 100
/// at the top and on columns of their own, notes of class 200. No memory is taken.
pub fn make_style(alloc: Global) -> Style
    ensures { result ≡ made_style }
{
    Style {
        version: 1,
        columns: 1,
        first: First::Left,
        height: 550 * POINT,
        topskip: 10 * POINT,
        maxdepth: 4 * POINT,
        min_text: 100 * POINT,
        tolerance: 10000,
        line: 10,
        max_looseness: 1,
        runs: make_runs(alloc),
        top: AreaRule {
            count: 2,
            sep: Gap::rigid(12 * POINT),
            gap: Gap::rigid(20 * POINT),
        },
        bottom: no_area(),
        wide: no_area(),
        float_column: ColumnRule {
            count: 2,
            demerits: 5000,
        },
        classes: make_classes(alloc),
        fitness: 0,
        ragged: None,
    }
}
