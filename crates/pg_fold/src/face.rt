//! Where the face of a cell comes to lie.
ghost use Rattle.std.specs.Prelude.{◌≡◌, ◌≤◌, ◌+◌, ◌-◌, ◌^◌, ◌*◌, ◌<◌};
ghost use Rattle.pg_fold.specs.Imposed.{across, face_after, face_of, first_place, sheet_place, upwards};
ghost use Rattle.pg_fold.specs.Folding.{column_count, row_count};

/// A side of a sheet.
#[derive(Clone, Copy)]
pub enum Side {
    Front,
    Back,
}

/// A face in a grid of piles: its pile, its place there from the top, and how many rows, columns and
/// faces there are.
#[derive(Clone, Copy)]
pub struct Face {
    pub row: u32,
    pub column: u32,
    pub place: u32,
    pub rows: u32,
    pub columns: u32,
    pub height: u32,
}

// The face where the right half is laid over the left.
fn fold_across(face: &Face) -> Face
    requires height { face.now.height ≤ 32 }
    requires place { face.now.place ≤ face.now.height }
    ensures { result ≡ across face.now }
{
    if face.column < face.columns / 2 {
        Face {
            row: face.row,
            column: face.column,
            place: face.height + face.place,
            rows: face.rows,
            columns: face.columns / 2,
            height: face.height * 2,
        }
    } else {
        Face {
            row: face.row,
            column: face.columns.saturating_sub(1).saturating_sub(face.column),
            place: face.height.saturating_sub(1).saturating_sub(face.place),
            rows: face.rows,
            columns: face.columns / 2,
            height: face.height * 2,
        }
    }
}

// The face where the lower half is laid over the upper.
fn fold_upwards(face: &Face) -> Face
    requires height { face.now.height ≤ 32 }
    requires place { face.now.place ≤ face.now.height }
    ensures { result ≡ upwards face.now }
{
    if face.row < face.rows / 2 {
        Face {
            row: face.row,
            column: face.column,
            place: face.height + face.place,
            rows: face.rows / 2,
            columns: face.columns,
            height: face.height * 2,
        }
    } else {
        Face {
            row: face.rows.saturating_sub(1).saturating_sub(face.row),
            column: face.column,
            place: face.height.saturating_sub(1).saturating_sub(face.place),
            rows: face.rows / 2,
            columns: face.columns,
            height: face.height * 2,
        }
    }
}

// The front lies on the back.
fn first_place_of(side: Side) -> u32
    ensures { result ≡ first_place side }
{
    match side {
        Side::Front => 0,
        Side::Back => 1,
    }
}

// The face of a cell before the first fold.
fn first_face(folds: u32, side: Side, cell: u32) -> Face
    requires { folds ≤ 4 }
    ensures { result ≡ face_of folds side cell }
{
    let columns = 2u32.pow((folds + 1) / 2);
    let rows = 2u32.pow(folds / 2);
    Face {
        row: cell / columns,
        column: cell % columns,
        place: first_place_of(side),
        rows,
        columns,
        height: 2,
    }
}

/// The place of a cell's face in the reading of its sheet.
pub fn place_of(folds: u32, side: Side, cell: u32) -> u32
    requires { folds ≤ 4 }
    ensures place { result ≡ sheet_place folds side cell }
    ensures within { result < 2 ^ (folds + 1) }
{
    let mut face = first_face(folds, side, cell);
    for n in 0..folds {
        face = if (n + 1) % 2 == 1 {
            fold_across(&face)
        } else {
            fold_upwards(&face)
        };
    }
    (2u32.pow(folds + 1) - 1).saturating_sub(face.place)
}
