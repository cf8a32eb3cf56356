//! Columns found by their names.
ghost use Rattle.std.specs.Prelude.{◌≡◌, Bool, ℕ, if◌then◌else◌};
ghost use Rattle.std.specs.Str.{bytes_eq};
ghost use Rattle.au_expr.specs.Descent.{meant, meant_from, with_place, code_of_meant, kind_of_meant};
ghost use Rattle.au_expr.specs.Names.{Finds, places, places_of};
ghost use Rattle.au_expr.specs.Names as names;
ghost use Rattle.au_expr.specs.Rows as rows;

use crate::{ExprKind, Place};
use au_base::{Code, Column, List, Name};

/// What a name means.
#[derive(Clone, Copy)]
pub enum Meant {
    Nothing,
    One(Place),
    Several,
}

impl Meant {
    fn with(self, place: Place) -> Meant
        ensures { result ≡ with_place self place }
    {
        match self {
            Meant::Nothing => Meant::One(place),
            _ => Meant::Several,
        }
    }

    /// 904 for nothing, 918 for several columns.
    pub fn code(self) -> Option<Code>
        ensures { result ≡ code_of_meant self }
    {
        match self {
            Meant::Nothing => Some(Code::UNKNOWN_COLUMN),
            Meant::One(_) => None,
            Meant::Several => Some(Code::AMBIGUOUS_COLUMN),
        }
    }

    /// The kind of the one column.
    pub fn kind(self) -> Option<ExprKind>
        ensures { result ≡ kind_of_meant self }
    {
        match self {
            Meant::One(place) => Some(ExprKind::Of(place.kind)),
            _ => None,
        }
    }
}

/// The place of the one column that a name means in some ranges, with the name of a range written
/// before it or without. The code is 904 where it means none, 918 where it means more than one. It
/// takes no memory.
pub fn column_place(
    ranges: &[(Name, List<Column>)],
    written: &Option<Name>,
    name: &Name,
) -> Result<Place, Code>
    ensures { Finds (places ranges.now written.now name.now) result }
{
    match columns_meant(ranges, written, name) {
        Meant::One(place) => Ok(place),
        Meant::Nothing => Err(Code::UNKNOWN_COLUMN),
        Meant::Several => Err(Code::AMBIGUOUS_COLUMN),
    }
}

/// The columns that a name means in some ranges, with the name of a range written before it or
/// without.
pub fn columns_meant(ranges: &[(Name, List<Column>)], written: &Option<Name>, name: &Name) -> Meant
    ensures { result ≡ meant (places ranges.now written.now name.now) }
{
    let mut found = Meant::Nothing;
    for (number, range) in ranges.iter().enumerate() {
        found = with_range(found, number, range, written, name);
    }
    found
}

fn with_range(
    found: Meant,
    number: usize,
    range: &(Name, List<Column>),
    written: &Option<Name>,
    name: &Name,
) -> Meant
    ensures { result ≡ meant_from found (places_of written.now name.now (number, range.now)) }
{
    if is_range(written, &range.0) {
        with_columns(found, number, range.1.as_slice(), name)
    } else {
        found
    }
}

fn is_range(written: &Option<Name>, range: &Name) -> bool
    ensures { result ≡ rows.is_range written.now range.now }
{
    match written {
        None => true,
        Some(written) => range == written,
    }
}

fn with_columns(found: Meant, range: usize, columns: &[Column], name: &Name) -> Meant
    ensures { result ≡ meant_from found (names.places_in range name.now columns.now) }
{
    let mut found = found;
    for (number, column) in columns.iter().enumerate() {
        found = with_column(found, range, number, column, name);
    }
    found
}

fn with_column(found: Meant, range: usize, number: usize, column: &Column, name: &Name) -> Meant
    ensures { result ≡ (if bytes_eq column.now.name name.now then with_place found (names.place_of range (number, column.now)) else found) }
{
    if column.name == *name {
        found.with(Place {
            range,
            column: number,
            kind: column.kind,
        })
    } else {
        found
    }
}
