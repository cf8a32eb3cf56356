//! Tables and rows: columns, keys and cells.
ghost use Rattle.std.specs.Prelude.{◌≡◌, ◌++◌, IfOk, OnOk};
ghost use Rattle.std.specs.List.{flat_map, AllByRecursion};
ghost use Rattle.rec_parts.specs.Spelling.{byte};
ghost use Rattle.rec_parts.specs.Given.{Gives};
ghost use Rattle.rec_parts.specs.Tables.{cell_text, cells, columns, integer, moment, places};
ghost use Rattle.rec_parts.specs.descent.Tables.{cell_behind, cell_text_first, cells_first, columns_first, integer_first, moment_first, places_first};

use crate::lists::{read_list_u8, write_list_u8};
use crate::numbers::{
    read_run, read_u8, read_u16, read_u32, read_u64, write_u8, write_u16, write_u32, write_u64,
};
use crate::parts::text_of;
use crate::read_error::ReadError;
use crate::spelled::Spelled;
use au_base::{Cell, Column, ColumnKind, LAST_MOMENT, List, Memory, Name, RowNo, Text};
use std::alloc::Global;

#[tactic(auto, unfolding(crate::specs::Tables::column_kind, crate::specs::descent::Tables::column_kind_first))]
impl Spelled for ColumnKind {
    ghost use Rattle.rec_parts.specs.Tables.{column_kind};
    ghost use Rattle.rec_parts.specs.descent.Tables.{column_kind_first};

    ghost spelling = { column_kind };

    ghost first = { column_kind_first };

    fn write(&self, out: &mut Vec<u8>) -> Result<(), Memory> {
        match self {
            ColumnKind::Number => write_u8(out, 1),
            ColumnKind::Text => write_u8(out, 2),
            ColumnKind::Moment => write_u8(out, 3),
        }
    }

    fn read(_: Global, bytes: &[u8]) -> Result<(Self, &[u8]), ReadError> {
        let (code, rest) = read_u8(bytes)?;
        match code {
            1 => Ok((ColumnKind::Number, rest)),
            2 => Ok((ColumnKind::Text, rest)),
            3 => Ok((ColumnKind::Moment, rest)),
            _ => Err(ReadError::NoFrame),
        }
    }
}

#[tactic(auto, unfolding(crate::specs::Tables::column, crate::specs::descent::Tables::column_first))]
impl Spelled for Column {
    ghost use Rattle.rec_parts.specs.Tables.{column};
    ghost use Rattle.rec_parts.specs.descent.Tables.{column_first};

    ghost spelling = { column };

    ghost first = { column_first };

    fn write(&self, out: &mut Vec<u8>) -> Result<(), Memory> {
        self.name.write(out)?;
        self.kind.write(out)?;
        write_u16(out, self.size)?;
        self.not_null.write(out)
    }

    fn read(alloc: Global, bytes: &[u8]) -> Result<(Self, &[u8]), ReadError> {
        let (name, rest) = Name::read(alloc, bytes)?;
        let (kind, rest) = ColumnKind::read(alloc, rest)?;
        let (size, rest) = read_u16(rest)?;
        let (not_null, rest) = bool::read(alloc, rest)?;
        let column = Column {
            name,
            kind,
            size,
            not_null,
        };
        Ok((column, rest))
    }
}

/// Writes columns.
#[tactic(auto, unfolding(crate::specs::Tables::columns))]
pub fn write_columns(values: &List<Column>, out: &mut Vec<u8>) -> Result<(), Memory>
    requires { columns.IsSpellable values.now }
    ensures { OnOk result (out.new.items ≡ out.old.items ++ columns.spelled values.now) }
{
    write_list_u8(values, out)
}

/// The columns of a table.
#[tactic(auto, unfolding(crate::specs::descent::Tables::columns_first))]
pub fn read_columns(alloc: Global, bytes: &[u8]) -> Result<(List<Column>, &[u8]), ReadError>
    ensures { Gives (λ x. (x.0, x.1.now)) result (columns_first bytes.now) }
{
    read_list_u8::<Column>(alloc, bytes)
}

impl Spelled for u8 {
    ghost use Rattle.rec_parts.specs.Spelling.{byte};
    ghost use Rattle.rec_parts.specs.descent.Reading.{byte_first};

    ghost spelling = { byte };

    ghost first = { byte_first };

    fn write(&self, out: &mut Vec<u8>) -> Result<(), Memory> {
        write_u8(out, *self)
    }

    fn read(_: Global, bytes: &[u8]) -> Result<(Self, &[u8]), ReadError> {
        read_u8(bytes)
    }
}

/// Writes the places of a key's columns, a byte each.
#[tactic(auto, unfolding(crate::specs::Tables::places))]
pub fn write_places(values: &List<u32>, out: &mut Vec<u8>) -> Result<(), Memory>
    requires { places.IsSpellable values.now }
    ensures { OnOk result (out.new.items ≡ out.old.items ++ places.spelled values.now) }
{
    write_u8(out, values.len() as u8)?;
    write_each(values.as_slice(), out)
}

/// Writes the places, a byte each.
fn write_each(values: &[u32], out: &mut Vec<u8>) -> Result<(), Memory>
    requires { AllByRecursion byte.IsSpellable values.now }
    ensures { OnOk result (out.new.items ≡ out.old.items ++ flat_map byte.spelled values.now) }
{
    for value in values {
        write_u8(out, *value as u8)?;
    }
    Ok(())
}

/// The places of a key's columns, from 0.
#[tactic(auto, unfolding(crate::specs::descent::Tables::places_first))]
pub fn read_places(alloc: Global, bytes: &[u8]) -> Result<(List<u32>, &[u8]), ReadError>
    ensures { Gives (λ x. (x.0, x.1.now)) result (places_first bytes.now) }
{
    let (values, rest) = read_list_u8::<u8>(alloc, bytes)?;
    let values = widened(alloc, values.as_slice())?;
    Ok((values, rest))
}

/// The bytes as numbers.
fn widened(alloc: Global, bytes: &[u8]) -> Result<List<u32>, Memory>
    ensures { IfOk result (λ values. values ≡ bytes.now) }
{
    let mut values = List::new(alloc);
    for byte in bytes {
        values.push(u32::from(*byte))?;
    }
    Ok(values)
}

#[tactic(auto, unfolding(crate::specs::Tables::cell, crate::specs::descent::Tables::cell_first))]
impl Spelled for Cell {
    ghost use Rattle.rec_parts.specs.Tables.{cell};
    ghost use Rattle.rec_parts.specs.descent.Tables.{cell_first};

    ghost spelling = { cell };

    ghost first = { cell_first };

    fn write(&self, out: &mut Vec<u8>) -> Result<(), Memory> {
        match self {
            Cell::Null => write_u8(out, 0),
            Cell::Num(number) => {
                write_u8(out, 1)?;
                write_integer(out, *number)
            }
            Cell::Text(text) => {
                write_u8(out, 2)?;
                write_cell_text(text, out)
            }
            Cell::Moment(moment) => {
                write_u8(out, 3)?;
                write_moment(out, *moment)
            }
        }
    }

    fn read(alloc: Global, bytes: &[u8]) -> Result<(Self, &[u8]), ReadError> {
        let (sign, rest) = read_u8(bytes)?;
        read_behind_sign(alloc, sign, rest)
    }
}

#[tactic(auto, unfolding(crate::specs::descent::Tables::cell_behind))]
fn read_behind_sign(alloc: Global, sign: u8, bytes: &[u8]) -> Result<(Cell, &[u8]), ReadError>
    ensures { Gives (λ x. (x.0, x.1.now)) result (cell_behind sign bytes.now) }
{
    match sign {
        0 => Ok((Cell::Null, bytes)),
        1 => {
            let (number, rest) = read_integer(bytes)?;
            Ok((Cell::Num(number), rest))
        }
        2 => {
            let (text, rest) = read_cell_text(alloc, bytes)?;
            Ok((Cell::Text(text), rest))
        }
        3 => {
            let (moment, rest) = read_moment(bytes)?;
            Ok((Cell::Moment(moment), rest))
        }
        _ => Err(ReadError::NoFrame),
    }
}

#[tactic(auto, unfolding(crate::specs::Tables::integer))]
fn write_integer(out: &mut Vec<u8>, number: i64) -> Result<(), Memory>
    ensures { OnOk result (out.new.items ≡ out.old.items ++ integer.spelled number) }
{
    write_u64(out, number.cast_unsigned())
}

#[tactic(auto, unfolding(crate::specs::descent::Tables::integer_first))]
fn read_integer(bytes: &[u8]) -> Result<(i64, &[u8]), ReadError>
    ensures { Gives (λ x. (x.0, x.1.now)) result (integer_first bytes.now) }
{
    let (number, rest) = read_u64(bytes)?;
    Ok((number.cast_signed(), rest))
}

#[tactic(auto, unfolding(crate::specs::Tables::cell_text))]
fn write_cell_text(text: &Text, out: &mut Vec<u8>) -> Result<(), Memory>
    requires { cell_text.IsSpellable text.now }
    ensures { OnOk result (out.new.items ≡ out.old.items ++ cell_text.spelled text.now) }
{
    let bytes = text.as_bytes();
    write_u16(out, bytes.len() as u16)?;
    out.extend_from_slice(bytes)?;
    Ok(())
}

/// The text of a cell, which isn't empty.
#[tactic(auto, unfolding(crate::specs::descent::Tables::cell_text_first))]
fn read_cell_text(alloc: Global, bytes: &[u8]) -> Result<(Text, &[u8]), ReadError>
    ensures { Gives (λ x. (x.0, x.1.now)) result (cell_text_first bytes.now) }
{
    let (len, rest) = read_u16(bytes)?;
    let (front, rest) = read_run(rest, usize::from(len))?;
    let text = text_of(alloc, front)?;
    if text.as_bytes().len() < 1 {
        return Err(ReadError::NoFrame);
    }
    Ok((text, rest))
}

#[tactic(auto, unfolding(crate::specs::Tables::moment))]
fn write_moment(out: &mut Vec<u8>, micros: u64) -> Result<(), Memory>
    ensures { OnOk result (out.new.items ≡ out.old.items ++ moment.spelled micros) }
{
    write_u64(out, micros)
}

#[tactic(auto, unfolding(crate::specs::descent::Tables::moment_first))]
fn read_moment(bytes: &[u8]) -> Result<(u64, &[u8]), ReadError>
    ensures { Gives (λ x. (x.0, x.1.now)) result (moment_first bytes.now) }
{
    let (micros, rest) = read_u64(bytes)?;
    if micros > LAST_MOMENT {
        return Err(ReadError::NoFrame);
    }
    Ok((micros, rest))
}

/// Writes the cells of a row.
#[tactic(auto, unfolding(crate::specs::Tables::cells))]
pub fn write_cells(values: &List<Cell>, out: &mut Vec<u8>) -> Result<(), Memory>
    requires { cells.IsSpellable values.now }
    ensures { OnOk result (out.new.items ≡ out.old.items ++ cells.spelled values.now) }
{
    write_list_u8(values, out)
}

/// The cells of a row.
#[tactic(auto, unfolding(crate::specs::descent::Tables::cells_first))]
pub fn read_cells(alloc: Global, bytes: &[u8]) -> Result<(List<Cell>, &[u8]), ReadError>
    ensures { Gives (λ x. (x.0, x.1.now)) result (cells_first bytes.now) }
{
    read_list_u8::<Cell>(alloc, bytes)
}

#[tactic(auto, unfolding(crate::specs::Tables::row_number, crate::specs::descent::Tables::row_number_first))]
impl Spelled for RowNo {
    ghost use Rattle.rec_parts.specs.Tables.{row_number};
    ghost use Rattle.rec_parts.specs.descent.Tables.{row_number_first};

    ghost spelling = { row_number };

    ghost first = { row_number_first };

    fn write(&self, out: &mut Vec<u8>) -> Result<(), Memory> {
        write_u32(out, self.0)
    }

    fn read(_: Global, bytes: &[u8]) -> Result<(Self, &[u8]), ReadError> {
        let (number, rest) = read_u32(bytes)?;
        Ok((RowNo(number), rest))
    }
}
