//! The columns and the key that a table is created with.
ghost use Rattle.std.specs.Prelude.{◌≡◌, ◌<◌, ◌≤◌, ◌^◌, ◌++◌, IfOk, OnOk, if◌then◌else◌, length, map, not, ◌∷◌, []};
ghost use Rattle.std.specs.List.{filter, list_any, position};
ghost use Rattle.std.specs.Str.{bytes_eq};
ghost use Rattle.au_define.specs.Columns.{are_distinct, column_of, columns_of, has_column_twice, has_key_twice, has_second_key, is_key, is_one_of, key_names, key_part, made_column, name_of, names_of, place_of};

use au_base::{Column, List, Memory, Name};
use sql_ast::Element;
use std::alloc::Global;
use std::collections::BTreeSet;

/// The columns that the elements define, in their order.
pub fn columns_of(alloc: Global, elements: &[Element]) -> Result<List<Column>, Memory>
    ensures { IfOk result (λ columns. columns ≡ columns_of elements.now) }
{
    let mut columns = List::new(alloc);
    for element in elements {
        add_column(&mut columns, element)?;
    }
    Ok(columns)
}

fn add_column(columns: &mut List<Column>, element: &Element) -> Result<(), Memory>
    ensures { OnOk result (columns.new ≡ columns.old ++ column_of element.now) }
{
    if let Element::Column { column, .. } = element {
        columns.push(column.clone()?)?;
    }
    Ok(())
}

/// The names of the columns.
pub fn names_of(alloc: Global, elements: &[Element]) -> Result<List<Name>, Memory>
    ensures { IfOk result (λ names. names ≡ names_of elements.now) }
{
    let mut names = List::new(alloc);
    for element in elements {
        add_name(&mut names, element)?;
    }
    Ok(names)
}

fn add_name(names: &mut List<Name>, element: &Element) -> Result<(), Memory>
    ensures { OnOk result (names.new ≡ names.old ++ name_of element.now) }
{
    if let Element::Column { column, .. } = element {
        names.push(column.name.clone()?)?;
    }
    Ok(())
}

/// The names of the columns of the primary key, in its order.
pub fn key_names(alloc: Global, elements: &[Element]) -> Result<List<Name>, Memory>
    ensures { IfOk result (λ names. names ≡ key_names elements.now) }
{
    let mut names = List::new(alloc);
    for element in elements {
        add_key(&mut names, element)?;
    }
    Ok(names)
}

fn add_key(names: &mut List<Name>, element: &Element) -> Result<(), Memory>
    ensures { OnOk result (names.new ≡ names.old ++ key_part element.now) }
{
    match element {
        Element::Column {
            column,
            primary_key,
        } => add_column_key(names, column, *primary_key),
        Element::PrimaryKey(key) => add_names(names, key.as_slice()),
    }
}

fn add_column_key(names: &mut List<Name>, column: &Column, key: bool) -> Result<(), Memory>
    ensures { OnOk result (names.new ≡ names.old ++ (if key then column.now.name ∷ [] else [])) }
{
    if key {
        names.push(column.name.clone()?)?;
    }
    Ok(())
}

fn add_names(names: &mut List<Name>, more: &[Name]) -> Result<(), Memory>
    ensures { OnOk result (names.new ≡ names.old ++ more.now) }
{
    for name in more {
        names.push(name.clone()?)?;
    }
    Ok(())
}

/// Whether two columns have one name, or a key names a column twice. The names are those of the
/// columns.
pub fn has_column_twice(alloc: Global, names: &[Name], elements: &[Element]) -> Result<bool, Memory>
    requires names { names.now ≡ names_of elements.now }
    ensures { IfOk result (λ twice. twice ≡ has_column_twice elements.now) }
{
    let distinct = are_distinct(alloc, names)?;
    let key_twice = some_key_twice(alloc, elements)?;
    Ok(!distinct || key_twice)
}

fn some_key_twice(alloc: Global, elements: &[Element]) -> Result<bool, Memory>
    ensures { IfOk result (λ twice. twice ≡ list_any has_key_twice elements.now) }
{
    for element in elements {
        if has_key_twice(alloc, element)? {
            return Ok(true);
        }
    }
    Ok(false)
}

fn has_key_twice(alloc: Global, element: &Element) -> Result<bool, Memory>
    ensures { IfOk result (λ twice. twice ≡ has_key_twice element.now) }
{
    match element {
        Element::Column { .. } => Ok(false),
        Element::PrimaryKey(names) => {
            let distinct = are_distinct(alloc, names.as_slice())?;
            Ok(!distinct)
        }
    }
}

fn are_distinct(alloc: Global, names: &[Name]) -> Result<bool, Memory>
    ensures { IfOk result (λ answer. answer ≡ are_distinct names.now) }
{
    let distinct: BTreeSet<&Name> = names.iter().collect(alloc)?;
    Ok(distinct.len() == names.len())
}

/// Whether there are two primary keys or more.
pub fn has_second_key(elements: &[Element]) -> bool
    ensures { result ≡ has_second_key elements.now }
{
    2 <= count_keys(elements)
}

fn count_keys(elements: &[Element]) -> usize
    ensures { result ≡ length (filter is_key elements.now) }
{
    elements.iter().filter(|element| is_key(element)).count()
}

fn is_key(element: &Element) -> bool
    ensures { result ≡ is_key element.now }
{
    match element {
        Element::Column { primary_key, .. } => *primary_key,
        Element::PrimaryKey(_) => true,
    }
}

/// Whether some column of a key isn't one of the table. The names are those of the columns, and
/// those of the keys' columns.
pub fn has_unknown(names: &[Name], key: &[Name]) -> bool
    ensures { result ≡ list_any (λ name. not (is_one_of names.now name)) key.now }
{
    key.iter().any(|name| !is_one_of(names, name))
}

fn is_one_of(names: &[Name], name: &Name) -> bool
    ensures { result ≡ is_one_of names.now name.now }
{
    names.iter().any(|other| *other == *name)
}

/// The columns as the table has them: those of the key are NOT NULL.
pub fn made_columns(alloc: Global, columns: &[Column], key: &[Name]) -> Result<List<Column>, Memory>
    ensures { IfOk result (λ made. made ≡ map (made_column key.now) columns.now) }
{
    let mut made = List::new(alloc);
    for column in columns {
        made.push(made_column(column, key)?)?;
    }
    Ok(made)
}

fn made_column(column: &Column, key: &[Name]) -> Result<Column, Memory>
    ensures { IfOk result (λ made. made ≡ made_column key.now column.now) }
{
    Ok(Column {
        name: column.name.clone()?,
        kind: column.kind,
        size: column.size,
        not_null: column.not_null || is_one_of(key, &column.name),
    })
}

/// The places of the key's columns among the names of the columns, which are few.
pub fn made_key(alloc: Global, names: &[Name], key: &[Name]) -> Result<List<u32>, Memory>
    requires few { length names.now < 2 ^ 32 }
    ensures { IfOk result (λ places. places ≡ map (place_of names.now) key.now) }
{
    let mut places = List::new(alloc);
    for name in key {
        places.push(place_of(names, name))?;
    }
    Ok(places)
}

fn place_of(names: &[Name], name: &Name) -> u32
    requires few { length names.now < 2 ^ 32 }
    ensures { result ≡ place_of names.now name.now }
{
    match find_name(names, name) {
        Some(place) => place as u32,
        None => 0,
    }
}

fn find_name(names: &[Name], name: &Name) -> Option<usize>
    ensures { result ≡ position (λ other. bytes_eq other name.now) names.now }
{
    names.iter().position(|other| *other == *name)
}
