//! Names in order.
ghost use Rattle.std.specs.Prelude.{◌≤◌, IfOk, IsTrue};
ghost use Rattle.au_base.specs.Order.{IsNewAmong, is_in_order, name_before};

use crate::case::{Case, said, word_of};
use au_base::{
    InOrder, List, Memory, Name, insert_reserved, place_in_order, placed_stands_in_order,
};
use std::alloc::Global;

/// What a call on names in order gives, if the case is one.
pub fn tried(alloc: Global, case: &Case<'_>) -> Result<Option<String>, Memory> {
    match case.call {
        "before" => said(alloc, before(alloc, case)?),
        "place" => Ok(Some(place(alloc, case)?)),
        "insert" => Ok(Some(inserted(alloc, case)?)),
        "insert reserved" => Ok(Some(inserted_reserved(alloc, case)?)),
        "shuffled" => Ok(Some(shuffled(alloc, case.number(0).min(20_000))?)),
        _ => Ok(None),
    }
}

// Whether the first name comes before the second.
fn before(alloc: Global, case: &Case<'_>) -> Result<&'static str, Memory> {
    let a = Name::make(alloc, case.text(0).as_bytes())?;
    let b = Name::make(alloc, case.text(1).as_bytes())?;
    match (a, b) {
        (Some(a), Some(b)) => Ok(word_of(a.comes_before(&b), "yes", "no")),
        _ => Ok("no name"),
    }
}

// At how many of the names in order a name stands.
fn place(alloc: Global, case: &Case<'_>) -> Result<String, Memory> {
    let names = ordered(alloc, case.text(0))?;
    let Some(name) = Name::make(alloc, case.text(1).as_bytes())? else {
        return Ok(String::from_str(alloc, "no name")?);
    };
    let place = place_in_order(names.as_slice(), &name);
    Ok(format!(in alloc; "{place}")?)
}

// The names of a text, which are parted by spaces, in their order and each once.
fn ordered(alloc: Global, given: &str) -> Result<List<Name>, Memory>
    ensures { IfOk result (λ names. IsTrue (is_in_order name_before names)) }
{
    let mut names = List::new(alloc);
    for text in given.split(' ') {
        if let Some(name) = Name::make(alloc, text.as_bytes())? {
            insert_new(&mut names, name)?;
        }
    }
    Ok(names)
}

// Inserts a name at its place, unless it stands there.
fn insert_new(names: &mut List<Name>, name: Name) -> Result<(), Memory>
    requires { IsTrue (is_in_order name_before names.old) }
    ensures { IsTrue (is_in_order name_before names.new) }
{
    placed_stands_in_order::<Name>();
    if is_new_among(names.as_slice(), &name) {
        names.insert_in_order(name)?;
    }
    Ok(())
}

// Whether a name stands among no names in order: it comes before the one at its place.
fn is_new_among(names: &[Name], name: &Name) -> bool
    requires { IsTrue (is_in_order name_before names.now) }
    ensures { IsTrue result → IsNewAmong name_before name.now names.now }
{
    match names.get(place_in_order(names, name)) {
        Some(next) => name.comes_before(next),
        None => true,
    }
}

// Names, parted by spaces.
fn joined(alloc: Global, names: &[Name]) -> Result<String, Memory> {
    let mut text = String::new(alloc);
    for name in names {
        if !text.is_empty() {
            text.push(' ')?;
        }
        text.push_str(name.as_str())?;
    }
    Ok(text)
}

// Names in order with a name among them.
fn inserted(alloc: Global, case: &Case<'_>) -> Result<String, Memory> {
    let mut names = ordered(alloc, case.text(0))?;
    if let Some(name) = Name::make(alloc, case.text(1).as_bytes())? {
        names.insert_in_order(name)?;
    }
    joined(alloc, names.as_slice())
}

// The same, of a vector that has room.
fn inserted_reserved(alloc: Global, case: &Case<'_>) -> Result<String, Memory> {
    let mut names = ordered(alloc, case.text(0))?.into_vec();
    names.reserve(1)?;
    if let Some(name) = Name::make(alloc, case.text(1).as_bytes())? {
        insert_reserved(&mut names, name);
    }
    joined(alloc, names.as_slice())
}

// So many names, inserted in order one after the other: the first, the last, how many they are, and
// whether each comes before the next. The names are `N` and a number, which goes on by 7,919 each
// time, and begins again where it reaches their count.
fn shuffled(alloc: Global, count: u64) -> Result<String, Memory>
    requires { count ≤ 20_000 }
{
    let mut names = List::new(alloc);
    for turn in 0..count {
        let number = turn * 7_919 % count;
        let text = format!(in alloc; "N{number:05}")?;
        if let Some(name) = Name::make(alloc, text.as_bytes())? {
            insert_new(&mut names, name)?;
        }
    }
    ends(alloc, names.as_slice())
}

fn ends(alloc: Global, names: &[Name]) -> Result<String, Memory> {
    let (Some(first), Some(last)) = (names.first(), names.last()) else {
        return Ok(String::from_str(alloc, "none")?);
    };
    let in_order = names.windows(2).all(|pair| pair[0].comes_before(&pair[1]));
    let in_order = word_of(in_order, "in order", "not in order");
    let (first, last, count) = (first.as_str(), last.as_str(), names.len());
    Ok(format!(in alloc; "{first} to {last}, {count}, {in_order}")?)
}
