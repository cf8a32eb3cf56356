//! Names in one field.
ghost use Rattle.std.specs.Prelude.{◌≡◌, ◌++◌, IfOk, OnOk, map};
ghost use Rattle.std.specs.String.{string_bytes};
ghost use Rattle.au_base.specs.Privileges.{name_of};
ghost use Rattle.au_audit.specs.TrailRows.{further, joined};

use au_base::{Memory, Name, Privilege, Text};
use std::alloc::Global;

/// The names, joined by a comma and a space.
pub fn joined_names(alloc: Global, names: &[Name]) -> Result<Text, Memory>
    ensures { IfOk result (λ text. text ≡ joined names.now) }
{
    let mut text = String::new(alloc);
    if let Some((first, others)) = names.split_first() {
        text.push_str(first.as_str())?;
        push_names(&mut text, others)?;
    }
    Ok(Text::from_string(text))
}

fn push_names(text: &mut String, names: &[Name]) -> Result<(), Memory>
    ensures { OnOk result (string_bytes text.new ≡ string_bytes text.old ++ further names.now) }
{
    for name in names {
        text.push_str(", ")?;
        text.push_str(name.as_str())?;
    }
    Ok(())
}

/// The names of the privileges, joined by a comma and a space.
pub fn joined_privileges(alloc: Global, privileges: &[Privilege]) -> Result<Text, Memory>
    ensures { IfOk result (λ text. text ≡ joined (map name_of privileges.now)) }
{
    let mut text = String::new(alloc);
    if let Some((first, others)) = privileges.split_first() {
        text.push_str(first.name())?;
        push_privileges(&mut text, others)?;
    }
    Ok(Text::from_string(text))
}

fn push_privileges(text: &mut String, privileges: &[Privilege]) -> Result<(), Memory>
    ensures { OnOk result (string_bytes text.new ≡ string_bytes text.old ++ further (map name_of privileges.now)) }
{
    for privilege in privileges {
        text.push_str(", ")?;
        text.push_str(privilege.name())?;
    }
    Ok(())
}
