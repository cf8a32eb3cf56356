//! Fine-grained policies.
ghost use Rattle.std.specs.Prelude.{◌≡◌, ◌++◌, OnOk};
ghost use Rattle.rec_parts.specs.Given.{Gives};
ghost use Rattle.rec_parts.specs.descent.Reading.{made_first};
ghost use Rattle.rec_codec.specs.Changes.{fga_parts};
ghost use Rattle.rec_codec.specs.descent.Changes.{fga_first, made_fga, types_first};

use au_base::{List, Memory, Name, TableName, Text};
use au_entries::Change;
use rec_parts::{ReadError, Spelled, read_names, read_u8, write_names, write_u8};
use std::alloc::Global;

/// Writes what a fine-grained policy is for.
#[tactic(auto, unfolding(crate::specs::Changes::fga_parts, crate::specs::Changes::types))]
pub(crate) fn write_fga_parts(
    out: &mut Vec<u8>,
    condition: &Option<Text>,
    columns: &List<Name>,
    all: bool,
    types: u8,
    enabled: bool,
) -> Result<(), Memory>
    requires { fga_parts.IsSpellable (condition.now, (columns.now, (all, (types, enabled)))) }
    ensures { OnOk result (out.new.items ≡ out.old.items ++ fga_parts.spelled (condition.now, (columns.now, (all, (types, enabled))))) }
{
    condition.write(out)?;
    write_names(columns, out)?;
    all.write(out)?;
    write_u8(out, types)?;
    enabled.write(out)
}

/// A fine-grained policy, and the bytes behind it.
#[tactic(auto, unfolding(crate::specs::descent::Changes::fga_first))]
pub(crate) fn read_fga(alloc: Global, bytes: &[u8]) -> Result<(Change, &[u8]), ReadError>
    ensures { Gives (λ x. (x.0, x.1.now)) result (made_first fga_first made_fga bytes.now) }
{
    let (table, rest) = TableName::read(alloc, bytes)?;
    let (policy, rest) = Name::read(alloc, rest)?;
    let (condition, rest) = Option::<Text>::read(alloc, rest)?;
    let (columns, rest) = read_names(alloc, rest)?;
    let (all, rest) = bool::read(alloc, rest)?;
    let (types, rest) = read_types(rest)?;
    let (enabled, rest) = bool::read(alloc, rest)?;
    let made = Change::Fga {
        table,
        policy,
        condition,
        columns,
        all,
        types,
        enabled,
    };
    Ok((made, rest))
}

/// The kinds of statements, at least one of them.
#[tactic(auto, unfolding(crate::specs::descent::Changes::types_first))]
fn read_types(bytes: &[u8]) -> Result<(u8, &[u8]), ReadError>
    ensures { Gives (λ x. (x.0, x.1.now)) result (types_first bytes.now) }
{
    let (types, rest) = read_u8(bytes)?;
    if types < 1 || types > 15 {
        return Err(ReadError::NoFrame);
    }
    Ok((types, rest))
}
