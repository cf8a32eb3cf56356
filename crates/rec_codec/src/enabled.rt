//! For whom policies are enabled.
ghost use Rattle.std.specs.Prelude.{◌≡◌, ◌++◌, OnOk};
ghost use Rattle.rec_parts.specs.Given.{Gives};
ghost use Rattle.rec_codec.specs.Changes.{enabled, off, users};
ghost use Rattle.rec_codec.specs.descent.Changes.{enabled_behind, enabled_first, off_first, users_first};

use au_base::{List, Memory, Name};
use au_entries::{Enabled, Outcomes};
use rec_parts::{
    ReadError, Spelled, names_each_once, read_list_u16, read_names, read_sign, read_u8,
    write_list_u16, write_names, write_u8,
};
use std::alloc::Global;

/// Writes for whom a policy is enabled.
#[tactic(auto, unfolding(crate::specs::Changes::enabled))]
pub(crate) fn write_enabled(enablement: &Enabled, out: &mut Vec<u8>) -> Result<(), Memory>
    requires { enabled.IsSpellable enablement.now }
    ensures { OnOk result (out.new.items ≡ out.old.items ++ enabled.spelled enablement.now) }
{
    match enablement {
        Enabled::Off => {
            write_u8(out, 0)?;
            write_off(out)
        }
        Enabled::By(users) => {
            write_u8(out, 1)?;
            write_u8(out, 0)?;
            write_users(users, out)
        }
        Enabled::Except(names, outcomes) => {
            write_u8(out, 2)?;
            outcomes.write(out)?;
            write_names(names, out)
        }
    }
}

/// For whom a policy is enabled.
#[tactic(auto, unfolding(crate::specs::descent::Changes::enabled_first))]
pub(crate) fn read_enabled(alloc: Global, bytes: &[u8]) -> Result<(Enabled, &[u8]), ReadError>
    ensures { Gives (λ x. (x.0, x.1.now)) result (enabled_first bytes.now) }
{
    let (mode, rest) = read_u8(bytes)?;
    read_behind_mode(alloc, mode, rest)
}

#[tactic(auto, unfolding(crate::specs::descent::Changes::enabled_behind))]
fn read_behind_mode(alloc: Global, mode: u8, bytes: &[u8]) -> Result<(Enabled, &[u8]), ReadError>
    ensures { Gives (λ x. (x.0, x.1.now)) result (enabled_behind mode bytes.now) }
{
    match mode {
        0 => Ok((Enabled::Off, read_off(bytes)?)),
        1 => {
            let rest = read_sign(bytes, 0)?;
            let (users, rest) = read_users(alloc, rest)?;
            Ok((Enabled::By(users), rest))
        }
        2 => {
            let (outcomes, rest) = Outcomes::read(alloc, bytes)?;
            let (names, rest) = read_names(alloc, rest)?;
            Ok((Enabled::Except(names, outcomes), rest))
        }
        _ => Err(ReadError::NoFrame),
    }
}

/// Writes the outcomes and the count of names of what is enabled for nobody.
#[tactic(auto, unfolding(crate::specs::Changes::off))]
fn write_off(out: &mut Vec<u8>) -> Result<(), Memory>
    ensures { OnOk result (out.new.items ≡ out.old.items ++ off.spelled tt) }
{
    write_u8(out, 0)?;
    write_u8(out, 0)?;
    write_u8(out, 0)
}

/// Behind the outcomes and the count of names of what is enabled for nobody.
#[tactic(auto, unfolding(crate::specs::descent::Changes::off_first))]
fn read_off(bytes: &[u8]) -> Result<&[u8], ReadError>
    ensures { Gives (λ x. (tt, x.now)) result (off_first bytes.now) }
{
    let rest = read_sign(bytes, 0)?;
    let rest = read_sign(rest, 0)?;
    read_sign(rest, 0)
}

#[tactic(auto, unfolding(crate::specs::Changes::users))]
fn write_users(values: &List<(Name, Outcomes)>, out: &mut Vec<u8>) -> Result<(), Memory>
    requires { users.IsSpellable values.now }
    ensures { OnOk result (out.new.items ≡ out.old.items ++ users.spelled values.now) }
{
    write_list_u16(values, out)
}

/// Users with their outcomes: at least one, and each once.
#[tactic(auto, unfolding(crate::specs::descent::Changes::users_first))]
fn read_users(alloc: Global, bytes: &[u8]) -> Result<(List<(Name, Outcomes)>, &[u8]), ReadError>
    ensures { Gives (λ x. (x.0, x.1.now)) result (users_first bytes.now) }
{
    let (values, rest) = read_list_u16::<(Name, Outcomes)>(alloc, bytes)?;
    if values.len() == 0 {
        return Err(ReadError::NoFrame);
    }
    if !names_each_once(alloc, values.as_slice())? {
        return Err(ReadError::NoFrame);
    }
    Ok((values, rest))
}
