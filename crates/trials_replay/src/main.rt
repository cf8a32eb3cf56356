//! Tries the rule by which a journal is replayed: each line of standard input asks whether a change
//! goes on from a world, makes it there, or asks another call. Its fields are parted by `|`, and it is
//! written again with what came.
//!
//! - `nothing`: from here on nothing is kept in the world, and its instance is 0
//! - `ask|CHANGE`: whether the change goes on as one of an event; `image|CHANGE`: as one of an image;
//!   `draft|CHANGE`: as one of an event, where the grants are seen in a draft
//! - `make|CHANGE`: the same as `ask`; and where it goes on, it is made
//! - `fill|COUNT|CHANGE`: the same so many times, with the numbers from 100,000 on in the place of `#`:
//!   all that go on are made in one list, and their count is said
//! - `keep`: the rows that were put are committed
//! - `sys`: whether SYS is a user; `few`: whether all counts are within their limits, or, as
//!   `few|COUNT|CHANGE`, those with so many grants more, which are made in a draft
//! - `stamp|LAST|STAMP`: whether a frame with this stamp may follow the last one
//! - `fits|COLUMNS|CELLS`: whether the cells fit the columns; `shape|COLUMNS|KEY`: whether these are
//!   those of a table
//! - `condition|TEXT`: whether the text is an audit policy's condition; `condition|TEXT|NAME|COLUMNS`:
//!   whether it is a fine-grained policy's, on the table SYS.NAME
//!
//! The changes are `user|NAME|NUMBER`, whose verifier has this number in each byte, `user gone|NAME`;
//! `role|NAME`, `role gone|NAME`; `system grant|GRANTEE|PRIVILEGE`, `role grant|GRANTEE|ROLE`,
//! `object grant|GRANTEE|OWNER.NAME|ACTION`, and each with `revoke`; `table|OWNER.NAME|COLUMNS|KEY`,
//! `table gone|OWNER.NAME`; `put|OWNER.NAME|ROW|CELLS`, `gone|OWNER.NAME|ROW`;
//! `policy|NAME|PRIVILEGES|ACTIONS|ROLES|CONDITION`, `policy gone|NAME`; `enable|POLICY|off`, `all`, `by A,B` or
//! `except A,B`; `fga|OWNER.NAME|POLICY|COLUMNS|CONDITION`, `fga gone|OWNER.NAME|POLICY`;
//! `archive|MOMENT`; and `start|INSTANCE`.
//!
//! Lists have commas between their parts, and an empty condition is none. A column is a name, a kind
//! and a size, with `NOT NULL` behind them or without; a key has the places of its columns, from 0. The
//! cell `''` is the empty text, and no NULL. An action of a policy is a name, with ` ON OWNER.NAME`
//! behind it or without.
#![tactic(auto)]

ghost use Rattle.au_catalog.specs.Staging.{IsOrdered};

mod asking;
mod changes;
mod filling;
mod grants;
mod making;
mod parts;
mod shapes;
mod tables;
mod trees;
mod world;

use std::alloc::Global;
use std::io;
use trials_lines::{Fault, said, yes_or_no};
use world::World;

/// The field of a line at a place from 0; the empty text past the last.
fn field(line: &str, place: usize) -> &str {
    line.split('|').nth(place).unwrap_or("")
}

/// What stands behind the first field of a line.
fn behind(line: &str) -> &str {
    match line.split_once('|') {
        Some((_, rest)) => rest,
        None => "",
    }
}

// What comes of a line.
fn answer(alloc: Global, world: &mut World, line: &str) -> Result<String, Fault>
    requires { IsOrdered world.old.catalog }
    ensures { IsOrdered world.new.catalog }
{
    match field(line, 0) {
        "nothing" => {
            world::begin_anew(alloc, world)?;
            said(alloc, "done")
        }
        "make" => yes_or_no(alloc, making::made(alloc, world, behind(line))?),
        "fill" => filling::filled(alloc, world, line),
        "keep" => {
            world.desk.keep_laid();
            said(alloc, "done")
        }
        _ => asking::asked(alloc, world, line),
    }
}

fn tried(rt: HostRuntime, world: &mut World) -> io::Result<()>
    requires { IsOrdered world.old.catalog }
{
    for line in rt.lines(rt.alloc()) {
        let line = line?;
        if line.is_empty() || line.starts_with('#') {
            println!(rt; "{line}")?;
            continue;
        }
        match answer(rt.alloc(), world, line.as_str()) {
            Ok(text) => println!(rt; "{line} = {text}")?,
            Err(Fault::Memory) => println!(rt; "{line}: out of memory")?,
            Err(Fault::NoCase) => println!(rt; "{line}: no such case")?,
        }
    }
    Ok(())
}

fn main(rt: HostRuntime) -> io::Result<()> {
    match World::new(rt.alloc()) {
        Ok(mut world) => tried(rt, &mut world),
        Err(_) => println!(rt; "out of memory"),
    }
}
