//! Edits made in vectors of what the catalogue has.
ghost use Rattle.std.specs.Prelude.{◌≡◌, ◌≤◌, ◌<◌, ◌+◌, ◌∷◌, [], IsTrue, false, length, map, vec_capacity, vec_len};
ghost use Rattle.std.specs.Str.{bytes_eq};
ghost use Rattle.au_base.specs.Order.{fields_before, is_in_order, name_before};
ghost use Rattle.au_base.specs.Sameness.{same_table};
ghost use Rattle.au_entries.specs.declared.change.Change.TheVariants as change;
ghost use Rattle.au_entries.specs.Changing.{enabled_after, is_fga, is_on, put_in_order, by_name, with_enablement, without_user};
ghost use Rattle.au_grants.specs.Changing.{without as without_listed};
ghost use Rattle.au_catalog.specs.Staging.{IsOrdered, edited, edited_all};
ghost use Rattle.au_catalog.specs.descent.Editing.{HasRoom, KeepsRoom, listed};

use crate::edit::Edit;
use crate::lists::CatalogLists;
use crate::placing::put_reserved;
use au_base::{List, Name, TableName, is_same_table};
use au_entries::{AuditPolicy, Enabled, FgaPolicy, Outcomes, Table};

/// Makes the edits in their order. There is room for what they put in, and the call takes no
/// memory.
pub fn make_all(lists: &mut CatalogLists, edits: Vec<Edit>)
    requires order { IsOrdered (listed lists.old) }
    requires room { HasRoom edits.items lists.old }
    ensures after { listed lists.new ≡ edited_all edits.items (listed lists.old) }
    ensures order { IsOrdered (listed lists.new) }
{
    let mut rest = edits.into_iter();
    while let Some(edit) = rest.next() {
        make(lists, edit);
    }
}

/// Makes the edit. There is room for what it puts in, and the call takes no memory.
fn make(lists: &mut CatalogLists, edit: Edit)
    requires order { IsOrdered (listed lists.old) }
    requires room { HasRoom (edit ∷ []) lists.old }
    ensures after { listed lists.new ≡ edited edit (listed lists.old) }
    ensures room { KeepsRoom edit lists.old lists.new }
{
    match edit {
        Edit::PutUser(name, verifier) => put_reserved(&mut lists.users, (name, verifier)),
        Edit::DropUser(name) => drop_user(lists, &name),
        Edit::PutRole(name) => put_role(&mut lists.roles, name),
        Edit::DropRole(name) => drop_role(&mut lists.roles, &name),
        Edit::PutTable(table) => put_reserved(&mut lists.tables, table),
        Edit::DropTable(name) => drop_table(lists, &name),
        Edit::PutPolicy(policy) => put_reserved(&mut lists.policies, policy),
        Edit::DropPolicy(name) => drop_policy(&mut lists.policies, &name),
        Edit::Enable(policy, enabled) => enable(&mut lists.enabled, policy, enabled),
        Edit::PutFga(policy) => put_reserved(&mut lists.fga, policy),
        Edit::DropFga(table, policy) => drop_fga(&mut lists.fga, &table, &policy),
        Edit::SetArchive(stamp) => lists.archive = stamp,
    }
}

fn put_role(roles: &mut Vec<Name>, name: Name)
    requires order { IsTrue (is_in_order name_before roles.old.items) }
    requires room { vec_len roles.old < vec_capacity roles.old }
    ensures items { roles.new.items ≡ put_in_order (λ other. by_name other name) name roles.old.items }
    ensures size { length roles.new.items ≤ length roles.old.items + 1 }
    ensures capacity { vec_capacity roles.new ≡ vec_capacity roles.old }
{
    put_reserved(roles, name);
}

fn drop_user(lists: &mut CatalogLists, user: &Name)
    ensures after { listed lists.new ≡ edited (Edit.DropUser user.now) (listed lists.old) }
    ensures room { KeepsRoom (Edit.DropUser user.now) lists.old lists.new }
{
    drop_named_user(&mut lists.users, user);
    drop_enabled_user(&mut lists.enabled, user);
}

fn drop_named_user(users: &mut Vec<(Name, [u8; 32])>, user: &Name)
    ensures items { users.new.items ≡ without_listed (λ other. bytes_eq other.0 user.now) users.old.items }
    ensures size { length users.new.items ≤ length users.old.items }
    ensures capacity { vec_capacity users.new ≡ vec_capacity users.old }
{
    users.retain(|other| other.0 != *user);
}

// Takes the user out of the enablements, and drops those that then are for nobody.
fn drop_enabled_user(entries: &mut Vec<(Name, Enabled)>, user: &Name)
    ensures items { entries.new.items ≡ enabled_after (change.UserGone user.now) entries.old.items }
    ensures size { length entries.new.items ≤ length entries.old.items }
    ensures capacity { vec_capacity entries.new ≡ vec_capacity entries.old }
{
    let stays = |listed: &mut (Name, Enabled)| -> bool
        ensures { (result ≡ is_on (without_user user.entry.now listed.entry.now.1)) × (listed.exit.now ≡ (listed.entry.now.0, without_user user.entry.now listed.entry.now.1)) }
    { leaves(listed, user) };
    entries.retain_mut(stays);
}

// Takes the user out of the enablement, and says whether it still is for somebody.
fn leaves(entry: &mut (Name, Enabled), user: &Name) -> bool
    ensures entry { entry.new ≡ (entry.old.0, without_user user.now entry.old.1) }
    ensures stays { result ≡ is_on (without_user user.now entry.old.1) }
{
    take_out(&mut entry.1, user);
    entry.1.is_on()
}

fn take_out(enabled: &mut Enabled, user: &Name)
    ensures { enabled.new ≡ without_user user.now enabled.old }
{
    drop_place(enabled, user);
    if !enabled.is_on() {
        *enabled = Enabled::Off;
    }
}

// Drops the user's place in the enablement. One that is left for nobody may still be a list.
fn drop_place(enabled: &mut Enabled, user: &Name)
    ensures on { IsTrue (is_on enabled.new) → enabled.new ≡ without_user user.now enabled.old }
    ensures off { is_on enabled.new ≡ false → without_user user.now enabled.old ≡ Enabled.Off }
{
    match enabled {
        Enabled::Off => {}
        Enabled::By(users) => drop_listed(users, user),
        Enabled::Except(users, _) => drop_excepted(users, user),
    }
}

fn drop_listed(users: &mut List<(Name, Outcomes)>, user: &Name)
    ensures { users.new ≡ without_listed (λ listed. bytes_eq listed.0 user.now) users.old }
{
    users.retain(|listed| listed.0 != *user);
}

fn drop_excepted(users: &mut List<Name>, user: &Name)
    ensures { users.new ≡ without_listed (λ other. bytes_eq other user.now) users.old }
{
    users.retain(|other| other != user);
}

fn drop_role(roles: &mut Vec<Name>, name: &Name)
    ensures items { roles.new.items ≡ without_listed (λ other. bytes_eq other name.now) roles.old.items }
    ensures size { length roles.new.items ≤ length roles.old.items }
    ensures capacity { vec_capacity roles.new ≡ vec_capacity roles.old }
{
    roles.retain(|other| other != name);
}

fn drop_table(lists: &mut CatalogLists, table: &TableName)
    ensures after { listed lists.new ≡ edited (Edit.DropTable table.now) (listed lists.old) }
    ensures room { KeepsRoom (Edit.DropTable table.now) lists.old lists.new }
{
    drop_named_table(&mut lists.tables, table);
    drop_on_table(&mut lists.fga, table);
}

fn drop_named_table(tables: &mut Vec<Table>, table: &TableName)
    ensures items { tables.new.items ≡ without_listed (λ other. same_table other.name table.now) tables.old.items }
    ensures size { length tables.new.items ≤ length tables.old.items }
    ensures capacity { vec_capacity tables.new ≡ vec_capacity tables.old }
{
    tables.retain(|other| !is_same_table(&other.name, table));
}

fn drop_on_table(policies: &mut Vec<FgaPolicy>, table: &TableName)
    ensures items { policies.new.items ≡ without_listed (λ other. same_table other.name.table table.now) policies.old.items }
    ensures size { length policies.new.items ≤ length policies.old.items }
    ensures capacity { vec_capacity policies.new ≡ vec_capacity policies.old }
{
    policies.retain(|other| !is_same_table(&other.name.table, table));
}

fn drop_policy(policies: &mut Vec<AuditPolicy>, name: &Name)
    ensures items { policies.new.items ≡ without_listed (λ other. bytes_eq other.name name.now) policies.old.items }
    ensures size { length policies.new.items ≤ length policies.old.items }
    ensures capacity { vec_capacity policies.new ≡ vec_capacity policies.old }
{
    policies.retain(|other| other.name != *name);
}

fn enable(entries: &mut Vec<(Name, Enabled)>, policy: Name, enabled: Enabled)
    requires order { IsTrue (is_in_order name_before (map (λ entry. entry.0) entries.old.items)) }
    requires room { vec_len entries.old < vec_capacity entries.old }
    ensures items { entries.new.items ≡ with_enablement policy enabled entries.old.items }
    ensures size { length entries.new.items ≤ length entries.old.items + 1 }
    ensures capacity { vec_capacity entries.new ≡ vec_capacity entries.old }
{
    if enabled.is_on() {
        put_reserved(entries, (policy, enabled));
    } else {
        disable(entries, &policy);
    }
}

fn disable(entries: &mut Vec<(Name, Enabled)>, policy: &Name)
    ensures items { entries.new.items ≡ without_listed (λ entry. bytes_eq entry.0 policy.now) entries.old.items }
    ensures size { length entries.new.items ≤ length entries.old.items }
    ensures capacity { vec_capacity entries.new ≡ vec_capacity entries.old }
{
    entries.retain(|entry| entry.0 != *policy);
}

fn drop_fga(policies: &mut Vec<FgaPolicy>, table: &TableName, policy: &Name)
    ensures items { policies.new.items ≡ without_listed (is_fga table.now policy.now) policies.old.items }
    ensures size { length policies.new.items ≤ length policies.old.items }
    ensures capacity { vec_capacity policies.new ≡ vec_capacity policies.old }
{
    policies.retain(|other| !(is_same_table(&other.name.table, table)
        && other.name.policy == *policy));
}
