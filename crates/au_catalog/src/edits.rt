//! Edits with the room that they need.
ghost use Rattle.std.specs.Prelude.{◌≡◌, ◌≤◌, [], OnOk, length};
ghost use Rattle.std.specs.Vec.Iter.{into_iter_items};
ghost use Rattle.au_catalog.specs.Settling.{condition_texts};
ghost use Rattle.au_catalog.specs.Staging.{IsOrdered, edited_all, edits_with};
ghost use Rattle.au_catalog.specs.descent.Editing.{AreEmpty, AreSpared, HasRoom, counts_in, listed};

use crate::catalog::Catalog;
use crate::edit::Edit;
use crate::editing::make_all;
use crate::kind::{Kind, put_count};
use crate::lists::CatalogLists;
use crate::room::{holding, spare};
use crate::staging::push_edits;
use au_base::{List, Memory};
use au_entries::Change;
use sql_ast::Expr;
use std::alloc::Global;
use std::vec::IntoIter;

/// Edits of a catalogue, and room for what they put in.
#[derive(Debug, Drop)]
pub struct Edits {
    pub list: Vec<Edit>,
    /// Empty vectors, for the entries of lists that have no room of their own.
    pub room: CatalogLists,
}

impl Edits {
    /// None. It takes no memory.
    pub fn new(alloc: Global) -> Edits
        ensures list { result.list.items ≡ [] }
        ensures empty { AreEmpty result.room }
    {
        Edits {
            list: Vec::new(alloc),
            room: CatalogLists::new(alloc),
        }
    }

    /// Adds the edits that the changes of the catalogue are, and the room for them. The trees, in
    /// their order, are those of their conditions.
    pub fn fill(
        &mut self,
        catalog: &Catalog,
        changes: &[Change],
        trees: &mut IntoIter<Expr>,
    ) -> Result<(), Memory>
        requires list { self.old.list.items ≡ [] }
        requires empty { AreEmpty self.old.room }
        requires trees { length (condition_texts changes.now) ≤ length (into_iter_items trees.old) }
        ensures list { OnOk result (self.new.list.items ≡ edits_with (into_iter_items trees.old) changes.now) }
        ensures empty { OnOk result (AreEmpty self.new.room) }
        ensures room { OnOk result (AreSpared (counts_in catalog.now) self.new.list.items self.new.room) }
    {
        push_edits(&mut self.list, changes, trees)?;
        spare_all(&mut self.room, catalog, self.list.as_slice())
    }

    /// The catalogue after the edits. It takes no memory.
    pub fn made(self, catalog: Catalog) -> Catalog
        requires order { IsOrdered catalog }
        requires empty { AreEmpty self.room }
        requires room { AreSpared (counts_in catalog) self.list.items self.room }
        ensures after { result ≡ edited_all self.list.items catalog }
        ensures order { IsOrdered result }
    {
        let Edits { list, room } = self;
        let mut lists = roomy(room, list.as_slice(), catalog);
        make_all(&mut lists, list);
        from_lists(lists)
    }
}

// Makes room in the empty vectors for the entries of the catalogue's lists and those that the edits
// put in, where they put some in.
fn spare_all(room: &mut CatalogLists, catalog: &Catalog, edits: &[Edit]) -> Result<(), Memory>
    requires { AreEmpty room.old }
    ensures empty { OnOk result (AreEmpty room.new) }
    ensures room { OnOk result (AreSpared (counts_in catalog.now) edits.now room.new) }
{
    let users = put_count(Kind::User, edits);
    spare(&mut room.users, catalog.users.len(), users)?;
    let roles = put_count(Kind::Role, edits);
    spare(&mut room.roles, catalog.roles.len(), roles)?;
    let tables = put_count(Kind::Table, edits);
    spare(&mut room.tables, catalog.tables.len(), tables)?;
    let policies = put_count(Kind::Policy, edits);
    spare(&mut room.policies, catalog.policies.len(), policies)?;
    let enabled = put_count(Kind::Enablement, edits);
    spare(&mut room.enabled, catalog.enabled.len(), enabled)?;
    let fga = put_count(Kind::FineGrained, edits);
    spare(&mut room.fga, catalog.fga.len(), fga)
}

// The catalogue in vectors with room for what the edits put in.
fn roomy(room: CatalogLists, edits: &[Edit], catalog: Catalog) -> CatalogLists
    requires empty { AreEmpty room }
    requires room { AreSpared (counts_in catalog) edits.now room }
    ensures same { listed result ≡ catalog }
    ensures room { HasRoom edits.now result }
{
    let Catalog {
        users,
        roles,
        tables,
        policies,
        enabled,
        fga,
        archive,
    } = catalog;
    CatalogLists {
        users: holding(room.users, put_count(Kind::User, edits), users.into_vec()),
        roles: holding(room.roles, put_count(Kind::Role, edits), roles.into_vec()),
        tables: holding(
            room.tables,
            put_count(Kind::Table, edits),
            tables.into_vec(),
        ),
        policies: holding(
            room.policies,
            put_count(Kind::Policy, edits),
            policies.into_vec(),
        ),
        enabled: holding(
            room.enabled,
            put_count(Kind::Enablement, edits),
            enabled.into_vec(),
        ),
        fga: holding(
            room.fga,
            put_count(Kind::FineGrained, edits),
            fga.into_vec(),
        ),
        archive,
    }
}

// The catalogue of the vectors.
fn from_lists(lists: CatalogLists) -> Catalog
    ensures { result ≡ listed lists }
{
    Catalog {
        users: List::from_vec(lists.users),
        roles: List::from_vec(lists.roles),
        tables: List::from_vec(lists.tables),
        policies: List::from_vec(lists.policies),
        enabled: List::from_vec(lists.enabled),
        fga: List::from_vec(lists.fga),
        archive: lists.archive,
    }
}
