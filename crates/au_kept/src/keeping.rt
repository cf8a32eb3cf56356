//! What is kept, and the changes of open transactions over it.
ghost use Rattle.std.specs.Prelude.{◌≡◌, ◌≤◌, [], IfOk, IsTrue, map};
ghost use Rattle.au_base.specs.BuiltIn.{sys};
ghost use Rattle.au_catalog.specs.Settling.{catalog_of};
ghost use Rattle.au_entries.specs.Imaging.{nothing};
ghost use Rattle.au_entries.specs.Replaying.{has_user};
ghost use Rattle.au_image.specs.Image.{image_of, kept_of};
ghost use Rattle.au_kept.specs.Frames.{IsReplayable, after_frame};
ghost use Rattle.au_kept.specs.Keeping.{HoldsTogether, desk_of};
ghost use Rattle.au_kept.specs.OpenChanges.{AreSoundChanges};
ghost use Rattle.au_replay.specs.Reading.{conditions};
ghost use Rattle.au_kept.specs.Sound.{IsKept};
ghost use Rattle.au_txn.specs.Desks.{open_of, replayer};
ghost use Rattle.au_txn.specs.Keys.{IsKeyedDesk};
ghost use Rattle.rec_codec.specs.Frames.{IsSpellable, framed};

use crate::laws::{frames_hold, images_lead_back};
use au_base::{Cell, ClientNo, List, Memory, RowNo, Stamp, TableName};
use au_catalog::{Catalog, Kept, Record};
use au_grants::Grants;
use au_image::Told;
use au_txn::Desk;
use std::alloc::Global;
use std::marker::Model;

/// What is kept, and the changes of open transactions over it. Contracts see what is kept as one
/// value, each client's changes, and for how much more there is room.
#[derive(Drop)]
pub struct Keeping {
    pub(crate) catalog: Catalog,
    pub(crate) grants: Grants,
    /// The committed rows, and each client's changes of rows.
    pub(crate) desk: Desk,
    /// The records, oldest first.
    pub(crate) trail: Vec<Record>,
    pub(crate) last: Stamp,
    pub(crate) instance: u32,
}

impl Model for Keeping {
    ghost use Rattle.std.specs.Prelude.{◌-◌, map, vec_len, vec_capacity};
    ghost use Rattle.std.specs.Coded.{codes as value_codes};
    ghost use Rattle.sql_ast.specs.contracts.expression.Expr as expression;
    ghost use Rattle.au_image.specs.Image.{kept_of};
    ghost use Rattle.au_kept.specs.Keeping.{Contents, HoldsTogether};
    ghost use Rattle.au_txn.specs.Rows.{triple_of};

    ghost Value = { Contents };

    ghost coded = { Prim.hlevel (value_codes, expression.the_row.coded) };

    ghost view = { λ k. record {
      kept = kept_of k.catalog k.grants (map triple_of k.desk.rows) k.trail.items k.last k.instance;
      logs = k.desk.logs;
      spare = k.desk.spare;
      room = vec_capacity k.trail - vec_len k.trail;
    } };

    ghost invariant = { λ k. HoldsTogether (kept_of k.catalog k.grants (map triple_of k.desk.rows) k.trail.items k.last k.instance) k.desk };
}

impl Keeping {
    /// Nothing is kept, and no client has changes: the frames of a journal are replayed on it.
    pub fn blank(alloc: Global) -> Result<Keeping, Memory>
        ensures kept { IfOk result (λ keeping. keeping.kept ≡ nothing) }
        ensures logs { IfOk result (λ keeping. keeping.logs ≡ []) }
    {
        let desk = Desk::new(alloc)?;
        Ok(Keeping::over(alloc, desk))
    }

    // Nothing is kept but what the desk has, which is nothing.
    fn over(alloc: Global, desk: Desk) -> Keeping
        requires { desk ≡ record { tables = []; rows = []; logs = []; laid = []; spare = 0 } }
        ensures kept { result.kept ≡ nothing }
        ensures logs { result.logs ≡ [] }
    {
        frames_hold();
        au_txn::desks_stay_keyed();
        Keeping {
            catalog: empty_catalog(alloc),
            grants: Grants::new(alloc),
            desk,
            trail: Vec::new(alloc),
            last: Stamp(0),
            instance: 0,
        }
    }

    /// What holds of every keeping: what is kept is lawful, is whole and has a spelling; keys keep their
    /// discipline; the client by which rows are replayed has no changes; and the changes of the others
    /// are sound. It does nothing, and states it for its callers.
    pub fn holds_together(&self)
        ensures kept { IsKept conditions self.now.kept }
        ensures keyed { IsKeyedDesk (desk_of self.now) }
        ensures quiet { open_of (desk_of self.now) replayer ≡ [] }
        ensures changes { AreSoundChanges self.now.kept.tables (desk_of self.now) }
        ensures together { HoldsTogether self.now.kept (desk_of self.now) }
    {
        au_txn::rows_are_triples();
        let _catalog = &self.catalog;
    }

    /// The catalogue.
    pub fn catalog(&self) -> &Catalog
        ensures { result.now ≡ catalog_of self.now.kept }
    {
        &self.catalog
    }

    /// The grants.
    pub fn grants(&self) -> &Grants
        ensures { result.now ≡ self.now.kept.grants }
    {
        &self.grants
    }

    /// The committed rows, and each client's changes of rows.
    pub fn desk(&self) -> &Desk
        ensures { result.now ≡ desk_of self.now }
    {
        au_txn::rows_are_triples();
        &self.desk
    }

    /// The records of the trail, oldest first.
    pub fn trail(&self) -> &[Record]
        ensures { result.now ≡ self.now.kept.trail }
    {
        self.trail.as_slice()
    }

    /// The last stamp of an event that changed what is kept.
    pub fn last(&self) -> Stamp
        ensures { result ≡ self.now.kept.last }
    {
        self.last
    }

    /// The number of the instance.
    pub fn instance(&self) -> u32
        ensures { result ≡ self.now.kept.instance }
    {
        self.instance
    }

    // A copy of the committed rows, by table and number.
    fn copy_rows(&self, alloc: Global) -> Result<List<(TableName, RowNo, List<Cell>)>, Memory>
        ensures { IfOk result (λ rows. rows ≡ self.now.kept.rows) }
    {
        au_image::copy_rows(alloc, &self.desk, self.catalog.tables.as_slice())
    }

    /// The framed image of what is kept. It leads from nothing to what is kept, and goes on from
    /// nothing where SYS is a user, as it is after each frame. What has more changes or records than
    /// an image can count, 4,294,967,295, answers `Memory`.
    pub fn image(&self, alloc: Global) -> Result<Vec<u8>, Memory>
        ensures bytes { IfOk result (λ bytes. bytes.items ≡ framed (image_of self.now.kept)) }
        ensures spellable { IfOk result (λ bytes. IsSpellable (image_of self.now.kept)) }
        ensures back { after_frame conditions.tree nothing (image_of self.now.kept) ≡ self.now.kept }
        ensures goes { IsTrue (has_user self.now.kept sys) → IsReplayable conditions nothing (image_of self.now.kept) }
    {
        images_lead_back();
        au_image::image(
            alloc,
            &self.catalog,
            &self.grants,
            &self.desk,
            ClientNo(0),
            &Told::all(self.trail.as_slice(), self.last),
            self.instance,
        )
    }

    /// What is kept, where the keeping isn't needed any more. It copies all rows, and is for exports
    /// and trials.
    pub fn into_kept(self, alloc: Global) -> Result<Kept, Memory>
        ensures { IfOk result (λ kept. kept ≡ self.kept) }
    {
        let rows = self.copy_rows(alloc)?;
        Ok(self.with_rows(rows))
    }

    fn with_rows(self, rows: List<(TableName, RowNo, List<Cell>)>) -> Kept
        requires { rows ≡ self.kept.rows }
        ensures { result ≡ self.kept }
    {
        let Keeping {
            catalog,
            grants,
            desk: _,
            trail,
            last,
            instance,
        } = self;
        let Catalog {
            users,
            roles,
            tables,
            policies,
            enabled,
            fga,
            archive,
        } = catalog;
        Kept {
            users,
            roles,
            grants,
            tables,
            rows,
            policies,
            enabled,
            fga,
            trail: List::from_vec(trail),
            archive,
            last,
            instance,
        }
    }
}

/// A catalogue with nothing in it.
fn empty_catalog(alloc: Global) -> Catalog
    ensures { result ≡ catalog_of nothing }
{
    Catalog {
        users: List::new(alloc),
        roles: List::new(alloc),
        tables: List::new(alloc),
        policies: List::new(alloc),
        enabled: List::new(alloc),
        fga: List::new(alloc),
        archive: None,
    }
}
