//! Frames of few changes of which none is of a row, replayed in place.
ghost use Rattle.std.specs.Prelude.{◌≡◌, ◌≢◌, ◌↔◌, ◌≤◌, ◌+◌, [], Bool, IfOk, IsTrue, OnErr, false};
ghost use Rattle.std.specs.List.{AllByRecursion};
ghost use Rattle.au_base.specs.BuiltIn.{sys};
ghost use Rattle.au_base.specs.Limits.{CATALOG_OBJECTS, LAST_MOMENT};
ghost use Rattle.au_base.specs.declared.numbers.ClientNo.{ClientNo as Client};
ghost use Rattle.au_entries.specs.declared.change.Change.TheVariants as change;
ghost use Rattle.au_entries.specs.Frames.{PartsGoOn, after_parts};
ghost use Rattle.au_entries.specs.Replaying.{AllGoOn, GoesOn, has_grantee, has_role};
ghost use Rattle.au_grants.specs.Rights.{IsHolder};
ghost use Rattle.au_kept.specs.Frames.{IsReplayable, after_frame};
ghost use Rattle.au_kept.specs.Quick.{AreApart, AreInPlace, HasGrantee, HasNewGrantee, IsGrantOf, IsInPlace, IsLone, IsNewRole, IsPlain, IsRoleMade, IsRoomy, changes_in, put_count};
ghost use Rattle.au_replay.specs.Reading.{HasShortText, conditions};
ghost use Rattle.au_txn.specs.Logs.{changes_of};
ghost use Rattle.rec_codec.specs.Changes.{IsChangeSpellable};
ghost use Rattle.rec_codec.specs.Frames.{IsSpellable};
ghost use Rattle.rec_codec.specs.Records.{trail_record};

use crate::Keeping;
use crate::grants_apart::are_grants;
use crate::kind::{Kind, put_count};
use crate::laying_rows::sight_of;
use au_base::built_in::SYS;
use au_base::limits::{CATALOG_OBJECTS, GRANTS, TABLE_COLUMNS};
use au_base::{List, Memory, Name, Stamp};
use au_entries::{Change, Record};
use au_replay::{goes_on, role_gone_goes_on, sys_grant_goes_on};
use rec_codec::Frame;
use std::alloc::Global;

// Whether the change is of no row and not of SYS, and a table that it makes isn't too wide.
fn is_plain(change: &Change) -> bool
    ensures { IsTrue result ↔ IsPlain change.now }
{
    match change {
        Change::Put(..) => false,
        Change::Gone(..) => false,
        Change::User(name, _) => is_not_sys(name),
        Change::UserGone(name) => is_not_sys(name),
        Change::Table(_, columns, _) => columns.len() <= TABLE_COLUMNS,
        _ => true,
    }
}

fn is_not_sys(name: &Name) -> bool
    ensures { IsTrue result ↔ (name.now ≢ sys) }
{
    name.as_str() != SYS
}

// Whether there is one change, a plain one.
fn is_lone(changes: &[Change]) -> bool
    ensures { IsTrue result ↔ IsLone changes.now }
{
    match changes {
        [change] => is_plain(change),
        _ => false,
    }
}

// Whether the change grants the role to somebody else.
fn is_grant_of(role: &Name, change: &Change) -> bool
    ensures { IsTrue result ↔ IsGrantOf role.now change.now }
{
    match change {
        Change::RoleGrant(grantee, granted, _) => granted == role && grantee != role,
        _ => false,
    }
}

fn has_room(count: usize, more: usize, limit: usize) -> bool
    ensures { IsTrue result ↔ (count + more ≤ limit) }
{
    count <= limit && more <= limit - count
}

// Whether a list of the catalogue with so many entries has room for those that the changes put into it.
fn can_grow(count: usize, kind: Kind, changes: &[Change]) -> bool
    ensures { IsTrue result ↔ (count + put_count kind changes.now ≤ CATALOG_OBJECTS) }
{
    has_room(count, put_count(kind, changes), CATALOG_OBJECTS)
}

impl Keeping {
    /// Whether the frame is no image, and its changes, of which none is of a row, can be tested before
    /// they are made, and have room within the limits: then it is replayed in place. They are one
    /// change that isn't of SYS, a new role with its grant, or grants, of which those of roles to roles
    /// have one grantee or are of one role.
    pub(crate) fn is_in_place(&self, frame: &Frame) -> bool
        ensures { IsTrue result ↔ IsInPlace self.now.kept frame.now }
    {
        match frame {
            Frame::Image { .. } => false,
            Frame::Event { changes, .. } => self.are_in_place(changes.as_slice()),
            Frame::Purge { changes, .. } => self.are_in_place(changes.as_slice()),
        }
    }

    fn are_in_place(&self, changes: &[Change]) -> bool
        ensures { IsTrue result ↔ AreInPlace self.now.kept changes.now }
    {
        (self.is_new_role(changes) || self.are_apart(changes)) && self.is_roomy(changes)
    }

    // Whether each change goes on behind the others where it does by itself.
    fn are_apart(&self, changes: &[Change]) -> bool
        ensures { IsTrue result ↔ AreApart self.now.kept changes.now }
    {
        is_lone(changes) || (are_grants(changes) && self.share_name(changes))
    }

    // Whether there are two changes, a role that is made and a grant of it.
    fn is_new_role(&self, changes: &[Change]) -> bool
        ensures { IsTrue result ↔ IsNewRole self.now.kept changes.now }
    {
        match changes {
            [first, second] => self.is_role_made(first, second),
            _ => false,
        }
    }

    fn is_role_made(&self, first: &Change, second: &Change) -> bool
        ensures { IsTrue result ↔ IsRoleMade self.now.kept first.now second.now }
    {
        match first {
            Change::Role(name) => !self.has_grantee(name) && is_grant_of(name, second),
            _ => false,
        }
    }

    // Whether each list has room for the entries that the changes put into it.
    fn is_roomy(&self, changes: &[Change]) -> bool
        ensures { IsTrue result ↔ IsRoomy self.now.kept changes.now }
    {
        can_grow(self.catalog.users.len(), Kind::User, changes)
            && can_grow(self.catalog.roles.len(), Kind::Role, changes)
            && can_grow(self.catalog.tables.len(), Kind::Table, changes)
            && can_grow(self.catalog.policies.len(), Kind::Policy, changes)
            && can_grow(self.catalog.fga.len(), Kind::FineGrained, changes)
            && has_room(self.grants.count(), put_count(Kind::Grant, changes), GRANTS)
    }

    // Whether the name is that of a user or a role.
    fn has_grantee(&self, name: &Name) -> bool
        ensures { result ≡ has_grantee self.now.kept name.now }
    {
        au_replay::sights_suffice();
        let sight = sight_of(&self.catalog, &self.grants, &self.desk, self.instance);
        sys_grant_goes_on(&sight, name)
    }

    /// Whether the name is that of a role.
    pub(crate) fn has_role(&self, name: &Name) -> bool
        ensures { result ≡ has_role self.now.kept name.now }
    {
        au_replay::sights_suffice();
        let sight = sight_of(&self.catalog, &self.grants, &self.desk, self.instance);
        role_gone_goes_on(&sight, name)
    }

    /// Replays the frame, whose changes can be tested before they are made, where it goes on from what
    /// is kept. Nothing is changed where it doesn't, or where there is no memory. No client has
    /// changes.
    pub(crate) fn replay_in_place(&mut self, alloc: Global, frame: Frame) -> Result<bool, Memory>
        requires few { IsInPlace self.old.kept frame }
        requires spelled { IsSpellable frame }
        requires short { AllByRecursion HasShortText (changes_in frame) }
        requires alone { (client : Client) → changes_of client self.old.logs ≡ [] }
        ensures goes { IfOk result (λ goes. IsTrue goes ↔ IsReplayable conditions self.old.kept frame) }
        ensures after { IfOk result (λ goes. IsTrue goes → self.new.kept ≡ after_frame conditions.tree self.old.kept frame) }
        ensures refused { IfOk result (λ goes. goes ≡ false → self.new.kept ≡ self.old.kept) }
        ensures err { OnErr result (self.new.kept ≡ self.old.kept) }
        ensures alone { (client : Client) → changes_of client self.new.logs ≡ [] }
    {
        match frame {
            Frame::Image { .. } => Ok(false),
            Frame::Event {
                stamp,
                changes,
                records,
            } => self.replay_changes(alloc, stamp, None, changes, records),
            Frame::Purge {
                stamp,
                before,
                changes,
                records,
            } => self.replay_changes(alloc, stamp, Some(before), changes, records),
        }
    }

    // Replays a frame with these parts.
    fn replay_changes(
        &mut self,
        alloc: Global,
        stamp: Stamp,
        purge: Option<Option<Stamp>>,
        changes: List<Change>,
        records: List<Record>,
    ) -> Result<bool, Memory>
        requires few { AreInPlace self.old.kept changes }
        requires moment { stamp.0 ≤ LAST_MOMENT }
        requires spelled { AllByRecursion IsChangeSpellable changes }
        requires told { AllByRecursion trail_record.IsSpellable records }
        requires short { AllByRecursion HasShortText changes }
        requires alone { (client : Client) → changes_of client self.old.logs ≡ [] }
        ensures goes { IfOk result (λ goes. IsTrue goes ↔ PartsGoOn conditions false self.old.kept stamp changes) }
        ensures after { IfOk result (λ goes. IsTrue goes → self.new.kept ≡ after_parts conditions.tree stamp purge changes records self.old.kept) }
        ensures refused { IfOk result (λ goes. goes ≡ false → self.new.kept ≡ self.old.kept) }
        ensures err { OnErr result (self.new.kept ≡ self.old.kept) }
        ensures alone { (client : Client) → changes_of client self.new.logs ≡ [] }
    {
        self.make_changes(alloc, stamp, purge, changes.as_slice(), records)
    }

    // Makes the changes and ends the frame.
    fn make_changes(
        &mut self,
        alloc: Global,
        stamp: Stamp,
        purge: Option<Option<Stamp>>,
        changes: &[Change],
        records: List<Record>,
    ) -> Result<bool, Memory>
        requires few { AreInPlace self.old.kept changes.now }
        requires moment { stamp.0 ≤ LAST_MOMENT }
        requires spelled { AllByRecursion IsChangeSpellable changes.now }
        requires told { AllByRecursion trail_record.IsSpellable records }
        requires short { AllByRecursion HasShortText changes.now }
        requires alone { (client : Client) → changes_of client self.old.logs ≡ [] }
        ensures goes { IfOk result (λ goes. IsTrue goes ↔ PartsGoOn conditions false self.old.kept stamp changes.now) }
        ensures after { IfOk result (λ goes. IsTrue goes → self.new.kept ≡ after_parts conditions.tree stamp purge changes.now records self.old.kept) }
        ensures refused { IfOk result (λ goes. goes ≡ false → self.new.kept ≡ self.old.kept) }
        ensures err { OnErr result (self.new.kept ≡ self.old.kept) }
        ensures alone { (client : Client) → changes_of client self.new.logs ≡ [] }
    {
        au_replay::touched_parts_suffice();
        au_grants::changes_add_one_grant_at_most();
        self.holds_together();
        if !self.may_follow(stamp) {
            return Ok(false);
        }
        if !self.takes(alloc, changes)? {
            return Ok(false);
        }
        let staged = self.stage(alloc, changes, records.len())?;
        self.settle(staged, None, records.into_vec(), purge, stamp);
        Ok(true)
    }

    // Whether the changes go on, each after those before it.
    fn takes(&self, alloc: Global, changes: &[Change]) -> Result<bool, Memory>
        requires few { AreInPlace self.now.kept changes.now }
        requires short { AllByRecursion HasShortText changes.now }
        ensures { IfOk result (λ goes. IsTrue goes ↔ AllGoOn conditions false self.now.kept changes.now) }
    {
        au_entries::changes_keep_laws();
        self.holds_together();
        if self.are_apart(changes) {
            return self.takes_each(alloc, changes);
        }
        Ok(self.takes_new_role(changes))
    }

    // Whether each of the changes goes on by itself.
    fn takes_each(&self, alloc: Global, changes: &[Change]) -> Result<bool, Memory>
        requires short { AllByRecursion HasShortText changes.now }
        ensures { IfOk result (λ goes. IsTrue goes ↔ AllByRecursion (GoesOn conditions false self.now.kept) changes.now) }
    {
        for change in changes {
            if !self.takes_one(alloc, change)? {
                return Ok(false);
            }
        }
        Ok(true)
    }

    fn takes_one(&self, alloc: Global, change: &Change) -> Result<bool, Memory>
        requires short { HasShortText change.now }
        ensures { IfOk result (λ goes. IsTrue goes ↔ GoesOn conditions false self.now.kept change.now) }
    {
        match change {
            Change::RoleGrant(grantee, role, _) => Ok(self.takes_role_grant(grantee, role)),
            _ => self.goes_on(alloc, change),
        }
    }

    // Whether the grant of the role goes on.
    fn takes_role_grant(&self, grantee: &Name, role: &Name) -> bool
        ensures { (admin : Bool) → IsTrue result ↔ GoesOn conditions false self.now.kept (change.RoleGrant grantee.now role.now admin) }
    {
        self.has_grantee(grantee) && self.has_role(role) && !self.closes_circle(grantee, role)
    }

    // Whether a grant of the role would close a circle. None is looked for where the grantee is no role:
    // then no role holds it.
    fn closes_circle(&self, grantee: &Name, role: &Name) -> bool
        requires { IsTrue (has_role self.now.kept role.now) }
        ensures { IsTrue result ↔ IsHolder self.now.kept.grants.role role.now grantee.now }
    {
        self.holds_together();
        self.has_role(grantee) && self.grants.closes_circle(grantee, role)
    }

    fn goes_on(&self, alloc: Global, change: &Change) -> Result<bool, Memory>
        requires short { HasShortText change.now }
        ensures { IfOk result (λ goes. IsTrue goes ↔ GoesOn conditions false self.now.kept change.now) }
    {
        au_replay::sights_suffice();
        let sight = sight_of(&self.catalog, &self.grants, &self.desk, self.instance);
        goes_on(alloc, &sight, false, change)
    }

    // Whether a new role and its grant go on: where the grantee is there.
    fn takes_new_role(&self, changes: &[Change]) -> bool
        requires { IsNewRole self.now.kept changes.now }
        ensures { IsTrue result ↔ AllGoOn conditions false self.now.kept changes.now }
    {
        self.holds_together();
        self.has_new_grantee(changes)
    }

    // Whether the grantee of the second of two changes is there.
    fn has_new_grantee(&self, changes: &[Change]) -> bool
        ensures { IsTrue result ↔ HasNewGrantee self.now.kept changes.now }
    {
        match changes {
            [_, second] => self.has_grantee_of(second),
            _ => false,
        }
    }

    // Whether the grantee of the role is there.
    fn has_grantee_of(&self, change: &Change) -> bool
        ensures { IsTrue result ↔ HasGrantee self.now.kept change.now }
    {
        match change {
            Change::RoleGrant(grantee, _, _) => self.has_grantee(grantee),
            _ => false,
        }
    }
}
