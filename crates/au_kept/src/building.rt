//! What is kept while it is built anew, change by change.
ghost use Rattle.std.specs.Prelude.{◌≡◌, ◌↔◌, [], IfOk, IsTrue, OnOk, Bool};
ghost use Rattle.std.specs.List.{AllByRecursion};
ghost use Rattle.au_base.specs.BuiltIn.{sys};
ghost use Rattle.au_entries.specs.Changing.{changed, changed_all, instance_after};
ghost use Rattle.au_entries.specs.Imaging.{nothing};
ghost use Rattle.au_entries.specs.Replaying.{AllGoOn, GoesOn, has_grantee, has_role, has_user};
ghost use Rattle.au_kept.specs.Building.{IsFirm, kept_in};
ghost use Rattle.au_kept.specs.Ranks.{AreRanked, IsRanked};
ghost use Rattle.au_replay.specs.Reading.{HasShortText, conditions};
ghost use Rattle.au_replay.specs.Sights.{AreOpenKeyed, IsSorted, showable, shown};
ghost use Rattle.au_replay.specs.Touched.{IsWholeWhereTouched};

use crate::laying::change_desk;
use crate::one_change::{change_catalog, change_grants};
use crate::ranks::{are_ranked, ranks_of};
use au_base::{Memory, Name};
use au_catalog::Catalog;
use au_entries::Change;
use au_grants::{GrantDraft, Grants};
use au_replay::{
    GrantsSeen, Sight, goes_on, has_sys, role_gone_goes_on, sys_grant_goes_on, touched_is_whole,
};
use au_txn::Desk;
use std::alloc::Global;
use std::collections::BTreeMap;

/// What is kept while it is built anew: all but the trail and the last stamp. Between two changes it
/// is lawful, and no client has changes; whole it is only behind the last change of a frame.
#[derive(Drop)]
pub(crate) struct Building {
    pub catalog: Catalog,
    pub grants: GrantDraft,
    pub desk: Desk,
    pub instance: u32,
}

impl Building {
    /// Nothing is kept.
    pub fn new(alloc: Global) -> Result<Building, Memory>
        ensures { IfOk result (λ building. IsFirm building × (kept_in building ≡ nothing)) }
    {
        crate::frames_hold();
        Ok(Building {
            catalog: Catalog::new(alloc),
            grants: GrantDraft::of(Grants::new(alloc)),
            desk: Desk::new(alloc)?,
            instance: 0,
        })
    }

    /// What is kept, as changes are tested against it.
    fn sight(&self) -> Sight<'_>
        requires firm { IsFirm self.now }
        ensures shown { shown result ≡ showable (kept_in self.now) }
        ensures sorted { IsSorted result }
        ensures opened { AreOpenKeyed result.tables.now result.desk.now.tables }
    {
        au_replay::sights_suffice();
        Sight {
            users: self.catalog.users.as_slice(),
            roles: self.catalog.roles.as_slice(),
            grants: GrantsSeen::Draft(&self.grants),
            tables: self.catalog.tables.as_slice(),
            desk: &self.desk,
            policies: self.catalog.policies.as_slice(),
            enabled: self.catalog.enabled.as_slice(),
            fga: self.catalog.fga.as_slice(),
            instance: self.instance,
        }
    }

    /// Whether the change goes on. `image` says whether it is one of an image.
    fn takes(&self, alloc: Global, image: bool, change: &Change) -> Result<bool, Memory>
        requires firm { IsFirm self.now }
        requires short { HasShortText change.now }
        ensures { IfOk result (λ goes. IsTrue goes ↔ GoesOn conditions image (kept_in self.now) change.now) }
    {
        au_replay::sights_suffice();
        goes_on(alloc, &self.sight(), image, change)
    }

    /// Whether the change goes on, where it and the grants of roles are ranked: then a grant of a role
    /// closes no circle, and none is looked for.
    fn takes_ranked(
        &self,
        alloc: Global,
        ranks: &BTreeMap<Name, u32>,
        image: bool,
        change: &Change,
    ) -> Result<bool, Memory>
        requires firm { IsFirm self.now }
        requires short { HasShortText change.now }
        requires ranked { IsRanked ranks.now.entries change.now }
        requires roles { AreRanked ranks.now.entries (kept_in self.now).grants.role }
        ensures { IfOk result (λ goes. IsTrue goes ↔ GoesOn conditions image (kept_in self.now) change.now) }
    {
        match change {
            Change::RoleGrant(grantee, role, _) => Ok(self.has_both(grantee, role)),
            _ => self.takes(alloc, image, change),
        }
    }

    // Whether the grantee is a user or a role, and the role is one.
    fn has_both(&self, grantee: &Name, role: &Name) -> bool
        requires firm { IsFirm self.now }
        ensures { IsTrue result ↔ (IsTrue (has_grantee (kept_in self.now) grantee.now) × IsTrue (has_role (kept_in self.now) role.now)) }
    {
        self.has_grantee(grantee) && self.has_role(role)
    }

    fn has_grantee(&self, name: &Name) -> bool
        requires firm { IsFirm self.now }
        ensures { IsTrue result ↔ IsTrue (has_grantee (kept_in self.now) name.now) }
    {
        sys_grant_goes_on(&self.sight(), name)
    }

    fn has_role(&self, name: &Name) -> bool
        requires firm { IsFirm self.now }
        ensures { IsTrue result ↔ IsTrue (has_role (kept_in self.now) name.now) }
    {
        role_gone_goes_on(&self.sight(), name)
    }

    /// Makes the change, which goes on.
    fn make(&mut self, alloc: Global, change: &Change) -> Result<(), Memory>
        requires firm { IsFirm self.old }
        requires short { HasShortText change.now }
        requires goes { (image : Bool) × GoesOn conditions image (kept_in self.old) change.now }
        ensures firm { OnOk result (IsFirm self.new) }
        ensures kept { OnOk result (kept_in self.new ≡ changed conditions.tree change.now (kept_in self.old)) }
    {
        au_entries::changes_keep_laws();
        change_catalog(alloc, &mut self.catalog, change)?;
        change_grants(alloc, &mut self.grants, change)?;
        change_desk(&mut self.desk, change)?;
        self.instance = instance_after(change, self.instance);
        Ok(())
    }

    /// Makes the change where it goes on. Where it doesn't, or there is no memory, nothing is said of
    /// what is left.
    pub fn go_on(&mut self, alloc: Global, image: bool, change: &Change) -> Result<bool, Memory>
        requires firm { IsFirm self.old }
        requires short { HasShortText change.now }
        ensures goes { IfOk result (λ goes. IsTrue goes ↔ GoesOn conditions image (kept_in self.old) change.now) }
        ensures firm { IfOk result (λ goes. IsTrue goes → IsFirm self.new) }
        ensures kept { IfOk result (λ goes. IsTrue goes → kept_in self.new ≡ changed conditions.tree change.now (kept_in self.old)) }
    {
        if !self.takes(alloc, image, change)? {
            return Ok(false);
        }
        self.make(alloc, change)?;
        Ok(true)
    }

    /// The same where the change and the grants of roles are ranked, as they are then again.
    pub fn go_on_ranked(
        &mut self,
        alloc: Global,
        ranks: &BTreeMap<Name, u32>,
        image: bool,
        change: &Change,
    ) -> Result<bool, Memory>
        requires firm { IsFirm self.old }
        requires short { HasShortText change.now }
        requires ranked { IsRanked ranks.now.entries change.now }
        requires roles { AreRanked ranks.now.entries (kept_in self.old).grants.role }
        ensures goes { IfOk result (λ goes. IsTrue goes ↔ GoesOn conditions image (kept_in self.old) change.now) }
        ensures firm { IfOk result (λ goes. IsTrue goes → IsFirm self.new) }
        ensures kept { IfOk result (λ goes. IsTrue goes → kept_in self.new ≡ changed conditions.tree change.now (kept_in self.old)) }
        ensures roles { IfOk result (λ goes. IsTrue goes → AreRanked ranks.now.entries (kept_in self.new).grants.role) }
    {
        if !self.takes_ranked(alloc, ranks, image, change)? {
            return Ok(false);
        }
        self.make(alloc, change)?;
        Ok(true)
    }

    /// Whether no role is granted.
    fn has_no_role_grant(&self) -> bool
        ensures { IsTrue result → (kept_in self.now).grants.role ≡ [] }
    {
        self.grants.role_grants().is_empty()
    }

    /// Whether SYS is a user, and what the changes touched is whole.
    pub fn is_whole(&self, alloc: Global, changes: &[Change]) -> Result<bool, Memory>
        requires firm { IsFirm self.now }
        ensures { IfOk result (λ whole. IsTrue whole ↔ (IsTrue (has_user (kept_in self.now) sys) × IsWholeWhereTouched changes.now (kept_in self.now))) }
    {
        let sight = self.sight();
        if !has_sys(&sight) {
            return Ok(false);
        }
        touched_is_whole(alloc, &sight, changes)
    }
}

/// Makes all changes, each where it goes on after those before it. Where one doesn't, or there is no
/// memory, nothing is said of what is left.
pub(crate) fn go_on_all(
    alloc: Global,
    building: &mut Building,
    image: bool,
    changes: &[Change],
) -> Result<bool, Memory>
    requires firm { IsFirm building.old }
    requires short { AllByRecursion HasShortText changes.now }
    ensures goes { IfOk result (λ goes. IsTrue goes ↔ AllGoOn conditions image (kept_in building.old) changes.now) }
    ensures firm { IfOk result (λ goes. IsTrue goes → IsFirm building.new) }
    ensures kept { IfOk result (λ goes. IsTrue goes → kept_in building.new ≡ changed_all conditions.tree changes.now (kept_in building.old)) }
{
    let ranks = ranks_of(alloc, changes)?;
    if building.has_no_role_grant() && are_ranked(&ranks, changes) {
        return go_on_ranked(alloc, building, &ranks, image, changes);
    }
    go_on_searching(alloc, building, image, changes)
}

// Makes all changes, where they and the grants of roles are ranked.
fn go_on_ranked(
    alloc: Global,
    building: &mut Building,
    ranks: &BTreeMap<Name, u32>,
    image: bool,
    changes: &[Change],
) -> Result<bool, Memory>
    requires firm { IsFirm building.old }
    requires short { AllByRecursion HasShortText changes.now }
    requires ranked { AllByRecursion (IsRanked ranks.now.entries) changes.now }
    requires roles { AreRanked ranks.now.entries (kept_in building.old).grants.role }
    ensures goes { IfOk result (λ goes. IsTrue goes ↔ AllGoOn conditions image (kept_in building.old) changes.now) }
    ensures firm { IfOk result (λ goes. IsTrue goes → IsFirm building.new) }
    ensures kept { IfOk result (λ goes. IsTrue goes → kept_in building.new ≡ changed_all conditions.tree changes.now (kept_in building.old)) }
{
    for change in changes {
        if !building.go_on_ranked(alloc, ranks, image, change)? {
            return Ok(false);
        }
    }
    Ok(true)
}

// Makes all changes, where for each grant of a role a circle is looked for.
fn go_on_searching(
    alloc: Global,
    building: &mut Building,
    image: bool,
    changes: &[Change],
) -> Result<bool, Memory>
    requires firm { IsFirm building.old }
    requires short { AllByRecursion HasShortText changes.now }
    ensures goes { IfOk result (λ goes. IsTrue goes ↔ AllGoOn conditions image (kept_in building.old) changes.now) }
    ensures firm { IfOk result (λ goes. IsTrue goes → IsFirm building.new) }
    ensures kept { IfOk result (λ goes. IsTrue goes → kept_in building.new ≡ changed_all conditions.tree changes.now (kept_in building.old)) }
{
    for change in changes {
        if !building.go_on(alloc, image, change)? {
            return Ok(false);
        }
    }
    Ok(true)
}

// The number of the instance after the change.
fn instance_after(change: &Change, before: u32) -> u32
    ensures { result ≡ instance_after change.now before }
{
    match change {
        Change::Start(instance) => *instance,
        _ => before,
    }
}
