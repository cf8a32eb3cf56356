//! How far the pairs of a statement are done.
ghost use Rattle.std.specs.Prelude.{◌≡◌, ◌<◌, ◌+◌, ◌++◌, ◌↔◌, [], IfOk, IfSome, IsTrue};
ghost use Rattle.std.specs.List.{list_any};
ghost use Rattle.au_base.specs.Limits.{GRANTS};
ghost use Rattle.au_grants.specs.declared.grants.Grants.{Grants};
ghost use Rattle.au_grants.specs.Changing.{applied_all};
ghost use Rattle.au_grants.specs.Holding.{grants_object, grants_privilege, grants_privilege_as, grants_role, grants_role_as};
ghost use Rattle.au_grants.specs.Rights.{IsHolder, grant_count};

use crate::standing::{are_aside, stands_object, stands_privilege, stands_role};
use au_base::limits::GRANTS;
use au_base::{Action, List, Memory, Name, Privilege, TableName};
use au_grants::{Course, GrantChange, Grants, changes_add_one_grant_at_most};
use std::alloc::Global;
use std::marker::Model;

// So many pairs are few: each question about the grants after them goes over all their changes.
// Behind more, the grants are copied once and the changes made on the copy.
const FEW_PAIRS: usize = 64;

/// How far the pairs of a statement are done: the changes so far, on the grants that were there
/// before it. These are lent, and copied only behind more than a few pairs, where an earlier grant of
/// a role isn't found to be aside of the one that is asked, or where the limit is near.
#[derive(Drop)]
pub struct Progress<'a> {
    before: &'a Grants,
    changes: List<GrantChange>,
    // How many pairs are done.
    pairs: usize,
    // The grants after the changes, where they were copied.
    copy: Option<Course>,
}

impl<'a> Model for Progress<'a> {
    ghost use Rattle.std.specs.Prelude.{◌≡◌, IfSome};
    ghost use Rattle.au_grants.specs.Changing.{applied_all};
    ghost use Rattle.au_priv.specs.descent.Progressing.{Done};

    ghost Value = { Done };

    ghost view = { λ p. record { after = applied_all p.changes p.before.now; changes = p.changes } };

    ghost invariant = { λ p. IfSome p.copy (λ course. course ≡ applied_all p.changes p.before.now) };
}

impl<'a> Progress<'a> {
    /// Nothing is done. It takes no memory.
    pub fn new(alloc: Global, grants: &'a Grants) -> Progress<'a>
        ensures after { result.after ≡ grants.now }
        ensures changes { result.changes ≡ [] }
    {
        Progress {
            before: grants,
            changes: List::new(alloc),
            pairs: 0,
            copy: None,
        }
    }

    /// The changes so far.
    pub fn into_changes(self) -> List<GrantChange>
        ensures { result ≡ self.entry.changes }
    {
        let Progress { changes, .. } = self;
        changes
    }

    /// What is done once a pair has made these changes too.
    #[tactic(auto, using(crate::proofs::Walks::applied_joined))]
    pub fn with(self, alloc: Global, made: List<GrantChange>) -> Result<Progress<'a>, Memory>
        ensures changes { IfOk result (λ end. end.changes ≡ self.entry.changes ++ made) }
        ensures after { IfOk result (λ end. end.after ≡ applied_all made self.entry.after) }
    {
        let Progress {
            before,
            changes,
            pairs,
            copy,
        } = self;
        let copy = made_on(copy, before, changes.as_slice(), made.as_slice())?;
        let changes = joined(changes, made)?;
        let mut progress = Progress {
            before,
            changes,
            pairs: pairs.saturating_add(1),
            copy,
        };
        if progress.pairs > FEW_PAIRS {
            let course = progress.take_copy(alloc)?;
            progress.copy = Some(course);
        }
        Ok(progress)
    }

    /// Whether the system privilege is granted to the grantee directly.
    #[tactic(auto, using(crate::proofs::Stands::any_privilege_as))]
    pub fn has_privilege(&self, grantee: &Name, privilege: Privilege) -> bool
        ensures { result ≡ list_any (grants_privilege grantee.now privilege) self.now.after.system }
    {
        self.has_privilege_as(grantee, privilege, false)
    }

    /// The same, and with admin option where that is asked.
    pub fn has_privilege_as(&self, grantee: &Name, privilege: Privilege, admin: bool) -> bool
        ensures { result ≡ list_any (grants_privilege_as grantee.now privilege admin) self.now.after.system }
    {
        match &self.copy {
            Some(course) => course.has_privilege_as(grantee, privilege, admin),
            None => stands_privilege(
                self.before,
                self.changes.as_slice(),
                grantee,
                privilege,
                admin,
            ),
        }
    }

    /// Whether the role is granted to the grantee directly.
    #[tactic(auto, using(crate::proofs::Stands::any_role_as))]
    pub fn has_role(&self, grantee: &Name, role: &str) -> bool
        ensures { result ≡ list_any (grants_role grantee.now role.now) self.now.after.role }
    {
        self.has_role_as(grantee, role, false)
    }

    /// The same, and with admin option where that is asked.
    pub fn has_role_as(&self, grantee: &Name, role: &str, admin: bool) -> bool
        ensures { result ≡ list_any (grants_role_as grantee.now role.now admin) self.now.after.role }
    {
        match &self.copy {
            Some(course) => course.has_role_as(grantee, role, admin),
            None => stands_role(self.before, self.changes.as_slice(), grantee, role, admin),
        }
    }

    /// Whether the object privilege is granted to the grantee directly.
    pub fn has_object(&self, grantee: &Name, table: &TableName, action: Action) -> bool
        ensures { result ≡ list_any (grants_object grantee.now table.now action) self.now.after.object }
    {
        match &self.copy {
            Some(course) => course.has_object(grantee, table, action),
            None => stands_object(self.before, self.changes.as_slice(), grantee, table, action),
        }
    }

    /// Whether a grant of the role to the grantee would close a circle. What is done stays.
    pub fn closes_circle(
        &mut self,
        alloc: Global,
        grantee: &Name,
        role: &Name,
    ) -> Result<bool, Memory>
        ensures closes { IfOk result (λ closes. IsTrue closes ↔ IsHolder self.old.after.role role.now grantee.now) }
        ensures same { self.new ≡ self.old }
    {
        if self.copy.is_none() && are_aside(self.before, self.changes.as_slice(), role, grantee) {
            return Ok(self.before.closes_circle(grantee, role));
        }
        let mut course = self.take_copy(alloc)?;
        let closes = course.closes_circle(alloc, grantee, role)?;
        self.copy = Some(course);
        Ok(closes)
    }

    /// Whether so many grants more are over the limit. What is done stays.
    pub fn is_full(&mut self, alloc: Global, more: usize) -> Result<bool, Memory>
        ensures full { IfOk result (λ full. IsTrue full ↔ (GRANTS < grant_count self.old.after + more)) }
        ensures same { self.new ≡ self.old }
    {
        changes_add_one_grant_at_most();
        let room = GRANTS - self.before.count();
        if more <= room && self.changes.len() <= room - more {
            return Ok(false);
        }
        if self.changes.is_empty() {
            return Ok(true);
        }
        let course = self.take_copy(alloc)?;
        let full = is_full(&course, more);
        self.copy = Some(course);
        Ok(full)
    }

    // The grants after the changes: those that were copied, or a copy. What is done stays.
    fn take_copy(&mut self, alloc: Global) -> Result<Course, Memory>
        ensures copy { IfOk result (λ course. course ≡ self.old.after) }
        ensures same { self.new ≡ self.old }
    {
        match self.copy.take() {
            Some(course) => Ok(course),
            None => {
                let course = Course::of(alloc, self.before.clone()?);
                Ok(course.after(self.changes.as_slice())?)
            }
        }
    }
}

// What was copied after the changes, after those that are made now too.
#[tactic(auto, using(crate::proofs::Walks::applied_joined))]
fn made_on(
    copy: Option<Course>,
    before: &Grants,
    changes: &[GrantChange],
    made: &[GrantChange],
) -> Result<Option<Course>, Memory>
    requires { IfSome copy (λ course. course ≡ applied_all changes.now before.now) }
    ensures { IfOk result (λ copied. IfSome copied (λ course. course ≡ applied_all (changes.now ++ made.now) before.now)) }
{
    match copy {
        Some(course) => Ok(Some(course.after(made)?)),
        None => Ok(None),
    }
}

fn is_full(course: &Course, more: usize) -> bool
    ensures { IsTrue result ↔ (GRANTS < grant_count course.now + more) }
{
    let (system, role, object) = course.counts();
    let count = system.saturating_add(role).saturating_add(object);
    GRANTS < count.saturating_add(more)
}

fn joined(changes: List<GrantChange>, more: List<GrantChange>) -> Result<List<GrantChange>, Memory>
    ensures { IfOk result (λ all. all ≡ changes ++ more) }
{
    let mut all = changes.into_vec();
    let mut rest = more.into_vec();
    all.append(&mut rest)?;
    Ok(List::from_vec(all))
}
