//! Catalogues of audit policies, statements and kept results, drawn by numbers that follow from a
//! seed.
ghost use Rattle.std.specs.Prelude.{IfOk, IsTrue};
ghost use Rattle.au_audit.specs.Conditions.{result_before};
ghost use Rattle.au_base.specs.Order.{is_in_order};
ghost use Rattle.au_policy.specs.Asking.{AreInOrder};

use au_base::{Action, Code, List, Name, Privilege, SessionNo, Stamp, TableName, Text};
use au_catalog::Catalog;
use au_entries::{AuditPolicy, Condition, Enabled, Evaluate, Facts, KeptResults, Outcomes};
use au_expr::SessionFacts;
use au_grants::{GrantChange, GrantDraft, Grants};
use sql_parse::condition;
use std::alloc::Global;
use trials_lines::{Fault, name};

/// What is drawn from.
#[derive(Drop)]
pub struct Draw {
    state: u64,
}

impl Draw {
    /// What this seed gives.
    pub fn new(seed: u64) -> Draw {
        Draw { state: seed }
    }

    /// The next number, less than this one; 0 for 0.
    pub fn below(&mut self, bound: u64) -> u64 {
        self.state = self
            .state
            .wrapping_mul(6_364_136_223_846_793_005)
            .wrapping_add(1_442_695_040_888_963_407);
        if bound == 0 {
            return 0;
        }
        (self.state >> 33) % bound
    }

    /// Whether one of so many is drawn.
    pub fn is_one_of(&mut self, count: u64) -> bool {
        self.below(count) == 0
    }
}

// The letter with the number, of five digits.
fn numbered(alloc: Global, letter: &str, number: u64) -> Result<Name, Fault> {
    let number = number.saturating_add(10_000);
    let text = format!(in alloc; "{letter}{number}")?;
    name(alloc, text.as_str())
}

// A table of the user A.
fn table(alloc: Global, number: u64) -> Result<TableName, Fault> {
    Ok(TableName {
        owner: name(alloc, "A")?,
        name: numbered(alloc, "T", number)?,
    })
}

/// So many policies, of which about three in four are enabled.
pub fn drawn_catalog(alloc: Global, count: u64, draw: &mut Draw) -> Result<Catalog, Fault> {
    let mut catalog = Catalog::new(alloc);
    for number in 0..count {
        let policy = drawn_policy(alloc, number, draw)?;
        if !draw.is_one_of(4) {
            let enabled = drawn_enablement(alloc, draw)?;
            catalog.enabled.push((policy.name.clone()?, enabled))?;
        }
        catalog.policies.push(policy)?;
    }
    Ok(catalog)
}

fn drawn_policy(alloc: Global, number: u64, draw: &mut Draw) -> Result<AuditPolicy, Fault> {
    Ok(AuditPolicy {
        name: numbered(alloc, "P", number)?,
        privileges: drawn_privileges(alloc, draw)?,
        actions: drawn_actions(alloc, draw)?,
        roles: drawn_roles(alloc, draw)?,
        when: drawn_condition(alloc, draw)?,
    })
}

fn drawn_privileges(alloc: Global, draw: &mut Draw) -> Result<List<Privilege>, Fault> {
    let mut listed = List::new(alloc);
    for privilege in &Privilege::EACH {
        if draw.is_one_of(40) {
            listed.push(*privilege)?;
        }
    }
    Ok(listed)
}

fn drawn_actions(
    alloc: Global,
    draw: &mut Draw,
) -> Result<List<(Action, Option<TableName>)>, Fault> {
    let mut listed = List::new(alloc);
    for _part in 0..draw.below(3) {
        let action = drawn_action(draw);
        let on = if draw.is_one_of(4) {
            None
        } else {
            Some(table(alloc, draw.below(200))?)
        };
        listed.push((action, on))?;
    }
    Ok(listed)
}

// An action, ALL among them.
fn drawn_action(draw: &mut Draw) -> Action {
    Action::from_code(small(draw, 23)).unwrap_or(Action::All)
}

fn drawn_roles(alloc: Global, draw: &mut Draw) -> Result<List<Name>, Fault> {
    let mut listed = List::new(alloc);
    if draw.is_one_of(5) {
        for _part in 0..draw.below(3) {
            listed.push(numbered(alloc, "R", draw.below(100))?)?;
        }
    }
    Ok(listed)
}

fn drawn_condition(alloc: Global, draw: &mut Draw) -> Result<Option<(Evaluate, Condition)>, Fault> {
    let text = match draw.below(6) {
        0 => "SYS_CONTEXT('USERENV', 'SESSION_USER') = 'U10001'",
        1 => "SYS_CONTEXT('USERENV', 'SESSION_USER') LIKE 'U1000_'",
        2 => "NULL = NULL OR 999999999999999999 + 1 > 0",
        _ => return Ok(None),
    };
    let evaluate = match draw.below(3) {
        0 => Evaluate::Statement,
        1 => Evaluate::Session,
        _ => Evaluate::Instance,
    };
    match condition(alloc, text.as_bytes())? {
        Some(tree) => Ok(Some((
            evaluate,
            Condition {
                text: Text::from_str(alloc, text)?,
                tree,
            },
        ))),
        None => Err(Fault::NoCase),
    }
}

fn drawn_outcomes(draw: &mut Draw) -> Outcomes {
    Outcomes {
        success: !draw.is_one_of(3),
        failure: !draw.is_one_of(3),
    }
}

fn drawn_enablement(alloc: Global, draw: &mut Draw) -> Result<Enabled, Fault> {
    if draw.is_one_of(2) {
        let mut users = List::new(alloc);
        for _user in 0..draw.below(4) {
            users.push((drawn_user(alloc, draw)?, drawn_outcomes(draw)))?;
        }
        return Ok(Enabled::By(users));
    }
    let mut others = List::new(alloc);
    for _user in 0..draw.below(3) {
        others.push(drawn_user(alloc, draw)?)?;
    }
    Ok(Enabled::Except(others, drawn_outcomes(draw)))
}

// One of twenty users.
fn drawn_user(alloc: Global, draw: &mut Draw) -> Result<Name, Fault> {
    numbered(alloc, "U", draw.below(20))
}

// A code: that of a statement that was done, of some refusals, or of those that leave no record.
fn drawn_code(draw: &mut Draw) -> Code {
    match draw.below(20) {
        0 => Code::SESSION_PRESENT,
        1 => Code::NOT_LOGGED_ON,
        2 | 3 | 4 | 5 => Code(942),
        _ => Code(0),
    }
}

/// Grants of one privilege to each role.
pub fn drawn_grants(alloc: Global, draw: &mut Draw) -> Result<Grants, Fault> {
    let mut changes = List::new(alloc);
    for number in 0..100 {
        if let Some(privilege) = drawn_privilege(draw) {
            let role = numbered(alloc, "R", number)?;
            changes.push(GrantChange::SystemGrant(role, privilege, false))?;
        }
    }
    granted(alloc, changes.as_slice())
}

// A system privilege; none at times.
fn drawn_privilege(draw: &mut Draw) -> Option<Privilege> {
    Privilege::from_code(small(draw, 18))
}

// A number less than this one, which is at most 256.
fn small(draw: &mut Draw, bound: u64) -> u8 {
    u8::try_from(draw.below(bound)).unwrap_or(0)
}

fn granted(alloc: Global, changes: &[GrantChange]) -> Result<Grants, Fault> {
    let draft = GrantDraft::of(Grants::new(alloc)).after(changes)?;
    draft.finish().map_err(|_| Fault::NoCase)
}

/// A statement.
pub fn drawn_facts(alloc: Global, draw: &mut Draw) -> Result<Facts, Fault> {
    let mut tables = List::new(alloc);
    for _table in 0..draw.below(4) {
        tables.push(table(alloc, draw.below(200))?)?;
    }
    let mut used = List::new(alloc);
    for _privilege in 0..draw.below(3) {
        if let Some(privilege) = drawn_privilege(draw) {
            used.push(privilege)?;
        }
    }
    Ok(Facts {
        user: drawn_user(alloc, draw)?,
        action: drawn_action(draw),
        tables,
        used,
        code: drawn_code(draw),
    })
}

/// What conditions read of the user's session, whose number is 0 at times.
pub fn drawn_session(alloc: Global, facts: &Facts, draw: &mut Draw) -> Result<SessionFacts, Fault> {
    let number = SessionNo(draw.below(3));
    Ok(SessionFacts::new(alloc, facts.user.clone()?, number, Stamp(1_000_000))?)
}

/// The results that are kept: of the session one at most, and of the instance another.
pub fn drawn_kept(alloc: Global, policies: u64, draw: &mut Draw) -> Result<KeptResults, Fault>
    ensures { IfOk result AreInOrder }
{
    let session = drawn_results(alloc, policies, draw)?;
    let instance = drawn_results(alloc, policies, draw)?;
    Ok(KeptResults { session, instance })
}

fn drawn_results(alloc: Global, policies: u64, draw: &mut Draw) -> Result<List<(Name, bool)>, Fault>
    ensures { IfOk result (λ results. IsTrue (is_in_order result_before results)) }
{
    if draw.is_one_of(2) {
        return Ok(List::new(alloc));
    }
    let policy = numbered(alloc, "P", draw.below(policies))?;
    one_result(alloc, policy, draw.is_one_of(2))
}

fn one_result(alloc: Global, policy: Name, holds: bool) -> Result<List<(Name, bool)>, Fault>
    ensures { IfOk result (λ results. IsTrue (is_in_order result_before results)) }
{
    let mut results = List::new(alloc);
    results.push((policy, holds))?;
    Ok(results)
}
