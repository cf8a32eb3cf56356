//! The trees of statements.
#![tactic(auto)]

mod administration;
mod call;
mod context;
mod expression;
mod laws;
mod query;
mod rows;
mod statement;
mod table;

pub use administration::{
    ActionPart, Audit, AuditedUsers, CreatePolicy, Evaluation, Password, PolicyCondition, Whenever,
};
pub use au_base::{GrantStatement, ObjectRight, Right};
pub use call::{Argument, Call, Parameter, Procedure, Value};
pub use context::Attribute;
pub use expression::{Expr, Relation};
pub use laws::names_are_as_listed;
pub use query::{AliasedTable, Count, FromClause, Item, Items, Join, Select, SortKey};
pub use rows::{Assignment, Delete, Insert, Update};
pub use statement::Statement;
pub use table::{CreateTable, Element};
