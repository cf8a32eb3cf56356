//! Expressions: which columns their names mean, of which kind they are, and what they give over a row.
#![tactic(auto)]

mod agreed;
mod conditions;
mod evaluate;
mod found;
mod kind;
mod kinds;
mod laws;
mod lookup;
mod naming;
mod overflows;
mod placed;
mod placing;
mod ranges;
mod resolved;
mod row;
mod scope;
mod session;

pub use conditions::is_plain_condition;
pub use evaluate::{overflows_at, truth, truth_at, value};
pub use kind::ExprKind;
pub use kinds::{condition_code, kind_over, value_code};
pub use laws::{
    later_ranges_dont_matter, like_cuts_the_text, named_ranges_suffice, names_or_places,
    no_overflow_where_none_can, parts_of_and_are_met, values_are_sound,
};
pub use lookup::column_place;
pub use naming::name_code;
pub use placed::{Place, Placed};
pub use ranges::names_range;
pub use resolved::{Resolved, resolve, resolve_condition, resolve_over, resolve_value};
pub use row::Row;
pub use scope::Scope;
pub use session::SessionFacts;
