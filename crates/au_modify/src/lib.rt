//! What INSERT, UPDATE and DELETE come to, and the rules that they share: which columns they name,
//! which values these take, and what fits them.
#![tactic(auto)]

mod columns;
mod fitting;
mod keys;
mod modification;
mod targets;

pub use columns::{column_called, columns_in, has_column, table_named};
pub use fitting::{fit_code, what_fits_is_fitting};
pub use keys::{is_locked_at, is_locked_key, is_present_at, is_present_key, key_in};
pub use modification::Modification;
pub use targets::{
    kind_code_of, kinds_are_told_one_by_one, kinds_refusal, names_refusal, target_refusal,
    targets_are_columns,
};
