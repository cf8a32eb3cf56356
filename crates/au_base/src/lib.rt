//! The values that every layer speaks of.
#![tactic(auto)]

mod action;
mod arithmetic;
mod ask;
mod boxed;
pub mod built_in;
mod calendar;
mod cell;
mod code;
mod grant;
mod laws;
pub mod limits;
mod list;
mod memory;
mod moment;
mod name;
mod numbers;
mod order;
mod pattern;
mod privilege;
mod reading;
mod reply;
mod sameness;
mod steps;
mod table;
mod text;
mod truth;

pub use action::Action;
pub use arithmetic::{LARGEST, add, multiply, subtract};
pub use ask::Ask;
pub use boxed::Boxed;
pub use calendar::LAST_MOMENT;
pub use cell::{Cell, compare};
pub use code::Code;
pub use grant::{GrantStatement, ObjectRight, Right};
pub use laws::{constants_are_as_listed, first_rule_gives_the_code};
pub use list::List;
pub use memory::Memory;
pub use moment::moment_text;
pub use name::{Name, names_compare_by_bytes};
pub use numbers::{ClientNo, RowNo, SessionNo, Stamp};
pub use order::{
    InOrder, insert_reserved, nothing_in_order_stands_twice, place_in_order, placed_has_both,
    placed_stands_in_order,
};
pub use pattern::like;
pub use privilege::Privilege;
pub use reading::{read_back, read_moment, written_back};
pub use reply::{Reply, Said};
pub use sameness::{is_same_action, is_same_privilege, is_same_table, same_is_equal};
pub use steps::Steps;
pub use table::{Column, ColumnKind, TableName, TableReference};
pub use text::Text;
pub use truth::Truth;
