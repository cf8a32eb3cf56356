//! What the bodies of frames are made of: numbers, names, texts, codes, cells and lists as bytes.
#![tactic(auto)]

mod codes;
mod laws;
mod lists;
mod numbers;
mod parts;
mod read_error;
mod repeats;
mod spelled;
mod stamps;
mod tables;

pub use laws::parts_are_exact;
pub use lists::{
    read_list_u16, read_names, read_privileges, write_list_u16, write_names, write_privileges,
};
pub use numbers::{read_sign, read_u8, read_u32, write_u8, write_u32, write_u64};
pub use read_error::ReadError;
pub use repeats::{names_each_once, parts_each_once};
pub use spelled::{Spelled, write_one, write_three, write_two};
pub use tables::{read_cells, read_columns, read_places, write_cells, write_columns, write_places};
