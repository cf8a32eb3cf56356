//! What is kept: the catalogue, the grants, the committed rows and the trail, as frames of the
//! journal leave them.
#![tactic(auto)]

mod anew;
mod building;
mod commits;
mod grants_apart;
mod in_place;
mod keeping;
mod kind;
mod laws;
mod laying;
mod laying_rows;
mod one_change;
mod open_rows;
mod parting;
mod parts;
mod quick;
mod ranks;
mod reading;
mod replay;
mod settling;
mod staged;
mod staging;
mod tabling;
mod transactions;

pub use commits::{commits_can_settle, numbers_stay_few, worlds_are_sound};
pub use keeping::Keeping;
pub use laws::{frames_hold, images_lead_back, spellings_are_short};
pub use reading::trees_of;
pub use staged::{Staged, TableEdit};
pub use transactions::transactions_hold;
