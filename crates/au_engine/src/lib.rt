//! The whole state, and one step of it.
#![tactic(auto)]

mod busy;
mod concluding;
mod engine;
mod framing;
mod imaging;
mod logons;
mod outcome;
mod places;
mod planning;
mod prepared;
mod preparing;
mod reading;
mod recording;
mod replies;
mod rows;
mod sessions;
mod settling;
mod statements;
mod trail;

pub use au_step::{
    Session, clients_have_one_session, ends_stay_lawful, frames_lead_on, frames_stay_lawful,
    images_come_back, one_result, starts_can_be_written, starts_lead_on, steps_hold,
};
pub use engine::Engine;
pub use framing::{asks_are_text, body_in};
pub use outcome::{RowsChange, SessionChange};
pub use prepared::Prepared;
pub use reading::reading_of;
pub use statements::reads_soundly;
