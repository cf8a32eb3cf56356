//! The whole state and one step of it, as definitions, and their laws.
#![tactic(auto)]

mod desk_laws;
mod frame_laws;
mod kept_laws;
mod laws;
mod session;
mod session_laws;
mod step_laws;
mod text_laws;

pub use desk_laws::{desks_tell_transactions, rows_can_be_written};
pub use frame_laws::frames_lead_on;
pub use kept_laws::{frames_stay_lawful, images_come_back, starts_can_be_written, starts_lead_on};
pub use laws::one_result;
pub use session::Session;
pub use session_laws::{clients_have_one_session, ends_stay_lawful};
pub use step_laws::steps_hold;
pub use text_laws::statements_stand_in_their_texts;
