//! HTTP requests as asks, and what is said as responses.
#![tactic(auto)]

mod bodies;
mod head_end;
mod heads;
mod laws;
mod refusals;
mod replies;
mod requests;
mod responses;
mod routes;

pub use laws::{have_one_need, keep_need, keep_requests, stand_alone};
pub use replies::{DISK_FAULT, FULL_FAULT, MEMORY_FAULT, reply_json, said_json};
pub use requests::{Need, next_request};
pub use responses::{bad_response, response};
