// A session with the text server, as text: what a line asks, and what is written as its answer.

#![tactic(auto)]

pub mod answering;
pub mod call_name;
pub mod laws;
pub mod problem;
pub mod reading;
pub mod records;
pub mod request;
#[cfg(test)]
mod tests;
mod unread;

pub use answering::answer_text;
pub use problem::Problem;
pub use reading::read_request;
pub use request::Request;
