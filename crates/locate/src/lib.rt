// What is sought in a text: the state before a place, where two walks meet, a column of a line, the position of a place, the partner
// of a bracket.

#![tactic(auto)]

pub mod at_place;
mod carried;
pub mod depth;
pub mod in_line;
pub mod laws;
pub mod lined;
pub mod meeting;
pub mod nested;
pub mod partner_ahead;
pub mod partner_behind;
pub mod placed;
pub mod sides;
pub mod state_before;
pub mod traced;
pub mod two_states;
pub mod walked;

pub use at_place::AtPlace;
pub use in_line::InLine;
pub use meeting::Meeting;
pub use partner_ahead::PartnerAhead;
pub use partner_behind::PartnerBehind;
pub use sides::{First, On, Second};
pub use state_before::StateBefore;
