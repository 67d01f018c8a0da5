// What the program writes of a text: its colours in a view, its extent in a line; and the names of the piles.

#![tactic(auto)]

pub mod colours;
pub mod measuring;
pub mod pile;
pub mod pile_names;
pub mod render;
pub mod summary;
pub mod view;

pub use colours::report_of;
pub use measuring::{summarize, summary_of, summary_text};
pub use pile::{NAMES, Pile};
pub use view::View;
