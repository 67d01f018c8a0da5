// The document: its calls, with a pass and a due as values that have to be handed on, and the law over logs of calls.

#![tactic(auto)]

pub mod call;
pub mod desk;
pub mod document;
pub mod laws;
pub mod replaying;
pub mod tokens;

pub use call::{Answer, Call};
pub use desk::Desk;
pub use document::Document;
pub use document::script::RecordRefusal;
pub use replaying::replay;
pub use tokens::{Due, Pass, Refused, ScriptRefused};
