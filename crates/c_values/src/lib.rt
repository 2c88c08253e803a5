//! What calls from C take and give.
//!
//! A caller names a dialect by its number ([`dialect_numbered`]). An [`Answer`] says how a call ended and how long its text is. [`hand_out`] writes the text
//! into the caller's buffer, and [`no_text`] leaves the buffer as it is.
#![tactic(auto)]

mod answer;
mod dialect;

pub use answer::{Answer, MADE, MISUSED, OUT_OF_MEMORY, REFUSED, hand_out, no_text};
pub use dialect::dialect_numbered;
