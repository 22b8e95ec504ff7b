//! The meaning of a query on a table, and its answer.
//!
//! - Gives the meaning of every query, its answer as a table, and the text of an answer as comma-separated values.
//! - Promises: `execute` answers exactly the rows of the meaning, or the first fault; the text of a table is the lines
//!   of its names and rows, whatever they hold.
//! - Asks: a query whose windows and calls are sound, as each that breaks no rule is.
//! - Leaves the table's rows and their orders to `wtable`, single rows to `wrows`, groups to `wgroup`, calls with OVER to `wcalls`
//!   and lines to `wprinted`, which have their meaning too.
//!
//! Read `specs/Answers.antt`, `specs/Sound.antt`, `specs/ByWindow.antt`; then `specs/Faults.antt`, `specs/Parts.antt`,
//! `specs/Texts.antt`.
#![tactic(auto)]

mod beside;
mod executing;
mod fault;
mod lent;
mod orders;
mod parts;
mod placed;
mod printing;
mod selecting;
mod table;
mod windows;
mod work;

pub use executing::{answer_text, execute};
pub use fault::AskFault;
pub use printing::print;
pub use table::Table;
