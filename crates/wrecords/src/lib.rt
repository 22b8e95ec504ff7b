//! Lines of exchange files and of delivery streams, with the bodies behind them.
//!
//! - Gives the forms of header lines, what reads one, and what cuts a line or a body off the front of bytes in memory.
//! - Promises: a line has one form and a form one line (`line_of`), a line is cut at its first line feed, and a body is as long as
//!   its line says.
//! - Asks: of `cut_within`, no more bytes than there are. It takes no memory.
//! - Leaves names to `wvalues`, and which lines stand where to `wexchange`, for files, and `wstream`, for streams.
//!
//! Read `specs/Forms.antt`, then `specs/Cuts.antt`.
#![tactic(auto)]

mod cut;
mod form;

pub use cut::{Body, cut_body, cut_line, cut_within};
pub use form::{DIGITS, Form, read_form};
