//! The words of the command line.
//!
//! - Gives `choose`, which reads the words behind the program's name: the subcommand with the value of each of its
//!   options and positionals; or the text of the help or the version; or why the words are refused.
//! - Promises: a choice is what `clap`'s written meaning of the command set gives for the words. Words that it takes
//!   are not refused, and help is answered only where help or the version is asked for. Want of memory is told apart.
//! - Asks: nothing of the words.
//! - Leaves to others: the files that the values name, and what a subcommand does with them.
//!
//! Read `specs/CommandSet.antt`, then `specs/Choices.antt` and `specs/Inputs.antt`; `specs/Required.antt` says what a
//! value rests on.
#![tactic(auto)]

mod choice;
mod choosing;
mod command_set;
mod fault;
mod help;
mod values;

pub use choice::{Choice, Paths};
pub use choosing::choose;
pub use fault::WordsFault;
