//! Codes of values: integers that stand as a key orders them.
//!
//! - Gives codes of 32 bits for the values of a column, by which rows are sorted, or told apart alone, and the codes of some
//!   of its rows, whose numbers are of 32 bits too.
//! - Promises: the codes of a column (`column_codes`, `number_codes`) stand as the key orders the values, and two are equal just
//!   where the values are; there are none from `number_codes` just where the first value that is not null is a text. Codes that are
//!   counted from a base (`code_of`, `codes_from`) are the distances from it, and there are none just where some value has none.
//! - How, which no clause says: the codes of a column are distances from the number that the key puts first, or from one near them
//!   all (`number_codes`), where all lie close enough, and else ranks among the distinct values. Few distinct values are found by a
//!   table, in which each is looked for in few slots; that no values make this slow is tested, by 200,000 of one hash. Many are
//!   sorted beside integers of 64 bits that foretell their order.
//! - Asks: the order of one key, and at most 2^32 values where they are ranked.
//! - Leaves: rows, and their order by codes, to `wsort`.
//!
//! Read `specs/Columns.antt`, `specs/CodedRows.antt` and `specs/Codes.antt`; `specs/Bases.antt` says from where codes are
//! counted, `specs/Foretold.antt` and `specs/Ranks.antt` how values are ranked.
#![tactic(auto)]

mod codes;
mod columns;
mod distinct;
mod foretold;
mod ranks;

pub use codes::{base_of, code_of};
pub use columns::{codes_from, column_codes, number_codes};
pub use ranks::picked_codes;
