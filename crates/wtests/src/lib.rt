//! Tests of what no script of the program shows: readers and writers that fail, rows in order before they are asked for, a join
//! that no file asks for, cells that are made late, how much work an answer takes, and what a crash leaves of a store.
//!
//! What is compared was typed from the formats.
#![tactic(auto)]

#[cfg(test)]
mod crashes;
#[cfg(test)]
mod devices;
#[cfg(test)]
mod lazy;
#[cfg(test)]
mod merges;
#[cfg(test)]
mod runs;
#[cfg(test)]
mod sets;
#[cfg(test)]
mod work;
