//! Tests of frames and folds, for what no answer of the program and no clause shows: how often a structure joins and
//! looks, and that a fold whose join does not commute has the order of the rows.
//!
//! What is compared is a plain walk over each frame, or was worked out by hand.
#![tactic(auto)]

#[cfg(test)]
mod folds;
#[cfg(test)]
mod frames;
