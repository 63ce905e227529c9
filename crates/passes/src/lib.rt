// Passes over a sound table: the heaviest of all rows, and of a first segment's rows the heaviest and the least weight, with a mark.
#![tactic(auto)]

pub mod best; // best.rt: the heavier of two rows
pub mod look; // look.rt: the passes over the table
