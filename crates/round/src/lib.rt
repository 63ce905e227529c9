// A round over its lent table of bytes: the judge of a table with the scan, and a sound table's rows read.
#![tactic(auto)]

pub mod rows; // rows.rt: all used rows judged and counted
pub mod sound; // sound.rt: the judge of a whole table
pub mod read; // read.rt: a sound table's rows read
