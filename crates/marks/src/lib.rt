// What is asked of the plan: its total, the mark of a slot, the substitute of a row.
#![tactic(auto)]

pub mod total; // total.rt: the plan's total
mod find; // find.rt: the segment of a slot, by the plan's keys
pub mod mark; // mark.rt: the mark of a slot
pub mod substitute; // substitute.rt: the substitute of a row
