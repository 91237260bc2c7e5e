// The worked bridges as facts about the definitions that the contracts of list and best cite.
#![tactic(auto)]

mod worked;

pub use worked::worked_bridges;
