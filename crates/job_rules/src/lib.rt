// What a job is asked and answers, at which stage and with which refusals, and the laws that its answers obey over every list of calls. A
// job holds one table over one stretch of elements; its ledger is what its calls so far say of it.
#![tactic(auto)]

pub mod answer;
pub mod call;
pub mod faults;
pub mod laws;
pub mod stage;
