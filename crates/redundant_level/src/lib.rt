// A level that is unlike the others, brought through the public trait alone: each meaning has 256 stored forms, and its one has
// every coordinate set.
#![tactic(auto)]

pub mod masked_byte;
