// Tests of the levels on examples: piles of doublings over the bit to 256 coordinates, and doublings of a level with several
// stored forms.
#![tactic(auto)]

#[cfg(test)]
mod bytes;
#[cfg(test)]
mod masked;
#[cfg(test)]
mod piles;
