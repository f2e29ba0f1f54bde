// Elements of any level as hexadecimal text, and back: two lower-case digits a byte, byte 0 first, without gaps.
#![tactic(auto)]

pub mod element;
pub mod hex;
