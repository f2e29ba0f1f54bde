// Reduces several inputs, between which lines `--` stand, with such lines between the answers.
#![tactic(auto)]

use reducing::reduce::reduce;
use replies::program::answer_cases_to;
use std::io;

fn main(rt: HostRuntime) -> io::Result<()> {
    answer_cases_to(rt.alloc(), &mut rt.reader(), &mut io::writer(&rt), reduce)
}
