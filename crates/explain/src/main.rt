// Reads an input from standard input and prints the values of its opening, one a line, or a line that begins `error: `.
#![tactic(auto)]

use explanation::explain::explain;
use replies::program::answer_to;
use std::io;

fn main(rt: HostRuntime) -> io::Result<()> {
    answer_to(rt.alloc(), &mut rt.reader(), &mut io::writer(&rt), explain)
}
