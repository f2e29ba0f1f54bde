// Reads lines `LETTER HEX HEX` from standard input and prints for each the product of the two elements at the level that the
// letter names, or a line that begins `error: `.
#![tactic(auto)]

use product_line::letter::{reply, without_newline};
use std::io;
use std::io::{BufRead, BufReader};

fn main(rt: HostRuntime) -> io::Result<()> {
    let heap = rt.alloc();
    let mut input = BufReader::new(heap, rt.stdin())?;
    let mut line = Vec::new(heap);
    // A count, since nothing promises that a reader ends. No `split`: it takes the newline off itself, where `without_newline` is proved to.
    for _ in 0..u64::MAX {
        line.clear();
        if input.read_until(b'\n', &mut line)? == 0 {
            break;
        }
        let answer = reply(heap, without_newline(line.as_slice()))?;
        println!(rt; "{answer}")?;
    }
    Ok(())
}
