ghost use Rattle.std.specs.Prelude.{◌≡◌, ◌<◌, ◌∷◌, [], List, ℕ, Result, IfOk, IfSome, MatchOption, OnOk, length, string_bytes};
ghost use Rattle.report_lines.specs.Replies.{Reply};
ghost use Rattle.replies.specs.Answering.{GivesReplies, AppendsOne};
ghost use Rattle.replies.specs.Cases.{cases, CaseRead, Replies};

use std::alloc::{AllocError, Global};
use std::io;
use std::io::{BufRead, BufReader, Read, Write};

// Writes the reply to a text, and nothing else.
fn write_reply<W, F>(heap: Global, writer: &mut W, reply: &F, text: &[u8]) -> io::Result<()>
where
    W: Write,
    F: Fn(Global, &[u8]) -> Result<String, AllocError>,
    requires { F.IsAlwaysCallable reply.now }
    ensures { GivesReplies (F.post reply.now) → OnOk result (AppendsOne (Reply text.now) (W.contents writer.old) (W.contents writer.new)) }
{
    let written = reply(heap, text)?;
    writer.write_all(written.as_bytes())
}

// Writes the reply to what a reader holds, and nothing else.
pub fn answer_to<R, W, F>(heap: Global, reader: &mut R, writer: &mut W, reply: F) -> io::Result<()>
where
    R: Read,
    W: Write,
    F: Fn(Global, &[u8]) -> Result<String, AllocError>,
    requires { F.IsAlwaysCallable reply }
    ensures { GivesReplies (F.post reply) → OnOk result (IfSome (R.remaining reader.old) (λ text. AppendsOne (Reply text) (W.contents writer.old) (W.contents writer.new))) }
{
    let mut input = Vec::new(heap);
    reader.read_to_end(&mut input)?;
    write_reply(heap, writer, &reply, input.as_slice())
}

// Reads a case: what a reader holds up to the next line `--`, which is taken off too, or up to its end. Answers whether there was such a line.
// A count, since nothing promises that a reader ends.
fn read_case<B: BufRead>(input: &mut B, case: &mut Vec<u8>) -> io::Result<bool>
    ensures { IfOk result (λ more. IfSome (B.remaining input.old) (λ text. CaseRead text case.new.items (B.remaining input.new) more)) }
{
    case.clear();
    for _ in 0..u64::MAX {
        let start = case.len();
        if input.read_until(b'\n', case)? == 0 {
            return Ok(false);
        }
        if &case[start..] == b"--\n".as_slice() {
            case.truncate(start);
            return Ok(true);
        }
    }
    Err(io::Error::other("a case has too many lines"))
}

// Writes the replies to the cases that a reader holds, between which lines `--` stand, with such lines between the replies. Each reply is
// written before the next case is read, so one case at a time is held in memory.
pub fn answer_cases_to<R, W, F>(
    heap: Global,
    reader: &mut R,
    writer: &mut W,
    reply: F,
) -> io::Result<()>
where
    R: Read,
    W: Write,
    F: Fn(Global, &[u8]) -> Result<String, AllocError>,
    requires { F.IsAlwaysCallable reply }
    ensures { GivesReplies (F.post reply) → OnOk result (IfSome (R.remaining reader.old) (λ text. AppendsOne (Replies (cases text)) (W.contents writer.old) (W.contents writer.new))) }
{
    let mut input = BufReader::new(heap, reader)?;
    let mut case = Vec::new(heap);
    for _ in 0..u64::MAX {
        let more = read_case(&mut input, &mut case)?;
        write_reply(heap, writer, &reply, case.as_slice())?;
        if !more {
            return Ok(());
        }
        writer.write_all(b"--\n")?;
    }
    Err(io::Error::other("there are too many cases"))
}

#[cfg(test)]
mod tests {
    use super::*;
    use explain_input::fault::InputFault;
    use problem::errors::error_reply;

    #[test]
    fn faults(rt: HostRuntime) -> io::Result<()> {
        let text = error_reply(rt.alloc(), InputFault::NoBatching)?;
        assert!(rt; text.as_str() == "error: there is a challenge without batching\n");
        Ok(())
    }

    #[test]
    fn answers(rt: HostRuntime) -> io::Result<()> {
        let heap = rt.alloc();
        let mut input = b"text".as_slice();
        let mut output = Vec::new(heap);
        answer_to(heap, &mut input, &mut output, |heap, text| {
            let length = text.len();
            format!(in heap; "{length}\n")
        })?;
        assert!(rt; output.as_slice() == b"4\n".as_slice());
        Ok(())
    }

    // Gives its bytes, and then an error in place of an end.
    #[derive(Drop)]
    struct Broken<'a> {
        bytes: &'a [u8],
    }

    impl<'a> Read for Broken<'a> {
        fn read(&mut self, buf: &mut [u8]) -> io::Result<usize> {
            if self.bytes.is_empty() {
                return Err(io::Error::other("broken"));
            }
            self.bytes.read(buf)
        }
    }

    // Cases that were read whole are answered before the next one fails.
    #[test]
    fn answers_cases_one_by_one(rt: HostRuntime) -> io::Result<()> {
        let heap = rt.alloc();
        let mut input = Broken {
            bytes: b"a\n--\n--\nbc",
        };
        let mut output = Vec::new(heap);
        let result = answer_cases_to(heap, &mut input, &mut output, |heap, text| {
            let length = text.len();
            format!(in heap; "{length}\n")
        });
        assert!(rt; result.is_err());
        assert!(rt; output.as_slice() == b"2\n--\n0\n--\n".as_slice());
        Ok(())
    }

    #[test]
    fn answers_cases(rt: HostRuntime) -> io::Result<()> {
        let heap = rt.alloc();
        let mut input = b"a\n--\n--\nbc\n--".as_slice();
        let mut output = Vec::new(heap);
        answer_cases_to(heap, &mut input, &mut output, |heap, text| {
            let length = text.len();
            format!(in heap; "{length}\n")
        })?;
        assert!(rt; output.as_slice() == b"2\n--\n0\n--\n5\n".as_slice());
        Ok(())
    }
}
