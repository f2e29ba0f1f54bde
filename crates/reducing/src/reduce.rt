ghost use Rattle.std.specs.Prelude.{IfOk, string_bytes};
ghost use Rattle.report_lines.specs.Replies.{Reply};

use crate::report::Reduction;
use replies::reply::reply;
use std::alloc::{AllocError, Global};

// The reply to an input: its report, or one line that begins `error: ` where it cannot be read.
pub fn reduce(heap: Global, text: &[u8]) -> Result<String, AllocError>
    ensures { IfOk result (λ s. Reply text.now (string_bytes s)) }
{
    reply::<Reduction>(heap, text)
}

#[cfg(test)]
mod tests {
    use super::*;
    use std::test::Fail;

    #[test]
    fn replies(rt: HostRuntime) -> Result<(), Fail> {
        let heap = rt.alloc();
        let report = reduce(heap, b"level b\nbits 10\npoint 02 00 00\n")?;
        assert_eq!(rt;
            report.as_str(),
            "packed 10\nincoming 02\nsuccessor none\nprefix 0\naddress 0\n"
        );
        let unread = reduce(heap, b"level b\nbits 10\n")?;
        assert_eq!(rt; unread.as_str(), "error: there is no line of point\n");
        Ok(())
    }
}
