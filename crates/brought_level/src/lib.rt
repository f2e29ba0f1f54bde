// A level brought from outside, run through the whole reduction: the masked byte, of which an element has many stored forms and one is
// ff. Both ways of computing a report are run on one opening, and held to what `reference/masked.py` prints.
#![tactic(auto)]

#[cfg(test)]
mod tests {
    use explanation::report::report as plain_report;
    use problem::problem::Problem;
    use reducing::report::report;
    use redundant_level::masked_byte::MaskedByte;
    use std::alloc::{AllocError, Global};
    use std::test::Fail;

    const EXPECTED: &str =
        "packed 01\npacked 23\npacked 45\npacked 67\npacked 89\npacked ab\npacked cd\npacked ef\nincoming b9\nsuccessor 7f\nprefix 1\naddress 1\ninitial 2a\nweight 00\nweight 40\nweight a3\nweight ab\nclosing 0a\n";

    // Elements in forms under several masks.
    fn elements(heap: Global, bytes: &[u8]) -> Result<Vec<MaskedByte>, AllocError> {
        let mut elements = Vec::new(heap);
        let mut mask = 0x11;
        for byte in bytes {
            elements.push(MaskedByte::new(*byte, mask))?;
            mask ^= byte;
        }
        Ok(elements)
    }

    fn opening(heap: Global) -> Result<Problem<MaskedByte>, AllocError> {
        let mut closings = Vec::new(heap);
        closings.push(elements(heap, &[0x1e, 0x2d])?)?;
        let bits = [0x01, 0x23, 0x45, 0x67, 0x89, 0xab, 0xcd, 0xef].to_vec(heap)?;
        Ok(Problem {
            bits,
            point: elements(heap, &[0xff, 0x5a, 0x3c, 0x0f, 0x99, 0xc3])?,
            view: Some(4),
            batching: Some(elements(heap, &[0x69, 0x35, 0xd2])?),
            challenge: Some(MaskedByte::new(0xb7, 0x42)),
            closings,
        })
    }

    #[test]
    fn masked_byte(rt: HostRuntime) -> Result<(), Fail> {
        let heap = rt.alloc();
        let problem = opening(heap)?;
        let fast = report(heap, &problem)?;
        assert!(rt; fast.as_str() == EXPECTED);
        let plain = plain_report(heap, &problem)?;
        assert!(rt; plain.as_str() == EXPECTED);
        Ok(())
    }
}
