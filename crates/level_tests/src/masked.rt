use crate::bytes::widths;
use doubling::doubling::Doubling;
use level::level::Level;
use redundant_level::masked_byte::MaskedByte;

type Wide16 = Doubling<MaskedByte>;

type Wide32 = Doubling<Wide16>;

type Wide64 = Doubling<Wide32>;

type Wide128 = Doubling<Wide64>;

#[test]
fn two_forms_of_one_element(rt: HostRuntime) {
    let x = MaskedByte::new(0x57, 0);
    let y = MaskedByte::new(0x57, 0xa5);
    assert_ne!(rt; x.share, y.share);
    assert!(rt; x.equals(y));
    assert!(rt; x.mul(MaskedByte::one()).equals(y));
    assert!(rt; !x.equals(MaskedByte::new(0x56, 0)));
}

#[test]
fn doubling_of_masked_bytes(rt: HostRuntime) {
    let x = Doubling::new(MaskedByte::new(0x0f, 0x33), MaskedByte::new(0xf0, 0));
    let y = Doubling::new(MaskedByte::new(0x3c, 0xff), MaskedByte::new(0x9a, 0x81));
    let sum = x.add(y).to_bytes();
    assert_eq!(rt; sum[0], 0x33);
    assert_eq!(rt; sum[1], 0x6a);
    let product = x.mul(y).to_bytes();
    assert_eq!(rt; product[0], 0x9c);
    assert_eq!(rt; product[1], 0x2a);
}

// 128, 256 and 512 coordinates.
#[test]
fn wide_doublings(rt: HostRuntime) {
    assert!(rt; widths::<Wide128>() == [7, 8, 8]);
}
