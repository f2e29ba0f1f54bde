use crate::bytes::{first, product, round_trip, round_trip_above, widths};
use doubling::bit::Bit;
use doubling::doubling::Doubling;

type Two = Doubling<Bit>;

type Four = Doubling<Two>;

type Eight = Doubling<Four>;

type Wide16 = Doubling<Eight>;

type Wide32 = Doubling<Wide16>;

type Wide64 = Doubling<Wide32>;

const BYTES: [u8; 16] = [
    0x11, 0x22, 0x33, 0x44, 0x55, 0x66, 0x77, 0x88, 0x99, 0xaa, 0xbb, 0xcc, 0xdd, 0xee, 0xff, 0x00,
];

#[test]
fn told_widths(rt: HostRuntime) {
    assert!(rt; widths::<Bit>() == [0, 1, 2]);
    assert!(rt; widths::<Eight>() == [3, 4, 5]);
    assert!(rt; widths::<Wide64>() == [6, 7, 8]);
}

#[test]
fn products(rt: HostRuntime) {
    assert!(rt; product::<Eight>(0x02, 0x02) == first(0x03));
    assert!(rt; product::<Eight>(0x02, 0x03) == first(0x01));
    assert!(rt; product::<Eight>(0x04, 0x04) == first(0x09));
    assert!(rt; product::<Eight>(0x10, 0x10) == first(0x41));
}

#[test]
fn round_trips(rt: HostRuntime) {
    assert!(rt; round_trip::<Bit>(BYTES) == first(0x01));
    assert!(rt; round_trip_above::<Bit>(first(0x5a)) == first(0x0a));
    assert!(rt; round_trip::<Eight>(BYTES) == first(0x11));
    assert!(rt; round_trip_above::<Wide32>(BYTES) == BYTES);
    assert!(rt; round_trip_above::<Wide64>(BYTES) == BYTES);
}
