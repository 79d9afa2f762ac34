use super::*;

#[test]
fn numbers_go_on_behind_a_wrap_and_below_the_base(rt: HostRuntime) {
    let unwrapper = Unwrapper::new(4294967200, 3);
    assert_eq!(rt; unwrapper.number(4294967200), 4294967299);
    assert_eq!(rt; unwrapper.number(4294967199), 4294967298);
    assert_eq!(rt; unwrapper.number(64), 4294967300);
}

// Timestamps half of their range away from the base, with the reference at 0, at 320 and at 2^31 + 319.
#[test]
fn the_nearer_side_of_the_reference_decides(rt: HostRuntime) {
    let mut unwrapper = Unwrapper::new(1000, 0);
    assert_eq!(rt; unwrapper.number(2147484647), 4308389068);
    assert_eq!(rt; unwrapper.number(2147484648), 4281545523);
    let next = unwrapper.number(1320);
    assert_eq!(rt; next, 4294967298);
    unwrapper.accepted(1320);
    assert_eq!(rt; unwrapper.number(2147484648), 4308389068);
    assert_eq!(rt; unwrapper.number(2147484968), 4281545525);
    let far = unwrapper.number(2147484967);
    assert_eq!(rt; far, 4308389070);
    unwrapper.accepted(2147484967);
    assert_eq!(rt; unwrapper.number(2147484968), 4308389070);
    assert_eq!(rt; unwrapper.number(1000), 4321810841);
}

#[test]
fn the_law_is_called(rt: HostRuntime) {
    only_extended();
    let copy = Unwrapper::new(0, 1023);
    let same = copy;
    assert_eq!(rt; same.number(0), copy.number(0));
}
