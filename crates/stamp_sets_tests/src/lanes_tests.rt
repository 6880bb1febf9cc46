use stamp_sets::{first_lane, has_lane, with_lane, without_lane};
use std::test::Fail;

#[test]
fn lanes_are_added_and_left_out(rt: HostRuntime) -> Result<(), Fail> {
    let lanes = with_lane(with_lane(0, 63), 5);
    assert!(rt; has_lane(lanes, 5) && has_lane(lanes, 63) && !has_lane(lanes, 6));
    assert!(rt; with_lane(lanes, 5) == lanes);
    let rest = without_lane(lanes, 5);
    assert!(rt; rest == 1 << 63 && without_lane(rest, 5) == rest);
    assert!(rt; without_lane(rest, 63) == 0);
    Ok(())
}

#[test]
fn the_first_lane_is_the_lowest(rt: HostRuntime) -> Result<(), Fail> {
    assert!(rt; first_lane(1) == 0 && first_lane(1 << 63) == 63 && first_lane(40) == 3);
    Ok(())
}
