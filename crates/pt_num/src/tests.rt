use crate::{align_down, greatest_step, is_aligned, log2_floor};

#[test]
fn a_step_is_aligned_and_fits(rt: HostRuntime) {
    const SIZES: u64 = 0x40201;
    assert_eq!(rt; greatest_step(0x200, 0x400, 512, SIZES), 9);
    assert_eq!(rt; greatest_step(0x200, 0x401, 512, SIZES), 0);
    assert_eq!(rt; greatest_step(0x200, 0x400, 511, SIZES), 0);
    assert_eq!(rt; greatest_step(0, 0, 1 << 40, SIZES), 18);
    assert_eq!(rt; greatest_step(0, 0, u64::MAX, u64::MAX), 63);
}

#[test]
fn numbers_are_cut_by_powers_of_two(rt: HostRuntime) {
    assert_eq!(rt; align_down(0x2fff, 12), 0x2000);
    assert_eq!(rt; is_aligned(0x3000, 12), true);
    assert_eq!(rt; log2_floor(0x3000), 13);
}
