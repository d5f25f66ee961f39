use orders::visible_sum;

#[test]
fn visible_sums(rt: HostRuntime) {
    const CASES: &[(u32, u32, u32)] = &[
        (20, 24, 5),
        (20, 20, 4),
        (20, 21, 5),
        (1, 1, 1),
        (100, 1, 1),
        (101, 1, 2),
        (1, 99, 1),
        (7, 100, 7),
        (7, 0, 7),
        (0, 0, 0),
        (0, 50, 0),
        (1_000_000, 33, 330_000),
        (999_999, 33, 330_000),
        (1_000_000, 100, 1_000_000),
        (7, 101, 7),
        (4_294_967_295, 4_294_967_295, 4_294_967_295),
    ];
    for &(sum, percent, visible) in CASES {
        assert_eq!(rt; visible_sum(sum, percent), visible);
    }
}
