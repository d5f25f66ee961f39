use orders::{Mode, Settings};

#[test]
fn lawful_settings(rt: HostRuntime) {
    const CASES: &[([u32; 5], u32)] = &[
        ([10, 50, 5, 20, 4_096], 0),
        ([30, 20, 5, 20, 4_096], 1),
        ([30, 30, 5, 20, 4_096], 0),
        ([0, 50, 5, 20, 4_096], 1),
        ([1, 50, 5, 20, 4_096], 0),
        ([10, 100, 5, 20, 4_096], 0),
        ([10, 101, 5, 20, 4_096], 1),
        ([10, 50, 0, 20, 4_096], 1),
        ([10, 50, 1, 20, 4_096], 0),
        ([10, 50, 1_000_000, 20, 4_096], 0),
        ([10, 50, 1_000_001, 20, 4_096], 1),
        ([10, 50, 5, 0, 4_096], 1),
        ([10, 50, 5, 1, 4_096], 0),
        ([10, 50, 5, 1_000_000, 4_096], 0),
        ([10, 50, 5, 1_000_001, 4_096], 1),
        ([10, 50, 5, 20, 0], 0),
        ([10, 50, 5, 20, 4_097], 1),
    ];
    for &([least, greatest, sum, iceberg, rows], number) in CASES {
        let refused = match Settings::new(Mode::Auction, least, greatest, sum, iceberg, rows) {
            Ok(_) => 0,
            Err(refusal) => refusal.number(),
        };
        assert_eq!(rt; refused, number);
    }
}
