use sharing::{Rule, SharingRule};

/// The two shares of 20 and 30, or none.
fn shares(rule: Rule, lots: u32) -> Option<(u32, u32)> {
    let mut out = [0; 2];
    if rule.share(&[20, 30], lots, &mut out) {
        Some((out[0], out[1]))
    } else {
        None
    }
}

#[test]
fn twenty_and_thirty(rt: HostRuntime) {
    for (lots, time, pro_rata, parity) in [
        (1, (1, 0), (1, 0), (1, 0)),
        (24, (20, 4), (10, 14), (12, 12)),
        (45, (20, 25), (18, 27), (20, 25)),
        (50, (20, 30), (20, 30), (20, 30)),
    ] {
        assert_eq!(rt; shares(Rule::Time, lots), Some(time));
        assert_eq!(rt; shares(Rule::ProRata, lots), Some(pro_rata));
        assert_eq!(rt; shares(Rule::Parity, lots), Some(parity));
    }
}

#[test]
fn no_to_a_request_that_is_not_lawful(rt: HostRuntime) {
    for rule in [Rule::Time, Rule::ProRata, Rule::Parity] {
        assert_eq!(rt; shares(rule, 0), None);
        assert_eq!(rt; shares(rule, 51), None);
        assert!(rt; !rule.share(&[], 1, &mut []));
        assert!(rt; !rule.share(&[1_000_001], 1, &mut [0]));
        assert!(rt; !rule.share(&[20, 0], 1, &mut [0, 0]));
        assert!(rt; !rule.share(&[20, 30], 1, &mut [0, 0, 0]));
    }
}

#[test]
fn at_most_64_sums(rt: HostRuntime) {
    for rule in [Rule::Time, Rule::ProRata, Rule::Parity] {
        let mut out = [0; 64];
        assert!(rt; rule.share(&[1_000_000; 64], 64_000_000, &mut out));
        assert_eq!(rt; out[63], 1_000_000);
        assert!(rt; !rule.share(&[1; 65], 1, &mut [0; 65]));
    }
}
