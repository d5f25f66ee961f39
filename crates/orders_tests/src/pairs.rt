use crate::samples::{DEPOSIT, MARKET, REPO};
use orders::{Code, Direction, Rate, Terms, admissible, admissible_to, names};

/// A market repo order.
const MARKET_REPO: Terms = Terms {
    direction: Direction::Repo,
    ..MARKET
};

/// The deposit just below the repo rate.
const BELOW: Terms = Terms {
    rate: Rate { hundredths: 1_499 },
    ..DEPOSIT
};

/// The deposit just above the repo rate.
const ABOVE: Terms = Terms {
    rate: Rate { hundredths: 1_501 },
    ..DEPOSIT
};

#[test]
fn admissible_pairs(rt: HostRuntime) {
    const CASES: &[(Terms, Terms, bool)] = &[
        (DEPOSIT, REPO, true),
        (BELOW, REPO, true),
        (ABOVE, REPO, false),
        (ABOVE, MARKET_REPO, true),
        (MARKET, REPO, true),
        (MARKET, MARKET_REPO, true),
        (
            DEPOSIT,
            Terms {
                code: Code { m: 1, term: 1 },
                ..REPO
            },
            false,
        ),
        (
            DEPOSIT,
            Terms {
                code: Code { m: 0, term: 2 },
                ..REPO
            },
            false,
        ),
        (
            DEPOSIT,
            Terms {
                securities: 0b10000,
                ..REPO
            },
            false,
        ),
        (
            Terms {
                securities: 0b11000,
                ..DEPOSIT
            },
            REPO,
            true,
        ),
        (
            Terms {
                securities: 0b10111,
                ..DEPOSIT
            },
            REPO,
            false,
        ),
        (
            DEPOSIT,
            Terms {
                return_mark: true,
                ..REPO
            },
            false,
        ),
        (
            Terms {
                return_mark: true,
                ..DEPOSIT
            },
            REPO,
            true,
        ),
    ];
    for &(deposit, repo, meets) in CASES {
        assert_eq!(rt; admissible(&deposit, &repo), meets);
        assert!(rt;
            admissible_to(&deposit, &repo) == meets && admissible_to(&repo, &deposit) == meets
        );
    }
    assert!(rt; !admissible_to(&DEPOSIT, &DEPOSIT));
    assert!(rt; !admissible_to(&REPO, &REPO));
}

#[test]
fn named_securities(rt: HostRuntime) {
    const CASES: &[(u64, u32, bool)] = &[
        (0b1000, 3, true),
        (0b1000, 2, false),
        (0b1000, 4, false),
        (1, 0, true),
        (1 << 63, 63, true),
        (u64::MAX, 64, false),
        (u64::MAX, 4_294_967_295, false),
    ];
    for &(securities, security, named) in CASES {
        assert_eq!(rt; names(securities, security), named);
    }
}
