use crate::samples::{DEPOSIT, MARKET, REPO, WAITING};
use orders::{
    Code, Direction, Kind, Mode, Rate, Remainder, Settings, Terms, check_terms, lawful_code, waits,
};

/// The number of the refusal at opening time, 0 if there is none.
/// Percents are from 10 to 50, the least sum is 5 and the least iceberg sum 20.
fn refused(mode: Mode, participant: u32, terms: Terms) -> u32 {
    match Settings::new(mode, 10, 50, 5, 20, 4_096) {
        Ok(settings) => match check_terms(&settings, 34_200, participant, &terms) {
            Ok(()) => 0,
            Err(refusal) => refusal.number(),
        },
        Err(refusal) => refusal.number(),
    }
}

#[test]
fn participants(rt: HostRuntime) {
    const CASES: &[(u32, u32)] = &[(0, 0), (63, 0), (64, 3), (4_294_967_295, 3)];
    for &(participant, number) in CASES {
        assert_eq!(rt; refused(Mode::Unaddressed, participant, DEPOSIT), number);
    }
}

#[test]
fn rates(rt: HostRuntime) {
    const CASES: &[(Terms, u32, u32)] = &[
        (DEPOSIT, 0, 4),
        (DEPOSIT, 1, 0),
        (DEPOSIT, 10_000, 0),
        (DEPOSIT, 10_001, 4),
        (MARKET, 0, 0),
        (MARKET, 1, 4),
    ];
    for &(terms, hundredths, number) in CASES {
        let rate = Rate { hundredths };
        assert_eq!(rt;
            refused(Mode::Unaddressed, 0, Terms { rate, ..terms }),
            number
        );
    }
}

#[test]
fn sums(rt: HostRuntime) {
    const CASES: &[(u32, u32)] = &[(0, 5), (4, 5), (5, 0), (1_000_000, 0), (1_000_001, 5)];
    for &(sum, number) in CASES {
        assert_eq!(rt;
            refused(Mode::Unaddressed, 0, Terms { sum, ..REPO }),
            number
        );
    }
}

#[test]
fn codes(rt: HostRuntime) {
    const CASES: &[(u32, u32, u32)] = &[(0, 0, 0), (2, 13, 0), (3, 13, 6), (2, 14, 6)];
    for &(m, term, number) in CASES {
        let code = Code { m, term };
        assert_eq!(rt;
            refused(Mode::Unaddressed, 0, Terms { code, ..DEPOSIT }),
            number
        );
        assert_eq!(rt; lawful_code(code), number == 0);
    }
}

#[test]
fn securities(rt: HostRuntime) {
    const CASES: &[(Mode, Terms, u64, u32)] = &[
        (Mode::Unaddressed, DEPOSIT, 0, 7),
        (Mode::Unaddressed, DEPOSIT, 1, 0),
        (Mode::Unaddressed, DEPOSIT, 1 << 63, 0),
        (Mode::Unaddressed, DEPOSIT, 0b110, 7),
        (Mode::Unaddressed, REPO, 0, 7),
        (Mode::Unaddressed, REPO, 0b100, 0),
        (Mode::Unaddressed, REPO, 0b110, 7),
        (Mode::Auction, REPO, 0, 7),
        (Mode::Auction, REPO, 0b100, 0),
        (Mode::Auction, REPO, 0b110, 7),
        (Mode::Auction, WAITING, 0, 7),
        (Mode::Auction, WAITING, 0b110, 0),
        (Mode::Auction, WAITING, u64::MAX, 0),
    ];
    for &(mode, terms, securities, number) in CASES {
        assert_eq!(rt;
            refused(
                mode,
                0,
                Terms {
                    securities,
                    ..terms
                },
            ),
            number
        );
    }
}

#[test]
fn marks_in_unaddressed_mode(rt: HostRuntime) {
    const CASES: &[(Terms, Remainder, u32, bool, u32)] = &[
        (MARKET, Remainder::Queue, 0, false, 8),
        (MARKET, Remainder::Withdraw, 0, false, 0),
        (MARKET, Remainder::FillOrReject, 0, false, 8),
        (DEPOSIT, Remainder::Queue, 0, false, 0),
        (DEPOSIT, Remainder::Withdraw, 0, false, 0),
        (DEPOSIT, Remainder::FillOrReject, 0, false, 0),
        (DEPOSIT, Remainder::Queue, 10, false, 0),
        (DEPOSIT, Remainder::Withdraw, 1, false, 8),
        (DEPOSIT, Remainder::FillOrReject, 10, false, 8),
        (MARKET, Remainder::Withdraw, 10, false, 8),
        (DEPOSIT, Remainder::Queue, 0, true, 8),
        (REPO, Remainder::Queue, 0, true, 0),
        (REPO, Remainder::Queue, 10, true, 0),
    ];
    for &(terms, remainder, percent, return_mark, number) in CASES {
        let marked = Terms {
            remainder,
            percent,
            return_mark,
            ..terms
        };
        assert_eq!(rt; refused(Mode::Unaddressed, 0, marked), number);
    }
}

#[test]
fn marks_in_an_auction(rt: HostRuntime) {
    const MARKET_DEPOSIT: Terms = Terms {
        activation: 36_000,
        ..MARKET
    };
    const MARKET_REPO: Terms = Terms {
        direction: Direction::Repo,
        ..MARKET
    };
    const CASES: &[(Terms, Remainder, u32, bool, u32)] = &[
        (WAITING, Remainder::Queue, 0, false, 8),
        (WAITING, Remainder::Withdraw, 0, false, 0),
        (WAITING, Remainder::FillOrReject, 0, false, 0),
        (WAITING, Remainder::FillOrReject, 10, false, 8),
        (WAITING, Remainder::FillOrReject, 0, true, 8),
        (MARKET_DEPOSIT, Remainder::Withdraw, 0, false, 8),
        (REPO, Remainder::Queue, 0, false, 0),
        (REPO, Remainder::Withdraw, 0, false, 8),
        (REPO, Remainder::FillOrReject, 0, false, 8),
        (REPO, Remainder::Queue, 10, false, 8),
        (REPO, Remainder::Queue, 0, true, 0),
        (MARKET_REPO, Remainder::Withdraw, 0, false, 8),
    ];
    for &(terms, remainder, percent, return_mark, number) in CASES {
        let marked = Terms {
            remainder,
            percent,
            return_mark,
            ..terms
        };
        assert_eq!(rt; refused(Mode::Auction, 0, marked), number);
    }
}

#[test]
fn percents(rt: HostRuntime) {
    const CASES: &[(u32, u32, u32)] = &[
        (100, 9, 9),
        (100, 10, 0),
        (100, 50, 0),
        (100, 51, 9),
        (19, 50, 9),
        (20, 50, 0),
        (20, 24, 0),
        (20, 20, 9),
        (40, 10, 9),
        (41, 10, 0),
        (19, 0, 0),
        (5, 0, 0),
    ];
    for &(sum, percent, number) in CASES {
        assert_eq!(rt;
            refused(
                Mode::Unaddressed,
                0,
                Terms {
                    sum,
                    percent,
                    ..REPO
                },
            ),
            number
        );
    }
}

#[test]
fn activation_times(rt: HostRuntime) {
    const CASES: &[(Mode, Terms, u32, u32)] = &[
        (Mode::Auction, WAITING, 0, 10),
        (Mode::Auction, WAITING, 34_199, 10),
        (Mode::Auction, WAITING, 34_200, 10),
        (Mode::Auction, WAITING, 34_201, 0),
        (Mode::Auction, WAITING, 86_340, 0),
        (Mode::Auction, WAITING, 86_341, 10),
        (Mode::Auction, REPO, 0, 0),
        (Mode::Auction, REPO, 36_000, 10),
        (Mode::Unaddressed, DEPOSIT, 0, 0),
        (Mode::Unaddressed, DEPOSIT, 1, 10),
        (Mode::Unaddressed, REPO, 0, 0),
        (Mode::Unaddressed, REPO, 36_000, 10),
    ];
    for &(mode, terms, activation, number) in CASES {
        assert_eq!(rt;
            refused(
                mode,
                0,
                Terms {
                    activation,
                    ..terms
                },
            ),
            number
        );
    }
}

#[test]
fn who_waits(rt: HostRuntime) {
    const CASES: &[(Mode, Terms, bool)] = &[
        (Mode::Auction, DEPOSIT, true),
        (Mode::Auction, REPO, false),
        (Mode::Unaddressed, DEPOSIT, false),
        (Mode::Unaddressed, REPO, false),
    ];
    for &(mode, terms, waiting) in CASES {
        assert_eq!(rt; waits(mode, &terms), waiting);
    }
}

#[test]
fn lowest_number_first(rt: HostRuntime) {
    const WRONG_TIME: Terms = Terms {
        activation: 1,
        ..REPO
    };
    const WRONG_PERCENT: Terms = Terms {
        percent: 9,
        ..WRONG_TIME
    };
    const WRONG_MARKS: Terms = Terms {
        remainder: Remainder::Withdraw,
        ..WRONG_PERCENT
    };
    const WRONG_SECURITIES: Terms = Terms {
        securities: 0,
        ..WRONG_MARKS
    };
    const WRONG_CODE: Terms = Terms {
        code: Code { m: 3, term: 14 },
        ..WRONG_SECURITIES
    };
    const WRONG_SUM: Terms = Terms {
        sum: 4,
        ..WRONG_CODE
    };
    const WRONG_RATE: Terms = Terms {
        kind: Kind::Market,
        ..WRONG_SUM
    };
    const CASES: &[(u32, Terms, u32)] = &[
        (64, WRONG_RATE, 3),
        (63, WRONG_RATE, 4),
        (63, WRONG_SUM, 5),
        (63, WRONG_CODE, 6),
        (63, WRONG_SECURITIES, 7),
        (63, WRONG_MARKS, 8),
        (63, WRONG_PERCENT, 9),
        (63, WRONG_TIME, 10),
    ];
    for &(participant, terms, number) in CASES {
        assert_eq!(rt; refused(Mode::Unaddressed, participant, terms), number);
    }
}
