use orders::{Event, State, next_state};

#[test]
fn every_state_and_event(rt: HostRuntime) {
    const CASES: &[(State, Event, State)] = &[
        (State::Waiting, Event::Activation, State::Active),
        (
            State::Waiting,
            Event::Conclusion { left: 0 },
            State::Waiting,
        ),
        (
            State::Waiting,
            Event::Conclusion { left: 1 },
            State::Waiting,
        ),
        (State::Waiting, Event::Withdrawal, State::Done),
        (State::Waiting, Event::Close, State::Done),
        (State::Active, Event::Activation, State::Active),
        (State::Active, Event::Conclusion { left: 0 }, State::Done),
        (State::Active, Event::Conclusion { left: 1 }, State::Active),
        (State::Active, Event::Withdrawal, State::Done),
        (State::Active, Event::Close, State::Done),
        (State::Done, Event::Activation, State::Done),
        (State::Done, Event::Conclusion { left: 0 }, State::Done),
        (State::Done, Event::Conclusion { left: 1 }, State::Done),
        (State::Done, Event::Withdrawal, State::Done),
        (State::Done, Event::Close, State::Done),
    ];
    for &(state, event, next) in CASES {
        assert_eq!(rt; next_state(state, event), next);
    }
}
