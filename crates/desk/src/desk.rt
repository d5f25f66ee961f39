//! A day's desk: its state, kept lawful by every call.
ghost use Rattle.std.specs.Prelude.{◌≡◌, ◌≤◌, length};
ghost use Rattle.model.specs.Days.{opened};
ghost use Rattle.model.specs.Sound.{LawfulDay};
ghost use Rattle.model.specs.States.{day_of};

use model::DayState;
use orders::Settings;

/// The state of a day. Every call leaves it lawful.
#[derive(Drop)]
pub struct Desk {
    pub(crate) state: DayState,
    ghost few: { state.count ≤ 128 },
    ghost long: { length (day_of state).orders ≡ state.count },
    ghost lawful: { ∥ LawfulDay (day_of state) ∥₁ },
}

impl Desk {
    /// A newly opened day.
    pub fn open(settings: Settings) -> Desk
        ensures { day_of result.state ≡ opened settings }
    {
        let state = DayState::open(settings);
        Desk { state }
    }

    /// The settings of the day.
    pub fn settings(&self) -> Settings
        ensures { result ≡ (day_of self.now.state).settings }
    {
        self.state.settings
    }

    /// What the clock reads.
    pub fn time(&self) -> u32
        ensures { result ≡ (day_of self.now.state).clock }
    {
        self.state.clock
    }

    /// How many register rows are used.
    pub fn used_rows(&self) -> usize
        ensures { result ≡ (day_of self.now.state).used }
    {
        self.state.used
    }
}
