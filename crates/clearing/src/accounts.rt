//! One account for each participant from 0 to 63.
ghost use Rattle.std.specs.Prelude.{◌≡◌, ℕ, ◌+◌, ◌-◌, ◌≤◌, if◌then◌else◌};
ghost use Rattle.clearing.specs.Accounts.{account_of, alike, book_of, replaceable};
ghost use Rattle.clearing.specs.Book.{can_reserve, reserved, can_release, released};
ghost use Rattle.clearing.specs.Refused.{refused_with, refused_unless};
ghost use Rattle.clearing.specs.Seats.{seated};

use crate::cover::Refusal;

/// What one participant has: lots free and lots held.
///
/// `none` has nothing in it; `holding` and `letting_go` are an account after lots are held or let go.
pub(crate) trait Account: Copy {
    ghost none: { Self };

    ghost free_lots: { Self → ℕ };

    ghost held_lots: { Self → ℕ };

    ghost holding: { Self → ℕ → Self };

    ghost letting_go: { Self → ℕ → Self };

    /// An account with nothing in it.
    fn empty() -> Self
        ensures { result ≡ none };

    /// The lots that are free.
    fn free(self) -> u32
        ensures { result ≡ free_lots self };

    /// The lots that are held.
    fn held(self) -> u32
        ensures { result ≡ held_lots self };

    /// The account with more lots held.
    fn hold(self, lots: u32) -> Self
        requires { lots ≤ free_lots self }
        ensures { result ≡ holding self lots };

    /// The account with fewer lots held.
    fn let_go(self, lots: u32) -> Self
        requires { lots ≤ held_lots self }
        ensures { result ≡ letting_go self lots };

    ghost holding_free: { (a : Self) (n : ℕ) → n ≤ free_lots a → free_lots (holding a n) ≡ free_lots a - n };

    ghost holding_held: { (a : Self) (n : ℕ) → n ≤ free_lots a → held_lots (holding a n) ≡ held_lots a + n };

    ghost letting_go_free: { (a : Self) (n : ℕ) → n ≤ held_lots a → free_lots (letting_go a n) ≡ free_lots a + n };

    ghost letting_go_held: { (a : Self) (n : ℕ) → n ≤ held_lots a → held_lots (letting_go a n) ≡ held_lots a - n };
}

/// The accounts of participants 0 to 63.
// The clauses write out which functions of an account make the book, since each kind of account has its own.
// A fixed table, since nothing may lie on the heap; `as usize` loses nothing, and Rust has no `From<u32>` for `usize`.
#[derive(Drop)]
pub(crate) struct Accounts<A> {
    of: [A; 64],
}

impl<A: Account> Accounts<A> {
    /// The same account for everyone.
    pub(crate) fn each(account: A) -> Accounts<A>
        ensures { account_of A.none result ≡ alike A.none account }
    {
        Accounts { of: [account; 64] }
    }

    /// The participant's account; an empty one above participant 63.
    pub(crate) fn at(&self, participant: u32) -> A
        ensures { result ≡ account_of A.none self.now participant }
    {
        self.of
            .get(participant as usize)
            .copied()
            .unwrap_or(A::empty())
    }

    /// Puts an account in the place of the participant's.
    fn put(&mut self, participant: u32, account: A)
        requires { participant ≤ 63 }
        ensures { account_of A.none self.new ≡ seated (account_of A.none self.old) participant account }
    {
        self.of[participant as usize] = account;
    }

    /// What is free in the participant's account.
    pub(crate) fn free(&self, participant: u32) -> u32
        ensures { result ≡ (book_of A.free_lots A.held_lots (account_of A.none self.now)).free participant }
    {
        self.at(participant).free()
    }

    /// What is held in the participant's account.
    pub(crate) fn held(&self, participant: u32) -> u32
        ensures { result ≡ (book_of A.free_lots A.held_lots (account_of A.none self.now)).held participant }
    {
        self.at(participant).held()
    }

    /// Opens an account anew, if nothing is held in it.
    pub(crate) fn open(&mut self, participant: u32, account: A) -> Result<(), Refusal>
        ensures answer { refused_with result ≡ refused_unless (replaceable A.held_lots (account_of A.none self.old) participant) }
        ensures after { account_of A.none self.new ≡ (if replaceable A.held_lots (account_of A.none self.old) participant then seated (account_of A.none self.old) participant account else account_of A.none self.old) }
    {
        if participant > 63 || self.held(participant) > 0 {
            return Err(Refusal::FigureNotSettable);
        }
        self.put(participant, account);
        Ok(())
    }

    /// Moves lots from free to held, if that many are free.
    pub(crate) fn reserve(&mut self, participant: u32, lots: u32) -> bool
        ensures answer { result ≡ can_reserve (book_of A.free_lots A.held_lots (account_of A.none self.old)) participant lots }
        ensures book { book_of A.free_lots A.held_lots (account_of A.none self.new) ≡ reserved (book_of A.free_lots A.held_lots (account_of A.none self.old)) participant lots }
        ensures accounts { account_of A.none self.new ≡ (if can_reserve (book_of A.free_lots A.held_lots (account_of A.none self.old)) participant lots then seated (account_of A.none self.old) participant (A.holding (account_of A.none self.old participant) lots) else account_of A.none self.old) }
    {
        let account = self.at(participant);
        if participant > 63 || lots > account.free() {
            return false;
        }
        self.put(participant, account.hold(lots));
        true
    }

    /// Moves lots from held to free, if that many are held.
    pub(crate) fn release(&mut self, participant: u32, lots: u32) -> bool
        ensures answer { result ≡ can_release (book_of A.free_lots A.held_lots (account_of A.none self.old)) participant lots }
        ensures book { book_of A.free_lots A.held_lots (account_of A.none self.new) ≡ released (book_of A.free_lots A.held_lots (account_of A.none self.old)) participant lots }
        ensures accounts { account_of A.none self.new ≡ (if can_release (book_of A.free_lots A.held_lots (account_of A.none self.old)) participant lots then seated (account_of A.none self.old) participant (A.letting_go (account_of A.none self.old participant) lots) else account_of A.none self.old) }
    {
        let account = self.at(participant);
        if participant > 63 || lots > account.held() {
            return false;
        }
        self.put(participant, account.let_go(lots));
        true
    }
}
