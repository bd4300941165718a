// The money of a contract: a fund, what members have earned, and what they were paid. It knows places, not members.
#![tactic(auto)]

ghost use Rattle.std.specs.Prelude.{◌≡◌, ◌+◌, ◌≤◌, ◌<◌, ◌^◌, leb};
ghost use Rattle.config.specs.Limits.{members};
ghost use Rattle.ledger.specs.Ledger.{credited, emptied, account_at, balances, paid_out, covered, empty_ledger, depositing, earning, withdrawing};

use config::Config;

// One member's money.
#[repr(C)]
#[derive(Clone, Copy)]
pub struct Account {
    // what it has earned and not withdrawn
    pub balance: u64,
    // all that was ever paid to it
    pub paid: u64,
}

#[repr(C)]
#[derive(Clone, Copy)]
pub struct Ledger {
    // what fees are paid out of
    pub fund: u64,
    // all deposits ever made
    pub deposits: u64,
    pub accounts: [Account; Config::MEMBERS],
}

impl Account {
    // An amount is earned.
    pub fn credit(&mut self, amount: u64)
        ensures { self.new ≡ credited self.old amount }
    {
        self.balance = self.balance.saturating_add(amount);
    }

    // The whole balance is paid out.
    pub fn pay_out(&mut self) -> u64
        ensures { (result ≡ self.old.balance) × (self.new ≡ emptied self.old) }
    {
        let balance = self.balance;
        self.paid = self.paid.saturating_add(self.balance);
        self.balance = 0;
        balance
    }
}

impl Ledger {
    // Nobody has paid in.
    pub fn empty() -> Self
        ensures { result ≡ empty_ledger }
    {
        Ledger {
            fund: 0,
            deposits: 0,
            accounts: [Account {
                balance: 0,
                paid: 0,
            }; Config::MEMBERS],
        }
    }

    // Whether the deposits cover what the fund has, what was earned and what was paid. No sum of these numbers can wrap: each is taken
    // off what is left of the deposits.
    #[tactic(auto, unfolding(crate::specs::Ledger::covered))]
    pub fn covered(self) -> bool
        ensures { result ≡ covered self }
    {
        if self.deposits < self.fund {
            return false;
        }
        covers(&self.accounts, self.deposits - self.fund)
    }

    // An amount is paid in.
    pub fn deposit(mut self, amount: u64) -> Ledger
        requires { (self.fund + amount < 2 ^ 64) × (self.deposits + amount < 2 ^ 64) }
        ensures { result ≡ depositing self amount }
    {
        self.fund += amount;
        self.deposits += amount;
        self
    }

    // An amount is earned at a place, out of the fund.
    #[tactic(auto, unfolding(crate::specs::Ledger::earning))]
    pub fn earn(mut self, place: usize, amount: u64) -> Ledger
        requires { (place < members) × (amount ≤ self.fund) }
        ensures { result ≡ earning self place amount }
    {
        self.fund -= amount;
        self.accounts[place].credit(amount);
        self
    }

    // What a place has earned and not withdrawn.
    pub fn balance(self, place: usize) -> u64
        requires { place < members }
        ensures { result ≡ (account_at self.accounts place).balance }
    {
        self.accounts[place].balance
    }

    // The balance of a place is paid out.
    #[tactic(auto, unfolding(crate::specs::Ledger::withdrawing))]
    pub fn withdraw(mut self, place: usize) -> Ledger
        requires { place < members }
        ensures { result ≡ withdrawing self place }
    {
        self.accounts[place].pay_out();
        self
    }
}

// Whether so much covers every balance and all that was paid.
#[tactic(auto, unfolding(crate::specs::Ledger::balances, crate::specs::Ledger::paid_out))]
fn covers(accounts: &[Account; Config::MEMBERS], most: u64) -> bool
    ensures { result ≡ leb (balances accounts.now + paid_out accounts.now) most }
{
    let mut left = most;
    for account in accounts {
        if left < account.balance {
            return false;
        }
        if left - account.balance < account.paid {
            return false;
        }
        left = left - account.balance - account.paid;
    }
    true
}
