// The image of a contract.
ghost use Rattle.std.specs.Prelude.{◌+◌, ◌*◌, ◌≤◌, length};
ghost use Rattle.image.specs.Image.{account_size, ledger_size, terms_size, contract_size};

use crate::numbers::{numbers_at, put_bytes, put_numbers};
use crate::{ACCOUNT, COMMIT, LEDGER};
use contract::{Contract, Terms};
use ledger::{Account, Ledger};
use std::array;

pub fn contract_at(s: &[u8], at: usize) -> Contract
    requires { at + contract_size ≤ length s.now }
{
    Contract {
        ledger: ledger_at(s, at),
        commit: crate::commit_at(s, at + LEDGER),
        terms: terms_at(s, at + LEDGER + COMMIT),
    }
}

pub fn put_contract(s: &mut [u8], contract: Contract)
    requires { contract_size ≤ length s.old }
{
    put_ledger(s, 0, contract.ledger);
    crate::put_commit(s, LEDGER, contract.commit);
    put_terms(s, LEDGER + COMMIT, contract.terms);
}

fn ledger_at(s: &[u8], at: usize) -> Ledger
    requires { at + ledger_size ≤ length s.now }
{
    Ledger {
        fund: wire::read::<u64>(s, at),
        deposits: wire::read::<u64>(s, at + 8),
        accounts: array::from_fn(
            |i| -> Account
                requires { at + 16 + account_size * (i + 1) ≤ length s.now }
            { account_at(s, at + 16 + ACCOUNT * i) },
        ),
    }
}

fn put_ledger(s: &mut [u8], at: usize, ledger: Ledger)
    requires { at + ledger_size ≤ length s.old }
{
    wire::write(s, at, ledger.fund);
    wire::write(s, at + 8, ledger.deposits);
    for (i, account) in ledger.accounts.iter().enumerate() {
        put_account(s, at + 16 + ACCOUNT * i, *account);
    }
}

fn account_at(s: &[u8], at: usize) -> Account
    requires { at + account_size ≤ length s.now }
{
    Account {
        balance: wire::read::<u64>(s, at),
        paid: wire::read::<u64>(s, at + 8),
    }
}

fn put_account(s: &mut [u8], at: usize, account: Account)
    requires { at + account_size ≤ length s.old }
{
    wire::write(s, at, account.balance);
    wire::write(s, at + 8, account.paid);
}

pub fn terms_at(s: &[u8], at: usize) -> Terms
    requires { at + terms_size ≤ length s.now }
{
    Terms {
        observation_fee: wire::read::<u64>(s, at),
        sending_fee: wire::read::<u64>(s, at + 8),
        n: s[at + 16],
        f: s[at + 17],
    }
}

fn put_terms(s: &mut [u8], at: usize, terms: Terms)
    requires { at + terms_size ≤ length s.old }
{
    wire::write(s, at, terms.observation_fee);
    wire::write(s, at + 8, terms.sending_fee);
    put_bytes(s, at + 16, &[terms.n, terms.f]);
}
