// The calls of a contract.
ghost use Rattle.std.specs.Prelude.{◌≡◌};
ghost use Rattle.host.specs.Numbers.{fault_number, fault_place};
ghost use Rattle.host.specs.Lent.{after_submit, after_deposit, after_withdraw, after_contract_made, paying_outcome};
ghost use Rattle.host.specs.Calls.{contract_fresh_at, submit_at, deposit_at, withdraw_at};

use crate::{ContractOutcome, LentContract};
use config::Answer;
use contract::Contract;
use report::{Fault, Standing};

// A contract that nobody has paid into.
#[unsafe(no_mangle)]
pub extern "C" fn wederburh_contract_fresh(lent: &mut LentContract) -> u8
    ensures { (lent.new ≡ contract_fresh_at lent.old) × (result ≡ lent.new.outcome.answer) }
{
    *lent = fresh_contract(*lent);
    lent.outcome.answer
}

// A member submits a FINAL body, at a time, with verdict bits of its signers.
#[unsafe(no_mangle)]
pub extern "C" fn wederburh_contract_submit(
    lent: &mut LentContract,
    body: &[u8],
    transmitter: u8,
    time: u64,
    bits: u64,
) -> u8
    ensures { (lent.new ≡ submit_at lent.old body.now transmitter time bits) × (result ≡ lent.new.outcome.answer) }
{
    *lent = submit_body(*lent, body, transmitter, time, bits);
    lent.outcome.answer
}

// An amount is paid in.
#[unsafe(no_mangle)]
pub extern "C" fn wederburh_contract_deposit(lent: &mut LentContract, amount: u64) -> u8
    ensures { (lent.new ≡ deposit_at lent.old amount) × (result ≡ lent.new.outcome.answer) }
{
    *lent = deposit_in(*lent, amount);
    lent.outcome.answer
}

// A member's whole balance is paid out.
#[unsafe(no_mangle)]
pub extern "C" fn wederburh_contract_withdraw(lent: &mut LentContract, member: u8) -> u8
    ensures { (lent.new ≡ withdraw_at lent.old member) × (result ≡ lent.new.outcome.answer) }
{
    *lent = withdraw_for(*lent, member);
    lent.outcome.answer
}

#[tactic(auto, unfolding(crate::specs::Calls::contract_fresh_at))]
fn fresh_contract(lent: LentContract) -> LentContract
    ensures { result ≡ contract_fresh_at lent }
{
    after_making(lent, Contract::fresh(lent.contract.terms))
}

#[tactic(auto, unfolding(crate::specs::Calls::submit_at))]
fn submit_body(
    lent: LentContract,
    body: &[u8],
    transmitter: u8,
    time: u64,
    bits: u64,
) -> LentContract
    ensures { result ≡ submit_at lent body.now transmitter time bits }
{
    after_submit(lent.contract.submit(body, transmitter, time, bits))
}

#[tactic(auto, unfolding(crate::specs::Calls::deposit_at))]
fn deposit_in(lent: LentContract, amount: u64) -> LentContract
    ensures { result ≡ deposit_at lent amount }
{
    after_deposit(lent.contract.deposit(amount))
}

#[tactic(auto, unfolding(crate::specs::Calls::withdraw_at))]
fn withdraw_for(lent: LentContract, member: u8) -> LentContract
    ensures { result ≡ withdraw_at lent member }
{
    after_withdraw(lent.contract.withdraw(member))
}

// What the host finds after a submission.
fn after_submit(s: contract::Submitted) -> LentContract
    ensures { result ≡ after_submit s }
{
    let fault = s.fault;
    let outcome = ContractOutcome {
        amount: 0,
        place: fault_place(fault),
        fault: fault_number(fault),
        answer: config::number(s.answer),
    };
    LentContract {
        contract: s.contract,
        outcome,
    }
}

// What the host finds after a deposit.
fn after_deposit(d: contract::Answered) -> LentContract
    ensures { result ≡ after_deposit d }
{
    LentContract {
        contract: d.contract,
        outcome: paying(d.answer, 0),
    }
}

// What the host finds after a withdrawal.
fn after_withdraw(w: contract::Withdrawn) -> LentContract
    ensures { result ≡ after_withdraw w }
{
    LentContract {
        contract: w.contract,
        outcome: paying(w.answer, w.amount),
    }
}

// What the host finds after a contract was made: the new one, or the one before where the terms are refused.
fn after_making(lent: LentContract, m: contract::Answered) -> LentContract
    ensures { result ≡ after_contract_made lent m }
{
    let answer = m.answer;
    let outcome = paying(answer, 0);
    let contract = if answer.is_ok() {
        m.contract
    } else {
        lent.contract
    };
    LentContract { contract, outcome }
}

// An outcome that has to do with no report.
fn paying(answer: Answer, amount: u64) -> ContractOutcome
    ensures { result ≡ paying_outcome answer amount }
{
    ContractOutcome {
        amount,
        place: 0,
        fault: 0,
        answer: config::number(answer),
    }
}

fn fault_number(fault: Standing) -> u8
    ensures { result ≡ fault_number fault }
{
    match fault {
        Ok(()) => 0,
        Err(Fault::Few) => 1,
        Err(Fault::Falling) => 2,
        Err(Fault::Twice) => 3,
        Err(Fault::TooFewSigners) => 4,
        Err(Fault::SignerTwice(_)) => 5,
        Err(Fault::ClearBit(_)) => 6,
    }
}

// Which signer a fault is about, from 0; 0 where it is about none.
fn fault_place(fault: Standing) -> usize
    ensures { result ≡ fault_place fault }
{
    match fault {
        Err(Fault::SignerTwice(place)) => place,
        Err(Fault::ClearBit(place)) => place,
        _ => 0,
    }
}
