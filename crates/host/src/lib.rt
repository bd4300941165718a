// The boundary to C: every call of a node, a sender and a contract, over structs of numbers that the host lends. Any bytes in them are a
// value. A call's results stand in the lent struct's outcome, and its code is returned as well; a refusal changes nothing else.
#![tactic(auto)]

mod contract_calls;
mod node_calls;
mod sender_calls;

use config::Commit;
use contract::Contract;
pub use contract_calls::{
    wederburh_contract_deposit, wederburh_contract_fresh, wederburh_contract_submit,
    wederburh_contract_withdraw,
};
use node::Node;
pub use node_calls::{
    wederburh_node_deliver, wederburh_node_fresh, wederburh_node_restore, wederburh_node_start,
    wederburh_node_timer,
};
use sender::Sender;
pub use sender_calls::{
    wederburh_sender_fresh, wederburh_sender_timeout, wederburh_sender_transmit,
};

// What a call of a node came to.
#[repr(C)]
#[derive(Clone, Copy)]
pub struct NodeOutcome {
    // how many bytes of frames stand in the outbox, from the position on
    pub written: usize,
    // the report that is handed out for transmission: `len` bytes from `start` on; none where `len` is 0
    pub start: usize,
    pub len: usize,
    // 1 where it lies in the kept buffer, 0 where it lies in the arriving frame
    pub held: u8,
    // what becomes of each timer: 0 left alone, 1 started anew, 2 stopped
    pub resend: u8,
    pub progress: u8,
    pub round: u8,
    pub grace: u8,
    // the code
    pub answer: u8,
}

#[repr(C)]
#[derive(Clone, Copy)]
pub struct LentNode {
    // the state; a fresh or restored one is made of the configuration in it
    pub node: Node,
    // the contract's last commit as the host has read it, and the host's own observation: a delivery reads them
    pub commit: Commit,
    pub observation: i64,
    pub outcome: NodeOutcome,
}

// What a call of a sender came to.
#[repr(C)]
#[derive(Clone, Copy)]
pub struct SenderOutcome {
    // after how many milliseconds T_transmit is to fire, where it is set
    pub milliseconds: u64,
    // the report that is handed out: `len` bytes of the slots from `start` on; none where `len` is 0
    pub start: usize,
    pub len: usize,
    // what becomes of T_transmit: 0 left alone, 1 set, 2 stopped
    pub transmit: u8,
    // the code
    pub answer: u8,
}

#[repr(C)]
#[derive(Clone, Copy)]
pub struct LentSender {
    // the state; a fresh one is made of the configuration in it
    pub sender: Sender,
    // the contract's last commit as the host has read it
    pub commit: Commit,
    pub outcome: SenderOutcome,
}

// What a call of a contract came to.
#[repr(C)]
#[derive(Clone, Copy)]
pub struct ContractOutcome {
    // what is to be paid to the member who withdraws
    pub amount: u64,
    // the signer, counted from 0, that the fault is about
    pub place: usize,
    // what is wrong with a report that checks 14 to 17 refuse: 0 nothing, 1 too few observations, 2 a falling value, 3 a member twice, 4 too few
    // signers, 5 the signer at `place` twice, 6 a signature at `place` that did not verify
    pub fault: u8,
    // the code
    pub answer: u8,
}

#[repr(C)]
#[derive(Clone, Copy)]
pub struct LentContract {
    // the state; a fresh one is made of the terms in it
    pub contract: Contract,
    pub outcome: ContractOutcome,
}
