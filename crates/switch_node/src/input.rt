//! Inputs.
ghost use Rattle.std.specs.Prelude.{◌≡◌, IfOk};

use card_digits::{DateLabel, LinkNo};
use message_elements::Code;
use shared_bytes::SharedBytes;
use std::alloc::{AllocError, Global};
use std::marker::Model;
use step_rules::Lending;

/// An order to lend, in memory of its own.
#[derive(Drop)]
pub struct BoxedLending {
    order: Box<Lending>,
}

impl Model for BoxedLending {
    ghost use Rattle.network_law.specs.Entries as entries;
    ghost use Rattle.network_law.specs.Runs.{IsTyped};
    ghost use Rattle.step_rules.specs.declared.lending.Lending.{Lending};

    ghost Value = { Lending };

    ghost view = { λ b. b.order.value };

    ghost invariant = { λ b. IsTyped (entries.Lend b.order.value.borrower b.order.value.card b.order.value.date b.order.value.amount) };
}

impl BoxedLending {
    fn new(alloc: Global, order: Lending) -> Result<BoxedLending, AllocError>
        ensures { IfOk result (λ b. b ≡ order) }
    {
        let order = Box::new(alloc, order)?;
        Ok(BoxedLending { order })
    }

    /// What is to be lent, and to whom.
    pub fn order(&self) -> &Lending
        ensures { result.now ≡ self.now }
    {
        &self.order
    }
}

/// What comes to a node.
#[derive(Drop)]
pub enum Case {
    /// Bytes that an acquirer enters.
    Enter(SharedBytes),
    /// Bytes that come by a link, with their serial; the node that put them may hold them too.
    Take(LinkNo, u64, SharedBytes),
    LinkUp(LinkNo),
    LinkDown(LinkNo),
    Tick,
    /// The host's code for an ask.
    HostAnswer(u64, Code),
    NewDate(DateLabel),
    /// An order to lend. It is rare and larger than the others, so it is in a box.
    Lend(BoxedLending),
}

impl Case {
    ghost use Rattle.switch_node.specs.Inputs.{input_of};
    ghost use Rattle.network_law.specs.Entries as entries;

    /// An order to lend, in a box of its own.
    pub fn lend(alloc: Global, order: Lending) -> Result<Case, AllocError>
        ensures { IfOk result (λ c. input_of c ≡ entries.Lend order.borrower order.card order.date order.amount) }
    {
        let boxed = BoxedLending::new(alloc, order)?;
        Ok(Case::Lend(boxed))
    }
}

/// An input. Contracts see the input of the law.
#[derive(Drop)]
pub struct Input {
    case: Case,
}

impl Model for Input {
    ghost use Rattle.network_law.specs.Entries.{Input};
    ghost use Rattle.network_law.specs.Runs.{IsTyped};
    ghost use Rattle.switch_node.specs.Inputs.{input_of};

    ghost Value = { Input };

    ghost view = { λ i. input_of i.case };

    ghost invariant = { λ i. IsTyped (input_of i.case) };
}

impl Input {
    ghost use Rattle.network_law.specs.Runs.{IsTyped};
    ghost use Rattle.switch_node.specs.Inputs.{input_of};

    /// The input that this case is.
    pub fn new(case: Case) -> Input
        ensures case { result ≡ input_of case }
        ensures typed { IsTyped result }
    {
        Input { case }
    }

    /// Which input it is, with its parts.
    pub fn case(&self) -> &Case
        ensures { input_of result.now ≡ self.now }
    {
        &self.case
    }
}
