//! Requests that a node answers by itself.
ghost use Rattle.std.specs.Prelude.{◌≡◌, ℕ, Some, OnOk};
ghost use Rattle.message_keys.specs.Keys.{key_of};
ghost use Rattle.node_machine.specs.Lists.{LeftAsMarked};
ghost use Rattle.node_machine.specs.Steps.{fail, standin, standin_by, take};
ghost use Rattle.node_books.specs.Effects.{progress};
ghost use Rattle.pending_book.specs.Rows.{IsKeyOf, source_of};
ghost use Rattle.step_draft.specs.Acting.{Does, opened_at};
ghost use Rattle.step_draft.specs.Used.{IsQuiet};

use crate::digits::{card_number, date_label};
use crate::draft::Draft;
use card_digits::{Key, LinkNo, NodeNo};
use iso_message::Message;
use message_elements::{Code, response_codes};
use net_rows::Tables;
use node_books::OwnApproval;
use std::alloc::AllocError;
use step_rules::amount_of;

impl Draft {
    /// The node approved a request by itself.
    #[tactic(auto, using(crate::proofs::Parts::take_is))]
    fn take(&mut self, key: Key, request: &Message) -> Result<(), AllocError>
        requires { key ≡ key_of request.now }
        ensures base { self.new.base ≡ self.old.base }
        ensures ok { OnOk result (progress self.new ≡ take request.now (progress self.old)) }
    {
        let card = card_number(request);
        let date = date_label(request);
        self.approve(OwnApproval::new(key, card, date, amount_of(request)))
    }

    /// The node answers a request with this code. What it approves is stored as an advice and sent to the home of the card.
    fn stand_in_by(
        &mut self,
        tables: &Tables,
        node: NodeNo,
        key: Key,
        request: &Message,
        source: Option<LinkNo>,
        code: Code,
    ) -> Result<(), AllocError>
        requires { IsKeyOf key request.now }
        ensures base { self.new.base ≡ self.old.base }
        ensures ok { OnOk result ((count : ℕ) → Does tables.now node self.old self.new (λ b. standin_by tables.now node b (opened_at request.now (source_of source) count) code)) }
    {
        let count = self.count_now();
        self.respond(source, key, request, code)?;
        if code.as_slice() != response_codes::APPROVED.as_slice() {
            return Ok(());
        }
        self.take(key, request)?;
        let advice = self.stand_in_advice(tables, node, key, request)?;
        self.store_made(tables, node, &advice, count, false)?;
        self.keep(tables, node, &advice)
    }

    /// The node answers a request by its own limits.
    pub fn stand_in(
        &mut self,
        tables: &Tables,
        node: NodeNo,
        key: Key,
        request: &Message,
        source: Option<LinkNo>,
    ) -> Result<(), AllocError>
        requires key { IsKeyOf key request.now }
        requires quiet { IsQuiet self.old.base (progress self.old).lists }
        requires left { LeftAsMarked self.old.base.marks self.old.base.takes }
        ensures base { self.new.base ≡ self.old.base }
        ensures ok { OnOk result ((count : ℕ) → Does tables.now node self.old self.new (λ b. standin tables.now node b (opened_at request.now (source_of source) count))) }
    {
        let code = self.standin_code(tables, node, request);
        self.stand_in_by(tables, node, key, request, source, code)
    }

    /// A request that the books have fails: its reversal is kept, and the node answers by its own limits.
    pub(crate) fn fail_request(
        &mut self,
        tables: &Tables,
        node: NodeNo,
        key: Key,
        request: &Message,
        source: Option<LinkNo>,
    ) -> Result<(), AllocError>
        requires key { IsKeyOf key request.now }
        requires quiet { IsQuiet self.old.base (progress self.old).lists }
        requires left { LeftAsMarked self.old.base.marks self.old.base.takes }
        ensures base { self.new.base ≡ self.old.base }
        ensures ok { OnOk result ((count : ℕ) → Does tables.now node self.old self.new (λ b. fail tables.now node b (Some (opened_at request.now (source_of source) count)))) }
    {
        let reversal = self.reversal(tables, node, key, request)?;
        let put = self.is_sent(tables, node, &reversal);
        self.keep(tables, node, &reversal)?;
        let code = self.standin_code(tables, node, request);
        let count = self.count_now();
        self.store_made(tables, node, &reversal, count, put)?;
        self.stand_in_by(tables, node, key, request, source, code)
    }
}
