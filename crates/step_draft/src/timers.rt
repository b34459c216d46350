//! What ticks and links that go down do.
ghost use Rattle.std.specs.Prelude.{◌≡◌, ◌<◌, ◌∷◌, [], OnOk, length};
ghost use Rattle.network_law.specs.Traces.{LinkDown, Tick};
ghost use Rattle.node_machine.specs.Lists.{LeftAsMarked};
ghost use Rattle.node_machine.specs.Machine.{due, failing};
ghost use Rattle.node_machine.specs.Steps.{fail_all, send_all, send_due, send_grant};
ghost use Rattle.node_books.specs.Effects.{progress};
ghost use Rattle.step_draft.specs.Acting.{Does};
ghost use Rattle.step_draft.specs.Used.{IsQuiet};
ghost use Rattle.step_draft.specs.Failures.{cause_of, keys_at};
ghost use Rattle.pending_book.specs.Rows.{IsUnique};

use crate::draft::Draft;
use card_digits::{LinkNo, NodeNo};
use net_rows::Tables;
use network_law::{Grant, GrantPacket};
use node_books::{StoredCase, StoredItem};
use std::alloc::AllocError;
use step_rules::first_up_between;

/// What makes pending requests fail.
#[derive(Drop)]
pub enum Cause {
    /// The link on which they were put goes down.
    LinkDown(LinkNo),
    /// Their time is over.
    Tick,
}

impl Draft {
    /// The request at this place fails.
    fn fail_at(&mut self, tables: &Tables, node: NodeNo, place: usize) -> Result<(), AllocError>
        requires place { place < length self.old.base.rows }
        requires quiet { IsQuiet self.old.base (progress self.old).lists }
        requires left { LeftAsMarked self.old.base.marks self.old.base.takes }
        ensures base { self.new.base ≡ self.old.base }
        ensures ok { OnOk result (Does tables.now node self.old self.new (λ b. fail_all tables.now node b (keys_at self.old.base.rows (place ∷ [])))) }
    {
        let row = &self.books.rows()[place];
        let key = row.key();
        let source = row.source();
        let request = row.message().decode()?;
        self.fail_request(tables, node, key, &request, source)
    }

    /// The requests that fail do so one after another, in the order in which they came.
    pub fn fail_all(
        &mut self,
        tables: &Tables,
        node: NodeNo,
        cause: &Cause,
    ) -> Result<(), AllocError>
        requires quiet { IsQuiet self.old.base (progress self.old).lists }
        requires left { LeftAsMarked self.old.base.marks self.old.base.takes }
        ensures base { self.new.base ≡ self.old.base }
        ensures ok { OnOk result (Does tables.now node self.old self.new (λ b. fail_all tables.now node b (failing tables.now b (cause_of cause.now)))) }
    {
        let places = self.failing_places(tables, cause)?;
        let _ = self.row_count();
        for i in 0..places.len() {
            self.fail_at(tables, node, places[i])?;
        }
        Ok(())
    }

    /// The number of requests, each of which has a key of its own.
    fn row_count(&self) -> usize
        ensures count { result ≡ length self.now.base.rows }
        ensures unique { IsUnique self.now.base.rows }
    {
        self.books.rows().len()
    }

    /// A grant goes out on the first link in the order of the tables that joins the two nodes and is up.
    pub fn send_grant(
        &mut self,
        tables: &Tables,
        node: NodeNo,
        borrower: NodeNo,
        grant: Grant,
    ) -> Result<(), AllocError>
        ensures base { self.new.base ≡ self.old.base }
        ensures ok { OnOk result (progress self.new ≡ send_grant tables.now node borrower grant (progress self.old)) }
    {
        match first_up_between(self, tables, node, borrower) {
            Some(link) => {
                let serial = self.next_serial(link);
                self.emit_packet(link, serial, GrantPacket::Grant(grant))
            }
            None => Ok(()),
        }
    }

    /// What was stored is sent again.
    fn send_item(
        &mut self,
        tables: &Tables,
        node: NodeNo,
        item: StoredItem,
    ) -> Result<(), AllocError>
        ensures base { self.new.base ≡ self.old.base }
        ensures ok { OnOk result (progress self.new ≡ send_due tables.now node item (progress self.old)) }
    {
        match item.into_case() {
            StoredCase::Advice(advice) => {
                let id = advice.id();
                let message = advice.message();
                self.send_message(tables, node, id, message)
            }
            StoredCase::Grant(grant) => {
                let borrower = grant.borrower();
                let lent = grant.grant();
                self.send_grant(tables, node, borrower, lent)
            }
        }
    }

    /// What is stored and due is sent again, in the order in which it was stored.
    pub fn send_all(&mut self, tables: &Tables, node: NodeNo) -> Result<(), AllocError>
        requires { IsQuiet self.old.base (progress self.old).lists }
        ensures base { self.new.base ≡ self.old.base }
        ensures quiet { OnOk result (IsQuiet self.old.base (progress self.new).lists) }
        ensures ok { OnOk result (Does tables.now node self.old self.new (λ b. send_all tables.now node (due tables.now b))) }
    {
        let now = self.books.count() + 1;
        let items = self.books.due(tables.settings().advice_ticks, now)?;
        for item in items {
            self.send_item(tables, node, item)?;
        }
        Ok(())
    }
}
