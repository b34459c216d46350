//! A node that owns its tables.
ghost use Rattle.std.specs.Prelude.{◌≡◌, ◌≢◌, ◌⊎◌, ◌<◌, [], length, OnOk, OnErr, IfErr, IfOk, Some, None};
ghost use Rattle.network_law.specs.Runs.{NamesOwnLink, step_refusal};
ghost use Rattle.network_law.specs.Tables.{is_link_of};
ghost use Rattle.network_law.specs.declared.fault.StepFault.TheVariants.{Memory};
ghost use Rattle.table_checker.specs.Rules.{first_refusal};
ghost use Rattle.switch_node.specs.Node.{newest_outputs, with_entry, IsNode};

use crate::input::Input;
use crate::node::State;
use card_digits::{LinkNo, NodeNo};
use net_rows::Tables;
use network_law::StepFault;
use rank_cert::Cert;
use std::alloc::Global;
use std::marker::Model;
use step_draft::{Output, Outputs};
use table_checker::{Refusal, check};

/// What a node of accepted tables has beside them before anything came to it.
fn accepted_state(
    alloc: Global,
    tables: &Tables,
    cert: &Cert,
    node: NodeNo,
) -> Result<State, Refusal>
    requires there { node < length tables.now.nodes }
    ensures accepted { OnOk result (first_refusal tables.now cert.now ≡ None) }
    ensures refused { IfErr result (λ r. r ≢ Refusal.Memory → first_refusal tables.now cert.now ≡ Some r) }
    ensures node { IfOk result (λ s. s.node ≡ node) }
    ensures trace { IfOk result (λ s. s.trace.items ≡ []) }
    ensures is_node { IfOk result (λ s. IsNode tables.now node [] s.draft) }
{
    let accepted = check(alloc, tables, cert)?;
    match State::new(alloc, accepted.tables(), node) {
        Ok(state) => Ok(state),
        Err(_) => Err(Refusal::Memory),
    }
}

/// A node of the network with its trace, which owns its tables.
#[derive(Drop)]
pub struct OwnedNode {
    tables: Tables,
    state: State,
}

impl Model for OwnedNode {
    ghost use Rattle.std.specs.Prelude.{reverse};
    ghost use Rattle.switch_node.specs.Node.{NodeView, IsNode};

    ghost Value = { NodeView };

    ghost view = { λ a. record { t = a.tables; n = a.state.node; trace = reverse a.state.trace.items } };

    ghost invariant = { λ a. IsNode a.tables a.state.node (reverse a.state.trace.items) a.state.draft };
}

impl OwnedNode {
    /// A node of tables that are accepted with these ranks, to which nothing came yet; or why they are refused.
    pub fn new(
        alloc: Global,
        tables: Tables,
        cert: &Cert,
        node: NodeNo,
    ) -> Result<OwnedNode, Refusal>
        requires there { node < length tables.nodes }
        ensures node { IfOk result (λ a. (a.t ≡ tables) × (a.n ≡ node) × (a.trace ≡ [])) }
        ensures accepted { OnOk result (first_refusal tables cert.now ≡ None) }
        ensures refused { IfErr result (λ r. r ≢ Refusal.Memory → first_refusal tables cert.now ≡ Some r) }
    {
        let state = accepted_state(alloc, &tables, cert, node)?;
        Ok(OwnedNode { tables, state })
    }

    /// The tables that the node owns.
    pub fn tables(&self) -> &Tables
        ensures { result.now ≡ self.now.t }
    {
        &self.tables
    }

    /// Its place among the nodes of the tables.
    pub fn node(&self) -> NodeNo
        ensures { result ≡ self.now.n }
    {
        self.state.node()
    }

    /// Whether the node is an end of the link.
    pub fn has_link(&self, link: LinkNo) -> bool
        ensures { result ≡ is_link_of self.now.t self.now.n link }
    {
        self.state.has_link(&self.tables, link)
    }

    /// What was put out for the newest entry, in order; nothing where there is none.
    pub fn newest_outputs(&self) -> &[Output]
        ensures { result.now ≡ newest_outputs self.now.trace }
    {
        self.state.newest_outputs()
    }

    /// Adds the entry of an input; or changes nothing.
    pub fn advance(&mut self, input: Input) -> Result<(), StepFault>
        requires own { NamesOwnLink self.old.t self.old.n input }
        ensures same { (self.new.t ≡ self.old.t) × (self.new.n ≡ self.old.n) }
        ensures entry { OnOk result (self.new.trace ≡ with_entry self.old.t self.old.n self.old.trace input) }
        ensures accepted { OnOk result (step_refusal self.old.t self.old.n self.old.trace input ≡ None) }
        ensures err { OnErr result (self.new ≡ self.old) }
        ensures fault { IfErr result (λ f. (f ≡ Memory) ⊎ (step_refusal self.old.t self.old.n self.old.trace input ≡ Some f)) }
    {
        let mut none = Outputs::new();
        self.state.make_entry(&self.tables, input, false, &mut none)
    }
}
