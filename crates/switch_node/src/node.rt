//! One node.
ghost use Rattle.std.specs.Prelude.{◌≡◌, ◌⊎◌, ◌<◌, ◌≤◌, [], ◌∷◌, length, OnOk, OnErr, IfErr, IfOk, Some, None};
ghost use Rattle.network_law.specs.Claims.{IsWithinLimits};
ghost use Rattle.network_law.specs.Checked.{IsChecked, IsBounded};
ghost use Rattle.network_law.specs.Entries.{history};
ghost use Rattle.network_law.specs.Tables.{is_link_of};
ghost use Rattle.network_law.specs.Runs.{IsLegal, NamesOwnLink, step_refusal, step_outputs};
ghost use Rattle.network_law.specs.declared.fault.StepFault.TheVariants.{Memory};
ghost use Rattle.std.specs.Prelude.{reverse, if◌then◌else◌};
ghost use Rattle.step_draft.specs.Outputs.{spelled_in};
ghost use Rattle.switch_node.specs.Node.{newest_outputs, with_entry, IsNode};

use crate::entry::Entry;
use crate::input::Input;
use crate::inputs::step;
use card_digits::{LinkNo, NodeNo};
use iso_message::Message;
use message_elements::Kind;
use net_rows::Tables;
use network_law::{StepFault, every_legal_trace_is_within_limits};
use node_books::{Books, waits_in};
use std::alloc::{AllocError, Global};
use std::marker::Model;
use step_draft::{Draft, Output, Outputs};
use table_checker::Accepted;

/// The most entries that a trace has.
const MOST: usize = 1_000_000;

/// Lends copies of the outputs of a draft, if asked to.
fn lend(draft: &Draft, lends: bool, out: &mut Outputs) -> Result<(), AllocError>
    requires none { out.old ≡ [] }
    ensures ok { OnOk result (out.new ≡ if lends then spelled_in draft.now.effects else []) }
    ensures err { OnErr result (out.new ≡ []) }
{
    if lends {
        draft.lend(out)?;
    }
    Ok(())
}

/// What a node has beside its tables.
#[derive(Drop)]
pub(crate) struct State {
    node: NodeNo,
    draft: Draft,
    /// The memory in which messages are read.
    room: Message,
    trace: Vec<Entry>,
}

impl State {
    /// Nothing came yet.
    // Written where it is called, so that it isn't moved twice.
    #[inline]
    pub(crate) fn new(alloc: Global, tables: &Tables, node: NodeNo) -> Result<State, AllocError>
        requires there { node < length tables.now.nodes }
        requires checked { IsChecked tables.now }
        requires bounded { IsBounded tables.now }
        ensures node { IfOk result (λ s. s.node ≡ node) }
        ensures trace { IfOk result (λ s. s.trace.items ≡ []) }
        ensures is_node { IfOk result (λ s. IsNode tables.now node [] s.draft) }
    {
        let settings = tables.settings();
        let ticks = settings.advice_ticks;
        let waits = waits_in(alloc, tables.links(), settings.host_ticks)?;
        let books = Books::new(alloc, settings.date, tables.links().len(), ticks, waits)?;
        let draft = Draft::new(alloc, books)?;
        Ok(State {
            node,
            draft,
            room: Message::new(alloc, Kind::K0100),
            trace: Vec::new(alloc),
        })
    }

    pub(crate) fn node(&self) -> NodeNo
        ensures { result ≡ self.now.node }
    {
        self.node
    }

    pub(crate) fn has_link(&self, tables: &Tables, link: LinkNo) -> bool
        ensures { result ≡ is_link_of tables.now self.now.node link }
    {
        match tables.links().get(link.place()) {
            Some(row) => row.from == self.node || row.to == self.node,
            None => false,
        }
    }

    pub(crate) fn trace(&self) -> &[Entry]
        ensures { result.now ≡ self.now.trace.items }
    {
        self.trace.as_slice()
    }

    /// What was put out for the newest entry, in order; nothing where there is none.
    pub(crate) fn newest_outputs(&self) -> &[Output]
        ensures { result.now ≡ newest_outputs (reverse self.now.trace.items) }
    {
        match self.trace.as_slice().last() {
            Some(entry) => entry.outputs().as_slice(),
            None => &[],
        }
    }

    /// Adds the entry of an input, and lends copies of its outputs if asked to; or changes nothing.
    pub(crate) fn make_entry(
        &mut self,
        tables: &Tables,
        input: Input,
        lends: bool,
        out: &mut Outputs,
    ) -> Result<(), StepFault>
        requires own { NamesOwnLink tables.now self.old.node input }
        requires is_node { IsNode tables.now self.old.node (reverse self.old.trace.items) self.old.draft }
        requires none { out.old ≡ [] }
        ensures is_node { IsNode tables.now self.new.node (reverse self.new.trace.items) self.new.draft }
        ensures same { self.new.node ≡ self.old.node }
        ensures entry { OnOk result (reverse self.new.trace.items ≡ with_entry tables.now self.old.node (reverse self.old.trace.items) input) }
        ensures accepted { OnOk result (step_refusal tables.now self.old.node (reverse self.old.trace.items) input ≡ None) }
        ensures lent { OnOk result (out.new ≡ if lends then step_outputs tables.now self.old.node (reverse self.old.trace.items) input else []) }
        ensures err { OnErr result ((self.new.trace.items ≡ self.old.trace.items) × (out.new ≡ [])) }
        ensures fault { IfErr result (λ f. (f ≡ Memory) ⊎ (step_refusal tables.now self.old.node (reverse self.old.trace.items) input ≡ Some f)) }
    {
        if self.trace.as_slice().len() >= MOST {
            return Err(StepFault::HistoryFull);
        }
        self.trace.reserve(1)?;
        if let Err(fault) = step(&mut self.draft, &mut self.room, tables, self.node, &input) {
            self.draft.rollback();
            return Err(fault);
        }
        let Ok(()) = lend(&self.draft, lends, out) else {
            self.draft.rollback();
            return Err(StepFault::Memory);
        };
        let Ok(outputs) = self.draft.commit() else {
            out.clear();
            return Err(StepFault::Memory);
        };
        self.trace.push_reserved(Entry::new(input, outputs));
        Ok(())
    }
}

/// A node of the network with its trace.
#[derive(Drop)]
pub struct Node<'a> {
    tables: &'a Tables,
    state: State,
}

impl<'a> Model for Node<'a> {
    ghost use Rattle.std.specs.Prelude.{reverse, if◌then◌else◌};
    ghost use Rattle.step_draft.specs.Outputs.{spelled_in};
    ghost use Rattle.switch_node.specs.Node.{newest_outputs};
    ghost use Rattle.switch_node.specs.Node.{NodeView, IsNode};

    ghost Value = { NodeView };

    ghost view = { λ a. record { t = a.tables.now; n = a.state.node; trace = reverse a.state.trace.items } };

    ghost invariant = { λ a. IsNode a.tables.now a.state.node (reverse a.state.trace.items) a.state.draft };
}

impl<'a> Node<'a> {
    /// A node of accepted tables, to which nothing came yet.
    pub fn new(alloc: Global, accepted: &Accepted<'a>, node: NodeNo) -> Result<Node<'a>, AllocError>
        requires there { node < length accepted.now.nodes }
        ensures { IfOk result (λ a. (a.t ≡ accepted.now) × (a.n ≡ node) × (a.trace ≡ [])) }
    {
        let tables = accepted.tables();
        let state = State::new(alloc, tables, node)?;
        Ok(Node { tables, state })
    }

    /// Whether the node is an end of the link.
    pub fn has_link(&self, link: LinkNo) -> bool
        ensures { result ≡ is_link_of self.now.t self.now.n link }
    {
        self.state.has_link(self.tables, link)
    }

    /// What the node was given and put out, the oldest first.
    pub fn trace(&self) -> &[Entry]
        ensures trace { reverse result.now ≡ self.now.trace }
        ensures legal { IsLegal self.now.t self.now.n self.now.trace }
        // Whatever the other nodes do, it approves by itself only what the issuer names it for, within its allowances.
        ensures limits { IsWithinLimits self.now.t self.now.n (history self.now.trace) }
    {
        every_legal_trace_is_within_limits();
        self.state.trace()
    }

    /// What was put out for the newest entry, in order; nothing where there is none.
    pub fn newest_outputs(&self) -> &[Output]
        ensures { result.now ≡ newest_outputs self.now.trace }
    {
        self.state.newest_outputs()
    }

    /// Adds the entry of an input, and lends copies of its outputs; or changes nothing.
    pub fn step(&mut self, input: Input, out: &mut Outputs) -> Result<(), StepFault>
        requires own { NamesOwnLink self.old.t self.old.n input }
        ensures same { (self.new.t ≡ self.old.t) × (self.new.n ≡ self.old.n) }
        ensures entry { OnOk result (self.new.trace ≡ record { input = input; outputs = out.new } ∷ self.old.trace) }
        ensures accepted { OnOk result (step_refusal self.old.t self.old.n self.old.trace input ≡ None) }
        ensures decided { OnOk result (out.new ≡ step_outputs self.old.t self.old.n self.old.trace input) }
        ensures err { OnErr result ((self.new ≡ self.old) × (out.new ≡ [])) }
        ensures fault { IfErr result (λ f. (f ≡ Memory) ⊎ (step_refusal self.old.t self.old.n self.old.trace input ≡ Some f)) }
    {
        out.clear();
        self.make_entry(input, true, out)
    }

    /// The same without copies of the outputs, which stand in the newest entry.
    pub fn advance(&mut self, input: Input) -> Result<(), StepFault>
        requires own { NamesOwnLink self.old.t self.old.n input }
        ensures same { (self.new.t ≡ self.old.t) × (self.new.n ≡ self.old.n) }
        ensures entry { OnOk result (self.new.trace ≡ with_entry self.old.t self.old.n self.old.trace input) }
        ensures accepted { OnOk result (step_refusal self.old.t self.old.n self.old.trace input ≡ None) }
        ensures err { OnErr result (self.new ≡ self.old) }
        ensures fault { IfErr result (λ f. (f ≡ Memory) ⊎ (step_refusal self.old.t self.old.n self.old.trace input ≡ Some f)) }
    {
        let mut none = Outputs::new();
        self.make_entry(input, false, &mut none)
    }

    /// Adds the entry of an input, and lends copies of its outputs if asked to; or changes nothing.
    fn make_entry(&mut self, input: Input, lends: bool, out: &mut Outputs) -> Result<(), StepFault>
        requires own { NamesOwnLink self.old.t self.old.n input }
        requires none { out.old ≡ [] }
        ensures same { (self.new.t ≡ self.old.t) × (self.new.n ≡ self.old.n) }
        ensures entry { OnOk result (self.new.trace ≡ with_entry self.old.t self.old.n self.old.trace input) }
        ensures accepted { OnOk result (step_refusal self.old.t self.old.n self.old.trace input ≡ None) }
        ensures lent { OnOk result (out.new ≡ if lends then step_outputs self.old.t self.old.n self.old.trace input else []) }
        ensures err { OnErr result ((self.new ≡ self.old) × (out.new ≡ [])) }
        ensures fault { IfErr result (λ f. (f ≡ Memory) ⊎ (step_refusal self.old.t self.old.n self.old.trace input ≡ Some f)) }
    {
        self.state.make_entry(self.tables, input, lends, out)
    }
}
