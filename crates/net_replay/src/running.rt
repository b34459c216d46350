//! The nodes that a script runs on.
ghost use Rattle.std.specs.Prelude.{◌≡◌, ◌≢◌, ◌<◌, List, [], ◌∷◌, IfOk, IfErr, OnOk, MatchOption, true};
ghost use Rattle.network_law.specs.Runs.{IsTyped};
ghost use Rattle.network_law.specs.Tables.{is_link_of};
ghost use Rattle.net_replay.specs.declared.fault.ReplayFault.TheVariants.{Memory};
ghost use Rattle.replay_script.specs.Lines.{said, event_of, Take};
ghost use Rattle.net_replay.specs.Steps.{Step};
ghost use Rattle.net_replay.specs.Replays.{WasSent, LacksPacket, IsInput, IsSaidStep, IsSaidFault};
ghost use Rattle.net_replay.specs.Running.{EachStanding, IsStanding, IsSaid};
ghost use Rattle.net_replay.specs.Traces.{AreTraces};
ghost use Rattle.net_replay.specs.Replays.{fault_of};

use crate::fault::ReplayFault;
use crate::packets::{Packets, bytes_at};
use crate::traces::Traces;
use card_digits::{LinkNo, NodeNo};
use net_rows::Tables;
use network_law::StepFault;
use replay_script::{Command, ScriptLine};
use shared_bytes::SharedBytes;
use std::alloc::{AllocError, Global};
use switch_node::{Case, Input, Node};
use table_checker::Accepted;

/// The nodes, what each has put on its links, and the node of each line that was run.
#[derive(Drop)]
pub(crate) struct Running<'a> {
    alloc: Global,
    tables: &'a Tables,
    nodes: Vec<Node<'a>>,
    sent: Vec<Packets>,
    line_nodes: Vec<NodeNo>,
}

fn step_fault(number: usize, fault: StepFault) -> ReplayFault
    ensures { result ≡ fault_of number fault }
{
    match fault {
        StepFault::Memory => ReplayFault::Memory,
        _ => ReplayFault::Step(number, fault),
    }
}

impl<'a> Running<'a> {
    pub(crate) fn new(alloc: Global, accepted: &Accepted<'a>) -> Result<Running<'a>, AllocError>
        ensures tables { IfOk result (λ r. r.tables.now ≡ accepted.now) }
        ensures standing { IfOk result (λ r. IsStanding r []) }
    {
        let tables = accepted.tables();
        let mut nodes = Vec::new(alloc);
        let mut sent = Vec::new(alloc);
        for node in 0..tables.nodes().len() {
            nodes.push(Node::new(alloc, accepted, NodeNo::new(node))?)?;
            sent.push(Packets::new(alloc, tables.links().len())?)?;
        }
        Ok(Running {
            alloc,
            tables,
            nodes,
            sent,
            line_nodes: Vec::new(alloc),
        })
    }

    /// The packet with this serial that the other end put on the link.
    fn packet(&self, node: NodeNo, link: LinkNo, serial: u64) -> Option<&SharedBytes>
        requires standing { (steps : List Step) × IsStanding self.now steps }
        requires own { is_link_of self.now.tables.now node link ≡ true }
        ensures { EachStanding self.now (λ t steps. MatchOption result (LacksPacket t steps node (Take link serial)) (λ b. WasSent t steps node link serial b.now)) }
    {
        let other = self.tables.other_end(node, link).place();
        let place = self.sent[other].get(link, serial);
        bytes_at(self.nodes[other].trace(), place)
    }

    /// What comes to the node by a line.
    fn input(&self, number: usize, line: &ScriptLine) -> Result<Input, ReplayFault>
        requires standing { (steps : List Step) × IsStanding self.now steps }
        requires said { IsSaid self.now.tables.now (said line.now) }
        ensures typed { IfOk result IsTyped }
        ensures input { IfOk result (λ i. EachStanding self.now (λ t steps. IsInput t steps line.now.node (event_of line.now.command) i)) }
        ensures fault { IfErr result (λ f. f ≢ Memory → EachStanding self.now (λ t steps. IsSaidFault t steps number (said line.now) f)) }
    {
        let case = match line.command {
            Command::Enter(message) => Case::Enter(SharedBytes::from_slice(self.alloc, message)?),
            Command::Take { link, serial } => {
                let Some(bytes) = self.packet(line.node, link, serial) else {
                    return Err(ReplayFault::NoSuchPacket(number));
                };
                Case::Take(link, serial, bytes.share()?)
            }
            Command::LinkUp(link) => Case::LinkUp(link),
            Command::LinkDown(link) => Case::LinkDown(link),
            Command::Tick => Case::Tick,
            Command::HostAnswer { ask, code } => Case::HostAnswer(ask, code),
            Command::NewDate(date) => Case::NewDate(date),
            Command::Lend(order) => Case::lend(self.alloc, order)?,
        };
        Ok(Input::new(case))
    }

    /// Makes the step of a line.
    pub(crate) fn run_line(&mut self, number: usize, line: &ScriptLine) -> Result<(), ReplayFault>
        requires standing { (steps : List Step) × IsStanding self.old steps }
        requires said { IsSaid self.old.tables.now (said line.now) }
        ensures tables { self.new.tables.now ≡ self.old.tables.now }
        ensures made { OnOk result (EachStanding self.old (λ t steps. (s : Step) × IsSaidStep t steps (said line.now) s × IsStanding self.new (s ∷ steps))) }
        ensures fault { IfErr result (λ f. f ≢ Memory → EachStanding self.old (λ t steps. IsSaidFault t steps number (said line.now) f)) }
    {
        let input = self.input(number, line)?;
        let place = line.node.place();
        let count = self.nodes[place].trace().len();
        let Ok(entry) = u32::try_from(count) else {
            return Err(ReplayFault::Memory);
        };
        if let Err(fault) = self.nodes[place].advance(input) {
            return Err(step_fault(number, fault));
        }
        let outputs = self.nodes[place].newest_outputs();
        self.sent[place].put_all(entry, outputs)?;
        if self.line_nodes.push(line.node).is_err() {
            return Err(ReplayFault::Memory);
        }
        Ok(())
    }

    pub(crate) fn traces(self) -> Traces<'a>
        ensures { EachStanding self.entry (λ t steps. AreTraces t steps result) }
    {
        Traces::new(self.nodes, self.line_nodes)
    }
}
