//! A plan as far as it is read.
ghost use Rattle.std.specs.Prelude.{◌≡◌, ◌==◌, bytes_eq, slice_get};
ghost use Rattle.std.specs.List.{list_any};
ghost use Rattle.card_digits.specs.Numbers.{pad11};
ghost use Rattle.run_plan.specs.Plans.{place_of};

use crate::fault::PlanFault;
use crate::faults::{Delay, Faults, LinkFaults};
use crate::line::{PlanLine, Setting};
use crate::plan::{Plan, Session};
use card_digits::{Amount, LinkNo, NodeNo, pad11};
use net_rows::{Acquirer as AcquirerRow, Tables};
use replay_script::Loan;
use std::alloc::{AllocError, Global};
use std::marker::Model;

const MOST_SESSIONS: usize = 256;

const MOST_LINES: usize = 10_000;

/// A plan as far as it is read.
#[derive(Drop)]
pub(crate) struct Draft<'a> {
    alloc: Global,
    limits: Vec<Amount>,
    faults: Faults,
    loans: Vec<Loan>,
    sessions: Vec<Session<'a>>,
    /// The nodes whose hosts have a line.
    hosts: Vec<NodeNo>,
    /// The rows of the acquirers that have a session.
    acquirers: Vec<usize>,
}

impl<'a> Model for Draft<'a> {
    ghost use Rattle.std.specs.Prelude.{map};
    ghost use Rattle.run_plan.specs.Plans.{DraftView, session_of};

    ghost Value = { DraftView };

    ghost view = { λ d. record { limits = d.limits.items; faults = d.faults.links.items; loans = d.loans.items; sessions = map session_of d.sessions.items; hosts = d.hosts.items; acquirers = d.acquirers.items } };
}

fn has_node(nodes: &[NodeNo], node: NodeNo) -> bool
    ensures { result ≡ list_any (λ n. n == node) nodes.now }
{
    nodes.iter().any(|n| *n == node)
}

fn has_row(places: &[usize], place: usize) -> bool
    ensures { result ≡ list_any (λ p. p == place) places.now }
{
    places.iter().any(|p| *p == place)
}

fn has_id(row: &AcquirerRow, id: &[u8; 11]) -> bool
    ensures { result ≡ bytes_eq (pad11 row.now.id) id.now }
{
    pad11(row.id.as_slice()) == *id
}

/// The row of the acquirer with this padded id.
fn place_of(tables: &Tables, id: &[u8; 11]) -> Option<usize>
    ensures { result ≡ place_of tables.now id.now }
{
    tables.acquirers().iter().position(|row| has_id(row, id))
}

fn row_at(tables: &Tables, place: usize) -> Option<AcquirerRow>
    ensures { result ≡ slice_get tables.now.acquirers place }
{
    tables.acquirers().get(place).copied()
}

impl<'a> Draft<'a> {
    ghost use Rattle.std.specs.Prelude.{◌≡◌, IfOk, nat_le, length, Err, slice_get, if◌then◌else◌};
    ghost use Rattle.run_plan.specs.declared.fault.PlanFault.TheVariants.{Line, Acquirer};
    ghost use Rattle.run_plan.specs.Lines.{line_of};
    ghost use Rattle.run_plan.specs.Plans.{Drafts, IsPlan, nothing, or_fault, set_host, set_faults, set, before_sessions, session_at, new_session, send, add};

    /// No host approves anything, and no link has faults.
    pub(crate) fn new(alloc: Global, tables: &Tables) -> Result<Draft<'a>, AllocError>
        ensures { IfOk result (λ d. d ≡ nothing tables.now) }
    {
        Ok(Draft {
            alloc,
            limits: vec![in alloc; Amount::new(0); tables.nodes().len()]?,
            faults: Faults::sound(alloc, tables.links().len())?,
            loans: Vec::new(alloc),
            sessions: Vec::new(alloc),
            hosts: Vec::new(alloc),
            acquirers: Vec::new(alloc),
        })
    }

    /// The plan, if nothing more is said.
    pub(crate) fn whole(self, turns: u64, tick_every: u64) -> Plan<'a>
        ensures { IsPlan result (record { turns = turns; tick_every = tick_every; draft = self.entry }) }
    {
        Plan {
            turns,
            tick_every,
            limits: self.limits,
            faults: self.faults,
            loans: self.loans,
            sessions: self.sessions,
        }
    }

    /// Adds what the line of this number says. Refused, it is spent.
    pub(crate) fn add(
        &mut self,
        tables: &Tables,
        number: usize,
        line: &PlanLine<'a>,
    ) -> Result<(), PlanFault>
        ensures { Drafts (add tables.now self.old number (line_of line.now)) self.new result }
    {
        match line {
            PlanLine::Setting(setting) => self.add_setting(number, *setting),
            PlanLine::Session(id) => self.add_session(tables, number, id),
            PlanLine::Send(message) => self.send(number, *message),
        }
    }

    /// Settings stand before the first session.
    fn add_setting(&mut self, number: usize, setting: Setting) -> Result<(), PlanFault>
        ensures { Drafts (or_fault (Line number) (before_sessions self.old setting)) self.new result }
    {
        if !self.sessions.is_empty() {
            return Err(PlanFault::Line(number));
        }
        self.set(number, setting)
    }

    fn set(&mut self, number: usize, setting: Setting) -> Result<(), PlanFault>
        ensures { Drafts (or_fault (Line number) (set self.old setting)) self.new result }
    {
        match setting {
            Setting::Host(node, amount) => self.set_host(number, node, amount),
            Setting::Lose(link, every) => {
                let faults = self.faults_of(link).and_then(|f| f.with_lose(every));
                self.set_faults(number, link, faults)
            }
            Setting::Delay(link, delay) => {
                let faults = self.faults_of(link).and_then(|f| f.with_delay(delay));
                self.set_faults(number, link, faults)
            }
            Setting::Repeat(link, every) => {
                let faults = self.faults_of(link).and_then(|f| f.with_repeat(every));
                self.set_faults(number, link, faults)
            }
            Setting::Lend(loan) => match self.loans.push(loan) {
                Ok(()) => Ok(()),
                Err(_) => Err(PlanFault::Memory),
            },
        }
    }

    fn set_host(&mut self, number: usize, node: NodeNo, amount: Amount) -> Result<(), PlanFault>
        ensures { Drafts (or_fault (Line number) (set_host self.old node amount)) self.new result }
    {
        if has_node(self.hosts.as_slice(), node) {
            return Err(PlanFault::Line(number));
        }
        if self.hosts.push(node).is_err() {
            return Err(PlanFault::Memory);
        }
        if let Some(limit) = self.limits.get_mut(node.place()) {
            *limit = amount;
        }
        Ok(())
    }

    fn faults_of(&self, link: LinkNo) -> Option<LinkFaults>
        ensures { result ≡ slice_get self.now.faults link }
    {
        self.faults.links.get(link.place()).copied()
    }

    /// The faults of a link from now on, where it may have them.
    fn set_faults(
        &mut self,
        number: usize,
        link: LinkNo,
        faults: Option<LinkFaults>,
    ) -> Result<(), PlanFault>
        ensures { Drafts (or_fault (Line number) (set_faults self.old link faults)) self.new result }
    {
        let Some(faults) = faults else {
            return Err(PlanFault::Line(number));
        };
        if let Some(place) = self.faults.links.get_mut(link.place()) {
            *place = faults;
        }
        Ok(())
    }

    fn add_session(
        &mut self,
        tables: &Tables,
        number: usize,
        id: &[u8; 11],
    ) -> Result<(), PlanFault>
        ensures { Drafts (if nat_le 256 (length self.old.sessions) then Err (Line number) else or_fault (Acquirer number) (new_session tables.now self.old id.now)) self.new result }
    {
        if self.sessions.len() >= MOST_SESSIONS {
            return Err(PlanFault::Line(number));
        }
        match place_of(tables, id) {
            Some(place) => self.session_at(tables, number, place),
            None => Err(PlanFault::Acquirer(number)),
        }
    }

    /// One more session, of the acquirer in this row.
    fn session_at(&mut self, tables: &Tables, number: usize, place: usize) -> Result<(), PlanFault>
        ensures { Drafts (or_fault (Acquirer number) (session_at tables.now self.old place)) self.new result }
    {
        if has_row(self.acquirers.as_slice(), place) {
            return Err(PlanFault::Acquirer(number));
        }
        let Some(row) = row_at(tables, place) else {
            return Err(PlanFault::Acquirer(number));
        };
        let session = Session {
            node: row.node,
            lines: Vec::new(self.alloc),
        };
        if self.acquirers.push(place).is_err() {
            return Err(PlanFault::Memory);
        }
        if self.sessions.push(session).is_err() {
            return Err(PlanFault::Memory);
        }
        Ok(())
    }

    /// One more message of the last session.
    fn send(&mut self, number: usize, message: &'a [u8]) -> Result<(), PlanFault>
        ensures { Drafts (or_fault (Line number) (send self.old message.now)) self.new result }
    {
        let count = self.sessions.len();
        if count == 0 {
            return Err(PlanFault::Line(number));
        }
        let session = &mut self.sessions[count - 1];
        if session.lines.len() >= MOST_LINES {
            return Err(PlanFault::Line(number));
        }
        if session.lines.push(message).is_err() {
            return Err(PlanFault::Memory);
        }
        Ok(())
    }
}
