//! The refusals that go by class, rule by rule.
ghost use Rattle.std.specs.Prelude.{◌≡◌, [], IfOk, Some};
ghost use Rattle.net_rows.specs.Network.{issuer as issuer_of};
ghost use Rattle.std.specs.List.{flat_map};
ghost use Rattle.all_refusals.specs.Rows.{Adds};
ghost use Rattle.all_refusals.specs.Known.{HasRows, list_of};
ghost use Rattle.all_refusals.specs.Here.{here};
ghost use Rattle.all_refusals.specs.Found.{Rule, class_rules, refusals_at, rule_refusals};

use crate::at::At;
use crate::row::RowRefusal;
use net_rows::Issuer;
use std::alloc::{AllocError, Global};

/// The refusals of each rule at the classes so far.
#[derive(Debug, Drop)]
pub(crate) struct Lists {
    pub no_rank: Vec<RowRefusal>,
    pub not_less: Vec<RowRefusal>,
    pub not_named: Vec<RowRefusal>,
    pub over_ceiling: Vec<RowRefusal>,
    pub no_issuer: Vec<RowRefusal>,
}

impl Lists {
    /// Lists without refusals.
    pub fn new(alloc: Global) -> Lists
        ensures { (rule : Rule) → list_of result rule ≡ [] }
    {
        Lists {
            no_rank: Vec::new(alloc),
            not_less: Vec::new(alloc),
            not_named: Vec::new(alloc),
            over_ceiling: Vec::new(alloc),
            no_issuer: Vec::new(alloc),
        }
    }

    fn add_with_issuer(&mut self, at: &At<'_>, issuer: &Issuer) -> Result<(), AllocError>
        requires rows { HasRows at.now }
        requires issuer { issuer_of at.now.tables.now at.now.class ≡ Some issuer.now }
        ensures { IfOk result (λ _. (rule : Rule) → Adds at.now.tables.now (list_of self.old rule) (list_of self.new rule) (here at.now rule_refusals rule (Some issuer.now))) }
    {
        let ranks = at.ranks();
        at.add_no_ranks(&mut self.no_rank, &ranks, issuer.home)?;
        at.add_not_less(&mut self.not_less, &ranks, issuer.home)?;
        at.add_unnamed(&mut self.not_named, issuer.named.as_slice())?;
        at.add_too_much(&mut self.over_ceiling, issuer)
    }

    /// Adds the refusals at the next class.
    pub fn add(&mut self, at: &At<'_>) -> Result<(), AllocError>
        requires { HasRows at.now }
        ensures { IfOk result (λ _. (rule : Rule) → Adds at.now.tables.now (list_of self.old rule) (list_of self.new rule) (refusals_at at.now.tables.now at.now.cert.now rule at.now.class)) }
    {
        match at.tables.issuer_at(&at.class) {
            Some(issuer) => self.add_with_issuer(at, issuer),
            None => at.add_without_issuer(&mut self.no_issuer),
        }
    }

    /// All of them, in the order of the rules.
    pub fn joined(self) -> Result<Vec<RowRefusal>, AllocError>
        ensures { IfOk result (λ all. all.items ≡ flat_map (list_of self) class_rules) }
    {
        let mut all = self.no_rank;
        all.extend_from_slice(&self.not_less)?;
        all.extend_from_slice(&self.not_named)?;
        all.extend_from_slice(&self.over_ceiling)?;
        all.extend_from_slice(&self.no_issuer)?;
        Ok(all)
    }
}
