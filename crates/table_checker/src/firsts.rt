//! The first refusal of each kind.
ghost use Rattle.std.specs.Prelude.{◌≡◌, None, Some};
ghost use Rattle.std.specs.Option.{option_or};
ghost use Rattle.table_checker.specs.Firsts.{of_kind};
ghost use Rattle.table_checker.specs.Rules.{refusal_at, kind_refusal, kinds};
ghost use Rattle.table_checker.specs.Search.{first_some};
ghost use Rattle.table_checker.specs.Known.{AreFalling, HasRows};
ghost use Rattle.table_checker.specs.Here.{here};

use crate::class::At;
use crate::known::Known;
use crate::refusal::{Kind, Refusal};
use net_rows::Issuer;

/// The first refusal of each kind at the classes so far.
#[derive(Clone, Copy, Debug)]
pub(crate) struct Firsts {
    pub no_rank: Option<Refusal>,
    pub not_less: Option<Refusal>,
    pub not_named: Option<Refusal>,
    pub over_ceiling: Option<Refusal>,
    pub no_issuer: Option<Refusal>,
}

impl Firsts {
    /// No refusal was found yet.
    pub fn new() -> Firsts
        ensures { (kind : Kind) → of_kind result kind ≡ None }
    {
        Firsts {
            no_rank: None,
            not_less: None,
            not_named: None,
            over_ceiling: None,
            no_issuer: None,
        }
    }

    fn of_kind(&self, kind: Kind) -> Option<Refusal>
        ensures { result ≡ of_kind self.now kind }
    {
        match kind {
            Kind::NoRank => self.no_rank,
            Kind::NotLess => self.not_less,
            Kind::NotNamed => self.not_named,
            Kind::OverCeiling => self.over_ceiling,
            Kind::NoIssuer => self.no_issuer,
        }
    }

    /// The first by kind.
    pub fn first(&self) -> Option<Refusal>
        ensures { result ≡ first_some (of_kind self.now) kinds }
    {
        for kind in [
            Kind::NoRank,
            Kind::NotLess,
            Kind::NotNamed,
            Kind::OverCeiling,
            Kind::NoIssuer,
        ] {
            let found = self.of_kind(kind);
            if found.is_some() {
                return found;
            }
        }
        None
    }

    /// Adds the refusals at the next class.
    pub fn add(&mut self, at: &At, known: &mut Known)
        requires rows { HasRows at.now }
        requires falling { AreFalling at.now.tables.now known.old.ranks known.old.falling }
        ensures firsts { (kind : Kind) → of_kind self.new kind ≡ option_or (of_kind self.old kind) (refusal_at at.now.tables.now at.now.cert.now kind at.now.class) }
        ensures falling { AreFalling at.now.tables.now known.new.ranks known.new.falling }
    {
        match at.tables.issuer_at(&at.class) {
            Some(issuer) => self.add_with_issuer(at, known, issuer),
            None => self.add_without_issuer(at),
        }
    }

    fn add_with_issuer(&mut self, at: &At, known: &mut Known, issuer: &Issuer)
        requires rows { HasRows at.now }
        requires falling { AreFalling at.now.tables.now known.old.ranks known.old.falling }
        ensures no_rank { self.new.no_rank ≡ option_or self.old.no_rank (here at.now kind_refusal Kind.NoRank (Some issuer.now)) }
        ensures not_less { self.new.not_less ≡ option_or self.old.not_less (here at.now kind_refusal Kind.NotLess (Some issuer.now)) }
        ensures not_named { self.new.not_named ≡ option_or self.old.not_named (here at.now kind_refusal Kind.NotNamed (Some issuer.now)) }
        ensures over_ceiling { self.new.over_ceiling ≡ option_or self.old.over_ceiling (here at.now kind_refusal Kind.OverCeiling (Some issuer.now)) }
        ensures no_issuer { self.new.no_issuer ≡ self.old.no_issuer }
        ensures falling { AreFalling at.now.tables.now known.new.ranks known.new.falling }
    {
        self.add_by_rank(at, known, issuer);
        self.add_by_day(at, issuer);
    }

    /// Adds those that come of ranks, which are only looked for as long as one of the two is not found.
    fn add_by_rank(&mut self, at: &At, known: &mut Known, issuer: &Issuer)
        requires rows { HasRows at.now }
        requires falling { AreFalling at.now.tables.now known.old.ranks known.old.falling }
        ensures no_rank { self.new.no_rank ≡ option_or self.old.no_rank (here at.now kind_refusal Kind.NoRank (Some issuer.now)) }
        ensures not_less { self.new.not_less ≡ option_or self.old.not_less (here at.now kind_refusal Kind.NotLess (Some issuer.now)) }
        ensures not_named { self.new.not_named ≡ self.old.not_named }
        ensures over_ceiling { self.new.over_ceiling ≡ self.old.over_ceiling }
        ensures no_issuer { self.new.no_issuer ≡ self.old.no_issuer }
        ensures falling { AreFalling at.now.tables.now known.new.ranks known.new.falling }
    {
        if self.no_rank.is_some() && self.not_less.is_some() {
            return;
        }
        let by_rank = at.by_rank(issuer, known);
        self.no_rank = self.no_rank.or(by_rank.no_rank);
        self.not_less = self.not_less.or(by_rank.not_less);
    }

    /// Adds those that come of what nodes may approve, in the same way.
    fn add_by_day(&mut self, at: &At, issuer: &Issuer)
        requires { HasRows at.now }
        ensures not_named { self.new.not_named ≡ option_or self.old.not_named (here at.now kind_refusal Kind.NotNamed (Some issuer.now)) }
        ensures over_ceiling { self.new.over_ceiling ≡ option_or self.old.over_ceiling (here at.now kind_refusal Kind.OverCeiling (Some issuer.now)) }
        ensures no_rank { self.new.no_rank ≡ self.old.no_rank }
        ensures not_less { self.new.not_less ≡ self.old.not_less }
        ensures no_issuer { self.new.no_issuer ≡ self.old.no_issuer }
    {
        if self.not_named.is_some() && self.over_ceiling.is_some() {
            return;
        }
        let by_day = at.by_day(issuer);
        self.not_named = self.not_named.or(by_day.not_named);
        self.over_ceiling = self.over_ceiling.or(by_day.over_ceiling);
    }

    // All rows are walked for it, and so only at the first such class.
    fn add_without_issuer(&mut self, at: &At)
        ensures no_issuer { self.new.no_issuer ≡ option_or self.old.no_issuer (here at.now kind_refusal Kind.NoIssuer None) }
        ensures no_rank { self.new.no_rank ≡ self.old.no_rank }
        ensures not_less { self.new.not_less ≡ self.old.not_less }
        ensures not_named { self.new.not_named ≡ self.old.not_named }
        ensures over_ceiling { self.new.over_ceiling ≡ self.old.over_ceiling }
    {
        if self.no_issuer.is_none() {
            self.no_issuer = at.first_without_issuer();
        }
    }
}
