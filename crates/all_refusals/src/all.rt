//! All refusals of tables.
ghost use Rattle.std.specs.Prelude.{◌≡◌, map, IfOk};
ghost use Rattle.std.specs.List.{flat_map};
ghost use Rattle.table_checker.specs.Rules.{first_refusal};
ghost use Rattle.all_refusals.specs.Rows.{shown};
ghost use Rattle.all_refusals.specs.Known.{list_of};
ghost use Rattle.all_refusals.specs.Found.{Rule, class_rules, refusals_at, of_rule, all_refusals, first_found};

use crate::at::At;
use crate::lists::Lists;
use crate::row::RowRefusal;
use crate::twice::{add_acquirers_twice, add_long_timers, add_node_ids_twice};
use card_digits::Prefix;
use net_rows::{Route, StandIn, Tables, classes};
use rank_cert::Cert;
use rows_in_force::{InForce, LinkEnds};
use std::alloc::{AllocError, Global};

/// The refusals of each rule at these classes, with the rows in force at each.
fn lists_along(
    alloc: Global,
    tables: &Tables,
    cert: &Cert,
    all: &[Prefix],
    routes: &mut InForce<'_, Route>,
    stand_ins: &mut InForce<'_, StandIn>,
) -> Result<Lists, AllocError>
    requires routes { routes.old.rows ≡ tables.now.routes }
    requires stand_ins { stand_ins.old.rows ≡ tables.now.stand_ins }
    ensures { IfOk result (λ lists. (rule : Rule) → map (shown tables.now) (list_of lists rule) ≡ flat_map (refusals_at tables.now cert.now rule) all.now) }
{
    let ends = LinkEnds::new(tables);
    let mut lists = Lists::new(alloc);
    for class in all {
        routes.enter(*class);
        stand_ins.enter(*class);
        let at = At {
            tables,
            cert,
            class: *class,
            routes: &*routes,
            stand_ins: &*stand_ins,
            ends: &ends,
        };
        lists.add(&at)?;
    }
    Ok(lists)
}

/// The refusals that go by class.
fn by_class(alloc: Global, tables: &Tables, cert: &Cert) -> Result<Vec<RowRefusal>, AllocError>
    ensures { IfOk result (λ found. map (shown tables.now) found.items ≡ flat_map (of_rule tables.now cert.now) class_rules) }
{
    let all = classes(alloc, tables)?;
    let mut routes = InForce::new(alloc, tables.routes())?;
    let mut stand_ins = InForce::new(alloc, tables.stand_ins())?;
    let lists = lists_along(alloc, tables, cert, &all, &mut routes, &mut stand_ins)?;
    lists.joined()
}

/// All refusals, in the order in which `check` seeks the first, each with the row of the tables that it speaks of: none where
/// `check` accepts the tables. Memory may be refused.
pub fn refusals(alloc: Global, tables: &Tables, cert: &Cert) -> Result<Vec<RowRefusal>, AllocError>
    // All are found, and nothing else.
    ensures all { IfOk result (λ found. map (shown tables.now) found.items ≡ all_refusals tables.now cert.now) }
    // The first is that of `check`.
    ensures first { IfOk result (λ found. first_found found.items ≡ first_refusal tables.now cert.now) }
{
    let mut found = by_class(alloc, tables, cert)?;
    add_acquirers_twice(alloc, &mut found, tables)?;
    add_node_ids_twice(alloc, &mut found, tables)?;
    add_long_timers(&mut found, tables)?;
    Ok(found)
}
