//! What nodes posted, counted in their traces.
ghost use Rattle.std.specs.Prelude.{◌≡◌, count_by};
ghost use Rattle.run_report.specs.Counted.{counted};
ghost use Rattle.run_report.specs.Own.{is_post, posts_of};
ghost use Rattle.run_report.specs.Reports.{posts_total};
ghost use Rattle.run_report.specs.Stations.{posts};

use kept_messages::Way;
use net_threads::Station;
use switch_node::{Entry, Output};

fn is_post(output: &Output) -> bool
    ensures { result ≡ is_post output.now }
{
    match output.way() {
        Way::Post => true,
        _ => false,
    }
}

fn posts_in(entry: &Entry) -> usize
    ensures { result ≡ count_by is_post entry.now.outputs }
{
    entry
        .outputs()
        .as_slice()
        .iter()
        .filter(|output| is_post(output))
        .count()
}

/// How many posts stand in a station's trace.
fn posts_in_trace(station: &Station<'_>) -> u64
    ensures { result ≡ counted (posts_of station.now.trace) }
{
    let trace = station.trace();
    let mut posts: u64 = 0;
    for entry in trace {
        posts = posts.saturating_add(posts_in(entry) as u64);
    }
    posts
}

/// How many advices the node of a station posted.
fn posts(station: &Station<'_>) -> u64
    ensures { result ≡ counted (posts station.now) }
{
    // The rows of a station's tables are sound and its trace is legal, so each post in bytes is one in the history.
    let _ = station.tables().nodes();
    let _ = station.trace();
    posts_in_trace(station)
}

/// How many advices were posted.
pub(crate) fn posts_total(stations: &[Station<'_>]) -> u64
    ensures { result ≡ posts_total stations.now }
{
    let mut posted: u64 = 0;
    for station in stations {
        posted = posted.saturating_add(posts(station));
    }
    posted
}
