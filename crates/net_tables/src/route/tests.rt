//! Plain rows of routes are read where they stand. That is only faster, so no clause says when they are.
use super::RouteReader;
use crate::link::next_links;
use crate::node::next_nodes;
use crate::rows::plain_rows;
use named_rows::{NamedRows, NodePrefixes};
use net_rows::{Link, Node};
use std::alloc::Global;
use std::test::Fail;
use table_fields::Table;
use toml_rows::is_over;

const TEXT: &str = "\
[[node]]
name = \"N1\"
id = \"1001\"
[[node]]
name = \"N2\"
id = \"1002\"

[[link]]
name = \"L1\"
ends = [\"N1\", \"N2\"]
ticks = 3
[[link]]
name = \"L2\"
ends = [\"N2\", \"N1\"]
ticks = 4

[[route]]
node = \"N1\"
prefix = \"41\"
links = [\"L1\", \"L2\"]

# another
[[route]]
node = \"N2\"
prefix = \"41\"
links = [\"L2\"]
";

/// How many rows are read where they stand, and what follows them.
fn count_plain<'a>(
    alloc: Global,
    text: &'a str,
    nodes: &NamedRows<Node>,
    links: &NamedRows<Link>,
) -> Option<(usize, &'a str)> {
    let Ok(taken) = NodePrefixes::new(alloc, nodes.as_slice().len()) else {
        return None;
    };
    let reader = RouteReader {
        alloc,
        nodes,
        links,
    };
    let ((rows, _taken), rest, _ahead) = plain_rows(alloc, text, Table::Route, &reader, taken)?;
    Some((rows.len(), rest))
}

#[test]
fn routes_are_read_where_they_stand(rt: HostRuntime) -> Result<(), Fail> {
    let alloc = rt.alloc();
    let Some((nodes, after_nodes)) = next_nodes(alloc, TEXT) else {
        return Err("no nodes".into());
    };
    let Some((links, after_links)) = next_links(alloc, after_nodes, &nodes) else {
        return Err("no links".into());
    };
    let Some((count, rest)) = count_plain(alloc, after_links, &nodes, &links) else {
        return Err("no memory".into());
    };
    assert_eq!(rt; count, 2);
    assert!(rt; is_over(rest));
    Ok(())
}
