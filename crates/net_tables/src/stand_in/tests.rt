//! Plain stand-in rows are read where they stand. That is only faster, so no clause says when they are.
use super::StandInReader;
use crate::node::next_nodes;
use crate::rows::plain_rows;
use named_rows::{NamedRows, NodePrefixes};
use net_rows::Node;
use std::alloc::Global;
use std::test::Fail;
use table_fields::Table;
use toml_rows::is_over;

const TEXT: &str = "\
[[node]]
name = \"N1\"
id = \"1001\"

[[stand_in]]
node = \"N1\"
prefix = \"41\"
day = 200000
single = 5000

# another
[[stand_in]]
node = \"N1\"
prefix = \"42\"
day = 0
single = 999999999999
";

/// How many rows are read where they stand, and what follows them.
fn count_plain<'a>(
    alloc: Global,
    text: &'a str,
    nodes: &NamedRows<Node>,
) -> Option<(usize, &'a str)> {
    let Ok(taken) = NodePrefixes::new(alloc, nodes.as_slice().len()) else {
        return None;
    };
    let reader = StandInReader { alloc, nodes };
    let ((rows, _taken), rest, _ahead) = plain_rows(alloc, text, Table::StandIn, &reader, taken)?;
    Some((rows.len(), rest))
}

#[test]
fn stand_ins_are_read_where_they_stand(rt: HostRuntime) -> Result<(), Fail> {
    let alloc = rt.alloc();
    let Some((nodes, after_nodes)) = next_nodes(alloc, TEXT) else {
        return Err("no nodes".into());
    };
    let Some((count, rest)) = count_plain(alloc, after_nodes, &nodes) else {
        return Err("no memory".into());
    };
    assert_eq!(rt; count, 2);
    assert!(rt; is_over(rest));
    Ok(())
}
