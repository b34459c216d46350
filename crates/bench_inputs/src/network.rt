//! Tables and ranks of a network: 64 nodes in a ring, 256 links, issuers, and classes that extend their prefixes.
use crate::random::Random;
use crate::rank_line::RankLine;
use crate::text::Text;
use std::alloc::{AllocError, Global};

const NODES: u64 = 64;

/// A node has this many links, to the nodes right before it in the ring.
const LINKS: u64 = 4;

/// Each issuer names this many nodes.
const NAMED: u64 = 8;

/// How many issuers there are, how many classes beside those of their own prefixes, and how many rows of each kind these have.
#[derive(Clone, Copy)]
pub struct Shape {
    pub issuers: u64,
    pub classes: u64,
    pub routes: u64,
    pub stand_ins: u64,
}

/// In which order rows and ranks stand.
#[derive(Clone, Copy, PartialEq, Eq)]
pub enum Order {
    ByPrefix,
    ByNode,
}

/// What is awkward about an input.
#[derive(Clone, Copy, PartialEq, Eq)]
pub enum Twist {
    Nothing,
    /// `[network]` stands behind all other tables.
    SettingsLast,
    /// The home of the greatest class has a rank that is too high.
    RefusedLast,
    /// The last row has a key without a value of its form.
    FaultLast,
    NoRanks,
    /// The last rank is that of a node that isn't there, at the first class.
    StrayRank,
    /// The routes of the greatest class lead in a circle.
    Circle,
}

/// A prefix that stands in some row, and the home of its issuer.
#[derive(Clone, Copy)]
pub(crate) struct Class {
    issuer: u64,
    suffix: Option<u64>,
    home: u64,
    choice: u64,
}

/// The node so many places behind the home in the ring. Its rank is that number.
fn node_at(home: u64, distance: u64) -> u64 {
    home.wrapping_add(distance) % NODES
}

impl Class {
    /// The distances from the home of the nodes with a route row.
    fn distance(self, row: u64) -> u64 {
        self.choice.wrapping_add(row.wrapping_mul(17)) % (NODES - 1) + 1
    }

    fn routes(self, shape: Shape) -> u64 {
        match self.suffix {
            Some(_) => shape.routes,
            None => NODES - 1,
        }
    }

    fn stand_ins(self, shape: Shape) -> u64 {
        match self.suffix {
            Some(_) => shape.stand_ins,
            None => NAMED,
        }
    }

    /// A node that the issuer names.
    fn named(self, place: u64) -> u64 {
        node_at(self.home, place.wrapping_mul(7).wrapping_add(1))
    }

    fn is_after(self, other: Class) -> bool {
        (self.issuer, self.suffix) > (other.issuer, other.suffix)
    }

    fn is_same(self, other: Class) -> bool {
        self.issuer == other.issuer && self.suffix == other.suffix
    }
}

/// A network of 64 nodes, as its tables and ranks are written.
#[derive(Drop)]
pub struct Network {
    shape: Shape,
    order: Order,
    twist: Twist,
    classes: Vec<Class>,
    greatest: Class,
}

/// The classes of the issuers' own prefixes.
fn own_classes(alloc: Global, random: &mut Random, issuers: u64) -> Result<Vec<Class>, AllocError> {
    let mut classes = Vec::new(alloc);
    for issuer in 0..issuers {
        classes.push(Class {
            issuer,
            suffix: None,
            home: random.below(NODES),
            choice: random.next() >> 1,
        })?;
    }
    Ok(classes)
}

/// Adds so many classes of scattered prefixes that extend those of issuers.
fn add_classes(
    random: &mut Random,
    classes: &mut Vec<Class>,
    issuers: u64,
    count: u64,
) -> Result<(), AllocError> {
    let offset = random.below(100_000_000);
    for place in 0..count {
        let issuer = random.below(issuers);
        let scattered = place.wrapping_mul(38_196_601).wrapping_add(offset) % 100_000_000;
        classes.push(Class {
            issuer,
            suffix: Some(scattered),
            home: home_of(classes.as_slice(), issuer),
            choice: random.next() >> 1,
        })?;
    }
    Ok(())
}

/// The greatest class in the order of prefixes.
fn greatest_of(classes: &[Class]) -> Class {
    let mut greatest = Class {
        issuer: 0,
        suffix: None,
        home: 0,
        choice: 0,
    };
    for class in classes {
        if class.is_after(greatest) {
            greatest = *class;
        }
    }
    greatest
}

impl Network {
    /// A network of this shape, whose numbers come of a seed.
    pub fn new(
        alloc: Global,
        random: &mut Random,
        shape: Shape,
        order: Order,
        twist: Twist,
    ) -> Result<Network, AllocError> {
        let mut classes = own_classes(alloc, random, shape.issuers)?;
        add_classes(random, &mut classes, shape.issuers, shape.classes)?;
        let greatest = greatest_of(classes.as_slice());
        Ok(Network {
            shape,
            order,
            twist,
            classes,
            greatest,
        })
    }

    fn is_greatest(&self, class: Class) -> bool {
        class.is_same(self.greatest)
    }
}

/// The home of an issuer, whose own class stands at its place.
fn home_of(classes: &[Class], issuer: u64) -> u64 {
    match classes.get(issuer as usize) {
        Some(class) => class.home,
        None => 0,
    }
}

fn push_node_name(text: &mut Text, node: u64) -> Result<(), AllocError> {
    text.push_byte(b'N')?;
    text.number(node.wrapping_add(1))
}

fn push_link_name(text: &mut Text, node: u64, link: u64) -> Result<(), AllocError> {
    text.push_byte(b'L')?;
    text.number(node.wrapping_mul(LINKS).wrapping_add(link))
}

/// The prefix of the class's issuer, four digits.
fn own_prefix(class: Class) -> u64 {
    class.issuer.wrapping_mul(4).wrapping_add(4_000)
}

fn push_prefix(text: &mut Text, class: Class) -> Result<(), AllocError> {
    text.digits(own_prefix(class), 4)?;
    match class.suffix {
        Some(suffix) => text.digits(suffix, 8),
        None => Ok(()),
    }
}

fn push_settings(text: &mut Text) -> Result<(), AllocError> {
    text.line(b"[network]")?;
    text.line(b"currency = \"840\"")?;
    text.line(b"date = \"0314\"")?;
    text.line(b"host_ticks = 100")?;
    text.line(b"advice_ticks = 50")
}

/// A line of a key and a quoted node.
fn push_node_line(text: &mut Text, key: &[u8], node: u64) -> Result<(), AllocError> {
    text.push(key)?;
    push_node_name(text, node)?;
    text.line(b"\"")
}

/// A line of a key and a quoted number.
fn push_id_line(text: &mut Text, id: u64) -> Result<(), AllocError> {
    text.push(b"id = \"")?;
    text.number(id)?;
    text.line(b"\"")
}

/// A line of a key and a number.
fn push_number_line(text: &mut Text, key: &[u8], number: u64) -> Result<(), AllocError> {
    text.push(key)?;
    text.number(number)?;
    text.end_line()
}

fn push_prefix_line(text: &mut Text, class: Class) -> Result<(), AllocError> {
    text.push(b"prefix = \"")?;
    push_prefix(text, class)?;
    text.line(b"\"")
}

fn push_nodes(text: &mut Text) -> Result<(), AllocError> {
    for node in 0..NODES {
        text.line(b"[[node]]")?;
        push_node_line(text, b"name = \"", node)?;
        push_id_line(text, node.wrapping_add(100_001))?;
    }
    Ok(())
}

fn push_link(text: &mut Text, node: u64, link: u64) -> Result<(), AllocError> {
    text.line(b"[[link]]")?;
    text.push(b"name = \"")?;
    push_link_name(text, node, link)?;
    text.line(b"\"")?;
    text.push(b"ends = [\"")?;
    push_node_name(text, node)?;
    text.push(b"\", \"")?;
    push_node_name(
        text,
        node.wrapping_add(NODES - 1).wrapping_sub(link) % NODES,
    )?;
    text.line(b"\"]")?;
    push_number_line(text, b"ticks = ", link.wrapping_add(3))
}

fn push_links(text: &mut Text) -> Result<(), AllocError> {
    for node in 0..NODES {
        for link in 0..LINKS {
            push_link(text, node, link)?;
        }
    }
    Ok(())
}

fn push_acquirers(text: &mut Text) -> Result<(), AllocError> {
    for node in 0..NODES {
        text.line(b"[[acquirer]]")?;
        push_id_line(text, node.wrapping_add(400_001))?;
        push_node_line(text, b"node = \"", node)?;
    }
    Ok(())
}

fn push_issuer(text: &mut Text, class: Class) -> Result<(), AllocError> {
    text.line(b"[[issuer]]")?;
    text.push(b"name = \"I")?;
    text.number(class.issuer)?;
    text.line(b"\"")?;
    push_prefix_line(text, class)?;
    push_node_line(text, b"home = \"", class.home)?;
    text.push(b"named = [")?;
    for place in 0..NAMED {
        text.push(if place == 0 { b"\"" } else { b", \"" })?;
        push_node_name(text, class.named(place))?;
        text.push(b"\"")?;
    }
    text.line(b"]")?;
    text.line(b"ceiling = 999999999")
}

fn push_issuers(text: &mut Text, network: &Network) -> Result<(), AllocError> {
    for class in network.classes.iter() {
        if class.suffix.is_none() {
            push_issuer(text, *class)?;
        }
    }
    Ok(())
}

/// The links of a route: some of those that lead to lower ranks.
fn push_route_links(text: &mut Text, class: Class, distance: u64) -> Result<(), AllocError> {
    let node = node_at(class.home, distance);
    let most = distance.min(LINKS);
    let count = most.min(class.choice % 3 + 1);
    text.push(b"links = [")?;
    for place in 0..count {
        text.push(if place == 0 { b"\"" } else { b", \"" })?;
        let link = class.choice.wrapping_add(place).checked_rem(most);
        push_link_name(text, node, link.unwrap_or(0))?;
        text.push(b"\"")?;
    }
    text.line(b"]")
}

fn push_route(text: &mut Text, class: Class, distance: u64) -> Result<(), AllocError> {
    text.line(b"[[route]]")?;
    push_node_line(text, b"node = \"", node_at(class.home, distance))?;
    push_prefix_line(text, class)?;
    push_route_links(text, class, distance)
}

/// Rows at two neighbours whose links lead to each other.
fn push_circle(text: &mut Text, class: Class) -> Result<(), AllocError> {
    let upper = node_at(class.home, 3);
    for node in [upper, node_at(class.home, 2)] {
        text.line(b"[[route]]")?;
        push_node_line(text, b"node = \"", node)?;
        push_prefix_line(text, class)?;
        text.push(b"links = [\"")?;
        push_link_name(text, upper, 0)?;
        text.line(b"\"]")?;
    }
    Ok(())
}

fn push_class_routes(text: &mut Text, network: &Network, class: Class) -> Result<(), AllocError> {
    if network.twist == Twist::Circle && network.is_greatest(class) {
        return push_circle(text, class);
    }
    for row in 0..class.routes(network.shape) {
        push_route(text, class, class.distance(row))?;
    }
    Ok(())
}

fn push_node_routes(text: &mut Text, network: &Network, node: u64) -> Result<(), AllocError> {
    for class in network.classes.iter() {
        for row in 0..class.routes(network.shape) {
            let distance = class.distance(row);
            if node_at(class.home, distance) == node {
                push_route(text, *class, distance)?;
            }
        }
    }
    Ok(())
}

fn push_routes(text: &mut Text, network: &Network) -> Result<(), AllocError> {
    if network.order == Order::ByNode {
        for node in 0..NODES {
            push_node_routes(text, network, node)?;
        }
        return Ok(());
    }
    for class in network.classes.iter() {
        push_class_routes(text, network, *class)?;
    }
    Ok(())
}

fn push_stand_in(text: &mut Text, class: Class, place: u64) -> Result<(), AllocError> {
    text.line(b"[[stand_in]]")?;
    push_node_line(text, b"node = \"", class.named(place))?;
    push_prefix_line(text, class)?;
    push_number_line(text, b"day = ", (class.choice % 10_000).wrapping_add(100))?;
    push_number_line(text, b"single = ", (class.choice % 90).wrapping_add(10))
}

fn push_stand_ins(text: &mut Text, network: &Network) -> Result<(), AllocError> {
    for class in network.classes.iter() {
        for row in 0..class.stand_ins(network.shape) {
            let place = class.choice.wrapping_add(row) % NAMED;
            push_stand_in(text, *class, place)?;
        }
    }
    if network.twist == Twist::FaultLast {
        text.line(b"[[stand_in]]")?;
        text.line(b"node = 7")?;
    }
    Ok(())
}

/// The tables. The rows of each kind stand together.
pub fn push_tables(text: &mut Text, network: &Network) -> Result<(), AllocError> {
    if network.twist != Twist::SettingsLast {
        push_settings(text)?;
    }
    push_nodes(text)?;
    push_links(text)?;
    push_acquirers(text)?;
    push_issuers(text, network)?;
    push_routes(text, network)?;
    push_stand_ins(text, network)?;
    if network.twist == Twist::SettingsLast {
        push_settings(text)?;
    }
    Ok(())
}

fn push_rank(
    text: &mut Text,
    network: &Network,
    class: Class,
    node: u64,
) -> Result<(), AllocError> {
    let mut rank = node.wrapping_add(NODES).wrapping_sub(class.home) % NODES;
    if rank == 0 && network.twist == Twist::RefusedLast && network.is_greatest(class) {
        rank = 1_000;
    }
    let mut line = RankLine::new();
    line.put_byte(b'N');
    line.put_number(node.wrapping_add(1));
    line.put_byte(b' ');
    line.put_four(own_prefix(class));
    if let Some(suffix) = class.suffix {
        line.put_eight(suffix);
    }
    line.put_byte(b' ');
    line.put_number(rank);
    line.push_to(text)
}

fn push_all_ranks(text: &mut Text, network: &Network) -> Result<(), AllocError> {
    if network.order == Order::ByNode {
        for node in 0..NODES {
            for class in network.classes.iter() {
                push_rank(text, network, *class, node)?;
            }
        }
        return Ok(());
    }
    for class in network.classes.iter() {
        for node in 0..NODES {
            push_rank(text, network, *class, node)?;
        }
    }
    Ok(())
}

/// A rank for each class and node.
pub fn push_ranks(text: &mut Text, network: &Network) -> Result<(), AllocError> {
    text.line(b"RANKS 1")?;
    if network.twist != Twist::NoRanks {
        push_all_ranks(text, network)?;
    }
    if network.twist == Twist::StrayRank {
        text.line(b"Z9 4000 1")?;
    }
    text.line(b"END")
}
