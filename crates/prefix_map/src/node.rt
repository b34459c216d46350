//! Nodes that hold a prefix and its value each, and walks from node to node along the digits of a prefix.
ghost use Rattle.std.specs.Prelude.{◌≡◌, ◌==◌, ◌&&◌, ◌<◌, ◌+◌, ◌^◌, ◌∷◌, ◌++◌, [], ℕ, false, length, slice_get, All, Some};
ghost use Rattle.std.specs.Vec.{vec_len, vec_capacity};
ghost use Rattle.std.specs.Option.{option_copied, option_map};
ghost use Rattle.prefix_map.specs.Walk.{digit_at, next, pairs, with_value, is_at};
ghost use Rattle.prefix_map.specs.Tree.{IsTree};
ghost use Rattle.prefix_map.specs.End.{IsEnd};

use crate::ends::end_alike;
use card_digits::Prefix;

/// A prefix with its value, and where a walk goes on that ends here without having found its prefix.
#[derive(Clone, Copy, Debug)]
pub(crate) struct Node<V> {
    pub prefix: Prefix,
    pub value: V,
    /// The places of the nodes behind the ten digits. They come behind this node, so a place before it, as 0, says that there is none.
    pub behind: [u32; 10],
}

/// Where a walk along the digits of a prefix ends.
#[derive(Clone, Copy, Debug)]
pub(crate) enum End {
    /// At the node of the prefix.
    There(usize),
    /// No node has the prefix, and none stands behind this digit of the node at a place.
    Free(usize, u8),
    /// There are no nodes.
    Empty,
}

/// The digit for a step, and 0 behind the last digit.
#[inline(always)]
fn digit_at(digits: &[u8], step: usize) -> u8
    requires { All (λ d. d < 10) digits.now }
    ensures value { result ≡ digit_at digits.now step }
    ensures below { result < 10 }
{
    match digits.get(step) {
        Some(digit) => *digit,
        None => 0,
    }
}

/// The place of the node behind a digit.
#[inline(always)]
fn next<V>(nodes: &[Node<V>], at: usize, digit: u8) -> Option<usize>
    requires within { at < length nodes.now }
    requires digit { digit < 10 }
    ensures { result ≡ next nodes.now at digit }
{
    let place = nodes[at].behind[digit as usize] as usize;
    if at < place { Some(place) } else { None }
}

/// Whether the node at a place has the prefix.
#[inline(always)]
fn is_at<V>(nodes: &[Node<V>], at: usize, prefix: &Prefix) -> bool
    requires { at < length nodes.now }
    ensures { result ≡ is_at (pairs nodes.now) at prefix.now }
{
    let other = &nodes[at].prefix;
    end_alike(prefix.digits(), other.digits()) && prefix == other
}

/// The same as the walk. The node at a place, as that of the prefix that was put last, is looked at first.
pub(crate) fn find<V>(nodes: &[Node<V>], last: usize, prefix: &Prefix) -> End
    requires { IsTree (pairs nodes.now) (next nodes.now) }
    ensures { IsEnd nodes.now prefix.now result }
{
    if last < nodes.len() && is_at(nodes, last, prefix) {
        return End::There(last);
    }
    walk(nodes, prefix)
}

/// Where the walk along a prefix ends. It passes one node for each digit, and few more, whatever the other prefixes are: behind the last
/// digit it goes on as along zeros, and of twelve digits all that pass there are the same.
#[inline(never)]
pub(crate) fn walk<V>(nodes: &[Node<V>], prefix: &Prefix) -> End
    requires { IsTree (pairs nodes.now) (next nodes.now) }
    ensures { IsEnd nodes.now prefix.now result }
{
    if nodes.is_empty() {
        return End::Empty;
    }
    let digits = prefix.digits();
    let mut at = 0;
    let mut step = 0;
    while !is_at(nodes, at, prefix) {
        let digit = digit_at(digits, step);
        let Some(place) = next(nodes, at, digit) else {
            return End::Free(at, digit);
        };
        at = place;
        step += 1;
    }
    End::There(at)
}

/// The value of the node at a place.
pub(crate) fn value_at<V>(nodes: &[Node<V>], at: usize) -> Option<&V>
    ensures { option_copied result ≡ option_map (λ e. e.1) (slice_get (pairs nodes.now) at) }
{
    match nodes.get(at) {
        Some(node) => Some(&node.value),
        None => None,
    }
}

/// Puts a value at the node of a place, and gives the one that it had.
pub(crate) fn put<V: Copy>(nodes: &mut Vec<Node<V>>, at: usize, value: V) -> V
    requires { at < length nodes.old.items }
    ensures old { option_map (λ e. e.1) (slice_get (pairs nodes.old.items) at) ≡ Some result }
    ensures pairs { pairs nodes.new.items ≡ with_value (pairs nodes.old.items) at value }
    ensures next { (i d : ℕ) → next nodes.new.items i d ≡ next nodes.old.items i d }
    ensures len { vec_len nodes.new ≡ vec_len nodes.old }
    ensures capacity { vec_capacity nodes.new ≡ vec_capacity nodes.old }
{
    let old = nodes[at].value;
    nodes[at].value = value;
    old
}

/// Adds a node to which no step leads.
fn push<V>(nodes: &mut Vec<Node<V>>, prefix: Prefix, value: V)
    requires { vec_len nodes.old < vec_capacity nodes.old }
    ensures pairs { pairs nodes.new.items ≡ pairs nodes.old.items ++ (prefix, value) ∷ [] }
    ensures next { (i d : ℕ) → next nodes.new.items i d ≡ next nodes.old.items i d }
    ensures len { vec_len nodes.new ≡ vec_len nodes.old + 1 }
    ensures capacity { vec_capacity nodes.new ≡ vec_capacity nodes.old }
{
    nodes.push_reserved(Node {
        prefix,
        value,
        behind: [0; 10],
    });
}

/// Lets a step lead from a node by a digit to a place behind it.
fn link<V>(nodes: &mut Vec<Node<V>>, at: usize, digit: u8, place: u32)
    requires within { at < length nodes.old.items }
    requires digit { digit < 10 }
    requires behind { at < place }
    ensures now { next nodes.new.items at digit ≡ Some place }
    ensures others { (i d : ℕ) → ((i == at) && (d == digit)) ≡ false → next nodes.new.items i d ≡ next nodes.old.items i d }
    ensures pairs { pairs nodes.new.items ≡ pairs nodes.old.items }
    ensures len { vec_len nodes.new ≡ vec_len nodes.old }
    ensures capacity { vec_capacity nodes.new ≡ vec_capacity nodes.old }
{
    nodes[at].behind[digit as usize] = place;
}

/// Adds a node for a prefix where its walk ends.
pub(crate) fn add_behind<V>(
    nodes: &mut Vec<Node<V>>,
    at: usize,
    digit: u8,
    prefix: Prefix,
    value: V,
)
    requires tree { IsTree (pairs nodes.old.items) (next nodes.old.items) }
    requires free { IsEnd nodes.old.items prefix (End.Free at digit) }
    requires room { vec_len nodes.old < vec_capacity nodes.old }
    requires few { vec_len nodes.old < 2 ^ 32 }
    ensures tree { IsTree (pairs nodes.new.items) (next nodes.new.items) }
    ensures pairs { pairs nodes.new.items ≡ pairs nodes.old.items ++ (prefix, value) ∷ [] }
    ensures len { vec_len nodes.new ≡ vec_len nodes.old + 1 }
    ensures capacity { vec_capacity nodes.new ≡ vec_capacity nodes.old }
{
    let place = nodes.len();
    push(nodes, prefix, value);
    link(nodes, at, digit, place as u32);
}

/// Adds the first node.
pub(crate) fn add_first<V>(nodes: &mut Vec<Node<V>>, prefix: Prefix, value: V)
    requires tree { IsTree (pairs nodes.old.items) (next nodes.old.items) }
    requires none { length nodes.old.items ≡ 0 }
    requires room { vec_len nodes.old < vec_capacity nodes.old }
    ensures tree { IsTree (pairs nodes.new.items) (next nodes.new.items) }
    ensures pairs { pairs nodes.new.items ≡ pairs nodes.old.items ++ (prefix, value) ∷ [] }
    ensures len { vec_len nodes.new ≡ vec_len nodes.old + 1 }
    ensures capacity { vec_capacity nodes.new ≡ vec_capacity nodes.old }
{
    push(nodes, prefix, value);
}
