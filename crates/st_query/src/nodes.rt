//! A query as its tree.
ghost use Rattle.std.specs.Prelude.{◌≡◌, IfOk};
ghost use Rattle.st_query.specs.Trees.{tree, joined_by, one};

use crate::addrs::Addr;
use crate::alternatives::chain_of;
use crate::patterns::Chain;
use sqlite_items::Boxed;
use std::alloc::{AllocError, Global};
use std::marker::Model;

/// A moment: a second since 1970, or this many hours or minutes before the clock's whole second.
#[derive(Clone, Copy)]
pub enum When {
    At(i64),
    Ago { count: u32, hours: bool },
}

/// A query that is not joined from others.
#[derive(Clone, Copy)]
pub enum Primitive {
    Host(Addr),
    Net { addr: Addr, bits: u8 },
    Port(u16),
    Proto(u8),
    Vlan(u16),
    Mpls(u32),
    Before(When),
    After(When),
}

/// A query, or a part of one.
///
/// `Net` has its first `bits` bits in `addr`, and zeros after them. A VLAN number is below 2^12, a
/// label below 2^20.
#[derive(Drop)]
pub enum Node {
    And {
        left: Boxed<Node>,
        right: Boxed<Node>,
    },
    Or {
        left: Boxed<Node>,
        right: Boxed<Node>,
    },
    Host(Addr),
    Net {
        addr: Addr,
        bits: u8,
    },
    Port(u16),
    Proto(u8),
    Vlan(u16),
    Mpls(u32),
    Before(When),
    After(When),
}

/// The node of a primitive.
pub fn node_of(primitive: Primitive) -> Node
    ensures { tree result ≡ one primitive }
{
    match primitive {
        Primitive::Host(addr) => Node::Host(addr),
        Primitive::Net { addr, bits } => Node::Net { addr, bits },
        Primitive::Port(port) => Node::Port(port),
        Primitive::Proto(proto) => Node::Proto(proto),
        Primitive::Vlan(tag) => Node::Vlan(tag),
        Primitive::Mpls(label) => Node::Mpls(label),
        Primitive::Before(when) => Node::Before(when),
        Primitive::After(when) => Node::After(when),
    }
}

/// Two queries, joined by `and` or by `or`.
pub fn joined(alloc: Global, left: Node, and: bool, right: Node) -> Result<Node, AllocError>
    ensures { IfOk result (λ q. tree q ≡ joined_by and (tree left) (tree right)) }
{
    let left = Boxed::new(alloc, left)?;
    let right = Boxed::new(alloc, right)?;
    if and {
        Ok(Node::And { left, right })
    } else {
        Ok(Node::Or { left, right })
    }
}

/// A query that can be asked. Contracts see it as its node. For `matches` alone, the alternatives
/// that it begins with are kept a second time, sorted.
#[derive(Drop)]
pub struct Query {
    node: Node,
    chain: Option<Chain>,
}

impl Model for Query {
    ghost use Rattle.std.specs.Coded.{codes};
    ghost use Rattle.st_query.specs.contracts.nodes.Node as e;
    ghost use Rattle.st_query.specs.declared.nodes.Node.{Node};
    ghost use Rattle.st_query.specs.Trees.{IsSound, tree};
    ghost use Rattle.st_query.specs.Alternatives.{HasChain};

    ghost Value = { Node };

    ghost coded = { Prim.hlevel (codes, e.the_row.coded) };

    ghost view = { λ a. a.node };

    ghost invariant = { λ a. IsSound (tree a.node) × HasChain (tree a.node) a.chain };
}

impl Query {
    ghost use Rattle.st_query.specs.Trees.{IsSound, tree};
    ghost use Rattle.st_query.specs.Alternatives.{HasChain};

    /// The query of this node.
    pub(crate) fn new(alloc: Global, node: Node) -> Result<Query, AllocError>
        requires { IsSound (tree node) }
        ensures { IfOk result (λ q. q ≡ node) }
    {
        let chain = chain_of(alloc, &node)?;
        Ok(Query { node, chain })
    }

    /// The alternatives that the query begins with, if they are sorted.
    pub(crate) fn chain(&self) -> &Option<Chain>
        ensures { HasChain (tree self.now) result.now }
    {
        &self.chain
    }

    /// The query's outermost node.
    pub fn node(&self) -> &Node
        ensures same { result.now ≡ self.now }
        ensures sound { IsSound (tree self.now) }
    {
        &self.node
    }
}
