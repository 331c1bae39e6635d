//! A query as text.
ghost use Rattle.std.specs.Prelude.{◌≡◌, ℕ, ◌++◌, ◌≤◌, IsFalse, OnOk, IfOk, List, length};
ghost use Rattle.st_query.specs.PrintedWords.{net_text};
ghost use Rattle.st_query.specs.PrintedForm.{printed, side_text, when_text};
ghost use Rattle.st_query.specs.Spelling.{Spells};
ghost use Rattle.st_query.specs.Trees.{tree, is_joined, InRange, FitsWhen};

use crate::addrs::Addr;
use crate::limits::MAX_TEXT;
use crate::nodes::{Node, Query, When};
use crate::word_printer::{put_address, put_instant};
use st_base::{NoMemory, Octets};
use std::alloc::{AllocError, Global};

fn put_ago(alloc: Global, count: u32, hours: bool, out: &mut Vec<u8>) -> Result<(), AllocError>
    ensures { OnOk result (out.new.items ≡ out.old.items ++ when_text (When.Ago count hours)) }
{
    if hours {
        let text = format!(in alloc; "{count}h ago")?;
        return out.extend_from_slice(text.as_bytes());
    }
    let text = format!(in alloc; "{count}m ago")?;
    out.extend_from_slice(text.as_bytes())
}

fn put_when(alloc: Global, when: When, out: &mut Vec<u8>) -> Result<(), AllocError>
    requires { FitsWhen when }
    ensures { OnOk result (out.new.items ≡ out.old.items ++ when_text when) }
{
    match when {
        When::At(second) => put_instant(second, out),
        When::Ago { count, hours } => put_ago(alloc, count, hours, out),
    }
}

/// Appends a keyword and a time.
fn put_time(alloc: Global, word: &[u8], when: When, out: &mut Vec<u8>) -> Result<(), AllocError>
    requires { FitsWhen when }
    ensures { OnOk result (out.new.items ≡ out.old.items ++ (word.now ++ when_text when)) }
{
    out.extend_from_slice(word)?;
    put_when(alloc, when, out)
}

/// Appends a net as one word.
fn put_net(alloc: Global, addr: Addr, bits: u8, out: &mut Vec<u8>) -> Result<(), AllocError>
    ensures { OnOk result (out.new.items ≡ out.old.items ++ net_text addr bits) }
{
    put_address(alloc, addr, out)?;
    let text = format!(in alloc; "/{bits}")?;
    out.extend_from_slice(text.as_bytes())
}

/// Appends the printed form of a part of a query.
#[cycle(print)]
fn put_node(alloc: Global, node: &Node, out: &mut Vec<u8>) -> Result<(), AllocError>
    requires { InRange (tree node.now) }
    ensures { OnOk result (out.new.items ≡ out.old.items ++ printed (tree node.now)) }
{
    match node {
        Node::And { left, right } => {
            put_node(alloc, left.get(), out)?;
            out.extend_from_slice(b" and ")?;
            put_side(alloc, right.get(), out)
        }
        Node::Or { left, right } => {
            put_node(alloc, left.get(), out)?;
            out.extend_from_slice(b" or ")?;
            put_side(alloc, right.get(), out)
        }
        Node::Host(_)
        | Node::Net { .. }
        | Node::Port(_)
        | Node::Proto(_)
        | Node::Vlan(_)
        | Node::Mpls(_)
        | Node::Before(_)
        | Node::After(_) => put_primitive(alloc, node, out),
    }
}

/// Appends the printed form of a query that is not joined from others.
fn put_primitive(alloc: Global, node: &Node, out: &mut Vec<u8>) -> Result<(), AllocError>
    requires range { InRange (tree node.now) }
    requires alone { IsFalse (is_joined (tree node.now)) }
    ensures { OnOk result (out.new.items ≡ out.old.items ++ printed (tree node.now)) }
{
    match node {
        Node::And { .. } | Node::Or { .. } => unreachable!(),
        Node::Host(addr) => {
            out.extend_from_slice(b"host ")?;
            put_address(alloc, *addr, out)
        }
        Node::Net { addr, bits } => {
            out.extend_from_slice(b"net ")?;
            put_net(alloc, *addr, *bits, out)
        }
        Node::Port(port) => {
            let text = format!(in alloc; "port {port}")?;
            out.extend_from_slice(text.as_bytes())
        }
        Node::Proto(proto) => {
            let text = format!(in alloc; "ip proto {proto}")?;
            out.extend_from_slice(text.as_bytes())
        }
        Node::Vlan(tag) => {
            let text = format!(in alloc; "vlan {tag}")?;
            out.extend_from_slice(text.as_bytes())
        }
        Node::Mpls(label) => {
            let text = format!(in alloc; "mpls {label}")?;
            out.extend_from_slice(text.as_bytes())
        }
        Node::Before(when) => put_time(alloc, b"before ", *when, out),
        Node::After(when) => put_time(alloc, b"after ", *when, out),
    }
}

/// Appends the printed form of the right part of a joined query, in parentheses where it is joined.
#[cycle(print)]
fn put_side(alloc: Global, node: &Node, out: &mut Vec<u8>) -> Result<(), AllocError>
    requires { InRange (tree node.now) }
    ensures { OnOk result (out.new.items ≡ out.old.items ++ side_text (tree node.now)) }
{
    if let Node::And {
        left: _left,
        right: _right,
    }
    | Node::Or {
        left: _left,
        right: _right,
    } = node
    {
        out.push(b'(')?;
        put_node(alloc, node, out)?;
        out.push(b')')?;
        return Ok(());
    }
    put_node(alloc, node, out)
}

/// The query's printed form: primitives with one space between words, a joined query's left part
/// bare, and its right part in parentheses where that is itself joined.
///
/// Where it has at most 4,096 bytes it spells the query again.
pub fn print(alloc: Global, query: &Query) -> Result<Octets, NoMemory>
    ensures exact { IfOk result (λ p. p ≡ printed (tree query.now)) }
    ensures spells { IfOk result (λ p. length p ≤ MAX_TEXT → Spells p query.now) }
{
    let mut out = Vec::new(alloc);
    match put_node(alloc, query.node(), &mut out) {
        Ok(()) => Ok(Octets::of(out)),
        Err(_) => Err(NoMemory),
    }
}
