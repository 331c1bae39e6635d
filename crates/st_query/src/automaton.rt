//! The grammar as an automaton, which takes one token after the other.
//!
//! No call goes deeper than the text: what precedes each open parenthesis is kept on a stack, of at
//! most `MAX_OPEN` elements.
ghost use Rattle.std.specs.Prelude.{◌≡◌, ◌≢◌, IfOk};
ghost use Rattle.std.specs.Option.{option_map};
ghost use Rattle.st_query.specs.Automaton.{read, kind_of, refusal, at_most, phase_view, join, half_view, after_joiner, Steps, Opens};
ghost use Rattle.st_query.specs.Trees.{tree};
ghost use Rattle.st_query.specs.Words.{network};

use crate::addrs::Addr;
use crate::limits::{MAX_LABEL, MAX_OPEN, MAX_PORT, MAX_PROTO, MAX_VLAN};
use crate::nodes::{Node, Primitive, When, joined, node_of};
use crate::tokens::{Keyword, Token};
use crate::word_reader::network;
use sqlite_items::Items;
use std::alloc::{AllocError, Global};

/// What the grammar wants next.
#[derive(Clone, Copy)]
pub enum Want {
    Item,
    Host,
    Net,
    MaskWord(Addr),
    MaskOf(Addr),
    Port,
    ProtoWord,
    Proto,
    Vlan,
    Mpls,
    Before,
    After,
    BeforeAgo { count: u32, hours: bool },
    AfterAgo { count: u32, hours: bool },
}

/// What a token does: more is wanted, a primitive ends with it, it opens a parenthesis, or it is
/// refused.
#[derive(Clone, Copy)]
pub enum Effect {
    Go(Want),
    Done(Primitive),
    Deeper,
    Refused,
}

/// The kind of a refusal.
#[derive(Clone, Copy)]
pub enum Kind {
    Syntax,
    Number,
    Address,
    Time,
    Deep,
}

/// A query and the joiner that follows it: `and`, or else `or`.
#[derive(Drop)]
pub struct Half {
    pub left: Node,
    pub and: bool,
}

/// What the tokens so far have come to: something is wanted, after a half or alone; or a query
/// ends.
#[derive(Drop)]
pub enum Phase {
    Reading { want: Want, half: Option<Half> },
    Joined(Node),
}

fn read_item(token: Token) -> Effect
    ensures { result ≡ read Want.Item token }
{
    match token {
        Token::Open => Effect::Deeper,
        Token::Key(Keyword::Host) => Effect::Go(Want::Host),
        Token::Key(Keyword::Net) => Effect::Go(Want::Net),
        Token::Key(Keyword::Port) => Effect::Go(Want::Port),
        Token::Key(Keyword::Ip) => Effect::Go(Want::ProtoWord),
        Token::Key(Keyword::Vlan) => Effect::Go(Want::Vlan),
        Token::Key(Keyword::Mpls) => Effect::Go(Want::Mpls),
        Token::Key(Keyword::Icmp) => Effect::Done(Primitive::Proto(1)),
        Token::Key(Keyword::Tcp) => Effect::Done(Primitive::Proto(6)),
        Token::Key(Keyword::Udp) => Effect::Done(Primitive::Proto(17)),
        Token::Key(Keyword::Before) => Effect::Go(Want::Before),
        Token::Key(Keyword::After) => Effect::Go(Want::After),
        _ => Effect::Refused,
    }
}

/// The net of an address with its host bits cleared.
fn net_of(addr: Addr, bits: u8) -> Effect
    ensures { result ≡ Effect.Done (Primitive.Net (network addr bits) bits) }
{
    Effect::Done(Primitive::Net {
        addr: network(addr, bits),
        bits,
    })
}

fn read_net(token: Token) -> Effect
    ensures { result ≡ read Want.Net token }
{
    match token {
        Token::Net { addr, bits } => net_of(addr, bits),
        Token::Address { addr, .. } => Effect::Go(Want::MaskWord(addr)),
        _ => Effect::Refused,
    }
}

fn read_mask(addr: Addr, token: Token) -> Effect
    ensures { result ≡ read (Want.MaskOf addr) token }
{
    let Token::Address {
        addr: mask,
        mask: Some(bits),
    } = token
    else {
        return Effect::Refused;
    };
    match (addr, mask) {
        (Addr::V4(_), Addr::V4(_)) | (Addr::V6(_), Addr::V6(_)) => net_of(addr, bits),
        _ => Effect::Refused,
    }
}

fn read_port(token: Token) -> Effect
    ensures { result ≡ read Want.Port token }
{
    match token {
        Token::Number(n) if n <= MAX_PORT => Effect::Done(Primitive::Port(n as u16)),
        _ => Effect::Refused,
    }
}

fn read_proto(token: Token) -> Effect
    ensures { result ≡ read Want.Proto token }
{
    match token {
        Token::Number(n) if n <= MAX_PROTO => Effect::Done(Primitive::Proto(n as u8)),
        _ => Effect::Refused,
    }
}

fn read_vlan(token: Token) -> Effect
    ensures { result ≡ read Want.Vlan token }
{
    match token {
        Token::Number(n) if n <= MAX_VLAN => Effect::Done(Primitive::Vlan(n as u16)),
        _ => Effect::Refused,
    }
}

fn read_mpls(token: Token) -> Effect
    ensures { result ≡ read Want.Mpls token }
{
    match token {
        Token::Number(n) if n <= MAX_LABEL => Effect::Done(Primitive::Mpls(n as u32)),
        _ => Effect::Refused,
    }
}

fn read_before(token: Token) -> Effect
    ensures { result ≡ read Want.Before token }
{
    match token {
        Token::Instant(second) => Effect::Done(Primitive::Before(When::At(second))),
        Token::Span { count, hours } => Effect::Go(Want::BeforeAgo { count, hours }),
        _ => Effect::Refused,
    }
}

fn read_after(token: Token) -> Effect
    ensures { result ≡ read Want.After token }
{
    match token {
        Token::Instant(second) => Effect::Done(Primitive::After(When::At(second))),
        Token::Span { count, hours } => Effect::Go(Want::AfterAgo { count, hours }),
        _ => Effect::Refused,
    }
}

/// What a keyword does where this is wanted, inside a primitive.
fn read_keyword(want: Want, keyword: Keyword) -> Effect
    requires { want ≢ Want.Item }
    ensures { result ≡ read want (Token.Key keyword) }
{
    match (want, keyword) {
        (Want::MaskWord(addr), Keyword::Mask) => Effect::Go(Want::MaskOf(addr)),
        (Want::ProtoWord, Keyword::Proto) => Effect::Go(Want::Proto),
        (Want::BeforeAgo { count, hours }, Keyword::Ago) => Effect::Done(Primitive::Before(
            When::Ago { count, hours },
        )),
        (Want::AfterAgo { count, hours }, Keyword::Ago) => Effect::Done(Primitive::After(When::Ago {
            count,
            hours,
        })),
        _ => Effect::Refused,
    }
}

/// What a token does where this is wanted.
pub fn read(want: Want, token: Token) -> Effect
    ensures { result ≡ read want token }
{
    match want {
        Want::Item => read_item(token),
        Want::Host => match token {
            Token::Address { addr, .. } => Effect::Done(Primitive::Host(addr)),
            _ => Effect::Refused,
        },
        Want::Net => read_net(token),
        Want::MaskOf(addr) => read_mask(addr, token),
        Want::Port => read_port(token),
        Want::Proto => read_proto(token),
        Want::Vlan => read_vlan(token),
        Want::Mpls => read_mpls(token),
        Want::Before => read_before(token),
        Want::After => read_after(token),
        Want::MaskWord(_) | Want::ProtoWord | Want::BeforeAgo { .. } | Want::AfterAgo { .. } =>
            match token {
                Token::Key(keyword) => read_keyword(want, keyword),
                _ => Effect::Refused,
            },
    }
}

/// The kind of a refusal where this is wanted, of a token that is no stray byte or of the end.
fn kind_of(want: Want) -> Kind
    ensures { result ≡ kind_of want }
{
    match want {
        Want::Host | Want::Net | Want::MaskOf(_) => Kind::Address,
        Want::Port | Want::Proto | Want::Vlan | Want::Mpls => Kind::Number,
        Want::Before | Want::After => Kind::Time,
        _ => Kind::Syntax,
    }
}

/// The kind of the refusal of this token, or of the end of the text, in this phase.
pub fn refusal(phase: &Phase, token: Option<Token>) -> Kind
    ensures { result ≡ refusal (phase_view phase.now) token }
{
    if let Some(Token::Stray) = token {
        return Kind::Syntax;
    }
    let Phase::Reading { want, .. } = phase else {
        return Kind::Syntax;
    };
    if let (Want::Item, Some(Token::Open)) = (*want, token) {
        return Kind::Deep;
    }
    kind_of(*want)
}

/// The query joined to the half that precedes it, or alone.
fn join(alloc: Global, half: Option<Half>, right: Node) -> Result<Node, AllocError>
    ensures { IfOk result (λ q. tree q ≡ join (option_map half_view half) (tree right)) }
{
    match half {
        Some(Half { left, and }) => joined(alloc, left, and, right),
        None => Ok(right),
    }
}

/// The phase after one more token, or None if the token is refused.
pub fn step(
    alloc: Global,
    stack: &mut Items<Option<Half>>,
    phase: Phase,
    token: Token,
) -> Result<Option<Phase>, AllocError>
    ensures { IfOk result (λ o. Steps stack.old phase token o stack.new) }
{
    match phase {
        Phase::Reading { want, half } => match read(want, token) {
            Effect::Go(next) => Ok(Some(Phase::Reading { want: next, half })),
            Effect::Done(primitive) => Ok(Some(Phase::Joined(join(
                alloc,
                half,
                node_of(primitive),
            )?))),
            Effect::Deeper => deeper(stack, half),
            Effect::Refused => Ok(None),
        },
        Phase::Joined(query) => match token {
            Token::And => Ok(Some(after_joiner(query, true))),
            Token::Or => Ok(Some(after_joiner(query, false))),
            Token::Close => match stack.pop() {
                Some(half) => Ok(Some(Phase::Joined(join(alloc, half, query)?))),
                None => Ok(None),
            },
            _ => Ok(None),
        },
    }
}

/// The phase after a joiner.
fn after_joiner(left: Node, and: bool) -> Phase
    ensures { phase_view result ≡ after_joiner (tree left) and }
{
    Phase::Reading {
        want: Want::Item,
        half: Some(Half { left, and }),
    }
}

/// Opens a parenthesis, or answers None if that would be one too many.
fn deeper(stack: &mut Items<Option<Half>>, half: Option<Half>) -> Result<Option<Phase>, AllocError>
    ensures { IfOk result (λ o. Opens stack.old half o stack.new) }
{
    if stack.len() >= MAX_OPEN {
        return Ok(None);
    }
    stack.push(half)?;
    Ok(Some(Phase::Reading {
        want: Want::Item,
        half: None,
    }))
}
