//! Nodes, jobs and plans as JSON, their keys in the order of the bytes.
ghost use Rattle.std.specs.Prelude.{◌≡◌, IfOk, drop, map};
ghost use Rattle.plan_notation.specs.Assembled.{adaptor_text, array_text, job_json, last_json, leaf_text, let_text, node_json, plan_json, root_json};

use crate::joined::{Piece, array_text, five, piece_at, three, two};
use crate::names::{adaptor_name, arithmetic_name, leaf_name, let_name, plain_name};
use crate::said::Said;
use plan_parts::JobWord;
use plan_reader::{Adaptor, Leaf, Let, NodeWord};
use std::alloc::{AllocError, Global};

/// A node with these arguments, over this sender where it takes one.
pub(crate) fn node_json(
    alloc: Global,
    word: NodeWord,
    child: &[u8],
    arguments: &[Piece],
) -> Result<Piece, AllocError>
    ensures { IfOk result (λ text. text.items
        ≡ node_json word child.now (map (λ piece. piece.items) arguments.now)) }
{
    let first = piece_at(arguments, 0);
    let second = piece_at(arguments, 1);
    match word {
        NodeWord::Leaf(leaf) => leaf_text(alloc, leaf, arguments),
        NodeWord::Adaptor(adaptor) => adaptor_text(alloc, adaptor, child, first, second),
        NodeWord::Let(binding) => let_text(alloc, binding, child, arguments),
        NodeWord::Bulk => five(
            alloc,
            b"{\"child\":",
            child,
            b",\"do\":\"bulk\",\"job\":",
            first,
            b"}",
        ),
        NodeWord::WhenAll => {
            let children = array_text(alloc, arguments)?;
            three(
                alloc,
                b"{\"children\":",
                &children,
                b",\"do\":\"when_all\"}",
            )
        }
        NodeWord::Ahead => five(
            alloc,
            b"{\"do\":\"ahead\",\"first\":",
            first,
            b",\"second\":",
            second,
            b"}",
        ),
    }
}

/// A node without children.
fn leaf_text(alloc: Global, leaf: Leaf, arguments: &[Piece]) -> Result<Piece, AllocError>
    ensures { IfOk result (λ text. text.items
        ≡ leaf_text leaf (map (λ piece. piece.items) arguments.now)) }
{
    match leaf {
        Leaf::Just => {
            let values = array_text(alloc, arguments)?;
            three(alloc, leaf_name(leaf), &values, b"}")
        }
        leaf => three(alloc, leaf_name(leaf), piece_at(arguments, 0), b"}"),
    }
}

/// A node over one child, with its argument, or for `starts_on` its two.
fn adaptor_text(
    alloc: Global,
    adaptor: Adaptor,
    child: &[u8],
    first: &[u8],
    second: &[u8],
) -> Result<Piece, AllocError>
    ensures { IfOk result (λ text. text.items
        ≡ adaptor_text adaptor child.now first.now second.now) }
{
    let name = adaptor_name(adaptor);
    match adaptor {
        Adaptor::StartsOn => five(alloc, b"{\"child\":", second, name, first, b"}"),
        _ => five(alloc, b"{\"child\":", child, name, first, b"}"),
    }
}

/// A node over one child and bodies.
fn let_text(
    alloc: Global,
    binding: Let,
    child: &[u8],
    arguments: &[Piece],
) -> Result<Piece, AllocError>
    ensures { IfOk result (λ text. text.items
        ≡ let_text binding child.now (map (λ piece. piece.items) arguments.now)) }
{
    let bodies = bodies_text(alloc, arguments)?;
    let pick = three(alloc, let_name(binding), piece_at(arguments, 0), b"}")?;
    five(
        alloc,
        b"{\"bodies\":",
        &bodies,
        b",\"child\":",
        child,
        &pick,
    )
}

/// The bodies: all arguments but the pick.
fn bodies_text(alloc: Global, arguments: &[Piece]) -> Result<Piece, AllocError>
    ensures { IfOk result (λ text. text.items
        ≡ array_text (drop 1 (map (λ piece. piece.items) arguments.now))) }
{
    match arguments {
        [] => array_text(alloc, &[]),
        [_, bodies @ ..] => array_text(alloc, bodies),
    }
}

/// A job with these constants.
pub(crate) fn job_json(
    alloc: Global,
    job: JobWord,
    constants: &[Piece],
) -> Result<Piece, AllocError>
    ensures { IfOk result (λ text. text.items
        ≡ job_json job (map (λ piece. piece.items) constants.now)) }
{
    let first = piece_at(constants, 0);
    let second = piece_at(constants, 1);
    match job {
        JobWord::Plain(plain) => three(alloc, b"{\"job\":", plain_name(plain), b"}"),
        JobWord::Arithmetic(word) => five(
            alloc,
            b"{\"job\":",
            arithmetic_name(word),
            b",\"n\":",
            first,
            b"}",
        ),
        JobWord::Within => five(
            alloc,
            b"{\"hi\":",
            second,
            b",\"job\":\"within\",\"lo\":",
            first,
            b"}",
        ),
        JobWord::Fail => three(alloc, b"{\"error\":", first, b",\"job\":\"fail\"}"),
        JobWord::Append => three(alloc, b"{\"job\":\"append\",\"text\":", first, b"}"),
        JobWord::Give => {
            let values = array_text(alloc, constants)?;
            three(alloc, b"{\"job\":\"give\",\"values\":", &values, b"}")
        }
        JobWord::At => three(alloc, b"{\"i\":", first, b",\"job\":\"at\"}"),
        JobWord::ValueOr => three(alloc, b"{\"else\":", first, b",\"job\":\"value_or\"}"),
    }
}

/// A plan with this root.
pub(crate) fn plan_json(alloc: Global, said: &Said, root: &[u8]) -> Result<Piece, AllocError>
    ensures { IfOk result (λ text. text.items ≡ plan_json said.now root.now) }
{
    let later = root_json(alloc, said, root)?;
    five(
        alloc,
        b"{\"input\":",
        said.input(),
        b",\"on_error\":",
        said.on_error(),
        &later,
    )
}

/// Its root, and the settings behind it.
fn root_json(alloc: Global, said: &Said, root: &[u8]) -> Result<Piece, AllocError>
    ensures { IfOk result (λ text. text.items ≡ root_json said.now root.now) }
{
    let last = last_json(alloc, said)?;
    five(
        alloc,
        b",\"root\":",
        root,
        b",\"scope\":",
        said.scope(),
        &last,
    )
}

/// The last settings.
fn last_json(alloc: Global, said: &Said) -> Result<Piece, AllocError>
    ensures { IfOk result (λ text. text.items ≡ last_json said.now) }
{
    let last = two(alloc, said.version(), b"}")?;
    three(alloc, said.stop_after(), b",\"version\":", &last)
}
