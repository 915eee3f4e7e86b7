//! The lines of a box, and arrows.
ghost use Rattle.std.specs.Prelude.{◌≡◌, map, IfOk, OnOk};
ghost use Rattle.node_tree.specs.Nearest.{read};
ghost use Rattle.pictures.specs.Adding.{Adds};
ghost use Rattle.pictures.specs.Plans.Folds.{texts_of};
ghost use Rattle.pictures.specs.Plans.Names.{kind_word};
ghost use Rattle.pictures.specs.Plans.Lines.{arrow, body_arrow, box_end, box_node, box_start, flag_word, source_line, value_line};

use crate::plans::folds::{Fold, put_folded, put_times};
use crate::plans::home::{Home, border_of, fill_of};
use crate::plans::name::{kind_word, name_of};
use crate::plans::own::put_own;
use crate::text::put_all;
use exec_value::Kind;
use itoa::Buffer;
use node_tree::NearestSource;
use plan_kinds::{KindList, Sig};
use plan_rules::{Node, NodeId};
use std::alloc::{AllocError, Global};

/// Adds the start of a box: the node's number and name.
fn put_box_start(number: NodeId, node: &Node, text: &mut Vec<u8>) -> Result<(), AllocError>
    ensures { OnOk result (Adds text.old.items text.new.items (box_start number node.now)) }
{
    let mut buffer = Buffer::new();
    let digits = buffer.format(number);
    put_all(
        &["  n", digits, " [label=\"", digits, " ", name_of(node)],
        text,
    )
}

/// Adds what a box has of its node, which stands for `count` equal neighbours.
pub(crate) fn put_box_node(
    alloc: Global,
    number: NodeId,
    node: &Node,
    count: usize,
    text: &mut Vec<u8>,
) -> Result<(), AllocError>
    ensures { OnOk result (Adds text.old.items text.new.items (box_node number node.now count)) }
{
    put_box_start(number, node, text)?;
    put_times(count, text)?;
    put_own(alloc, node, text)
}

/// Adds the line of a node's nearest stop source.
pub(crate) fn put_source_line(source: NearestSource, text: &mut Vec<u8>) -> Result<(), AllocError>
    ensures { OnOk result (Adds text.old.items text.new.items (source_line (read source))) }
{
    match source {
        NearestSource::Scope => put_all(&["\\nstop source of the scope"], text),
        NearestSource::Nowhere => put_all(&["\\nno stop source"], text),
        NearestSource::Node(number) => {
            let mut buffer = Buffer::new();
            put_all(&["\\nstop source of ", buffer.format(number)], text)
        }
    }
}

/// The name of a kind.
fn word_of_kind(alloc: Global, kind: Kind) -> Result<Vec<u8>, AllocError>
    ensures { IfOk result (λ word. word.items ≡ kind_word kind) }
{
    Vec::from_slice(alloc, kind_word(kind).as_bytes())
}

/// The names of kinds.
fn words_of_kinds(alloc: Global, kinds: &[Kind]) -> Result<Vec<Vec<u8>>, AllocError>
    ensures { IfOk result (λ words. texts_of words.items ≡ map kind_word kinds.now) }
{
    let mut words = Vec::new(alloc);
    for kind in kinds {
        words.push(word_of_kind(alloc, *kind)?)?;
    }
    Ok(words)
}

/// Adds the line of a node's values, where it may have one.
pub(crate) fn put_value_line(
    alloc: Global,
    value: &Option<KindList>,
    text: &mut Vec<u8>,
) -> Result<(), AllocError>
    ensures { OnOk result (Adds text.old.items text.new.items (value_line value.now)) }
{
    match value {
        None => put_all(&[], text),
        Some(kinds) => {
            let words = words_of_kinds(alloc, kinds.as_slice())?;
            put_all(&["\\nset_value"], text)?;
            put_folded(alloc, &words, text)
        }
    }
}

/// The word, where the flag is set.
fn flag_word(flag: bool, word: &'static str) -> &'static str
    ensures { result.now ≡ flag_word flag word.now }
{
    if flag { word } else { "" }
}

/// Adds the rest of a box: whether the node may end by an error, and whether by stopped; and the
/// colours of where it is started and where it completes.
pub(crate) fn put_box_end(
    sig: &Sig,
    start: Home,
    end: Home,
    text: &mut Vec<u8>,
) -> Result<(), AllocError>
    ensures { OnOk result (Adds text.old.items text.new.items (box_end sig.now start end)) }
{
    put_all(
        &[
            flag_word(sig.may_error, "\\nset_error"),
            flag_word(sig.may_stop, "\\nset_stopped"),
            "\" fillcolor=\"",
            fill_of(start),
            "\" color=\"",
            border_of(end),
            "\"];\n",
        ],
        text,
    )
}

/// Adds the arrow from a node to a child.
pub(crate) fn put_arrow(number: NodeId, child: NodeId, text: &mut Vec<u8>) -> Result<(), AllocError>
    ensures { OnOk result (Adds text.old.items text.new.items (arrow number child)) }
{
    let mut first = Buffer::new();
    let mut second = Buffer::new();
    put_all(
        &[
            "  n",
            first.format(number),
            " -> n",
            second.format(child),
            ";\n",
        ],
        text,
    )
}

/// Adds the arrow from a node to a body, the first of a fold.
pub(crate) fn put_body_arrow(
    number: NodeId,
    body: NodeId,
    fold: Fold,
    text: &mut Vec<u8>,
) -> Result<(), AllocError>
    ensures { OnOk result (Adds text.old.items text.new.items
        (body_arrow number body fold.at fold.count)) }
{
    let mut first = Buffer::new();
    let mut second = Buffer::new();
    let mut third = Buffer::new();
    put_all(
        &[
            "  n",
            first.format(number),
            " -> n",
            second.format(body),
            " [style=dashed label=\"body ",
            third.format(fold.at),
        ],
        text,
    )?;
    put_times(fold.count, text)?;
    put_all(&["\"];\n"], text)
}
