//! The picture of a plan.
ghost use Rattle.std.specs.Prelude.{◌≡◌, length, IfOk, OnOk};
ghost use Rattle.pictures.specs.Adding.{Adds};
ghost use Rattle.pictures.specs.Plans.Picture.{legend_text, picture_of, sample_text};

use crate::plans::drawing::{Spot, draw_from};
use crate::plans::home::{Home, border_of, fill_of};
use crate::text::put_all;
use plan_shape::{MOST_DEPTH, Plan};
use sig_check::Sigs;
use std::alloc::{AllocError, Global};

/// Adds a box of the legend: a context, in its colours.
fn put_sample(
    name: &'static str,
    shown: &'static str,
    home: Home,
    text: &mut Vec<u8>,
) -> Result<(), AllocError>
    ensures { OnOk result (Adds text.old.items text.new.items
        (sample_text name.now shown.now home)) }
{
    put_all(
        &[
            "    ",
            name,
            " [label=\"",
            shown,
            "\" fillcolor=\"",
            fill_of(home),
            "\" color=\"",
            border_of(home),
            "\"];\n",
        ],
        text,
    )
}

/// Adds the legend: what the colours of a box say.
fn put_legend(text: &mut Vec<u8>) -> Result<(), AllocError>
    ensures { OnOk result (Adds text.old.items text.new.items legend_text) }
{
    put_all(
        &[
            "  subgraph cluster_legend {\n    label=\"fill: where a node is started, \
border: where it completes\\nx2: two equal neighbours, drawn once\";\n",
        ],
        text,
    )?;
    put_sample("either", "the loop or the pool", Home::Either, text)?;
    put_sample("pool", "the pool", Home::Pool, text)?;
    put_sample("loop", "the loop", Home::Loop, text)?;
    put_all(&["  }\n"], text)
}

/// The text of a plan's picture, by the signatures of its nodes.
pub fn picture_of(alloc: Global, plan: &Plan, sigs: &Sigs) -> Result<Vec<u8>, AllocError>
    requires known { length sigs.now ≡ length plan.now.nodes }
    ensures { IfOk result (λ text. text.items ≡ picture_of plan.now.nodes sigs.now) }
{
    let mut text = Vec::new(alloc);
    put_all(
        &["digraph plan {\n  graph [ordering=out];\n  node [shape=box style=filled penwidth=3];\n"],
        &mut text,
    )?;
    put_legend(&mut text)?;
    let root = Spot {
        number: plan.size().saturating_sub(1),
        count: 1,
        start: Home::Loop,
    };
    draw_from(alloc, plan, sigs, MOST_DEPTH, root, &mut text)?;
    put_all(&["}\n"], &mut text)?;
    Ok(text)
}
