// What is read: a tree of pieces, with its sources or without them.
ghost use Rattle.std.specs.Prelude.{◌^◌, ◌<◌, length};
ghost use Rattle.nodes.specs.Trees.{items, long, Weighed};
ghost use Rattle.nodes.specs.OneProof.{weighed_prop};
ghost use Rattle.pieces.proofs.Props.{apart_prop, inside_prop};
ghost use Rattle.pieces.specs.Sources.{InsideOf};
ghost use Rattle.pieces.specs.Spread.{Apart};

use ledger::words::Place;
use nodes::Tree;
use pieces::Sources;

// A tree of pieces, each of which lies in its source.
// That it carries what its elements have is a premise of the questions that need it: an element is read of any tree.
#[derive(Drop)]
pub struct Reader<'t, E, T> {
    pub sources: Sources<'t, E>,
    pub tree: &'t Tree<Place, T>,
    ghost weighed: { Weighed tree.now } by { weighed_prop tree.now },
    ghost inside: { InsideOf sources (items tree.now) } by { inside_prop (length sources.original.now) (length sources.added.now) (items tree.now) },
    ghost fits: { long tree.now < 2 ^ 64 },
}

// A tree of longest pieces, to be counted. No part of a reader: what is counted need not lie in its sources, and what is read
// need not be of longest pieces.
#[derive(Drop)]
pub struct Counter<'t, T> {
    pub tree: &'t Tree<Place, T>,
    ghost weighed: { Weighed tree.now } by { weighed_prop tree.now },
    ghost apart: { Apart (items tree.now) } by { apart_prop (items tree.now) },
    ghost fits: { long tree.now < 2 ^ 64 },
}
