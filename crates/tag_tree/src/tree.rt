//! The tree: its labels, and which of its nodes were met.
ghost use Rattle.std.specs.Prelude.{◌≡◌, ◌<◌, ◌≤◌, ◌*◌, ◌++◌, [], false, length, replicate, drop, max, slice_index, IfOk};
ghost use Rattle.codestream_model.specs.TagTrees.{exponent};
ghost use Rattle.tag_tree.specs.Places.{place_of};
ghost use Rattle.tag_tree.specs.LeafReading.{Knows, told_at, met_at};
ghost use Rattle.tag_tree.specs.MetNodes.{IsMetDown};

use crate::layout::{LEVELS, bases, cols_at, exponent_of, most_nodes};
use std::alloc::{AllocError, Global};
use std::marker::Model;

/// A node on the path from the root to a leaf.
#[derive(Clone, Copy)]
pub struct PathNode {
    /// The column of the leaf.
    pub col: u32,
    /// The row of the leaf.
    pub row: u32,
    /// The level of the node, where leaves have level 0.
    pub level: u32,
    /// The label of the node above it; 0 at the root.
    pub above: u8,
}

/// Makes the first nodes ones that weren't met.
fn clear(met: &mut [bool], nodes: usize)
    requires { nodes ≤ length met.old }
    ensures { met.new ≡ replicate nodes false ++ drop nodes met.old }
{
    met[..nodes].fill(false);
}

/// A tag tree over a grid of leaves.
#[derive(Drop)]
pub struct Tree {
    /// How many leaves there is room for.
    leaves: u32,
    pub(crate) cols: u32,
    pub(crate) rows: u32,
    /// The root's level, where the leaves have level 0.
    pub(crate) root: u32,
    /// The places of the first nodes of each level, up to the root's.
    bases: [usize; LEVELS],
    /// The labels of the nodes; without a `fill`, of those that were met.
    pub(crate) labels: Vec<u8>,
    /// Whether a node was met.
    pub(crate) met: Vec<bool>,
}

impl Model for Tree {
    ghost use Rattle.std.specs.Prelude.{◌≡◌, ◌<◌, ◌≤◌, ◌*◌, ℕ, length, max, slice_index};
    ghost use Rattle.tag_tree.specs.Places.{base_of};
    ghost use Rattle.codestream_model.specs.TagTrees.{exponent};
    ghost use Rattle.tag_tree.specs.TreeState.{TreeState, nodes_of};
    ghost use Rattle.tag_tree.specs.MetNodes.{IsMetDown};

    ghost Value = { TreeState };

    ghost view = { λ t. record {
      leaves = t.leaves;
      cols = t.cols;
      rows = t.rows;
      root = t.root;
      labels = t.labels.items;
      met = t.met.items;
    } };

    ghost invariant = { λ t.
        (t.leaves ≤ 65536)
        × (t.cols * t.rows ≤ t.leaves)
        × (length t.labels.items ≡ nodes_of t.leaves)
        × (length t.met.items ≡ nodes_of t.leaves)
        × (t.root ≤ 16)
        × (0 < t.cols → 0 < t.rows → t.root ≡ exponent (max t.cols t.rows))
        × ((level : ℕ) → level ≤ t.root → slice_index t.bases level ≡ base_of t.cols t.rows level)
        × IsMetDown (record {
          leaves = t.leaves;
          cols = t.cols;
          rows = t.rows;
          root = t.root;
          labels = t.labels.items;
          met = t.met.items;
        }) };
}

impl Tree {
    /// Takes room for a tree of `leaves` leaves; it has none until `reset`.
    ///
    /// # Errors
    ///
    /// `AllocError` where there is no memory.
    pub fn reserve(alloc: Global, leaves: u32) -> Result<Tree, AllocError>
        requires { leaves ≤ 65536 }
        ensures { IfOk result (λ t. t.leaves ≡ leaves) }
    {
        let nodes = most_nodes(leaves);
        Ok(Tree {
            leaves,
            cols: 0,
            rows: 0,
            root: 0,
            bases: bases(0, 0, 0),
            labels: vec![in alloc; 0u8; nodes]?,
            met: vec![in alloc; false; nodes]?,
        })
    }

    /// Makes this the tree of a grid, of whose nodes none is known. There is room for its leaves.
    pub fn reset(&mut self, cols: u32, rows: u32)
        requires { cols * rows ≤ self.old.leaves }
        ensures leaves { self.new.leaves ≡ self.old.leaves }
        ensures cols { self.new.cols ≡ cols }
        ensures rows { self.new.rows ≡ rows }
        ensures empty { Knows self.new [] }
    {
        self.cols = cols;
        self.rows = rows;
        self.root = if cols == 0 || rows == 0 {
            0
        } else {
            exponent_of(cols.max(rows))
        };
        self.bases = bases(cols, rows, self.root);
        let nodes = most_nodes(cols * rows);
        clear(&mut self.met, nodes);
    }

    /// The index of the node of a level on a leaf's path.
    pub(crate) fn place(&self, level: u32, col: u32, row: u32) -> usize
        requires low { level ≤ self.now.root }
        requires col_in { col < self.now.cols }
        requires row_in { row < self.now.rows }
        ensures place { result ≡ place_of self.now.cols self.now.rows level col row }
        ensures labelled { result < length self.now.labels }
        ensures listed { result < length self.now.met }
    {
        self.bases[level as usize]
            + (row >> level) as usize * cols_at(self.cols, level) as usize
            + (col >> level) as usize
    }

    /// The label of a node, if it was met.
    pub(crate) fn told(&self, place: usize) -> Option<u8>
        requires labelled { place < length self.now.labels }
        requires listed { place < length self.now.met }
        ensures { result ≡ told_at self.now place }
    {
        if self.met[place] {
            Some(self.labels[place])
        } else {
            None
        }
    }

    /// Proof only: gives the caller `IsMetDown`, and the root's level.
    pub(crate) fn is_tree(&self)
        ensures down { IsMetDown self.now }
        ensures root { 0 < self.now.cols → 0 < self.now.rows
            → self.now.root ≡ exponent (max self.now.cols self.now.rows) }
    {
        let _ = &self.met;
    }

    /// The label of a node.
    pub(crate) fn label(&self, place: usize) -> u8
        requires { place < length self.now.labels }
        ensures { result ≡ slice_index self.now.labels place }
    {
        self.labels[place]
    }

    /// Meets a node; the node above it was met.
    pub(crate) fn meet(&mut self, place: usize, label: u8)
        requires labelled { place < length self.old.labels }
        requires listed { place < length self.old.met }
        requires down { IsMetDown (met_at self.old place label) }
        ensures { self.new ≡ met_at self.old place label }
    {
        self.labels[place] = label;
        self.met[place] = true;
    }
}
