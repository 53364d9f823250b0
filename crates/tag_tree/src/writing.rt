//! The writing half: labels from the leaves, and the bits of each leaf.
ghost use Rattle.std.specs.Prelude.{◌≡◌, ◌<◌, ◌≤◌, ◌+◌, ◌*◌, [], length, drop, slice_index, IfOk};
ghost use Rattle.tag_tree.specs.LeafReading.{Knows, IsSameShape, IsNodeOf};
ghost use Rattle.tag_tree.specs.MetNodes.{IsMet, IsMetDown};
ghost use Rattle.tag_tree.specs.LeafWriting.{HoldsLeast, HasMet, IsLowered, Writes, WritesLeaf, WritesPath, MeetsLeaf, MeetsDown, lowered_at, marked_at, node_bits, inclusion_step, value_step, step_of};

use crate::kind::Kind;
use crate::tree::{PathNode, Tree};
use stuffed_bits::{BitWriter, Full};

/// Writes a label of the value tree: a zero for each number that it is above another label, and a one.
fn put_value(above: u8, label: u8, bits: &mut BitWriter, buf: &mut [u8]) -> Result<(), Full>
    requires { bits.old.len ≤ length buf.old }
    ensures bits { Writes (value_step above label) bits.old bits.new buf.old buf.new result }
    ensures onward { bits.old.len ≤ bits.new.len }
    ensures within { bits.new.len ≤ length buf.new }
    ensures beyond { drop bits.new.len buf.new ≡ drop bits.new.len buf.old }
{
    if label <= above {
        return bits.put(true, buf);
    }
    bits.put(false, buf)?;
    put_value(above + 1, label, bits, buf)
}

/// Writes the bits of a node, by the label of the node above it and its own.
fn put_step(
    kind: Kind,
    above: u8,
    label: u8,
    bits: &mut BitWriter,
    buf: &mut [u8],
) -> Result<(), Full>
    requires { bits.old.len ≤ length buf.old }
    ensures bits { Writes (step_of kind above label) bits.old bits.new buf.old buf.new result }
    ensures onward { bits.old.len ≤ bits.new.len }
    ensures within { bits.new.len ≤ length buf.new }
    ensures beyond { drop bits.new.len buf.new ≡ drop bits.new.len buf.old }
{
    match kind {
        Kind::Value => put_value(above, label, bits, buf),
        Kind::Inclusion => {
            if above != 0 {
                return Ok(());
            }
            bits.put(label == 0, buf)
        }
    }
}

impl Tree {
    /// Lowers the label at a place to this one, if it is greater.
    fn lower_node(&mut self, place: usize, label: u8)
        requires { place < length self.old.labels }
        ensures { self.new ≡ lowered_at self.old place label }
    {
        self.labels[place] = self.labels[place].min(label);
    }

    /// Lowers the labels on a leaf's path, from this level down, to this one.
    fn lower(&mut self, level: u32, col: u32, row: u32, label: u8)
        requires low { level ≤ self.old.root }
        requires col_in { col < self.old.cols }
        requires row_in { row < self.old.rows }
        ensures lowered { IsLowered self.old self.new
            (record { band = 0; col = col; row = row }) label level }
        ensures met { self.new.met ≡ self.old.met }
        ensures same { IsSameShape self.old self.new }
    {
        let place = self.place(level, col, row);
        self.lower_node(place, label);
        if level > 0 {
            self.lower(level - 1, col, row, label);
        }
    }

    /// Sets the leaves, in raster order, and gives each node the least label below it.
    ///
    /// There are as many leaves as the grid has. Between one `reset` and the next it comes first and once, and only one of the
    /// writers follows it. The readers need none.
    pub fn fill(&mut self, leaves: &[u8])
        requires leaves { length leaves.now ≡ self.old.cols * self.old.rows }
        requires fresh { Knows self.old [] }
        ensures least { HoldsLeast self.new leaves.now }
        ensures unmet { HasMet self.new [] }
        ensures same { IsSameShape self.old self.new }
    {
        self.labels.fill(u8::MAX);
        for (at, label) in leaves.iter().enumerate() {
            let at = at as u32;
            self.lower(self.root, at % self.cols, at / self.cols, *label);
        }
    }

    /// Meets a node; the node above it was met.
    fn mark(&mut self, place: usize)
        requires listed { place < length self.old.met }
        requires down { IsMetDown (marked_at self.old place) }
        ensures { self.new ≡ marked_at self.old place }
    {
        self.met[place] = true;
    }

    /// Writes a node, if it wasn't met, by the label of the node above it, and answers its own.
    fn put_node(
        &mut self,
        kind: Kind,
        place: usize,
        above: u8,
        bits: &mut BitWriter,
        buf: &mut [u8],
    ) -> Result<u8, Full>
        requires labelled { place < length self.old.labels }
        requires listed { place < length self.old.met }
        requires down { IsMetDown (marked_at self.old place) }
        requires inside { bits.old.len ≤ length buf.old }
        ensures label { IfOk result (λ v. v ≡ slice_index self.old.labels place) }
        ensures met { self.new ≡ marked_at self.old place }
        ensures bits { Writes (node_bits (step_of kind) self.old place above)
            bits.old bits.new buf.old buf.new result }
        ensures onward { bits.old.len ≤ bits.new.len }
        ensures within { bits.new.len ≤ length buf.new }
        ensures beyond { drop bits.new.len buf.new ≡ drop bits.new.len buf.old }
    {
        let label = self.labels[place];
        if self.met[place] {
            return Ok(label);
        }
        self.mark(place);
        put_step(kind, above, label, bits, buf)?;
        Ok(label)
    }

    /// Writes the rest of a leaf's path, from a node of it down.
    fn put_path(
        &mut self,
        kind: Kind,
        node: PathNode,
        bits: &mut BitWriter,
        buf: &mut [u8],
    ) -> Result<(), Full>
        requires node { IsNodeOf self.old node }
        requires upper { node.level < self.old.root
            → IsMet self.old (node.level + 1) node.col node.row }
        requires inside { bits.old.len ≤ length buf.old }
        ensures bits { WritesPath kind node self.old bits.old bits.new buf.old buf.new result }
        ensures met { IfOk result (λ _. MeetsDown node.level node.col node.row self.old self.new) }
        ensures labels { self.new.labels ≡ self.old.labels }
        ensures same { IsSameShape self.old self.new }
        ensures onward { bits.old.len ≤ bits.new.len }
        ensures within { bits.new.len ≤ length buf.new }
        ensures beyond { drop bits.new.len buf.new ≡ drop bits.new.len buf.old }
    {
        let place = self.place(node.level, node.col, node.row);
        self.is_tree();
        let label = self.put_node(kind, place, node.above, bits, buf)?;
        if node.level == 0 {
            return Ok(());
        }
        let below = PathNode {
            level: node.level - 1,
            above: label,
            ..node
        };
        self.put_path(kind, below, bits, buf)
    }

    /// Writes a leaf of the inclusion tree, 0 where it is included, else 1: of each node on its path that no leaf before it met
    /// a bit, 1 for the label 0, if the label above is 0.
    ///
    /// `buf` is as the call before left it.
    ///
    /// # Errors
    ///
    /// `Full` where the bits so far and those of this leaf reach into more bytes than `buf` has; only `reset` may follow.
    pub fn write_inclusion(
        &mut self,
        col: u32,
        row: u32,
        bits: &mut BitWriter,
        buf: &mut [u8],
    ) -> Result<(), Full>
        requires col_in { col < self.old.cols }
        requires row_in { row < self.old.rows }
        requires inside { bits.old.len ≤ length buf.old }
        ensures bits { WritesLeaf inclusion_step col row self.old
            bits.old bits.new buf.old buf.new result }
        ensures met { IfOk result (λ _. MeetsLeaf col row self.old self.new) }
        ensures labels { self.new.labels ≡ self.old.labels }
        ensures same { IsSameShape self.old self.new }
        ensures onward { bits.old.len ≤ bits.new.len }
        ensures within { bits.new.len ≤ length buf.new }
        ensures beyond { drop bits.new.len buf.new ≡ drop bits.new.len buf.old }
    {
        let root = PathNode {
            col,
            row,
            level: self.root,
            above: 0,
        };
        self.put_path(Kind::Inclusion, root, bits, buf)
    }

    /// Writes a leaf of the value tree: of each node on its path that no leaf before it met a zero for each number that its
    /// label is above its parent's, and a one; the root's parent counts as 0.
    ///
    /// `buf` is as the call before left it.
    ///
    /// # Errors
    ///
    /// `Full` as for `write_inclusion`.
    pub fn write_value(
        &mut self,
        col: u32,
        row: u32,
        bits: &mut BitWriter,
        buf: &mut [u8],
    ) -> Result<(), Full>
        requires col_in { col < self.old.cols }
        requires row_in { row < self.old.rows }
        requires inside { bits.old.len ≤ length buf.old }
        ensures bits { WritesLeaf value_step col row self.old
            bits.old bits.new buf.old buf.new result }
        ensures met { IfOk result (λ _. MeetsLeaf col row self.old self.new) }
        ensures labels { self.new.labels ≡ self.old.labels }
        ensures same { IsSameShape self.old self.new }
        ensures onward { bits.old.len ≤ bits.new.len }
        ensures within { bits.new.len ≤ length buf.new }
        ensures beyond { drop bits.new.len buf.new ≡ drop bits.new.len buf.old }
    {
        let root = PathNode {
            col,
            row,
            level: self.root,
            above: 0,
        };
        self.put_path(Kind::Value, root, bits, buf)
    }
}
