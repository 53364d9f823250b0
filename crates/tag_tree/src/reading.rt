//! The reading half: the labels on a leaf's path, from the root down.
ghost use Rattle.std.specs.Prelude.{◌≡◌, ◌≢◌, ◌<◌, ◌≤◌, ℕ, false, length, OnOk, IfOk};
ghost use Rattle.stuffed_bits.specs.BitInState.{IsFree, IsOfRun};
ghost use Rattle.tag_tree.specs.Kinds.{FitsKind};
ghost use Rattle.tag_tree.specs.LeafReading.{IsSameShape, IsNodeOf, path_node, ReadsLabel, ReadsNode, ReadsPath, ReadsLeaf};
ghost use Rattle.tag_tree.specs.MetNodes.{IsMet, MayMeet, MayMeetBelow};
ghost use Rattle.tag_tree.specs.LeafGoing.{GoesOn, KeepsBits, NodeWaits, PathWaits, LeafWaits, FreesNode, FreesPath, FreesLeaf};

use crate::kind::Kind;
use crate::stop::LabelStop;
use crate::tree::{PathNode, Tree};
use stuffed_bits::Source;

/// The greatest label of a value tree.
const GREATEST: u8 = 74;

/// Reads the label of a node of an inclusion tree: one bit.
fn inclusion_label(source: &mut Source<'_>) -> Result<u8, LabelStop>
    requires inside { source.old.at ≤ length source.old.piece.now }
    requires free { IsFree source.old.bits }
    ensures read { ReadsLabel Kind.Inclusion 0 source.old source.new result }
    ensures never { result ≢ Err LabelStop.TooGreat }
    ensures waits { KeepsBits source.old source.new result }
    ensures goes { GoesOn Kind.Inclusion source.old source.new result }
{
    let included = source.bits.bit(source.piece, &mut source.at)?;
    Ok(if included { 0 } else { 1 })
}

/// Reads a label of a value tree that is at least this one: a zero for each number that it is greater,
/// and a one.
fn value_label(least: u8, source: &mut Source<'_>) -> Result<u8, LabelStop>
    requires inside { source.old.at ≤ length source.old.piece.now }
    requires own { IsOfRun false source.old.bits.part }
    ensures read { ReadsLabel Kind.Value least source.old source.new result }
    ensures waits { KeepsBits source.old source.new result }
    ensures free { OnOk result (IsFree source.new.bits) }
    ensures goes { GoesOn Kind.Value source.old source.new result }
{
    let most = GREATEST.saturating_sub(least) + 1;
    let zeros = source.bits.run(false, most, source.piece, &mut source.at)?;
    if zeros >= most {
        return Err(LabelStop::TooGreat);
    }
    Ok(least + zeros)
}

/// Reads the label of a node that isn't silent, below one with the label `above`.
fn label_below(kind: Kind, above: u8, source: &mut Source<'_>) -> Result<u8, LabelStop>
    requires inside { source.old.at ≤ length source.old.piece.now }
    requires own { FitsKind kind source.old.bits.part }
    ensures read { ReadsLabel kind above source.old source.new result }
    ensures never { kind ≡ Kind.Inclusion → result ≢ Err LabelStop.TooGreat }
    ensures waits { KeepsBits source.old source.new result }
    ensures free { OnOk result (IsFree source.new.bits) }
    ensures goes { GoesOn kind source.old source.new result }
{
    match kind {
        Kind::Inclusion => inclusion_label(source),
        Kind::Value => value_label(above, source),
    }
}

impl Tree {
    /// Reads the label of a node.
    #[inline(always)]
    fn read_node(
        &mut self,
        kind: Kind,
        node: PathNode,
        source: &mut Source<'_>,
    ) -> Result<u8, LabelStop>
        requires node { IsNodeOf self.old node }
        requires upper { MayMeet kind self.old node.level node.above node.col node.row }
        requires inside { source.old.at ≤ length source.old.piece.now }
        requires own { FitsKind kind source.old.bits.part }
        ensures met { IfOk result (λ label.
            MayMeetBelow kind self.new node.level label node.col node.row) }
        ensures read { ReadsNode kind node self.old self.new source.old source.new result }
        ensures never { kind ≡ Kind.Inclusion → result ≢ Err LabelStop.TooGreat }
        ensures waits { NodeWaits kind node self.old self.new source.old source.new result }
        ensures free { FreesNode kind node self.old self.new source.old source.new result }
        ensures goes { GoesOn kind source.old source.new result }
        ensures same { IsSameShape self.old self.new }
    {
        let place = self.place(node.level, node.col, node.row);
        if let Some(label) = self.told(place) {
            return Ok(label);
        }
        if kind.is_silent(node.above) {
            return Ok(node.above);
        }
        let label = label_below(kind, node.above, source)?;
        self.is_tree();
        self.meet(place, label);
        Ok(label)
    }

    /// Reads the label of a leaf, from the node of a level down, below a node with the label `above`.
    ///
    /// The node is passed in parts, which makes a loop of the recursion.
    fn read_path(
        &mut self,
        kind: Kind,
        level: u32,
        above: u8,
        col: u32,
        row: u32,
        source: &mut Source<'_>,
    ) -> Result<u8, LabelStop>
        requires node { IsNodeOf self.old (path_node level above col row) }
        requires upper { MayMeet kind self.old level above col row }
        requires inside { source.old.at ≤ length source.old.piece.now }
        requires own { FitsKind kind source.old.bits.part }
        ensures read { ReadsPath kind (path_node level above col row) self.old self.new
            source.old source.new result }
        ensures never { kind ≡ Kind.Inclusion → result ≢ Err LabelStop.TooGreat }
        ensures waits { PathWaits kind (path_node level above col row) self.old self.new
            source.old source.new result }
        ensures free { FreesPath kind (path_node level above col row) self.old self.new
            source.old source.new result }
        ensures goes { GoesOn kind source.old source.new result }
        ensures same { IsSameShape self.old self.new }
    {
        let node = PathNode {
            col,
            row,
            level,
            above,
        };
        let label = self.read_node(kind, node, source)?;
        if level == 0 {
            return Ok(label);
        }
        self.read_path(kind, level - 1, label, col, row, source)
    }

    /// The lowest level whose node on a leaf's path was met, or the root's.
    #[inline(always)]
    fn lowest_met(&self, col: u32, row: u32) -> u32
        requires col_in { col < self.now.cols }
        requires row_in { row < self.now.rows }
        ensures low { result ≤ self.now.root }
        ensures met { result < self.now.root → IsMet self.now result col row }
    {
        let mut level = 0;
        while level < self.root && !self.met[self.place(level, col, row)] {
            level += 1;
        }
        level
    }

    /// Reads the label of a leaf from below the node of a level, which was met.
    fn read_below(
        &mut self,
        kind: Kind,
        level: u32,
        col: u32,
        row: u32,
        source: &mut Source<'_>,
    ) -> Result<u8, LabelStop>
        requires low { level < self.old.root }
        requires met { IsMet self.old level col row }
        requires col_in { col < self.old.cols }
        requires row_in { row < self.old.rows }
        requires inside { source.old.at ≤ length source.old.piece.now }
        requires own { FitsKind kind source.old.bits.part }
        ensures read { ReadsLeaf kind col row self.old self.new source.old source.new result }
        ensures never { kind ≡ Kind.Inclusion → result ≢ Err LabelStop.TooGreat }
        ensures waits { LeafWaits kind col row self.old self.new source.old source.new result }
        ensures free { FreesLeaf kind col row self.old self.new source.old source.new result }
        ensures fresh { IsFree source.old.bits → OnOk result (IsFree source.new.bits) }
        ensures goes { GoesOn kind source.old source.new result }
        ensures same { IsSameShape self.old self.new }
    {
        self.is_tree();
        let label = self.label(self.place(level, col, row));
        if level == 0 {
            return Ok(label);
        }
        self.read_path(kind, level - 1, label, col, row, source)
    }

    /// Reads the label of the leaf at a column and a row, from below the lowest node on its path
    /// that was met.
    #[inline(always)]
    fn read_leaf(
        &mut self,
        kind: Kind,
        col: u32,
        row: u32,
        source: &mut Source<'_>,
    ) -> Result<u8, LabelStop>
        requires col_in { col < self.old.cols }
        requires row_in { row < self.old.rows }
        requires inside { source.old.at ≤ length source.old.piece.now }
        requires own { FitsKind kind source.old.bits.part }
        ensures read { ReadsLeaf kind col row self.old self.new source.old source.new result }
        ensures never { kind ≡ Kind.Inclusion → result ≢ Err LabelStop.TooGreat }
        ensures waits { LeafWaits kind col row self.old self.new source.old source.new result }
        ensures free { FreesLeaf kind col row self.old self.new source.old source.new result }
        ensures fresh { IsFree source.old.bits → OnOk result (IsFree source.new.bits) }
        ensures goes { GoesOn kind source.old source.new result }
        ensures same { IsSameShape self.old self.new }
    {
        let level = self.lowest_met(col, row);
        if level < self.root {
            return self.read_below(kind, level, col, row, source);
        }
        self.read_path(kind, self.root, 0, col, row, source)
    }

    /// Reads a leaf of the inclusion tree: 0 where it is included, else 1.
    ///
    /// The source goes on after the last byte that was taken.
    ///
    /// # Errors
    ///
    /// As [`LabelStop`] says, but never `TooGreat`. After `Need` only the same call with a further
    /// piece, or `reset`, may follow, and after `Stuffed` only `reset`.
    pub fn read_inclusion(
        &mut self,
        col: u32,
        row: u32,
        source: &mut Source<'_>,
    ) -> Result<u8, LabelStop>
        requires col_in { col < self.old.cols }
        requires row_in { row < self.old.rows }
        requires inside { source.old.at ≤ length source.old.piece.now }
        requires free { IsFree source.old.bits }
        ensures read { ReadsLeaf Kind.Inclusion col row self.old self.new
            source.old source.new result }
        ensures never { result ≢ Err LabelStop.TooGreat }
        ensures waits { LeafWaits Kind.Inclusion col row self.old self.new
            source.old source.new result }
        ensures goes { GoesOn Kind.Inclusion source.old source.new result }
        ensures same { IsSameShape self.old self.new }
    {
        self.read_leaf(Kind::Inclusion, col, row, source)
    }

    /// Reads a leaf of the value tree, 0 to 74.
    ///
    /// The source goes on after the last byte that was taken.
    ///
    /// # Errors
    ///
    /// As [`LabelStop`] says. After `Need` only the same call with a further piece, or `reset`, may
    /// follow, and after the others only `reset`.
    pub fn read_value(
        &mut self,
        col: u32,
        row: u32,
        source: &mut Source<'_>,
    ) -> Result<u8, LabelStop>
        requires col_in { col < self.old.cols }
        requires row_in { row < self.old.rows }
        requires inside { source.old.at ≤ length source.old.piece.now }
        requires own { IsOfRun false source.old.bits.part }
        ensures read { ReadsLeaf Kind.Value col row self.old self.new source.old source.new result }
        ensures waits { LeafWaits Kind.Value col row self.old self.new
            source.old source.new result }
        ensures free { FreesLeaf Kind.Value col row self.old self.new source.old source.new result }
        ensures fresh { IsFree source.old.bits → OnOk result (IsFree source.new.bits) }
        ensures goes { GoesOn Kind.Value source.old source.new result }
        ensures same { IsSameShape self.old self.new }
    {
        self.read_leaf(Kind::Value, col, row, source)
    }
}
