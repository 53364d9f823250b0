//! The order of a tree's nodes in one list: level by level from the leaves up, and each level row by
//! row.
ghost use Rattle.std.specs.Prelude.{◌≡◌, ◌<◌, ◌≤◌, ◌+◌, ◌*◌, ℕ, slice_index};
ghost use Rattle.codestream_model.specs.TagTrees.{exponent};
ghost use Rattle.tag_tree.specs.Places.{width_of, base_of};
ghost use Rattle.tag_tree.specs.TreeState.{nodes_of};

/// The greatest number of nodes of a tree of `leaves` leaves.
pub fn most_nodes(leaves: u32) -> usize
    ensures { result ≡ nodes_of leaves }
{
    2 * leaves as usize + 16
}

/// The number of columns or rows of a level, by that of the leaves.
pub fn width(leaves: u32, level: u32) -> u32
    requires { level ≤ 16 }
    ensures { result ≡ width_of leaves level }
{
    leaves.div_ceil(1 << level)
}

/// The number of columns of a level, by that of the leaves, of which there is at least one.
///
/// A node's place needs it at each level of a leaf's path, so it takes fewer steps than `width`.
pub fn cols_at(cols: u32, level: u32) -> u32
    requires some { 0 < cols }
    requires low { level ≤ 16 }
    ensures { result ≡ width_of cols level }
{
    ((cols - 1) >> level) + 1
}

/// The most levels that a tree has: those of 65,536 leaves in a row.
pub const LEVELS: usize = 17;

/// The numbers of nodes of the levels below each level, up to the root's.
pub fn bases(cols: u32, rows: u32, root: u32) -> [usize; LEVELS]
    requires small { cols * rows ≤ 65536 }
    requires low { root ≤ 16 }
    ensures { (level : ℕ) → level ≤ root → slice_index result level ≡ base_of cols rows level }
{
    let mut bases = [0; LEVELS];
    for level in 1..root as usize + 1 {
        let below = level as u32 - 1;
        let nodes = width(cols, below) as usize * width(rows, below) as usize;
        bases[level] = bases[level - 1] + nodes;
    }
    bases
}

/// The least exponent whose power of two isn't below a number.
pub fn exponent_of(most: u32) -> u32
    requires { most ≤ 65536 }
    ensures least { result ≡ exponent most }
    ensures low { result ≤ 16 }
{
    let mut level = 0;
    while level < 16 && (1 << level) < most {
        level += 1;
    }
    level
}
