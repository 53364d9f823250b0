//! What is asked of a generated codestream, and the main header that this gives it.
ghost use Rattle.std.specs.Prelude.{◌≡◌, ◌≤◌, ◌<◌, ◌+◌, ◌∷◌, [], ℕ, Bool, IfOk, map, replicate};
ghost use Rattle.std.specs.List.{range_with_len};
ghost use Rattle.codestream_make.specs.Generating.{shape_of, step_pair, IsPlanOf};

use arrayvec::ArrayVec;
use j2k_markers::{HeadPlan, MOST_COMPONENTS};
use std::alloc::{AllocError, Global};

/// The chroma subsampling: the steps of components 1 and 2.
#[derive(Clone, Copy, Debug, PartialEq, Eq)]
pub enum Sub {
    /// 4:4:4, XRsiz and YRsiz are 1.
    S444,
    /// 4:2:2, XRsiz is 2 and YRsiz is 1.
    S422,
    /// 4:2:0, both are 2.
    S420,
}

/// What is asked for.
#[derive(Clone, Copy)]
pub struct Shape {
    pub width: u32,
    pub height: u32,
    pub components: u8,
    pub levels: u8,
    pub sub: Sub,
    pub order: u8,
    pub eph: bool,
}

/// Exponents of code-blocks of 64 by 64.
const BLOCK: (u8, u8) = (6, 6);

/// The HT style.
const HT: u8 = 0x40;

/// The marker segment COM with the text `made`.
const MADE: [u8; 10] = [0xFF, 0x64, 0x00, 0x08, 0x00, 0x01, 0x6D, 0x61, 0x64, 0x65];

impl Sub {
    ghost use Rattle.codestream_make.specs.Generating.{chroma_of, pair_of};

    /// XRsiz and YRsiz of components 1 and 2.
    fn steps(self) -> (u8, u8)
        ensures { pair_of result ≡ chroma_of self }
    {
        match self {
            Sub::S444 => (1, 1),
            Sub::S422 => (2, 1),
            Sub::S420 => (2, 2),
        }
    }
}

/// XRsiz and YRsiz of each component.
fn steps_of(shape: Shape) -> ArrayVec<(u8, u8), MOST_COMPONENTS>
    requires { shape.components ≤ 4 }
    ensures { result.items ≡ map (step_pair (shape_of shape)) (range_with_len 0 shape.components) }
{
    let mut steps = ArrayVec::new();
    for c in 0..shape.components {
        let step = if c == 1 || c == 2 {
            shape.sub.steps()
        } else {
            (1, 1)
        };
        steps.push(step);
    }
    steps
}

/// PPx and PPy of each resolution: precincts of 128 by 128 at resolution 0 and of 256 by 256 above.
fn precincts_of(levels: u8) -> ArrayVec<(u8, u8), 16>
    requires { levels ≤ 15 }
    ensures { result.items ≡ (7, 7) ∷ replicate levels (8, 8) }
{
    let mut precincts = ArrayVec::new();
    precincts.push((7, 7));
    for _ in 0..levels {
        precincts.push((8, 8));
    }
    precincts
}

/// The plan of the main header.
pub fn head_plan(alloc: Global, shape: Shape) -> Result<HeadPlan, AllocError>
    requires components { shape.components ≤ 4 }
    requires levels { shape.levels ≤ 15 }
    ensures { IfOk result (λ plan. IsPlanOf (shape_of shape) plan) }
{
    Ok(HeadPlan {
        area: (0, 0, shape.width, shape.height),
        steps: steps_of(shape),
        levels: shape.levels,
        block: BLOCK,
        style: HT,
        precincts: precincts_of(shape.levels),
        psot: 0,
        extra: Vec::from_slice(alloc, &MADE)?,
        order: shape.order,
        eph: shape.eph,
    })
}
