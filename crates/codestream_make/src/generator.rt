//! Codestreams generated from a seed.
ghost use Rattle.std.specs.Prelude.{◌≡◌, ◌∷◌, ℕ, Bool, List, IfOk, map};
ghost use Rattle.codestream_model.specs.Precincts.{IsPrecinct};
ghost use Rattle.codestream_model.specs.PacketOrder.{packet_order};
ghost use Rattle.codestream_model.specs.Codestream.{IsCodestream};
ghost use Rattle.trial_model.specs.Generator.{draw_contents, generated};
ghost use Rattle.trial_model.specs.GeneratorLaws.{IsShape};
ghost use Rattle.pcrl_order.specs.Ahead.{rest};
ghost use Rattle.codestream_make.specs.Making.{content_of};
ghost use Rattle.codestream_make.specs.Generating.{shape_of, asked, IsDrawnPlan};

use crate::drawing::draw_precinct;
use crate::draws::Draws;
use crate::shape::{Shape, Sub, head_plan};
use crate::{CodePlan, MakeFault, PrecinctPlan, make};
use j2k_markers::{PlanFault, read_head, write_head};
use pcrl_order::OrderWalk;
use precinct_geometry::Geometry;
use std::alloc::{AllocError, Global};

/// Draws the contents of an image's precincts, in packet order.
fn draw_contents(alloc: Global, walk: OrderWalk, seed: u64) -> Result<Vec<PrecinctPlan>, AllocError>
    requires first { packet_order walk.head ≡ walk.place ∷ rest walk }
    requires precinct { IsPrecinct walk.head walk.place }
    ensures { IfOk result (λ contents. map content_of contents.items ≡ (draw_contents walk.head (packet_order walk.head) seed).value) }
{
    let mut walk = walk;
    let mut draws = Draws { state: seed };
    let mut contents = Vec::new(alloc);
    loop {
        let bands = walk.geometry().bands(walk.place());
        let (content, after) = draw_precinct(alloc, draws, &bands)?;
        contents.push(content)?;
        draws = after;
        if !walk.advance() {
            return Ok(contents);
        }
    }
}

/// The plan of a generated codestream: its header, and what is drawn for each precinct of it.
fn plan_of(alloc: Global, shape: Shape, seed: u64) -> Result<CodePlan, AllocError>
    requires { IsShape (shape_of shape) }
    ensures { IfOk result (λ plan. IsDrawnPlan (shape_of shape) seed plan) }
{
    let head = head_plan(alloc, shape)?;
    let header = match write_head(alloc, &head) {
        Ok(header) => header,
        Err(PlanFault::NoMemory) => return Err(AllocError),
        Err(PlanFault::Head(_)) => unreachable!(),
    };
    let Ok(values) = read_head(&header) else {
        unreachable!();
    };
    let walk = OrderWalk::new(Geometry::new(values));
    let content = draw_contents(alloc, walk, seed)?;
    Ok(CodePlan { head, content })
}

/// The codestream of a picture of `width` by `height` samples, with drawn code-blocks of drawn bytes. `levels` is N_L, `order` 2
/// for RPCL and 3 for PCRL, and `eph` says whether an EPH marker follows each packet header. It is accepted by the reader.
///
/// `width` and `height` are 1 to 4096, `components` 1 to 4, and `levels` at most 15.
///
/// # Errors
///
/// `AllocError` where memory ran out.
pub fn generate(
    alloc: Global,
    seed: u64,
    width: u32,
    height: u32,
    components: u8,
    levels: u8,
    sub: Sub,
    order: u8,
    eph: bool,
) -> Result<Vec<u8>, AllocError>
    requires { IsShape (asked width height components levels sub order eph) }
    ensures generated { IfOk result (λ v. v.items ≡ generated (asked width height components levels sub order eph) seed) }
    ensures accepted { IfOk result (λ v. IsCodestream v.items) }
{
    let shape = Shape {
        width,
        height,
        components,
        levels,
        sub,
        order,
        eph,
    };
    match make(alloc, &plan_of(alloc, shape, seed)?) {
        Ok(bytes) => Ok(bytes),
        Err(MakeFault::NoMemory) => Err(AllocError),
        Err(MakeFault::Head(_)) => unreachable!(),
        Err(MakeFault::Content) => unreachable!(),
        Err(MakeFault::TooLong) => unreachable!(),
    }
}
