//! What a codestream that is to be made says.
use j2k_markers::HeadPlan;
use packet_header::Block;

/// What the packet of a precinct is to say.
#[derive(Drop)]
pub struct PrecinctPlan {
    /// The included code-blocks, in header order.
    pub blocks: Vec<Block>,
    /// The segments of these code-blocks, joined: of each the cleanup segment and then the refinement segment.
    pub bytes: Vec<u8>,
}

/// What a codestream is to say.
#[derive(Drop)]
pub struct CodePlan {
    /// The values of its main header, but for Psot, which is made.
    pub head: HeadPlan,
    /// What each packet says, one for each precinct, in packet order.
    pub content: Vec<PrecinctPlan>,
}
