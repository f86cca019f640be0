//! The names of passes: the one list of them.
ghost use Rattle.std.specs.Prelude.{◌≡◌, IfSome, IfNone};
ghost use Rattle.pliron_pass_pipeline.specs.PassNames.{name_of_pass, IsNoPass};

/// One of the passes here.
#[derive(Clone, Copy, Debug, PartialEq, Eq)]
pub enum PassName {
    Sccp,
    Dce,
    SimplifyCfg,
    Cse,
    Canonicalize,
    Combine,
    ThreadEdges,
}

impl PassName {
    /// All names, as a message lists them.
    pub const LIST: &'static str =
        "`sccp`, `dce`, `simplify-cfg`, `cse`, `canonicalize`, `combine` or `thread-edges`";

    /// The pass of this name. Cost: constant.
    pub fn from_name(name: &str) -> Option<Self>
        ensures named { IfSome result (λ pass. name_of_pass pass ≡ name.now) }
        ensures unknown { IfNone result (IsNoPass name.now) }
    {
        match name {
            "sccp" => Some(PassName::Sccp),
            "dce" => Some(PassName::Dce),
            "simplify-cfg" => Some(PassName::SimplifyCfg),
            "cse" => Some(PassName::Cse),
            "canonicalize" => Some(PassName::Canonicalize),
            "combine" => Some(PassName::Combine),
            "thread-edges" => Some(PassName::ThreadEdges),
            _ => None,
        }
    }
}
