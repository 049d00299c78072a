//! Why sessions end.

ghost use Rattle.std.specs.Prelude.{◌≡◌};
ghost use Rattle.node_core.specs.SessionEnds.{end_name};

/// Why a session ended.
#[derive(Clone, Copy, Debug, PartialEq, Eq)]
pub enum SessionEnd {
    /// The peer's bytes ended.
    End,
    /// No byte of the peer came for too long.
    Silent,
    /// The peer's messages had a fault.
    Fault,
    /// Another connection of the peer took its place.
    Replaced,
    /// A read or a write failed.
    Device,
    /// The peer sent an error or refused the node, or the node couldn't go on.
    Error,
}

impl SessionEnd {
    /// Returns the word for the end of a session.
    pub fn name(self) -> &'static str
        ensures { result.now ≡ end_name self }
    {
        match self {
            SessionEnd::End => "end",
            SessionEnd::Silent => "silent",
            SessionEnd::Fault => "fault",
            SessionEnd::Replaced => "replaced",
            SessionEnd::Device => "device",
            SessionEnd::Error => "error",
        }
    }
}
