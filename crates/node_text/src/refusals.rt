//! Names of a table's refusals. Out of memory has none, since it ends the program.
ghost use Rattle.std.specs.Prelude.{◌≡◌, option_copied};
ghost use Rattle.node_text.specs.Refusals.{ack_refusal, checkpoint_refusal, close_refusal, copy_refusal, learn_refusal, open_refusal, purge_refusal, renumber_refusal, track_refusal};

use table_cell::{
    AckError, CheckpointError, CloseError, CopyError, LearnError, OpenError, PurgeError,
    RenumberError, TrackError,
};

/// Returns the name of the refusal of a change.
pub fn track_refusal(error: TrackError) -> Option<&'static str>
    ensures { option_copied result ≡ track_refusal error }
{
    match error {
        TrackError::TableFull => Some("TableFull"),
        TrackError::WrongKey => Some("WrongKey"),
        TrackError::NoSuchData => Some("NoSuchData"),
        TrackError::Spent => Some("Spent"),
        TrackError::HistoryFull => Some("HistoryFull"),
        TrackError::MomentBack => Some("MomentBack"),
        TrackError::Memory => None,
    }
}

/// Returns the name of the refusal of an update that was to be learned.
pub fn learn_refusal(error: LearnError) -> Option<&'static str>
    ensures { option_copied result ≡ learn_refusal error }
{
    match error {
        LearnError::NoSession => Some("NoSession"),
        LearnError::Misfit => Some("Misfit"),
        LearnError::MomentBack => Some("MomentBack"),
        LearnError::HistoryFull => Some("HistoryFull"),
        LearnError::Spent => Some("Spent"),
        LearnError::TableFull => Some("TableFull"),
        LearnError::Memory => None,
    }
}

/// Returns the name of the refusal of a batch.
pub fn copy_refusal(error: CopyError) -> Option<&'static str>
    ensures { option_copied result ≡ copy_refusal error }
{
    match error {
        CopyError::BatchOut => Some("BatchOut"),
        CopyError::Nothing => Some("Nothing"),
        CopyError::NoSession => Some("NoSession"),
        CopyError::HistoryFull => Some("HistoryFull"),
        CopyError::MomentBack => Some("MomentBack"),
        CopyError::Memory => None,
    }
}

/// Returns the name of the refusal of an acknowledgement.
pub fn ack_refusal(error: AckError) -> Option<&'static str>
    ensures { option_copied result ≡ ack_refusal error }
{
    match error {
        AckError::AckAhead => Some("AckAhead"),
        AckError::NoSession => Some("NoSession"),
        AckError::HistoryFull => Some("HistoryFull"),
        AckError::Memory => None,
    }
}

/// Returns the name of the refusal to open a session.
pub fn open_refusal(error: OpenError) -> Option<&'static str>
    ensures { option_copied result ≡ open_refusal error }
{
    match error {
        OpenError::AlreadyOpen => Some("AlreadyOpen"),
        OpenError::TooMany => Some("TooMany"),
        OpenError::HistoryFull => Some("HistoryFull"),
        OpenError::Memory => None,
    }
}

/// Returns the name of the refusal to close a session.
pub fn close_refusal(error: CloseError) -> Option<&'static str>
    ensures { option_copied result ≡ close_refusal error }
{
    match error {
        CloseError::NoSession => Some("NoSession"),
        CloseError::HistoryFull => Some("HistoryFull"),
        CloseError::Memory => None,
    }
}

/// Returns the name of the refusal of a purge.
pub fn purge_refusal(error: PurgeError) -> Option<&'static str>
    ensures { option_copied result ≡ purge_refusal error }
{
    match error {
        PurgeError::MomentBack => Some("MomentBack"),
        PurgeError::HistoryFull => Some("HistoryFull"),
        PurgeError::Memory => None,
    }
}

/// Returns the name of the refusal of a checkpoint.
pub fn checkpoint_refusal(error: CheckpointError) -> Option<&'static str>
    ensures { option_copied result ≡ checkpoint_refusal error }
{
    match error {
        CheckpointError::BatchOut => Some("BatchOut"),
        CheckpointError::Memory => None,
    }
}

/// Returns the name of the refusal of new numbers.
pub fn renumber_refusal(error: RenumberError) -> Option<&'static str>
    ensures { option_copied result ≡ renumber_refusal error }
{
    match error {
        RenumberError::SessionOpen => Some("SessionOpen"),
        RenumberError::Memory => None,
    }
}
