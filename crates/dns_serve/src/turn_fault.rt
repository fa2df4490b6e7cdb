//! Why a turn or a session ended early.
ghost use Rattle.std.specs.Prelude.{◌≡◌};
ghost use Rattle.dns_serve.specs.declared.turn_fault.StreamFault as faults;

use dns_name::{SinkFailed, SourceFailed};
use thiserror::Error;

/// Why a turn over UDP failed. It is displayed as the diagnostic that a server prints.
#[derive(Clone, Copy, Debug, PartialEq, Eq, Error)]
pub enum TurnFault {
    /// No datagram was received, and nothing was sent.
    #[error("U1")]
    ReceiveFailed,
    /// The reply could not be sent.
    #[error("U2")]
    SendFailed,
}

/// Why a session over a stream ended early. It is displayed as the diagnostic that a server prints.
#[derive(Clone, Copy, Debug, PartialEq, Eq, Error)]
pub enum StreamFault {
    /// The source failed. The replies to all complete messages were written.
    #[error("S1")]
    SourceFailed,
    /// The sink failed. `serve_stream` has then written the replies to all messages but the last one
    /// read, and a prefix of the reply to the last one.
    #[error("S2")]
    SinkFailed,
    /// The source ended inside a length or a message. The replies to all earlier messages were
    /// written.
    #[error("S3")]
    Cut,
}

impl From<SourceFailed> for StreamFault {
    ghost from_gives = { λ _ fault. fault ≡ faults.StreamFault.SourceFailed };

    fn from(_failed: SourceFailed) -> StreamFault {
        StreamFault::SourceFailed
    }
}

impl From<SinkFailed> for StreamFault {
    ghost from_gives = { λ _ fault. fault ≡ faults.StreamFault.SinkFailed };

    fn from(_failed: SinkFailed) -> StreamFault {
        StreamFault::SinkFailed
    }
}
