//! What ends a station before it has ended by itself.

ghost use Rattle.std.specs.Prelude.{◌≡◌};

use bsc_clients::ClientsError;
use bsc_connections::LiveError;
use bsc_sockets::SocketsError;
use bsc_spool::StoreFault;
use std::alloc::AllocError;

/// Why a station was cut short.
#[derive(Clone, Copy, Drop)]
pub(crate) enum CutShort {
    /// Its connections could not be made, or waiting for them failed.
    Connections { error: SocketsError },

    /// Programs that feed it cannot reach it.
    Programs { error: ClientsError },

    /// Standard error did not accept the trace.
    Output,

    /// Standard output did not accept records that arrived.
    Unprinted,

    /// What happened could not be kept in the store.
    Unkept { error: StoreFault },

    /// An allocation failed.
    Memory,
}

impl From<AllocError> for CutShort {
    ghost use Rattle.bsc_attending.specs.declared.cut_short.CutShort.TheVariants.{Memory};

    ghost from_gives = { λ _ cut. cut ≡ Memory };

    fn from(_error: AllocError) -> CutShort {
        CutShort::Memory
    }
}

impl From<SocketsError> for CutShort {
    ghost use Rattle.bsc_attending.specs.Errors.{sockets_cut};

    ghost from_gives = { λ error cut. cut ≡ sockets_cut error };

    fn from(error: SocketsError) -> CutShort {
        match error {
            SocketsError::Memory => CutShort::Memory,
            error => CutShort::Connections { error },
        }
    }
}

impl From<ClientsError> for CutShort {
    ghost use Rattle.bsc_attending.specs.Errors.{clients_cut};

    ghost from_gives = { λ error cut. cut ≡ clients_cut error };

    fn from(error: ClientsError) -> CutShort {
        match error {
            ClientsError::Memory => CutShort::Memory,
            error => CutShort::Programs { error },
        }
    }
}

impl From<LiveError> for CutShort {
    ghost use Rattle.bsc_attending.specs.Errors.{live_cut};

    ghost from_gives = { λ error cut. cut ≡ live_cut error };

    fn from(error: LiveError) -> CutShort {
        match error {
            LiveError::Wait | LiveError::Count => CutShort::Connections {
                error: SocketsError::Sockets,
            },
            LiveError::Output => CutShort::Output,
            LiveError::Unprinted => CutShort::Unprinted,
            LiveError::Unkept => CutShort::Unkept {
                error: StoreFault::Unreachable,
            },
            LiveError::Memory => CutShort::Memory,
        }
    }
}
