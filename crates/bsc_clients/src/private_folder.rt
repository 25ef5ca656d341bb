//! A folder in which a socket is made before others can reach it.

ghost use Rattle.std.specs.Prelude.{◌≡◌, IfErr};
ghost use Rattle.bsc_clients.specs.Listening.{IsPathError, path_error};

use crate::ClientsError;
use mio::net::UnixListener;
use std::alloc::{AllocError, Global};
use std::fs::{DirBuilder, Files, Permissions};
use std::io::ErrorKind;
use std::net::Net;
use std::os::unix::fs::{DirBuilderExt, PermissionsExt};
use std::{fs, io};

/// Only the user of the station may enter the folder.
const FOLDER_MODE: u32 = 0o700;

/// Only the user of the station may connect.
const SOCKET_MODE: u32 = 0o600;

/// How many names are tried. A station that was killed may have left a folder.
const MAX_NAMES: usize = 1_000;

/// A folder that only the user of the station may enter, with one socket. Both are removed when
/// this is dropped; a name that the socket has got elsewhere stays.
pub(crate) struct PrivateFolder<'a, N: Files> {
    runtime: &'a N,
    path: String,
    socket: String,
}

impl<'a, N: Files> PrivateFolder<'a, N> {
    /// Makes a folder beside this path.
    pub(crate) fn beside(
        runtime: &'a N,
        alloc: Global,
        path: &str,
    ) -> Result<PrivateFolder<'a, N>, ClientsError>
        ensures { IfErr result IsPathError }
    {
        for number in 0..MAX_NAMES {
            match PrivateFolder::make(runtime, alloc, path, number)? {
                Ok(folder) => return Ok(folder),
                Err(error) if error.kind() == ErrorKind::AlreadyExists => {}
                Err(error) => return Err(unmade(error.kind())),
            }
        }
        Err(ClientsError::CannotListen)
    }

    /// Makes the folder with this number beside this path.
    fn make(
        runtime: &'a N,
        alloc: Global,
        path: &str,
        number: usize,
    ) -> Result<io::Result<PrivateFolder<'a, N>>, AllocError> {
        let path = match path.rsplit_once('/') {
            Some((parent, _)) => format!(in alloc; "{parent}/.bsc{number}")?,
            None => format!(in alloc; ".bsc{number}")?,
        };
        let socket = format!(in alloc; "{path}/s")?;
        let mut builder = DirBuilder::new();
        builder.mode(FOLDER_MODE);
        match builder.create(runtime, path.as_str()) {
            Ok(()) => Ok(Ok(PrivateFolder {
                runtime,
                path,
                socket,
            })),
            Err(error) => Ok(Err(error)),
        }
    }

    /// The path of the socket.
    pub(crate) fn socket(&self) -> &str {
        self.socket.as_str()
    }
}

impl<'a, N: Net + Files> PrivateFolder<'a, N> {
    /// Makes the socket and listens at it. Whoever finds it elsewhere later can connect at once.
    pub(crate) fn listen(&self) -> Result<UnixListener, ClientsError>
        ensures { IfErr result IsPathError }
    {
        match self.try_listen() {
            Ok(listener) => Ok(listener),
            Err(error) => Err(unmade(error.kind())),
        }
    }

    /// The same, with the error of the system. The mode that the folder was made with may lack what
    /// the umask takes away, and that of the socket has to be set.
    fn try_listen(&self) -> io::Result<UnixListener> {
        let folder_mode = Permissions::from_mode(FOLDER_MODE);
        fs::set_permissions(self.runtime, self.path.as_str(), folder_mode)?;
        let listener = UnixListener::bind(self.runtime, self.socket.as_str())?;
        let socket_mode = Permissions::from_mode(SOCKET_MODE);
        fs::set_permissions(self.runtime, self.socket.as_str(), socket_mode)?;
        Ok(listener)
    }
}

/// Returns why nothing is made at or beside a path, if that fails with an error of this kind.
pub(crate) fn unmade(kind: ErrorKind) -> ClientsError
    ensures error { result ≡ path_error kind }
    ensures fault { IsPathError result }
{
    match kind {
        ErrorKind::PermissionDenied => ClientsError::NotPermitted,
        ErrorKind::NotFound => ClientsError::NoFolder,
        ErrorKind::InvalidInput => ClientsError::TooLong,
        _ => ClientsError::CannotListen,
    }
}

impl<'a, N: Files> Drop for PrivateFolder<'a, N> {
    fn drop(self) {
        let PrivateFolder {
            runtime,
            path,
            socket,
        } = self;
        let _ = fs::remove_file(runtime, socket.as_str());
        let _ = fs::remove_dir(runtime, path.as_str());
    }
}
