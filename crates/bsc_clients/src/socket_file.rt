//! The file of a Unix socket.

ghost use Rattle.std.specs.Prelude.{◌≡◌, IfErr, IfSome};
ghost use Rattle.bsc_clients.specs.Listening.{IsPathError, kept_by, link_error};

use crate::ClientsError;
use crate::identity::Identity;
use crate::private_folder::{PrivateFolder, unmade};
use crate::replacing::Replacing;
use mio::net::{UnixListener, UnixStream};
use std::alloc::Global;
use std::fs;
use std::fs::{File, Files};
use std::io::ErrorKind;
use std::net::Net;
use std::os::unix::fs::FileTypeExt;
use std::os::unix::net::SocketAddr;

/// The file of a Unix socket. When this is dropped it is removed, if it still stands at its path.
pub(crate) struct SocketFile<'a, N: Files> {
    runtime: &'a N,
    path: String,

    /// The socket that is its own.
    own: Identity,
}

impl<'a, N: Files> Drop for SocketFile<'a, N> {
    fn drop(self) {
        let SocketFile { runtime, path, own } = self;
        if own.is(Identity::at(runtime, path.as_str())) {
            let _ = fs::remove_file(runtime, path.as_str());
        }
    }
}

/// Listens at this path, with a socket to which only the user of the station may connect. It is
/// made in a folder that nobody else may enter, and gets its name at the path when it is complete:
/// so it is never reached with another mode, and whoever finds it there finds that it answers. A
/// socket file at which nobody listens any more is replaced.
pub(crate) fn bind_path<'a, N: Net + Files<File = File>>(
    runtime: &'a N,
    alloc: Global,
    path: &str,
) -> Result<(UnixListener, SocketFile<'a, N>), ClientsError>
    ensures { IfErr result IsPathError }
{
    // A name may be longer than the path at which a program can connect.
    if SocketAddr::from_pathname(path).is_err() {
        return Err(ClientsError::TooLong);
    }
    let folder = PrivateFolder::beside(runtime, alloc, path)?;
    let listener = folder.listen()?;
    let Some(own) = Identity::at(runtime, folder.socket()) else {
        return Err(ClientsError::CannotListen);
    };
    let file = SocketFile {
        runtime,
        path: String::from_str(alloc, path)?,
        own,
    };
    put(runtime, alloc, folder.socket(), path)?;
    Ok((listener, file))
}

/// Gives this socket its name at a path, in place of a socket at which nobody listens any more.
fn put<N: Net + Files<File = File>>(
    runtime: &N,
    alloc: Global,
    socket: &str,
    path: &str,
) -> Result<(), ClientsError>
    ensures { IfErr result IsPathError }
{
    match link(runtime, socket, path) {
        Err(ClientsError::InUse) => {}
        linked => return linked,
    }
    see_left(runtime, path)?;
    let _right = Replacing::begin(runtime, alloc, path)?;
    // Another station may have replaced it before this one got the right.
    see_left(runtime, path)?;
    remove(runtime, path)?;
    link(runtime, socket, path)
}

/// Gives this socket its name at a path. Fails with `InUse` if a file stands there.
fn link<N: Files>(runtime: &N, socket: &str, path: &str) -> Result<(), ClientsError>
    ensures { IfErr result IsPathError }
{
    match fs::hard_link(runtime, socket, path) {
        Ok(()) => Ok(()),
        Err(error) => Err(unlinked(error.kind())),
    }
}

/// Returns why a socket has not got its name at a path, if that fails with an error of this kind.
fn unlinked(kind: ErrorKind) -> ClientsError
    ensures error { result ≡ link_error kind }
    ensures fault { IsPathError result }
{
    match kind {
        ErrorKind::AlreadyExists => ClientsError::InUse,
        ErrorKind::PermissionDenied => ClientsError::NotPermitted,
        _ => ClientsError::CannotListen,
    }
}

/// Removes the file at this path, if there is one.
fn remove<N: Files>(runtime: &N, path: &str) -> Result<(), ClientsError>
    ensures { IfErr result IsPathError }
{
    match fs::remove_file(runtime, path) {
        Ok(()) => Ok(()),
        Err(error) if error.kind() == ErrorKind::NotFound => Ok(()),
        Err(error) => Err(unmade(error.kind())),
    }
}

/// Fails if somebody listens at the socket file at this path, or if there is a file of another
/// kind.
fn see_left<N: Net + Files>(runtime: &N, path: &str) -> Result<(), ClientsError>
    ensures { IfErr result IsPathError }
{
    match fs::symlink_metadata(runtime, path) {
        Ok(found) if !found.file_type().is_socket() => return Err(ClientsError::OtherFile),
        Ok(_) => {}
        Err(_) => return Ok(()),
    }
    match UnixStream::connect(runtime, path) {
        Ok(_) => Err(ClientsError::InUse),
        Err(error) => match kept_by(error.kind()) {
            Some(why) => Err(why),
            None => Ok(()),
        },
    }
}

/// Returns why a socket file is not removed, if connecting to it fails with an error of this kind;
/// None if nobody listens there any more.
fn kept_by(kind: ErrorKind) -> Option<ClientsError>
    ensures kept { result ≡ kept_by kind }
    ensures fault { IfSome result IsPathError }
{
    match kind {
        ErrorKind::ConnectionRefused | ErrorKind::NotFound => None,
        ErrorKind::WouldBlock => Some(ClientsError::InUse),
        ErrorKind::PermissionDenied => Some(ClientsError::NotPermitted),
        _ => Some(ClientsError::CannotListen),
    }
}
