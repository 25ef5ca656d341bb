//! Unix sockets at paths.

use crate::sockets::{refused, unreached};
use bsc_clients::{Clients, ClientsError, ServedAt};
use std::fs;
use std::fs::File;
use std::os::unix::fs::{PermissionsExt, symlink};
use std::os::unix::net::{UnixListener, UnixStream};
use std::test::Fail;

/// Why a station cannot listen at a path, if it cannot.
fn fault_at(rt: &HostRuntime, path: &str) -> Option<ClientsError> {
    refused(rt, ServedAt::Path { path })
}

/// Whether a program can connect at a path.
fn is_reached(rt: &HostRuntime, path: &str) -> bool {
    UnixStream::connect(rt, path).is_ok()
}

/// Whether a station that listens at this path has no address, and its socket file is for its user
/// only.
fn is_own(rt: &HostRuntime, path: &str) -> Result<bool, Fail> {
    let clients = Clients::listen(rt, rt.alloc(), ServedAt::Path { path })?;
    let mode = fs::symlink_metadata(rt, path)?.permissions().mode();
    Ok(clients.address().is_none() && mode & 0o777 == 0o600)
}

/// The socket file is removed with the sockets.
#[test]
fn a_socket_file_is_for_the_user_only_and_removed(rt: HostRuntime) -> Result<(), Fail> {
    assert!(rt; is_own(&rt, "own")?);
    assert!(rt; fs::symlink_metadata(&rt, "own").is_err());
    Ok(())
}

/// Whether a path is in use while a station listens there, which a program reaches then.
fn is_in_use(rt: &HostRuntime, path: &str) -> Result<bool, Fail> {
    let _clients = Clients::listen(rt, rt.alloc(), ServedAt::Path { path })?;
    let is_first_reached = is_reached(rt, path);
    let fault = fault_at(rt, path);
    Ok(is_first_reached && fault == Some(ClientsError::InUse) && is_reached(rt, path))
}

/// A socket file that was left is replaced.
#[test]
fn a_path_is_in_use_while_somebody_listens(rt: HostRuntime) -> Result<(), Fail> {
    drop(UnixListener::bind(&rt, "left")?);
    assert!(rt; !is_reached(&rt, "left"));
    assert!(rt; is_in_use(&rt, "left")?);
    Ok(())
}

/// Whether a station listens at this path, and nothing of how its socket was made is left there.
fn has_only(rt: &HostRuntime, folder: &str, path: &str) -> Result<bool, Fail> {
    let _clients = Clients::listen(rt, rt.alloc(), ServedAt::Path { path })?;
    let mut names = 0usize;
    for entry in fs::read_dir(rt, folder)? {
        let _ = entry?;
        names = names.saturating_add(1);
    }
    Ok(is_reached(rt, path) && names == 1)
}

/// A folder that a killed station has left is not used, and neither is its lock.
#[test]
fn nothing_is_left_beside_a_socket_file(rt: HostRuntime) -> Result<(), Fail> {
    fs::create_dir(&rt, "new")?;
    assert!(rt; has_only(&rt, "new", "new/socket")?);
    fs::create_dir(&rt, "left")?;
    drop(UnixListener::bind(&rt, "left/socket")?);
    fs::write(&rt, "left/socket.lock", b"")?;
    assert!(rt; has_only(&rt, "left", "left/socket")?);
    fs::create_dir(&rt, ".bsc0")?;
    assert!(rt; fault_at(&rt, "taken") == None);
    assert!(rt; fs::metadata(&rt, ".bsc0")?.is_dir());
    assert!(rt; fs::metadata(&rt, ".bsc1").is_err());
    Ok(())
}

/// The sockets of a station at a path from which the socket file of another one was removed. The
/// other one has ended.
fn second_at<'a>(rt: &'a HostRuntime, path: &str) -> Result<Clients<'a, HostRuntime>, Fail> {
    let _first = Clients::listen(rt, rt.alloc(), ServedAt::Path { path })?;
    fs::remove_file(rt, path)?;
    Ok(Clients::listen(rt, rt.alloc(), ServedAt::Path { path })?)
}

/// A station that ends removes its own socket file, and no other file that stands at its path.
#[test]
fn what_another_has_put_at_a_path_is_kept(rt: HostRuntime) -> Result<(), Fail> {
    let second = second_at(&rt, "path")?;
    assert!(rt; is_reached(&rt, "path"));
    fs::remove_file(&rt, "path")?;
    fs::write(&rt, "path", b"kept")?;
    drop(second);
    assert!(rt; fs::metadata(&rt, "path")?.len() == 4);
    Ok(())
}

/// Why a station cannot listen at a path while another one replaces the socket file that was left
/// there, if that file stays there.
fn fault_while_locked(rt: &HostRuntime) -> Result<Option<ClientsError>, Fail> {
    let lock = File::create(rt, "held.lock")?;
    lock.try_lock()?;
    let fault = fault_at(rt, "held");
    fs::symlink_metadata(rt, "held")?;
    Ok(fault)
}

/// While another station replaces a socket file that was left, the path is in use.
#[test]
fn one_station_at_a_time_replaces_a_socket_file(rt: HostRuntime) -> Result<(), Fail> {
    drop(UnixListener::bind(&rt, "held")?);
    assert!(rt; fault_while_locked(&rt)? == Some(ClientsError::InUse));
    assert!(rt; fault_at(&rt, "held") == None);
    Ok(())
}

/// A program cannot connect at a path of more than 107 octets, so that no station listens there,
/// and neither does one in a folder that is not there.
#[test]
fn a_path_at_which_no_station_can_listen_is_told(rt: HostRuntime) -> Result<(), Fail> {
    assert!(rt; fault_at(&rt, &"0".repeat(rt.alloc(), 107)?) == None);
    let longer = "0".repeat(rt.alloc(), 108)?;
    assert!(rt; fault_at(&rt, &longer) == Some(ClientsError::TooLong));
    assert!(rt; fault_at(&rt, "nowhere/socket") == Some(ClientsError::NoFolder));
    let nobody = ServedAt::Path { path: "nobody" };
    assert!(rt; unreached(&rt, nobody) == Some(ClientsError::NobodyThere));
    Ok(())
}

/// A socket file at which nobody listens any more would be replaced, but no link to one, and no
/// file of another kind.
#[test]
fn a_file_of_another_kind_is_kept(rt: HostRuntime) -> Result<(), Fail> {
    drop(UnixListener::bind(&rt, "socket")?);
    fs::write(&rt, "file", b"kept")?;
    fs::create_dir(&rt, "folder")?;
    symlink(&rt, "socket", "link")?;
    for path in ["file", "folder", "link"] {
        let fault = fault_at(&rt, path);
        assert!(rt; fault == Some(ClientsError::OtherFile), "{path}");
    }
    assert!(rt; fs::metadata(&rt, "file")?.len() == 4);
    assert!(rt; fs::symlink_metadata(&rt, "link")?.is_symlink());
    Ok(())
}
