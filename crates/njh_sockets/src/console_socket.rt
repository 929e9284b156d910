//! The socket of the operator's console.

use mio::net::{UnixListener, UnixStream};
use mio::{Interest, Poll, Token};
use std::fs;
use std::fs::Files;
use std::io::ErrorKind;
use std::net::Net;
use std::os::unix::fs::{FileTypeExt, PermissionsExt};
use std::path::Path;

/// Why the console's socket isn't open.
#[derive(Clone, Copy, Debug, PartialEq, Eq)]
pub enum ConsoleFault {
    /// Its folder isn't there, or others than its owner may enter it: its mode isn't 0700.
    OpenFolder,
    /// Another service answers there, or something that is no socket has its name.
    InUse,
    /// The device refused it.
    Device,
}

/// The modes of the socket's folder and of the socket, and which bits of a mode they are.
const FOLDER: u32 = 0o700;

const SOCKET: u32 = 0o600;

const MODE: u32 = 0o777;

/// Listens at a path. A socket there that nobody answers is replaced.
pub(crate) fn listen_at<R: Files + Net>(rt: &R, path: &str) -> Result<UnixListener, ConsoleFault> {
    if !has_private_folder(rt, path) {
        return Err(ConsoleFault::OpenFolder);
    }
    match UnixListener::bind(rt, path) {
        Ok(listener) => close_to_others(rt, path, listener),
        Err(error) if error.kind() == ErrorKind::AddrInUse => replace(rt, path),
        Err(_) => Err(ConsoleFault::Device),
    }
}

/// Whether the folder of a path is its owner's alone.
fn has_private_folder<R: Files>(rt: &R, path: &str) -> bool {
    match fs::metadata(rt, folder_of(path)) {
        Ok(found) => found.permissions().mode() & MODE == FOLDER,
        Err(_) => false,
    }
}

/// The folder of a path.
fn folder_of(path: &str) -> Path<'_> {
    match Path::new(path).parent() {
        Some(folder) if !folder.as_str().is_empty() => folder,
        _ => Path::new("."),
    }
}

/// Listens in the place of a socket that nobody answers.
fn replace<R: Files + Net>(rt: &R, path: &str) -> Result<UnixListener, ConsoleFault> {
    if !is_socket(rt, path) {
        return Err(ConsoleFault::InUse);
    }
    match UnixStream::connect(rt, path) {
        Err(error) if error.kind() == ErrorKind::ConnectionRefused => listen_anew(rt, path),
        _ => Err(ConsoleFault::InUse),
    }
}

/// Whether what has the name is a socket.
fn is_socket<R: Files>(rt: &R, path: &str) -> bool {
    match fs::symlink_metadata(rt, path) {
        Ok(found) => found.file_type().is_socket(),
        Err(_) => false,
    }
}

/// Removes what has the name, and listens there.
fn listen_anew<R: Files + Net>(rt: &R, path: &str) -> Result<UnixListener, ConsoleFault> {
    if fs::remove_file(rt, path).is_err() {
        return Err(ConsoleFault::Device);
    }
    match UnixListener::bind(rt, path) {
        Ok(listener) => close_to_others(rt, path, listener),
        Err(_) => Err(ConsoleFault::Device),
    }
}

/// Lets only the owner connect.
fn close_to_others<R: Files>(
    rt: &R,
    path: &str,
    listener: UnixListener,
) -> Result<UnixListener, ConsoleFault> {
    match fs::set_permissions(rt, path, fs::Permissions::from_mode(SOCKET)) {
        Ok(()) => Ok(listener),
        Err(_) => Err(ConsoleFault::Device),
    }
}

/// A visitor that waits, which wakes the wait from now on. `None`: nobody waits.
pub(crate) fn accept_visitor(
    listener: &UnixListener,
    poll: &Poll,
    token: Token,
) -> Option<UnixStream> {
    match listener.accept() {
        Ok((visitor, _)) => watched(poll, visitor, token),
        Err(_) => None,
    }
}

/// Has a visitor reported; one that can't be is let go.
fn watched(poll: &Poll, mut visitor: UnixStream, token: Token) -> Option<UnixStream> {
    let interest = Interest::READABLE | Interest::WRITABLE;
    match poll.registry().register(&mut visitor, token, interest) {
        Ok(()) => Some(visitor),
        Err(_) => None,
    }
}
