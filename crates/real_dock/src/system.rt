//! What the dock asks of the system.

use std::fs::{OpenFile, OpenOptions};
use std::io::{self, Read, Write};
use std::net::{OpenStream, TcpStream};
use std::os::fd::AsRawFd;

/// A system with files, and with peers by TCP. Everything here is proved of any such system, by what
/// its files and peers tell; that of the operating system tells nothing.
pub trait System {
    type File: Read + Write + OpenFile + AsRawFd + Drop;

    type Peer: Read + Write + OpenStream + AsRawFd + Drop;

    /// Opens the file at a path.
    fn open_file(&self, how: &OpenOptions, path: &str) -> io::Result<Self::File>;

    /// Connects to a port of a host, which is a name, or an address of either version of IP; the
    /// addresses of a name are tried in turn, until one of them takes the connection.
    fn connect(&self, host: &str, port: u16) -> io::Result<Self::Peer>;
}

impl System for HostRuntime {
    type File = std::fs::File;

    type Peer = TcpStream;

    fn open_file(&self, how: &OpenOptions, path: &str) -> io::Result<std::fs::File> {
        how.open(self, path)
    }

    fn connect(&self, host: &str, port: u16) -> io::Result<TcpStream> {
        TcpStream::connect(self, (host, port))
    }
}
