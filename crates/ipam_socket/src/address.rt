//! Where a daemon is reached.
ghost use Rattle.std.specs.Prelude.{◌≡◌};
ghost use Rattle.ipam_socket.specs.Addresses.{IsAddressOf};

/// Where a daemon is reached, as a word of the command line says it.
#[derive(Clone, Copy)]
pub enum Address<'a> {
    /// The path of a Unix stream socket file, from the root.
    File(&'a str),
    /// An IP address or the name of a host, a colon and a port, for TCP.
    Host(&'a str),
}

impl Address<'_> {
    /// The address that the word says: a word that begins with a slash is a path, and any other is
    /// for TCP. Whether there is such a file or host shows only where it is used.
    pub fn of(word: &str) -> Address<'_>
        ensures { IsAddressOf word.now result }
    {
        if word.starts_with('/') {
            Address::File(word)
        } else {
            Address::Host(word)
        }
    }
}
