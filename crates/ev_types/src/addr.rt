// The address of a listener or of a connection.

/// A numeric IPv4 address with a port.
///
/// Own.
#[derive(Clone, Copy, Debug, PartialEq, Eq)]
pub struct Addr {
    pub ip: [u8; 4],
    pub port: u16,
}
