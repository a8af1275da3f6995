//! The three streams of a flow, and the ports that they go to.
ghost use Rattle.std.specs.Prelude.{◌≡◌, ◌≤◌};
ghost use Rattle.fg_shape.specs.Kind.{port_of};

/// The greatest port that a flow's media may have, since its parity has the ports two and four above it.
pub const LAST_PORT: u16 = 65_531;

/// Which of a flow's three streams a datagram belongs to (SMPTE ST 2022-1).
#[derive(Clone, Copy, Debug, PartialEq, Eq)]
pub enum Kind {
    /// Media datagrams, on the flow's own port.
    Media,
    /// Parity datagrams over columns, the first FEC stream, two ports above.
    Column,
    /// Parity datagrams over rows, the second FEC stream, four ports above.
    Row,
}

impl Kind {
    /// The UDP port of this stream of the flow whose media go to the port `flow`.
    pub fn port(self, flow: u16) -> u16
        requires { flow ≤ LAST_PORT }
        ensures { result ≡ port_of flow self }
    {
        match self {
            Kind::Media => flow,
            Kind::Column => flow + 2,
            Kind::Row => flow + 4,
        }
    }
}
