//! What the words of the tables stand for.
use st_base::Port;

/// The port of a name.
pub fn port_of(name: &[u8]) -> Port {
    match name {
        b"node" => Port::Node,
        b"ele" => Port::Ele,
        b"trouble" => Port::Trouble,
        b"face" => Port::Face,
        b"neigh" => Port::Neigh,
        _ => Port::Report,
    }
}
