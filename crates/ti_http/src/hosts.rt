//! The hosts that are served here.

use http1::text::eq_ignore_case;
use itoa::Buffer;

/// Which values of the field `Host` are served. A page of another site that had its name lead here (DNS rebinding) sends its
/// own name, and is refused.
#[derive(Clone, Copy, Debug, PartialEq, Eq)]
pub enum Hosts {
    /// Any, as on a Unix socket, which no page can reach.
    Any,
    /// `localhost`, `127.0.0.1` and `[::1]`, in any case, each alone or with this port.
    Local { port: u16 },
}

/// Whether a port, or nothing, follows the name of a host.
fn is_port(rest: &[u8], digits: &[u8]) -> bool
    ensures { result ≡ is_port rest.now digits.now }
{
    match rest {
        [] => true,
        [colon, port @ ..] => *colon == b':' && port == digits,
    }
}

/// Whether the value is this name, alone or with the port.
fn is_named(value: &[u8], name: &[u8], digits: &[u8]) -> bool
    ensures { result ≡ is_host_named value.now name.now digits.now }
{
    value.len() >= name.len()
        && eq_ignore_case(&value[..name.len()], name)
        && is_port(&value[name.len()..], digits)
}

impl Hosts {
    /// Whether the value of a field `Host` is one of them.
    pub fn serve(self, value: &[u8]) -> bool
        ensures { result ≡ is_served self value.now }
    {
        match self {
            Hosts::Any => true,
            Hosts::Local { port } => {
                let mut buffer = Buffer::new();
                let digits = buffer.format(port).as_bytes();
                is_named(value, b"localhost", digits)
                    || is_named(value, b"127.0.0.1", digits)
                    || is_named(value, b"[::1]", digits)
            }
        }
    }
}

ghost use Rattle.std.specs.Prelude.{◌≡◌};
ghost use Rattle.ti_http.specs.Hosts.{is_port, is_host_named, is_served};
