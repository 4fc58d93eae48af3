//! What the fields of a head say beside its framing.

use crate::hosts::Hosts;
use http1::text::eq_ignore_case;
use httparse::spans::HeaderSpan;

/// Whether each field `Host` is served.
pub(crate) fn are_served(input: &[u8], spans: &[HeaderSpan], hosts: Hosts) -> bool
    requires { All (IsHeaderWithin (length input.now)) spans.now }
    ensures { result ≡ are_served hosts (map (header_bytes input.now) spans.now) }
{
    let mut served = true;
    for span in spans {
        served &= !eq_ignore_case(span.name.of(input), b"host")
            || hosts.serve(span.value.of(input));
    }
    served
}

/// Whether a browser says that a page of another site asks (Fetch Metadata).
pub(crate) fn crosses_sites(input: &[u8], spans: &[HeaderSpan]) -> bool
    requires { All (IsHeaderWithin (length input.now)) spans.now }
    ensures { result ≡ crosses_sites (map (header_bytes input.now) spans.now) }
{
    let mut crosses = false;
    for span in spans {
        crosses |= eq_ignore_case(span.name.of(input), b"sec-fetch-site")
            && eq_ignore_case(span.value.of(input), b"cross-site");
    }
    crosses
}

ghost use Rattle.std.specs.Prelude.{◌≡◌, length, map, All};
ghost use Rattle.httparse.specs.Spans.{IsHeaderWithin, header_bytes};
ghost use Rattle.ti_http.specs.Hosts.{are_served, crosses_sites};
