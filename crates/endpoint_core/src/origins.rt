// Who may come, by the `Host` and the `Origin` of a request's head.
ghost use Rattle.std.specs.Prelude.{◌≡◌};
ghost use Rattle.std.specs.Option.{option_copied};
ghost use Rattle.endpoint_core.specs.Origins.{is_own, may_come, may_come_from};

use crate::admitted::{Admitted, authority_of, is_same};
use crate::hosts::is_known_host;

fn is_own(host: &str, origin: &str) -> bool
    ensures { result ≡ is_own host.now origin.now }
{
    match authority_of(origin) {
        Some(authority) => is_same(authority, host),
        None => false,
    }
}

fn may_come_from(admitted: &Admitted, host: &str, origin: Option<&str>) -> bool
    ensures { result ≡ may_come_from admitted.now host.now (option_copied origin.entry) }
{
    match origin {
        Some(origin) => is_own(host, origin) || admitted.lists_origin(origin),
        None => true,
    }
}

/// Whether a request with this `Host` and this `Origin` may come. A browser sends whatever page's requests to
/// whatever host, for a WebSocket without asking first, and takes a name that its page's owner points here for the
/// page's own host: so a broker that answers whoever reaches it answers every page. Schemes are not compared,
/// since some clients say `http://` to a host behind TLS too.
pub fn may_come(admitted: &Admitted, host: &str, origin: Option<&str>) -> bool
    ensures { result ≡ may_come admitted.now host.now (option_copied origin.entry) }
{
    is_known_host(admitted, host) && may_come_from(admitted, host, origin)
}
