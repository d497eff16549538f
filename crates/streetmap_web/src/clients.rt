//! Many clients over a listener.
ghost use Rattle.std.specs.Prelude.{◌≡◌, ◌≤◌, length, IsErrOf, IsOk};
ghost use Rattle.streetmap_web.specs.Site.{site_value};
ghost use Rattle.streetmap_web.specs.Conditions.{Condition, IsInCondition, ByCalls};
ghost use Rattle.streetmap_connections.specs.Served.{ended_of, slots_of, LetsInUpTo};
ghost use Rattle.streetmap_web.specs.ServedClients.{ServesClients, ServesInRow};
ghost use Rattle.streetmap_web.specs.StoreWatch.{IsOver};

use crate::keeper_service::KeeperService;
use mio::net::TcpStream;
use std::io::Write;
use std::net::{Net, TcpListener};
use std::time::Clock;
use streetmap_connections::{Clients, Limits, ServeFault, serve_connections};
use streetmap_tags::Tagged;

/// Serves clients of a listener over a keeper, many at once, until `count` of them ended.
///
/// If a client fails, or takes longer than the limits of `clients` allow, only that client ends. If
/// memory runs out for a client's request, the client is sent the fixed answer 503, and its
/// connection closes. From here on a call of `accept` on the listener does not wait.
///
/// # Errors
///
/// `Net` if no client can be accepted while none is served, or sockets cannot be waited for, and
/// `Memory` if memory runs out for what is waited for.
pub fn serve_clients<R: Net + Clock, K: Tagged, W: Write>(
    rt: &R,
    listener: &TcpListener,
    count: u64,
    clients: &mut Clients<TcpStream>,
    service: &mut KeeperService<K, W>,
) -> Result<(), ServeFault>
    // If the store was clean: one list of requests, answered one after the other, which is an
    // interleaving of the clients' own lists. The clients of a place were answered in turn, each to
    // its end before the next was answered at all.
    ensures serves { K.model.is_clean service.new.keeper → (x : Condition) →
        IsInCondition K.model service.old.keeper x →
        ServesClients K.model (site_value service.old.site) x service.old.keeper service.new.keeper
        (slots_of clients.old) (slots_of clients.new) }
    // All else that the store has is kept.
    ensures calls { ByCalls K.model service.old.keeper service.new.keeper }
    ensures site { service.new.site ≡ service.old.site }
    ensures counted { IsOk result → count ≤ length (ended_of clients.new) }
    // No more are admitted.
    ensures few { LetsInUpTo count clients.old clients.new }
    ensures over { IsErrOf result ServeFault.Over → IsOver service.new.watch }
{
    serve_connections(rt, listener, count, clients, service)
}

/// Serves clients of a listener over a keeper, one after the other, until `count` of them ended.
///
/// A client has half a minute, even if the next one waits. From here on a call of `accept` on the
/// listener does not wait.
///
/// # Errors
///
/// As `serve_clients`, and `Memory` if memory runs out for a client.
pub fn serve_count<R: Net + Clock, K: Tagged, W: Write>(
    rt: &R,
    listener: &TcpListener,
    count: u64,
    service: &mut KeeperService<K, W>,
) -> Result<(), ServeFault>
    // If the store was clean: the requests of the clients, one client after the other.
    ensures serves { K.model.is_clean service.new.keeper → (x : Condition) →
        IsInCondition K.model service.old.keeper x →
        ServesInRow K.model (site_value service.old.site) x service.old.keeper service.new.keeper
        count (IsOk result) }
    // All else that the store has is kept.
    ensures calls { ByCalls K.model service.old.keeper service.new.keeper }
    ensures site { service.new.site ≡ service.old.site }
{
    let mut clients = Clients::new(service.alloc, Limits::in_turn())?;
    serve_clients(rt, listener, count, &mut clients, service)
}
