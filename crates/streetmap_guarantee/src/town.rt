//! The clients of a listener.
ghost use Rattle.std.specs.Prelude.{◌≡◌, ◌≤◌, [], length, map, IsErrOf, IsOk};
ghost use Rattle.streetmap_ledger.specs.State.{State};
ghost use Rattle.streetmap_web.specs.Site.{site_value};
ghost use Rattle.streetmap_connections.specs.AllClients.{clients_of, ended_of};
ghost use Rattle.streetmap_connections.specs.SlotClients.{client_history};
ghost use Rattle.streetmap_web.specs.StoreWatch.{IsOver};
ghost use Rattle.streetmap_guarantee.specs.Town.{GuaranteeOfTown};

use mio::net::TcpStream;
use std::io::Write;
use std::net::{Net, TcpListener};
use std::time::Clock;
use streetmap_connections::{Clients, ServeFault};
use streetmap_ledger::Durable;
use streetmap_tags::Tagged;
use streetmap_web::{KeeperService, serve_clients};

/// Serves the clients of a listener over a keeper, many at once, until `count` of them ended
/// (`streetmap_web::serve_clients`).
///
/// # Errors
///
/// `Net` if no client can be accepted while none is served, or sockets cannot be waited for;
/// `Memory` if memory runs out for what is waited for; `Over` once the store failed, if the
/// service ends then.
pub fn serve_town<R: Net + Clock, K: Durable + Tagged, W: Write>(
    rt: &R,
    listener: &TcpListener,
    count: u64,
    clients: &mut Clients<TcpStream>,
    service: &mut KeeperService<K, W>,
) -> Result<(), ServeFault>
    requires { clients_of clients.old ≡ [] }
    ensures guarantee { K.model.is_clean service.new.keeper → (s : State) →
        K.model.represents service.old.keeper s →
        GuaranteeOfTown K.holds (K.leaves service.new.keeper) (site_value service.old.site) s
        (map client_history (clients_of clients.new)) }
    ensures counted { IsOk result → count ≤ length (ended_of clients.new) }
    ensures few { length (clients_of clients.new) ≤ count }
    ensures over { IsErrOf result ServeFault.Over → IsOver service.new.watch }
    ensures preserved { K.model.preserves service.old.keeper service.new.keeper }
    ensures began_clean { K.model.is_clean service.new.keeper →
        K.model.is_clean service.old.keeper }
{
    serve_clients(rt, listener, count, clients, service)
}
