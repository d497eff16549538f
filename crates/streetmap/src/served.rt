//! A file that is served: from what it held to what its clients got, and what a crash leaves of it.
ghost use Rattle.std.specs.Prelude.{◌≤◌, length, map, IfOk, IfSome, IsOk};
ghost use Rattle.sqlite_wal.specs.Files.{image_at};
ghost use Rattle.streetmap_ledger.specs.State.{State};
ghost use Rattle.streetmap_web.specs.Site.{site_value};
ghost use Rattle.streetmap_connections.specs.AllClients.{clients_of, ended_of};
ghost use Rattle.streetmap_connections.specs.SlotClients.{client_history};
ghost use Rattle.streetmap_guarantee.specs.Town.{GuaranteeOfTown};
ghost use Rattle.streetmap.specs.Images.{HoldsTables};
ghost use Rattle.streetmap.specs.Piped.{GuaranteeOfPipe};
ghost use Rattle.streetmap.specs.Served.{site_of};

use crate::openings::{ServedFile, open_indexed};
use crate::server::{Service, limits_of, pipe, serve, service_of};
use mio::net::TcpStream;
use sqlite::Start;
use streetmap_command::{Connections, JournalArguments};
use streetmap_connections::Clients;
use streetmap_faults::ProgramFault;
use streetmap_ledger::{Durable, Keeper, KeepsBatches};
use streetmap_routes::Base;
use streetmap_tags::Tagged;
use streetmap_web::{End, Guard, Site};

/// The clients of a keeper, what served them, and how that ended.
#[derive(Drop)]
pub(crate) struct Town<K> {
    clients: Clients<TcpStream>,
    service: Service<K>,
    pub(crate) ended: Result<(), ProgramFault>,
}

/// A keeper that a stream of requests was served over, and how the stream ended.
#[derive(Drop)]
pub(crate) struct Piped<K> {
    keeper: K,
    pub(crate) end: End,
}

/// Serves the connections of a port over a keeper, with a journal if one is requested.
fn serve_over<K: Durable + KeepsBatches + Tagged + Drop>(
    rt: &HostRuntime,
    keeper: K,
    connections: Connections,
    base: Base,
    guard: Guard,
    journal: Option<JournalArguments<'_>>,
) -> Result<Town<K>, ProgramFault>
    ensures guarantee { IfOk result (λ town.
        K.model.is_clean town.service.keeper.keeper → (s : State) → K.model.represents keeper s →
        GuaranteeOfTown K.holds (K.leaves town.service.keeper.keeper)
        (site_of base guard connections) s
        (map client_history (clients_of town.clients))) }
    ensures began_clean { IfOk result (λ town.
        K.model.is_clean town.service.keeper.keeper → K.model.is_clean keeper) }
    ensures counted { IfOk result (λ town. IsOk town.ended →
        IfSome connections.count (λ n. n ≤ length (ended_of town.clients))) }
    ensures few { IfOk result (λ town.
        IfSome connections.count (λ n. length (clients_of town.clients) ≤ n)) }
{
    let mut clients = Clients::new(rt.alloc(), limits_of(connections.clients))?;
    let mut service = service_of(rt, keeper, base, guard, connections);
    let ended = serve(rt, connections, journal, &mut clients, &mut service);
    Ok(Town {
        clients,
        service,
        ended,
    })
}

/// Serves the connections of a port over the tables of the files at a path.
///
/// If the files held the tables of a state, the clients got what `serve_town` guarantees from that
/// state on, and so does whatever a crash leaves of the files.
pub(crate) fn serve_file<S: Start>(
    rt: &HostRuntime,
    path: &str,
    start: S,
    connections: Connections,
    base: Base,
    guard: Guard,
    journal: Option<JournalArguments<'_>>,
) -> Result<Town<ServedFile<S>>, ProgramFault>
    ensures guarantee { IfOk result (λ town.
        ⟦<ServedFile<S> as Keeper>⟧.model.is_clean town.service.keeper.keeper → (s : State) →
        HoldsTables (image_at S.Start) s →
        GuaranteeOfTown ⟦<ServedFile<S> as Durable>⟧.holds
        (⟦<ServedFile<S> as Durable>⟧.leaves town.service.keeper.keeper)
        (site_of base guard connections) s
        (map client_history (clients_of town.clients))) }
    ensures counted { IfOk result (λ town. IsOk town.ended →
        IfSome connections.count (λ n. n ≤ length (ended_of town.clients))) }
    ensures few { IfOk result (λ town.
        IfSome connections.count (λ n. length (clients_of town.clients) ≤ n)) }
{
    let keeper = open_indexed(rt, path, start)?;
    match serve_over(rt, keeper, connections, base, guard, journal) {
        Ok(town) => Ok(town),
        Err(refused) => Err(refused),
    }
}

/// Serves the requests of standard input over a keeper, which is handed back.
fn pipe_over<K: Durable + Tagged + Drop>(
    rt: &HostRuntime,
    keeper: K,
    site: &Site,
) -> Result<Piped<K>, ProgramFault>
    ensures guarantee { IfOk result (λ it. K.model.is_clean it.keeper → (s : State) →
        K.model.represents keeper s →
        GuaranteeOfPipe K.holds (K.leaves it.keeper) (site_value site.now) s it.end) }
    ensures began_clean { IfOk result (λ it.
        K.model.is_clean it.keeper → K.model.is_clean keeper) }
{
    let mut keeper = keeper;
    let end = pipe(rt, &mut keeper, site)?;
    Ok(Piped { keeper, end })
}

/// Serves the requests of standard input over the tables of the files at a path.
pub(crate) fn pipe_file<S: Start>(
    rt: &HostRuntime,
    path: &str,
    start: S,
    site: &Site,
) -> Result<Piped<ServedFile<S>>, ProgramFault>
    ensures { IfOk result (λ it. ⟦<ServedFile<S> as Keeper>⟧.model.is_clean it.keeper →
        (s : State) → HoldsTables (image_at S.Start) s →
        GuaranteeOfPipe ⟦<ServedFile<S> as Durable>⟧.holds
        (⟦<ServedFile<S> as Durable>⟧.leaves it.keeper) (site_value site.now) s it.end) }
{
    let keeper = open_indexed(rt, path, start)?;
    match pipe_over(rt, keeper, site) {
        Ok(it) => Ok(it),
        Err(refused) => Err(refused),
    }
}
