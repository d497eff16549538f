//! What serves requests over a keeper: a stream, or the clients of a port.
ghost use Rattle.std.specs.Prelude.{◌≡◌, ◌≤◌, [], length, map, None, Some, IfSome, IfOk, IsOk};
ghost use Rattle.std.specs.Prelude.{IsErr};
ghost use Rattle.streetmap_ledger.specs.State.{State};
ghost use Rattle.streetmap_web.specs.Site.{site_value};
ghost use Rattle.streetmap_connections.specs.AllClients.{clients_of, ended_of};
ghost use Rattle.streetmap_connections.specs.SlotClients.{client_history};
ghost use Rattle.streetmap_journal.specs.Reports.{IsForIf};
ghost use Rattle.streetmap_guarantee.specs.Town.{GuaranteeOfTown};
ghost use Rattle.streetmap.specs.Kept.{IsKept};
ghost use Rattle.streetmap.specs.Piped.{GuaranteeOfPipe};

use crate::fault;
use crate::journal::{JournalFile, begin};
use mio::net::TcpStream;
use std::io::{BufReader, Stderr, writer};
use std::net::{Ipv4Addr, TcpListener};
use streetmap_command::{Connections, JournalArguments};
use streetmap_connections::{Clients, Limits};
use streetmap_faults::ProgramFault;
use streetmap_guarantee::{pipe as serve_stream, serve_town, warm};
use streetmap_journal::{Journal, JournalWriter, JournaledKeeper};
use streetmap_ledger::{Durable, Keeper, KeepsBatches};
use streetmap_routes::{Base, Offers};
use streetmap_tags::Tagged;
use streetmap_web::{End, Guard, KeeperService, Site, Watch};

/// Serves the requests of standard input on standard output; returns how that ended.
pub(crate) fn pipe<K: Durable + Tagged>(
    rt: &HostRuntime,
    keeper: &mut K,
    site: &Site,
) -> Result<End, ProgramFault>
    ensures guarantee { IfOk result (λ end. K.model.is_clean keeper.new → (s : State) →
        K.model.represents keeper.old s →
        GuaranteeOfPipe K.holds (K.leaves keeper.new) (site_value site.now) s end) }
    ensures unchanged { IsErr result → keeper.new ≡ keeper.old }
    ensures began_clean { K.model.is_clean keeper.new → K.model.is_clean keeper.old }
{
    let Ok(mut reader) = BufReader::new(rt.alloc(), rt.reader()) else {
        return Err(ProgramFault::Memory);
    };
    let mut output = writer(rt);
    Ok(serve_stream(rt.alloc(), keeper, site, &mut reader, &mut output).end)
}

/// A keeper with a journal in a file, if one is requested, served to clients.
pub(crate) type Service<K> = KeeperService<JournaledKeeper<K, JournalFile>, Stderr>;

/// A service over a keeper, which has no journal yet.
pub(crate) fn service_of<K: KeepsBatches + Tagged>(
    rt: &HostRuntime,
    keeper: K,
    base: Base,
    guard: Guard,
    connections: Connections,
) -> Service<K>
    ensures keeper { result.keeper.keeper ≡ keeper }
    ensures no_journal { result.keeper.journal ≡ None }
    ensures site { result.site ≡ record {
      base = base;
      tags = connections.conditional;
      offers = record { changes = connections.changes; status = connections.status };
      guard = guard;
    } }
{
    KeeperService {
        alloc: rt.alloc(),
        keeper: JournaledKeeper {
            alloc: rt.alloc(),
            keeper,
            journal: None,
        },
        site: Site {
            base,
            tags: connections.conditional,
            offers: Offers {
                changes: connections.changes,
                status: connections.status,
            },
            guard,
        },
        log: connections.log.then(|| rt.stderr()),
        watch: Watch::new(rt.stderr(), connections.count.is_none()),
    }
}

/// Listens at a port of this host, and reports it.
fn listen(rt: &HostRuntime, port: u16) -> Result<TcpListener, ProgramFault> {
    let listener = TcpListener::bind(rt, (Ipv4Addr::LOCALHOST, port)).map_err(
        |error| fault::of_port(port, &error),
    )?;
    println!(rt; "listening 127.0.0.1:{port}").map_err(|_| ProgramFault::WriteFailed)?;
    Ok(listener)
}

/// Reports which lines a journal has.
fn report_journal(
    rt: &HostRuntime,
    requested: JournalArguments<'_>,
    journal: &Journal<JournalFile>,
) -> Result<(), ProgramFault> {
    let (path, first) = (requested.path, journal.after.saturating_add(1));
    let last = journal.next.saturating_sub(1);
    println!(rt; "journal {path} from {first} to {last}").map_err(|_| ProgramFault::WriteFailed)
}

/// Has a keeper learn its index, if that is requested.
fn warm_if<K: Keeper>(requested: bool, keeper: &mut K) -> Result<(), ProgramFault>
    ensures { IsKept K.model keeper.old keeper.new (IsOk result) }
{
    if !requested {
        return Ok(());
    }
    match warm(keeper) {
        Ok(()) => Ok(()),
        Err(stopped) => Err(fault::of_keeper(stopped)),
    }
}

/// Begins the requested journal, and listens at a port.
fn listen_with_journal<K: KeepsBatches>(
    rt: &HostRuntime,
    keeper: &mut K,
    port: u16,
    requested: Option<JournalArguments<'_>>,
) -> Result<(TcpListener, Option<Journal<JournalFile>>), ProgramFault>
    ensures kept { IsKept K.model keeper.old keeper.new (IsOk result) }
    ensures journal { IfOk result (λ it. K.model.is_clean keeper.new → (s : State) →
        K.model.represents keeper.old s →
        IsForIf ⟦<JournalFile as JournalWriter>⟧.contents ⟦<JournalFile as JournalWriter>⟧.reported
        ⟦<JournalFile as JournalWriter>⟧.is_kept it.1 s) }
{
    let Some(requested) = requested else {
        return Ok((listen(rt, port)?, None));
    };
    let journal = begin(rt, keeper, requested)?;
    let listener = listen(rt, port)?;
    report_journal(rt, requested, &journal)?;
    Ok((listener, Some(journal)))
}

/// Prepares what connections are served with: the keeper's index, its journal, and the listener
/// that accepts them.
fn prepare<K: KeepsBatches>(
    rt: &HostRuntime,
    keeper: &mut JournaledKeeper<K, JournalFile>,
    connections: Connections,
    requested: Option<JournalArguments<'_>>,
) -> Result<TcpListener, ProgramFault>
    ensures kept { IsKept K.model keeper.old.keeper keeper.new.keeper (IsOk result) }
    ensures represents { IsOk result → K.model.is_clean keeper.new.keeper → (s : State) →
        K.model.represents keeper.old.keeper s →
        ⟦<JournaledKeeper<K, JournalFile> as Keeper>⟧.model.represents keeper.new s }
{
    warm_if(connections.warm, &mut keeper.keeper)?;
    let begun = listen_with_journal(rt, &mut keeper.keeper, connections.port, requested)?;
    keeper.journal = begun.1;
    Ok(begun.0)
}

/// How many clients are served: all that come, if no number is requested.
fn count_of(connections: Connections) -> u64
    ensures { IfSome connections.count (λ n. result ≡ n) }
{
    match connections.count {
        Some(count) => u64::from(count),
        None => u64::MAX,
    }
}

/// Serves connections: many clients at once, or one client after the other.
pub(crate) fn serve<K: Durable + KeepsBatches + Tagged>(
    rt: &HostRuntime,
    connections: Connections,
    journal: Option<JournalArguments<'_>>,
    clients: &mut Clients<TcpStream>,
    service: &mut Service<K>,
) -> Result<(), ProgramFault>
    requires { clients_of clients.old ≡ [] }
    ensures guarantee { K.model.is_clean service.new.keeper.keeper → (s : State) →
        K.model.represents service.old.keeper.keeper s →
        GuaranteeOfTown K.holds (K.leaves service.new.keeper.keeper)
        (site_value service.old.site) s
        (map client_history (clients_of clients.new)) }
    ensures counted { IsOk result →
        IfSome connections.count (λ n. n ≤ length (ended_of clients.new)) }
    ensures few { IfSome connections.count (λ n. length (clients_of clients.new) ≤ n) }
    ensures preserved { K.model.preserves service.old.keeper.keeper service.new.keeper.keeper }
    ensures began_clean { K.model.is_clean service.new.keeper.keeper →
        K.model.is_clean service.old.keeper.keeper }
{
    let listener = prepare(rt, &mut service.keeper, connections, journal)?;
    match serve_town(rt, &listener, count_of(connections), clients, service) {
        Ok(()) => Ok(()),
        Err(stopped) => Err(ProgramFault::from(stopped)),
    }
}

/// The limits of that number of clients: a single one is served to its end before the next one.
pub(crate) fn limits_of(clients: u32) -> Limits {
    match clients {
        1 => Limits::in_turn(),
        clients => Limits::of(clients as usize),
    }
}
