//! The program `streetmap_try`, for a first try. It serves a port of this host over a keeper in
//! memory, without a file, so that what was sent to it is gone when it ends. `make try` runs it
//! before any proof: without SQLite it is compiled in a third of the time. It is proved as the
//! other crates are.
#![tactic(auto)]

use std::alloc::AllocError;
use std::env;
use std::net::{Ipv4Addr, TcpListener};
use std::process::ExitCode;
use streetmap_connections::{Clients, Limits, ServeFault};
use streetmap_memory::PlainKeeper;
use streetmap_routes::{Base, Offers};
use streetmap_web::{Guard, KeeperService, Site, Watch, serve_clients};

/// How many clients are served at once.
const MOST_CLIENTS: usize = 16;

/// Why nothing is served, or serving ended.
#[derive(Clone, Copy, Drop)]
enum TryFault {
    /// The arguments do not name a port.
    Usage,
    /// The port is in use, or sockets could not be waited for.
    Net,
    /// Memory ran out.
    Memory,
    /// Standard output could not be written.
    WriteFailed,
}

impl From<AllocError> for TryFault {
    fn from(_: AllocError) -> TryFault {
        TryFault::Memory
    }
}

impl From<ServeFault> for TryFault {
    fn from(fault: ServeFault) -> TryFault {
        match fault {
            ServeFault::Net | ServeFault::Over => TryFault::Net,
            ServeFault::Memory => TryFault::Memory,
        }
    }
}

impl TryFault {
    /// What is printed for it.
    fn text(self) -> &'static str {
        match self {
            TryFault::Usage => "usage: streetmap_try PORT",
            TryFault::Net => "streetmap_try: the port is in use, or sockets fail",
            TryFault::Memory => "streetmap_try: memory was refused",
            TryFault::WriteFailed => "streetmap_try: standard output cannot be written",
        }
    }

    /// The program's exit status.
    fn status(self) -> u8 {
        match self {
            TryFault::Usage => 2,
            _ => 1,
        }
    }
}

/// The port that the only argument names.
fn read_port(rt: &HostRuntime) -> Result<u16, TryFault> {
    let mut words = env::args(rt).map_err(|_| TryFault::Memory)?.skip(1);
    let port = words.next().and_then(|word| word.parse::<u16>().ok());
    match (port, words.next()) {
        (Some(port), None) if port > 0 => Ok(port),
        _ => Err(TryFault::Usage),
    }
}

/// Serves clients at the port that the argument names, until the program is ended.
fn run(rt: &HostRuntime) -> Result<(), TryFault> {
    let port = read_port(rt)?;
    let root = format!(in rt.alloc(); "http://localhost:{port}/")?;
    let base = Base::new(rt.alloc(), root.as_str())?.ok_or(TryFault::Usage)?;
    let mut clients = Clients::new(rt.alloc(), Limits::of(MOST_CLIENTS))?;
    let listener = TcpListener::bind(rt, (Ipv4Addr::LOCALHOST, port)).map_err(|_| TryFault::Net)?;
    println!(rt; "listening 127.0.0.1:{port}").map_err(|_| TryFault::WriteFailed)?;
    let mut service = KeeperService {
        alloc: rt.alloc(),
        keeper: PlainKeeper::new(rt.alloc()),
        site: Site {
            base,
            tags: false,
            offers: Offers {
                changes: false,
                status: false,
            },
            guard: Guard::Free,
        },
        log: false.then(|| rt.stderr()),
        watch: Watch::new(rt.stderr(), true),
    };
    Ok(serve_clients(rt, &listener, u64::MAX, &mut clients, &mut service)?)
}

fn main(rt: HostRuntime) -> ExitCode {
    match run(&rt) {
        Ok(()) => ExitCode::SUCCESS,
        Err(fault) => {
            let text = fault.text();
            let _ = eprintln!(rt; "{text}");
            ExitCode::from(fault.status())
        }
    }
}
