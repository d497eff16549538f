//! The limits of clients.
ghost use Rattle.std.specs.Prelude.{◌≡◌, ◌-◌, min, max};

/// The bytes of the longest request: a head and a body. No more of a client's input is read than
/// this and one read.
pub const MOST_INPUT: usize = 16_384 + 8_388_608;

/// The bytes of the longest head. This many bytes of a client's input are read whatever the other
/// clients have sent.
pub(crate) const MOST_HEAD: usize = 16_384;

/// The bytes of a piece of a request. Each whole piece that is received renews a client's patience.
pub const PIECE: usize = 65_536;

/// The milliseconds that a client may take to send a whole request, however much of it arrives in
/// the meantime.
pub const LONGEST_REQUEST: u64 = 600_000;

/// The limits of the clients of a server.
#[derive(Drop, Clone, Copy)]
pub struct Limits {
    /// How many are served at once; if it is 0 nobody is let in.
    pub clients: usize,
    /// The milliseconds that a client may take to send the next piece of a request or the rest of
    /// it, or to take a byte of an answer.
    pub patience: u64,
    /// The milliseconds for which a client must be idle before another is let in in its place.
    pub least_idle: u64,
    /// The bytes of input that may wait for an answer, over all clients: if more wait, a
    /// client's input is read only up to the length of a head.
    pub most_waiting: usize,
}

impl Limits {
    /// This number of clients at once, half a minute, a second, and 64 MiB.
    pub fn of(clients: usize) -> Limits
        ensures { result ≡ record {
          clients = clients;
          patience = 30_000;
          least_idle = 1_000;
          most_waiting = 67_108_864;
        } }
    {
        Limits {
            clients,
            patience: 30_000,
            least_idle: 1_000,
            most_waiting: 67_108_864,
        }
    }

    /// One client after the other: each has half a minute, also if the next one waits.
    pub fn in_turn() -> Limits
        ensures { result ≡ record {
          clients = 1;
          patience = 30_000;
          least_idle = 30_000;
          most_waiting = 67_108_864;
        } }
    {
        Limits {
            clients: 1,
            patience: 30_000,
            least_idle: 30_000,
            most_waiting: 67_108_864,
        }
    }

    /// How much input one client may have while the others have `others` bytes.
    pub(crate) fn most_input(&self, others: usize) -> usize
        ensures { result ≡ min (max (self.now.most_waiting - others) MOST_HEAD) MOST_INPUT }
    {
        self.most_waiting
            .saturating_sub(others)
            .max(MOST_HEAD)
            .min(MOST_INPUT)
    }
}
