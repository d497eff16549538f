//! The service that answers the requests.
ghost use Rattle.std.specs.Prelude.{◌≡◌, ◌≤◌, ℕ, Bool, true, List, take, length};
ghost use Rattle.streetmap_connections.specs.Cuts.{IfWhole, IfWaits, HasNone, HasNoneBefore};

/// An answer: its head and its body, both in memory.
#[derive(Drop)]
pub enum Answer {
    /// In memory of its own.
    Made(String, String),
    /// A fixed one, which allocates no memory.
    Fixed(&'static str, &'static str),
}

impl Answer {
    ghost use Rattle.streetmap_connections.specs.Answers.{head_bytes, body_bytes};

    /// The bytes of the head.
    pub fn head(&self) -> &[u8]
        ensures { result.now ≡ head_bytes self.now }
    {
        match self {
            Answer::Made(head, _) => head.as_bytes(),
            Answer::Fixed(head, _) => head.as_bytes(),
        }
    }

    /// The bytes of the body.
    pub fn body(&self) -> &[u8]
        ensures { result.now ≡ body_bytes self.now }
    {
        match self {
            Answer::Made(_, body) => body.as_bytes(),
            Answer::Fixed(_, body) => body.as_bytes(),
        }
    }
}

/// Where the first request of some bytes ends.
#[derive(Drop, Clone, Copy, PartialEq, Eq)]
pub enum Cut {
    /// This number of bytes is a request.
    Whole(usize),
    /// No prefix of the bytes is a whole request, whatever follows them, until this many are held.
    Waits(usize),
}

/// Answers requests, for many clients.
pub trait Service {
    ghost use Rattle.streetmap_connections.specs.Answers.{answer_text};

    // These bytes are a request, or are refused because they are not one.
    ghost is_request: { List ℕ → Type 0 };

    // From the first state the service answers the bytes of a request with a text, which closes the
    // connection or not, and leaves the second state.
    ghost answers: { Self → List ℕ → List ℕ → Bool → Self → Type 0 };

    // The service refuses, with a text, a request of which these bytes were received, and which is
    // not whole.
    ghost refuses: { List ℕ → List ℕ → Type 0 };

    // The service is over: it answers no more requests.
    ghost is_over: { Self → Type 0 };

    /// Finds the first request of `input`.
    fn cut(&self, input: &[u8]) -> Cut
        ensures fits { IfWhole result (λ len. len ≤ length input.now) }
        ensures request { IfWhole result (λ len. is_request (take len input.now)) }
        ensures none { IfWaits result (λ needs. HasNone is_request input.now) }
        ensures not_before { IfWaits result (λ needs. HasNoneBefore is_request input.now needs) };

    /// Answers a request, and returns whether the connection closes after the answer.
    fn answer(&mut self, request: &[u8]) -> (Answer, bool)
        requires { is_request request.now }
        ensures { answers self.old request.now (answer_text result.0) result.1 self.new };

    /// Refuses a request for which memory ran out. The connection closes after the answer,
    /// which must allocate no memory itself.
    fn refuse(&self, input: &[u8]) -> Answer
        ensures { refuses input.now (answer_text result) };

    /// Whether serving ends now: the answers that have begun are sent, and nobody else is let in.
    fn is_over(&self) -> bool
        ensures { result ≡ true → is_over self.now };
}
