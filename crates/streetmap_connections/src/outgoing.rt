//! An answer on its way to a client.
ghost use Rattle.std.specs.Prelude.{◌≡◌, ◌≢◌, ◌≤◌, [], length, drop};
ghost use Rattle.std.specs.Bool.{OnTrue, OnFalse};
ghost use Rattle.streetmap_connections.specs.Answers.{head_bytes, body_bytes, answer_text};

use crate::service::Answer;

/// An answer, and how much of its head and its body was sent.
#[derive(Drop)]
pub(crate) struct Outgoing {
    answer: Answer,
    head_sent: usize,
    body_sent: usize,
    ghost in_head: { head_sent ≤ length (head_bytes answer) },
    ghost in_body: { body_sent ≤ length (body_bytes answer) },
}

impl Outgoing {
    ghost use Rattle.streetmap_connections.specs.Outgoings.{next_of, unsent_of};

    /// All of an answer.
    pub(crate) fn new(answer: Answer) -> Outgoing
        ensures { unsent_of result ≡ answer_text answer }
    {
        Outgoing {
            answer,
            head_sent: 0,
            body_sent: 0,
        }
    }

    /// No answer.
    pub(crate) fn nothing() -> Outgoing
        ensures { unsent_of result ≡ [] }
    {
        Outgoing::new(Answer::Fixed("", ""))
    }

    /// Whether nothing is left to send.
    pub(crate) fn is_sent(&self) -> bool
        ensures sent { OnTrue result (unsent_of self.now ≡ []) }
        ensures left { OnFalse result (unsent_of self.now ≢ []) }
    {
        self.next().is_empty()
    }

    /// The rest of the head, or otherwise of the body.
    pub(crate) fn next(&self) -> &[u8]
        ensures { result.now ≡ next_of self.now }
    {
        let head = self.answer.head();
        if self.head_sent < head.len() {
            &head[self.head_sent..]
        } else {
            &self.answer.body()[self.body_sent..]
        }
    }

    /// `len` of the next bytes were sent.
    pub(crate) fn advance(&mut self, len: usize)
        requires { len ≤ length (next_of self.old) }
        ensures { unsent_of self.new ≡ drop len (unsent_of self.old) }
    {
        let head = self.answer.head().len();
        if self.head_sent < head {
            self.head_sent += len;
        } else {
            let unsent = self.answer.body().len() - self.body_sent;
            self.body_sent += len.min(unsent);
        }
    }
}
