//! The body of the reply to a batch.
ghost use Rattle.std.specs.Prelude.{◌≡◌, ◌≤◌, ◌+◌, ◌++◌, length, decimal, string_bytes, string_len};
ghost use Rattle.std.specs.Prelude.{string_capacity};
ghost use Rattle.serde_json.specs.Written.{compact_text};
ghost use Rattle.streetmap_batch.specs.BatchView.{batch_value};
ghost use Rattle.streetmap_bodies.specs.Replies.{reply_data, reply_body};
ghost use Rattle.streetmap_bodies.specs.Plain.{IsEscapeFree};

use crate::request_fault::{RequestFault, push_fault};
use streetmap_batch::Batch;
use streetmap_http::{push, push_number};
use streetmap_ledger::{Counts, Reply};

/// Appends a name with the characters around it, and a number.
fn push_count(out: &mut String, name: &str, number: u64)
    requires name { length name.now ≤ 16 }
    requires room { string_len out.old + 36 ≤ string_capacity out.old }
    ensures bytes { string_bytes out.new ≡ string_bytes out.old ++ (name.now ++ decimal number) }
    ensures len { string_len out.new ≤ string_len out.old + 36 }
    ensures capacity { string_capacity out.old ≤ string_capacity out.new }
{
    push(out, name);
    push_number(out, number);
}

/// Appends the body of the reply to an accepted or repeated batch: how many edits of each kind it
/// has, its key and its serial. `out` must have room for 320 bytes; no memory is allocated.
pub fn push_reply(out: &mut String, key: &str, counts: Counts, serial: u64)
    requires room { string_len out.old + 320 ≤ string_capacity out.old }
    requires key { IsEscapeFree key.now }
    requires short { length key.now ≤ 64 }
    ensures bytes { string_bytes out.new
        ≡ string_bytes out.old ++ compact_text (reply_data key.now counts serial) }
    ensures len { string_len out.new ≤ string_len out.old + 320 }
    ensures capacity { string_capacity out.old ≤ string_capacity out.new }
{
    push_count(out, "{\"deleted\":", counts.deleted);
    push_count(out, ",\"inserted\":", counts.inserted);
    push(out, ",\"key\":\"");
    push(out, key);
    push_count(out, "\",\"opened\":", counts.opened);
    push_count(out, ",\"replaced\":", counts.replaced);
    push_count(out, ",\"serial\":", serial);
    push(out, "}");
}

/// Appends the body of the reply to a batch: the reply if it was accepted or repeated, the error if
/// it was refused. `out` must have room for 320 bytes, so that no memory is allocated.
#[tactic(auto, unfolding(crate::specs::Replies::reply_body))]
pub fn push_reply_body(out: &mut String, batch: &Batch, reply: Reply)
    requires { string_len out.old + 320 ≤ string_capacity out.old }
    ensures bytes { string_bytes out.new
        ≡ string_bytes out.old ++ compact_text (reply_body (batch_value batch.now).key reply) }
    ensures capacity { string_capacity out.old ≤ string_capacity out.new }
{
    match reply {
        Reply::Accepted(counts, serial) | Reply::Repeated(counts, serial) => {
            push_reply(out, batch.key(), counts, serial);
        }
        Reply::Refused(refusal, place) => push_fault(out, &RequestFault::Refused(refusal, place)),
    }
}
