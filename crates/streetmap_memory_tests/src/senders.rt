//! Answers sent to writers that stop, and to a writer whose flush fails.
use crate::fakes::Sink;
use std::io::BufWriter;
use std::test::Fail;
use streetmap_http::{Sent, send};
use streetmap_memory::PlainKeeper;
use streetmap_routes::{Base, Offers};
use streetmap_web::{End, Guard, Site, serve};

/// The result of sending an answer to a writer with this much room, and whether it took the prefix
/// that fits.
fn sent(room: usize, fails: bool) -> (Sent, bool) {
    let mut sink = Sink {
        taken: [0; 8],
        len: 0,
        room,
        fails,
        again: false,
    };
    let reported = send(&mut sink, b"head:", b"abc");
    (
        reported,
        b"head:abc".starts_with(sink.taken()) && sink.len == room,
    )
}

#[test]
fn answers_are_sent_until_a_writer_stops(rt: HostRuntime) {
    for fails in [false, true] {
        for room in 0..9 {
            let wanted = if room < 8 {
                Sent::Part(room > 0)
            } else {
                Sent::Whole
            };
            assert!(rt; sent(room.min(8), fails) == (wanted, true), "{room}");
        }
    }
}

/// Two requests of a stream.
const STREAM: &[u8] =
    b"GET /conformance HTTP/1.1\r\nHost: a\r\n\r\nGET / HTTP/1.1\r\nHost: a\r\n\r\n";

#[test]
fn a_failed_flush_ends_a_stream(rt: HostRuntime) -> Result<(), Fail> {
    let Ok(Some(base)) = Base::new(rt.alloc(), "http://localhost/") else {
        return Ok(());
    };
    let site = Site {
        base,
        tags: false,
        offers: Offers {
            changes: false,
            status: false,
        },
        guard: Guard::Free,
    };
    let sink = Sink {
        taken: [0; 8],
        len: 0,
        room: 8,
        fails: true,
        again: false,
    };
    let Ok(mut writer) = BufWriter::new(rt.alloc(), sink) else {
        return Ok(());
    };
    let mut keeper = PlainKeeper::new(rt.alloc());
    let mut reader = STREAM;
    let served = serve(rt.alloc(), &mut keeper, &site, &mut reader, &mut writer);
    assert_eq!(rt; served.answers, 1);
    assert!(rt; served.end == End::FlushFailed);
    Ok(())
}
