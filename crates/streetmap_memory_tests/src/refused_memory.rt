//! Runs in which an allocation fails: the answers are those given with ample memory, or a prefix of
//! them and the fixed 503.
//!
//! With ample memory this expects all answers; `rt try --test --fail-alloc N` makes the Nth
//! allocation fail.
use std::io;
use std::io::Write;
use std::test::Fail;
use streetmap_memory::PlainKeeper;
use streetmap_routes::{Base, Offers};
use streetmap_text_lines::Flush;
use streetmap_web::{Guard, Site, serve};

/// A batch, requests for all collections and for one, and one for a page of it.
const STREAM: &[u8] =
    b"POST /batches HTTP/1.1\r\nHost: localhost\r\nContent-Length: 57\r\n\r\n{\"key\":\"b1\",\"edits\":[{\"op\":\"open\",\"collection\":\"lamps\"}]}GET /collections HTTP/1.1\r\nHost: localhost\r\n\r\nGET /collections/lamps HTTP/1.1\r\nHost: localhost\r\n\r\nGET /collections/lamps/items HTTP/1.1\r\nHost: localhost\r\n\r\n";

/// Their answers.
const ANSWERS: [&[u8]; 4] = [
    b"HTTP/1.1 200 OK\r\nContent-Type: application/json\r\nContent-Length: 72\r\n\r\n{\"deleted\":0,\"inserted\":0,\"key\":\"b1\",\"opened\":1,\"replaced\":0,\"serial\":1}",
    b"HTTP/1.1 200 OK\r\nContent-Type: application/json\r\nContent-Length: 377\r\n\r\n{\"collections\":[{\"crs\":[\"tag:streetmap.invalid,2024:crs/grid-mm\"],\"id\":\"lamps\",\"links\":[{\"href\":\"http://localhost/collections/lamps\",\"rel\":\"self\",\"type\":\"application/json\"},{\"href\":\"http://localhost/collections/lamps/items\",\"rel\":\"items\",\"type\":\"application/geo+json\"}],\"title\":\"lamps\"}],\"links\":[{\"href\":\"http://localhost/collections\",\"rel\":\"self\",\"type\":\"application/json\"}]}",
    b"HTTP/1.1 200 OK\r\nContent-Type: application/json\r\nContent-Length: 270\r\n\r\n{\"crs\":[\"tag:streetmap.invalid,2024:crs/grid-mm\"],\"id\":\"lamps\",\"links\":[{\"href\":\"http://localhost/collections/lamps\",\"rel\":\"self\",\"type\":\"application/json\"},{\"href\":\"http://localhost/collections/lamps/items\",\"rel\":\"items\",\"type\":\"application/geo+json\"}],\"title\":\"lamps\"}",
    b"HTTP/1.1 200 OK\r\nContent-Type: application/geo+json\r\nContent-Length: 193\r\n\r\n{\"features\":[],\"links\":[{\"href\":\"http://localhost/collections/lamps/items?limit=10\",\"rel\":\"self\",\"type\":\"application/geo+json\"}],\"numberMatched\":0,\"numberReturned\":0,\"type\":\"FeatureCollection\"}",
];

/// The answer if memory runs out.
const STARVED: &[u8] =
    b"HTTP/1.1 503 Service Unavailable\r\nContent-Type: application/json\r\nContent-Length: 81\r\nConnection: close\r\n\r\n{\"code\":\"memory\",\"description\":\"Memory was refused; the call may be made again.\"}";

/// A writer that allocates no memory.
#[derive(Drop)]
struct Fixed {
    bytes: [u8; 2048],
    len: usize,
}

impl Write for Fixed {
    fn write(&mut self, buf: &[u8]) -> io::Result<usize> {
        match buf.first() {
            Some(byte) => {
                if self.len >= 2048 {
                    return Ok(0);
                }
                self.bytes[self.len] = *byte;
                self.len += 1;
                Ok(1)
            }
            None => Ok(0),
        }
    }

    fn flush(&mut self) -> io::Result<()> {
        Ok(())
    }
}

/// It keeps nothing back.
impl Flush for Fixed {
    ghost is_flushed = { λ _. Unit {0} };

    fn hand_on(&mut self) -> io::Result<()> {
        self.flush()
    }
}

/// How many answers a text is: all of them, or a prefix and then that memory ran out; none if it is
/// neither.
fn answered(text: &[u8]) -> Option<u64> {
    let mut rest = text;
    let mut count = 0u64;
    for answer in ANSWERS {
        count = count.saturating_add(1);
        if rest == STARVED {
            return Some(count);
        }
        rest = rest.strip_prefix(answer)?;
    }
    rest.is_empty().then_some(count)
}

#[test]
fn refused_memory_is_answered_or_not_seen(rt: HostRuntime) -> Result<(), Fail> {
    let Ok(Some(base)) = Base::new(rt.alloc(), "http://localhost/") else {
        return Ok(());
    };
    let site = Site {
        base,
        tags: false,
        offers: Offers {
            changes: false,
            status: false,
        },
        guard: Guard::Free,
    };
    let mut keeper = PlainKeeper::new(rt.alloc());
    let mut reader = STREAM;
    let mut writer = Fixed {
        bytes: [0; 2048],
        len: 0,
    };
    let served = serve(rt.alloc(), &mut keeper, &site, &mut reader, &mut writer);
    assert!(rt; writer.len <= 2048);
    let text = &writer.bytes[..writer.len];
    assert_eq!(rt; answered(text), Some(served.answers));
    Ok(())
}
