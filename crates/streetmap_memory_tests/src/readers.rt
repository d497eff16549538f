//! Heads and bodies from readers that are interrupted, or fail.
use crate::fakes::{Interrupted, Steps};
use std::io::Read;
use streetmap_http::{BodyEnd, HEAD_LIMIT, HeadEnd, read_body, read_head};

const STREAM: &[u8] = b"\r\nPOST / HTTP/1.1\r\nHost: a\r\nContent-Length: 5\r\n\r\nabcde";

/// How the reading of a head ends, and how many bytes it has.
fn head_end<R: Read>(reader: &mut R) -> (HeadEnd, usize) {
    let mut head = [0; HEAD_LIMIT];
    read_head(reader, &mut head)
}

/// How the reading of a body of five bytes ends, and how many were read.
fn body_end<R: Read>(reader: &mut R) -> (BodyEnd, usize) {
    let mut body = [0; 5];
    read_body(reader, &mut body)
}

#[test]
fn interrupted_reads_are_made_again(rt: HostRuntime) {
    let mut reader = Interrupted {
        rest: STREAM,
        again: false,
    };
    assert!(rt; head_end(&mut reader) == (HeadEnd::Whole, 49));
    assert!(rt; body_end(&mut reader) == (BodyEnd::Whole, 5));
}

#[test]
fn a_failed_read_is_reported(rt: HostRuntime) {
    for reads in 0..54 {
        let mut reader = Steps {
            rest: STREAM,
            reads,
        };
        if reads < 49 {
            assert!(rt;
                head_end(&mut reader) == (HeadEnd::Failed, reads),
                "{reads}"
            );
        } else {
            assert!(rt; head_end(&mut reader) == (HeadEnd::Whole, 49));
            assert!(rt;
                body_end(&mut reader) == (BodyEnd::Failed, reads - 49),
                "{reads}"
            );
        }
    }
}
