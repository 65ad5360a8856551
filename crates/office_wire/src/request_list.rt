//! Requests in memory, each as all bytes of a connection, and what goes out to each.
ghost use Rattle.std.specs.Prelude.{◌≤◌, length, vec_capacity, vec_len};

use crate::connection_source::ConnectionSource;
use office_base::{Io, Memory};
use std::alloc::Global;

/// What went out on a connection.
#[derive(Drop)]
pub struct SentAnswer {
    /// The answer; its first bytes alone, or none, where the connection failed.
    pub bytes: Vec<u8>,
    /// The status of the answer, or 0 where the connection had no byte.
    pub status: Result<u16, Io>,
}

/// Requests in memory: a source of connections that reports their bytes. Each is all bytes of a
/// connection, and what goes out on it is kept.
#[derive(Drop)]
pub struct RequestList<'a> {
    alloc: Global,
    requests: &'a [&'a [u8]],
    next: usize,
    answers: Vec<SentAnswer>,
    ghost within: { next ≤ length requests.now },
    ghost closed: { vec_len answers ≤ next },
    ghost room: { length requests.now ≤ vec_capacity answers },
}

impl<'a> RequestList<'a> {
    ghost use Rattle.std.specs.Prelude.{◌≡◌, [], IfOk, map};
    ghost use Rattle.office_wire.specs.RequestLists.{sent_of, traffic_of};

    /// These requests, none of which was served, with room for what goes out to each; `Memory` if
    /// there is none for it.
    pub fn new(alloc: Global, requests: &'a [&'a [u8]]) -> Result<RequestList<'a>, Memory>
        ensures { IfOk result (λ list. traffic_of list
            ≡ record { coming = map (λ bytes. bytes.now) requests.now; sent = [] }) }
    {
        let answers = Vec::with_capacity(alloc, requests.len())?;
        Ok(RequestList {
            alloc,
            requests,
            next: 0,
            answers,
        })
    }

    /// What went out to each request that was served, in their order.
    pub fn into_answers(self) -> Vec<SentAnswer>
        ensures { sent_of result.items ≡ (traffic_of self.entry).sent }
    {
        self.answers
    }
}

impl<'a> ConnectionSource for RequestList<'a> {
    ghost use Rattle.std.specs.Prelude.{◌<◌, Some, vec_len};
    ghost use Rattle.office_wire.specs.RequestLists.{traffic_of};

    type Reader = &'a [u8];

    type Writer = Vec<u8>;

    ghost traffic = { λ it. Some (traffic_of it) };

    ghost is_open = { λ it. vec_len it.answers < it.next };

    /// The next request; `Io` if none is left.
    fn accept(&mut self) -> Result<(&'a [u8], Vec<u8>), Io> {
        let Some(request) = self.requests.get(self.next) else {
            return Err(Io);
        };
        self.next += 1;
        Ok((*request, Vec::new(self.alloc)))
    }

    /// What went out is kept.
    fn close(
        &mut self,
        _reader: &'a [u8],
        writer: Vec<u8>,
        served: Result<u16, Io>,
    ) -> Result<u16, Io> {
        let kept = SentAnswer {
            bytes: writer,
            status: served,
        };
        match self.answers.push(kept) {
            Ok(()) => served,
            Err(_) => Err(Io),
        }
    }
}
