//! `Connections`: who is connected, by number.
ghost use Rattle.std.specs.Prelude.{◌≡◌, ◌<◌, ◌↔◌, IfOk, IfSome, IsSome, is_none, length, position};
ghost use Rattle.gate_socket.specs.Uses.{IsInUse, IsUnused, begun, ended, first_unused, most_connections, none_in_use};

use mio::net::UnixStream;
use std::alloc::{AllocError, Global};
use std::marker::Model;

/// The most clients that are connected at once. Their numbers are below it.
pub const MOST_CONNECTIONS: usize = 16;

/// The connections by number, with room for all of them.
#[derive(Drop)]
pub(crate) struct Connections {
    places: Vec<Option<UnixStream>>,
}

impl Model for Connections {
    ghost use Rattle.std.specs.Prelude.{◌≡◌, Bool, List, length, map, is_some};
    ghost use Rattle.gate_socket.specs.Uses.{most_connections};

    ghost Value = { List Bool };

    ghost view = { λ c. map is_some c.places.items };

    ghost invariant = { λ c. length c.places.items ≡ most_connections };
}

impl Connections {
    /// Nobody is connected. All memory is taken here.
    #[tactic(auto, using(crate::proofs::UsesLemmas::none_more, crate::proofs::UsesLemmas::places_of))]
    pub(crate) fn new(alloc: Global) -> Result<Connections, AllocError>
        ensures { IfOk result (λ conns. conns ≡ none_in_use) }
    {
        let mut places = Vec::with_capacity(alloc, MOST_CONNECTIONS)?;
        for _ in 0..MOST_CONNECTIONS {
            places.push(None)?;
        }
        Ok(Connections { places })
    }

    /// The lowest number that is not in use, if there is one.
    #[tactic(auto, using(crate::proofs::UsesLemmas::first_empty_is, crate::proofs::UsesLemmas::first_is_unused))]
    pub(crate) fn first_unused(&self) -> Option<u32>
        ensures lowest { result ≡ first_unused self.now }
        ensures unused { IfSome result (IsUnused self.now) }
        ensures below { IfSome result (λ conn. conn < most_connections) }
    {
        let place = first_empty(self.places.as_slice())?;
        Some(place as u32)
    }

    /// The connection of a number that is in use.
    #[tactic(auto, using(crate::proofs::UsesLemmas::use_at, crate::proofs::UsesLemmas::use_past))]
    pub(crate) fn at(&self, conn: u32) -> Option<&UnixStream>
        ensures { IsSome result ↔ IsInUse self.now conn }
    {
        self.places.get(conn as usize)?.as_ref()
    }

    /// Puts a connection in under a number.
    #[tactic(auto, using(crate::proofs::UsesLemmas::begun_at))]
    pub(crate) fn put(&mut self, conn: u32, stream: UnixStream)
        requires { conn < most_connections }
        ensures { self.new ≡ begun self.old conn }
    {
        self.places[conn as usize] = Some(stream);
    }

    /// Ends the connection of a number, if it is in use.
    #[tactic(auto, using(crate::proofs::UsesLemmas::ended_at, crate::proofs::UsesLemmas::ended_past))]
    pub(crate) fn end(&mut self, conn: u32)
        ensures { self.new ≡ ended self.old conn }
    {
        let place = conn as usize;
        if place >= self.places.len() {
            return;
        }
        self.places[place] = None;
    }
}

/// The first place that is empty.
fn first_empty(places: &[Option<UnixStream>]) -> Option<usize>
    ensures place { result ≡ position is_none places.now }
    ensures within { IfSome result (λ place. place < length places.now) }
{
    places.iter().position(|place| place.is_none())
}
