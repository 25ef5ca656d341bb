//! The connections of a station.

ghost use Rattle.std.specs.Prelude.{◌≡◌, ◌++◌, ◌-◌, IfOk, None, Some, length, map, replicate};
ghost use Rattle.bsc_attending.specs.Framings.{ends_with_vacant};

use bsc_connections::{Connection, Framing};
use std::alloc::{AllocError, Global};
use std::io::{Read, Write};

/// Returns the connections over these pairs of a reader and a writer, and vacant ones after them up
/// to this many places. Fails if an allocation does.
pub(crate) fn connections_at<R: Read + Drop, W: Write + Drop, F: Framing + Drop>(
    alloc: Global,
    directions: Vec<(R, W)>,
    places: usize,
) -> Result<Vec<Connection<R, W, F>>, AllocError>
    ensures all { IfOk result (λ all.
        map (λ c. c.ends) all.items ≡ ends_with_vacant directions.items places) }
{
    with_vacant(connections_of(alloc, directions)?, places)
}

/// Returns these connections, and vacant ones after them up to this many places.
fn with_vacant<R: Read + Drop, W: Write + Drop, F: Framing + Drop>(
    connections: Vec<Connection<R, W, F>>,
    places: usize,
) -> Result<Vec<Connection<R, W, F>>, AllocError>
    ensures all { IfOk result (λ all. map (λ c. c.ends) all.items
        ≡ map (λ c. c.ends) connections.items
        ++ replicate (places - length connections.items) None) }
{
    let vacant = places.saturating_sub(connections.len());
    let mut connections = connections;
    for _ in 0..vacant {
        connections.push(Connection::vacant())?;
    }
    Ok(connections)
}

/// Returns the connections over these pairs of a reader and a writer, with one framing.
fn connections_of<R: Read + Drop, W: Write + Drop, F: Framing + Drop>(
    alloc: Global,
    directions: Vec<(R, W)>,
) -> Result<Vec<Connection<R, W, F>>, AllocError>
    ensures all { IfOk result (λ connections.
        map (λ c. c.ends) connections.items ≡ map (λ d. Some d) directions.items) }
{
    let mut connections = Vec::new(alloc);
    'directions: for direction in directions {
        let (reader, writer) = direction;
        connections.push(Connection::new(reader, writer))?;
    }
    Ok(connections)
}
