//! What holds of every session of a program, stated over the definitions that the contracts cite.

ghost use Rattle.bsc_feed.specs.Answering.{serving_of};
ghost use Rattle.bsc_serving.specs.Sessions.{AreStepsOfClients};

use bsc_feed::Served;
use std::io::{Read, Write};

/// Each step of the session of a program is one of the client that it serves. So what `sessions` of
/// `bsc_feed` says of clients holds of programs: the lines of a program are obeyed each once and in
/// order, a half line is not, nothing but a line changes the station, and of a channel that it
/// follows it is told each record once, in order.
pub fn steps<S: Served, T: Read + Write>()
    ensures { AreStepsOfClients S.Party (serving_of S.Served.own) T.Read T.Write }
{}
