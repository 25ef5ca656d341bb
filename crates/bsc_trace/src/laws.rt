//! The law of the lines of a trace, which other crates print. It is about the definitions only.

ghost use Rattle.bsc_trace.specs.ReadBack.{SentencesAreReadBack, SilencesAreReadBack};
ghost use Rattle.bsc_trace.specs.ReadBack.{TextsAreKept, TextsAreReadBack};
ghost use Rattle.bsc_trace.specs.ReadBack.{TransmissionsAreReadBack};

/// The line of a transmission, as a run or a live station prints it in a trace, is read back as the
/// transmission with its time, its course, its fate and its octets, and that of a silence as a
/// silence with its time. A line whose text begins with one of the words with which the other texts
/// begin is read back as that text, with its time and its mark.
pub fn read_back()
    ensures transmissions { TransmissionsAreReadBack }
    ensures silences { SilencesAreReadBack }
    ensures texts { TextsAreReadBack }
    ensures sentences { SentencesAreReadBack }
    ensures kept { TextsAreKept }
{}
