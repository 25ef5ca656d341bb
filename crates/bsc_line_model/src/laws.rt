//! The laws of a line. They are about its definitions only.

ghost use Rattle.std.specs.Prelude.{IsTrue};
ghost use Rattle.bsc_line_model.specs.Kept.{IsLine};
ghost use Rattle.bsc_line_model.specs.Line.{LineValue};
ghost use Rattle.bsc_line_model.specs.Stays.{NewLineStays, DownStays, UpStays, SilenceStays};
ghost use Rattle.bsc_line_model.specs.Stays.{OfferAtStays, ReadyStays, UrgentAtStays};
ghost use Rattle.bsc_line_model.specs.Stays.{ReleaseFromStays, OfferForStays, UrgentForStays};
ghost use Rattle.bsc_line_model.specs.Stays.{PolledStays};
ghost use Rattle.bsc_line_model.specs.Stays.{ReleaseToStays, RestartStays};
ghost use Rattle.bsc_line_model.specs.EveryRun.{RunsKeepLine};
ghost use Rattle.bsc_line_model.specs.StepLaws.{EachStepsChannels, EachEventSteps, GrowsByOffers};
ghost use Rattle.bsc_line_model.specs.StepLaws.{RefusedChangesNothing, TrustOnlyFalls};
ghost use Rattle.bsc_line_model.specs.StepLaws.{HoldsWhilePolled, NeverMismatches};
ghost use Rattle.bsc_line_model.specs.StepLaws.{NewChannelsAreEmpty, OneAnswers, AlikeIsFair};
ghost use Rattle.bsc_line_model.specs.StepLaws.{FairIsAlike};
ghost use Rattle.bsc_line_model.specs.Holding.{RunsHoldOnlyWhilePolled};
ghost use Rattle.bsc_line_model.specs.Examples.{FirstLands, NoDoubleLands, NoGapLands};
ghost use Rattle.bsc_line_model.specs.Examples.{NoOtherLands, NoTwoMove, NoDoubleArrives};
ghost use Rattle.bsc_line_model.specs.Examples.{NoGapArrives, NoOtherArrives, NoneIsKnownEarly};
ghost use Rattle.bsc_line_model.specs.Examples.{NoneReachesOther, VisitBegins};
ghost use Rattle.bsc_line_model.specs.RestartExamples.{RestartDoubts, DoubtIsRight};
ghost use Rattle.bsc_line_model.specs.RestartExamples.{NoDoubtIsForgotten, NoBlockIsSentAgain};
ghost use Rattle.bsc_line_model.specs.RestartExamples.{NoTextIsHeardLate, NeedsNoRestart};
ghost use Rattle.bsc_line_model.specs.Headline.{RunsKeepRecords};
ghost use Rattle.bsc_line_model.specs.Octets.{AllFairInOctets, FairInOctets};
ghost use Rattle.bsc_line_model.specs.Rounds.{RunsDeliverVisit, RunsDeliverRound, SeesLast};
ghost use Rattle.bsc_line_model.specs.Rounds.{SeesEarlier, WholeListIsVisited};
ghost use Rattle.bsc_line_model.specs.Rounds.{WholeListPassesNone};
ghost use Rattle.bsc_line_model.specs.Together.{AreSound};
ghost use Rattle.bsc_line_model.specs.TurnedBits.{TurnedIsFair, TurnedAlikeIsFair};
ghost use Rattle.bsc_line_model.specs.TurnedBits.{TurnedEachIsFair, TurnedForSomeIsFair};
ghost use Rattle.bsc_line_model.specs.TurnedBits.{SplitCallIsUnfair};

use crate::bids::bid_laws;
use bsc_block::laws::cut_into_blocks;
use bsc_frame::laws::{one_bit, one_reading, reading};
use bsc_tributary::laws::own_addresses;

/// Every event leaves a line that keeps its invariant, also one by which a station begins again.
pub fn each_event()
    ensures new_line { NewLineStays }
    ensures down { DownStays }
    ensures up { UpStays }
    ensures silence { SilenceStays }
    ensures offer_at { OfferAtStays }
    ensures ready { ReadyStays }
    ensures urgent_at { UrgentAtStays }
    ensures release_from { ReleaseFromStays }
    ensures offer_for { OfferForStays }
    ensures urgent_for { UrgentForStays }
    ensures polled { PolledStays }
    ensures release_to { ReleaseToStays }
    ensures restart { RestartStays }
{
    own_addresses();
    bid_laws();
}

/// Each channel of a trusted line is sound: the records that were spooled at one end are the first
/// of those that were offered at the other, in order and each once, and they include all that the
/// sending end knows to have arrived.
pub fn sound_channels()
    ensures { (l : LineValue) → IsLine l → IsTrue l.trusted → AreSound l }
{
    bid_laws();
}

/// What each accepted event does to the channels of a line that is trusted after it.
pub fn channel_steps()
    ensures { EachStepsChannels }
{
    bid_laws();
}

/// The records that are offered on a channel grow by the accepted offers of it, trusted or not, and
/// by nothing else; a refused event changes nothing; and trust that is lost never comes back.
pub fn offers_and_refusals()
    ensures offers { GrowsByOffers }
    ensures refusals { RefusedChangesNothing }
    ensures trust { TrustOnlyFalls }
{}

/// What each event does to the channels, as one statement: what is offered, which channels move if
/// the line is trusted after it, and that nothing changes if it is refused.
pub fn event_steps()
    ensures { EachEventSteps }
{
    bid_laws();
}

/// Every run of events leaves a line with the channels of before, on which the records of the
/// accepted offers were offered, trusted or not.
pub fn every_run()
    ensures { RunsKeepLine }
{}

/// On a trusted line, a terminal holds the line only while the control station polls it, or while
/// the control station has made no call since it restarted. If it has not restarted since the line
/// was new, a terminal holds the line only while it is polled, also if terminals restarted; after a
/// restart of the control station a terminal may hold it without being polled, as an example shows.
/// No release is refused with `CountMismatch`.
pub fn line_holder()
    ensures holder { HoldsWhilePolled }
    ensures since_new { RunsHoldOnlyWhilePolled }
    ensures needs_no_restart { NeedsNoRestart }
    ensures count { NeverMismatches }
{
    bid_laws();
}

/// At most one terminal answers a transmission of the control station that leaves the line trusted.
pub fn one_answer()
    ensures { OneAnswers }
{
    own_addresses();
}

/// If all terminals hear the control station alike, trust requires of its transmission what it
/// requires of one that the control station hears: that it is heard fairly.
pub fn heard_alike()
    ensures fair { AlikeIsFair }
    ensures only { FairIsAlike }
{}

/// Octets are heard fairly exactly if they spell the message that was sent, or EOT of a call, or
/// spell no message; a failed text is fair only if a text was sent. All terminals hear fairly
/// exactly if each hears such octets, and a call is spelled by the octets at all of them or at
/// none.
pub fn fair_in_octets()
    ensures one { FairInOctets }
    ensures all { AllFairInOctets }
{
    reading();
}

/// A transmission with one inverted bit is heard fairly by the control station, by terminals that
/// all hear the same, and by terminals each of which hears another bit inverted, or nothing. If the
/// message is not a call, other terminals may also hear it whole. A call that one terminal hears
/// whole, and another one with an inverted bit or not at all, is not heard fairly (GA27-3004: VRC
/// checking).
pub fn turned_bits()
    ensures heard { TurnedIsFair }
    ensures alike { TurnedAlikeIsFair }
    ensures each { TurnedEachIsFair }
    ensures some { TurnedForSomeIsFair }
    ensures split { SplitCallIsUnfair }
{
    reading();
    one_reading();
    one_bit();
}

/// On a new line, no record is offered, known or spooled.
pub fn new_channels()
    ensures { NewChannelsAreEmpty }
{}

/// The main promise of a line. If the line is still trusted, whatever its events were and whichever
/// stations began again, the records that arrived on each channel are the first of those that were
/// offered on it, in order and each once; the sending end counts none as delivered that did not
/// arrive; and no record reaches a terminal that is not addressed.
pub fn headline()
    ensures { RunsKeepRecords }
{
    bid_laws();
}

/// Delivery within a visit: if all transmissions are heard and no spool is refused room, exactly as
/// many transmissions as the length of the visit deliver all records that wait on the channels of
/// its terminal, and then the visit of the next entry begins whose terminal is polled.
pub fn visit()
    ensures { RunsDeliverVisit }
{
    cut_into_blocks();
    own_addresses();
}

/// Delivery within a round: if all transmissions are heard and no spool is refused room, exactly as
/// many transmissions as the length of the round deliver all records that wait on the channels of
/// every terminal in the poll list that is polled, and then the next round begins.
pub fn round()
    ensures { RunsDeliverRound }
{
    cut_into_blocks();
    own_addresses();
}

/// If every terminal in the poll list is polled, a round visits each entry of it, and no entry is
/// passed over.
pub fn whole_list()
    ensures visited { WholeListIsVisited }
    ensures passes { WholeListPassesNone }
{}

/// Which terminals were visited, entry by entry of the poll list.
pub fn seen_terminals()
    ensures last { SeesLast }
    ensures earlier { SeesEarlier }
{}

/// What the definitions of moves and of the main promise exclude, shown on values: that a record
/// lands twice, that one lands without the one before it, that one lands in another spool or in
/// two, that one is counted as delivered and did not arrive, and that one reaches a terminal while
/// another channel is addressed. Beside them, the first record does land.
pub fn wrong_arrivals()
    ensures lands { FirstLands }
    ensures double_lands { NoDoubleLands }
    ensures gap_lands { NoGapLands }
    ensures other_lands { NoOtherLands }
    ensures two_move { NoTwoMove }
    ensures double_arrives { NoDoubleArrives }
    ensures gap_arrives { NoGapArrives }
    ensures other_arrives { NoOtherArrives }
    ensures known_early { NoneIsKnownEarly }
    ensures reaches_other { NoneReachesOther }
{}

/// What a station must not do as it begins again, shown on values. A terminal begins again while
/// its text is pending: it is in doubt, and the text is lost. One that forgot its doubt would count
/// records wrongly, and one that sent its unanswered block again would double them. So would one
/// whose text stayed pending, once its doubt is released with the count of before.
pub fn wrong_restarts()
    ensures doubts { RestartDoubts }
    ensures right { DoubtIsRight }
    ensures forgets { NoDoubtIsForgotten }
    ensures sends_again { NoBlockIsSentAgain }
    ensures heard_late { NoTextIsHeardLate }
{}

/// There is a line on which a visit of the first entry begins, and so a round.
pub fn visit_begins()
    ensures { VisitBegins }
{}
