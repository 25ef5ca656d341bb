//! What holds of whatever happens to a control station, stated over the definitions that the
//! contracts cite.

ghost use Rattle.std.specs.Prelude.{◌≡◌, ◌↔◌, ℕ, ◌≤◌, Bool, List, Some, None};
ghost use Rattle.bsc_trust.specs.declared.distrust.Distrust.{Distrust as DistrustValue};
ghost use Rattle.bsc_trust.specs.declared.terminal_peers.TerminalPeers as peers_of;
ghost use Rattle.bsc_trust.specs.declared.trust.Trust.{Trust as TrustValue};
ghost use Rattle.bsc_trust.specs.Trust.{new_trust};
ghost use Rattle.bsc_trust.specs.Histories.{Event, after_all, answers_among, sendings_among};
ghost use Rattle.bsc_trust.specs.Histories.{TwoAnswers, AnswersAfterwards, AreFine};

/// After each sending at most one answer is heard until the next sending, and from the beginning at
/// most as many answers as there were sendings. What was withheld since it would have been late
/// counts as sent here, since it is lost to the terminals.
pub fn one_answer()
    ensures after_sending { (t : TrustValue) (events : List Event)
        → sendings_among events ≡ 0 → answers_among t events ≤ 1 }
    ensures in_all { (shared : Bool) (time_out : ℕ) (peers : peers_of.TerminalPeers)
        (events : List Event)
        → answers_among (new_trust shared time_out peers) events ≤ sendings_among events }
{}

/// Two open connections never answer for the same terminal, and an open connection never answers
/// for two terminals: two answers for one terminal come on the same connection, and two answers on
/// one connection are for the same terminal, unless the connection of the first one ended in
/// between.
pub fn one_connection()
    ensures of_terminal { (time_out : ℕ) (peers : peers_of.TerminalPeers) (before : List Event)
        (first : Event) (between : List Event) (second : Event) (terminal place later_place : ℕ)
        → TwoAnswers time_out peers before first between second terminal place terminal later_place
        → place ≡ later_place }
    ensures of_place { (time_out : ℕ) (peers : peers_of.TerminalPeers) (before : List Event)
        (first : Event) (between : List Event) (second : Event) (terminal place later_terminal : ℕ)
        → TwoAnswers time_out peers before first between second terminal place later_terminal place
        → terminal ≡ later_terminal }
{}

/// After something arrived on a connection that was not heard, while no terminal owned it, no
/// answer is heard on it until it ends.
pub fn out_of_turn()
    ensures { (time_out : ℕ) (peers : peers_of.TerminalPeers) (before : List Event) (first : Event)
        (between : List Event) (second : Event) (place : ℕ)
        → AnswersAfterwards time_out peers before first between second place → ⊥ }
{}

/// The first reason for which a line is not trusted stays for ever. As long as there is none, a
/// line is trusted exactly if whatever arrived was admitted, each answer whose time counts took no
/// longer than the time-out, and each reply to an answer was sent no later than that. What is sent
/// after a time-out in silence replies to no answer.
pub fn trust()
    ensures lasts { (t : TrustValue) (events : List Event) (first : DistrustValue)
        → t.distrust ≡ Some first → (after_all t events).distrust ≡ Some first }
    ensures means { (t : TrustValue) (events : List Event) → t.distrust ≡ None
        → (((after_all t events).distrust ≡ None) ↔ AreFine t events) }
{}
