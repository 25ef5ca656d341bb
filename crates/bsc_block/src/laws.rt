//! Laws over the definitions, each the contract of a function that does nothing, for the layers
//! above: what is sent is read back, how the waiting records are divided into blocks, and what
//! stays when records are forgotten.
ghost use Rattle.std.specs.Prelude.{◌≡◌, ◌≢◌, ◌≤◌, ℕ, List, [], ◌∷◌};
ghost use Rattle.std.specs.Prelude.{length, map, take, drop};
ghost use Rattle.bsc_block.specs.Format.{FormatValue, IsFormat};
ghost use Rattle.bsc_block.specs.Records.{forgotten};
ghost use Rattle.bsc_block.specs.Blocks.{unit_of, records_in, taken, blocks, AreShort, IsTaken};

/// The units that are built for records hold these records, whatever the full length.
pub fn records_back()
    ensures { (full : ℕ) (rs : List (List ℕ)) → 1 ≤ full → records_in (map (unit_of full) rs) ≡ rs }
{}

/// How waiting records are divided into blocks. The next block takes as many as fit, which is at
/// least one if any waits. The other blocks are those of the remaining records, none of which is
/// longer than the full length either.
pub fn cut_into_blocks()
    ensures taken { (f : FormatValue) (rs : List (List ℕ)) → IsTaken f rs (taken f rs) }
    ensures some { (f : FormatValue) (rs : List (List ℕ)) → IsFormat f → AreShort f.full rs
        → rs ≢ [] → 1 ≤ taken f rs }
    ensures none { (f : FormatValue) → blocks f [] ≡ [] }
    ensures next { (f : FormatValue) (rs : List (List ℕ)) → IsFormat f → AreShort f.full rs
        → rs ≢ [] → blocks f rs ≡ take (taken f rs) rs ∷ blocks f (drop (taken f rs) rs) }
    ensures rest { (full k : ℕ) (rs : List (List ℕ)) → AreShort full rs
        → AreShort full (drop k rs) }
{}

/// What stays when the first records of a list are forgotten: how many there are, the records from
/// there on, and that none is longer than the full length.
pub fn forgotten_records()
    ensures count { (n : ℕ) (rs : List (List ℕ)) → n ≤ length rs
        → length (forgotten n rs) ≡ length rs }
    ensures rest { (n k : ℕ) (rs : List (List ℕ)) → n ≤ k → k ≤ length rs
        → drop k (forgotten n rs) ≡ drop k rs }
    ensures short { (full n : ℕ) (rs : List (List ℕ)) → AreShort full rs
        → AreShort full (forgotten n rs) }
{}
