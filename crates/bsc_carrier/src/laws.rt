//! What holds of every stream, stated over the definitions that the contracts cite.

ghost use Rattle.std.specs.Prelude.{◌≡◌, ℕ, [], ◌++◌, List, Err};
ghost use Rattle.std.specs.List.{concat};
ghost use Rattle.bsc_carrier.specs.Front.{IsPartial, HasWrongLength};
ghost use Rattle.bsc_carrier.specs.Assembler.{AssemblerValue, Fed};
ghost use Rattle.bsc_carrier.specs.Stream.{Splits, Assembles};

use crate::error::CarrierError;

/// However a stream is divided into pieces, an assembler that is fed them completes the records of
/// the stream, all of them and in order, and holds what follows them. `Length` is returned only if
/// a wrong length stands in the place of a record.
pub fn any_pieces()
    ensures records { (old new : AssemblerValue) (pieces records : List (List ℕ))
        → old.begun ≡ [] → Assembles old pieces records new
        → Splits (concat pieces) records new.begun × IsPartial new.begun }

    // If `feed` returns `Length`, the stream so far has a wrong length after its records.
    ensures wrong { (old mid new : AssemblerValue) (pieces records : List (List ℕ)) (piece : List ℕ)
        → old.begun ≡ [] → Assembles old pieces records mid
        → Fed mid piece (Err CarrierError.Length) new
        → Splits (concat pieces ++ piece) records (mid.begun ++ piece)
        × HasWrongLength (mid.begun ++ piece) }

    // Every stream is a list of records and a rest, in exactly one way.
    ensures one { (stream : List ℕ)
        → (records : List (List ℕ)) × (rest : List ℕ) × Splits stream records rest }
    ensures no_others { (stream : List ℕ) (records others : List (List ℕ)) (rest other : List ℕ)
        → Splits stream records rest → Splits stream others other
        → (records ≡ others) × (rest ≡ other) }
{}
