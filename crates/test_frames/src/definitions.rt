//! Examples of values for which definitions of damage on the line hold, and of others for which
//! they do not. Each is the contract of a function that does nothing, and is proved.

ghost use Rattle.std.specs.Prelude.{◌≡◌, [], ◌∷◌, ℕ};
ghost use Rattle.bsc_frame.specs.TurnedBits.{turned, with_ends_turned, two_chars, IsBodyOctet};
ghost use Rattle.bsc_frame.specs.TurnedBits.{IsFillIn, IsOtherOctet};
ghost use Rattle.bsc_frame.specs.declared.message.Message.TheVariants as m;

// The lowest bit of SYN is 0 and becomes 1; so does its highest bit.
fn a_turned_bit_becomes_the_other()
    ensures lowest { turned 0 0x16 ≡ 0x17 }
    ensures back { turned 0 0x17 ≡ 0x16 }
    ensures highest { turned 7 0x16 ≡ 0x96 }
{}

// The lowest and the highest bit of one octet are inverted, and its neighbours do not change.
fn both_ends_of_one_octet_are_turned()
    ensures { with_ends_turned 1 (0x16 ∷ 0x16 ∷ 0x04 ∷ []) ≡ 0x16 ∷ 0x97 ∷ 0x04 ∷ [] }
{}

// PAD may be in the body of a call, but not in that of a text.
fn pad_stands_only_in_calls()
    ensures call { IsBodyOctet (m.Call (0x41 ∷ [])) 0xff }
    ensures text { IsBodyOctet (two_chars 0x48 0x49) 0xff → ⊥ }
{}

// In a call, PAD is fill at the place of its second SYN, but not at that of its address.
fn pad_is_fill_only_before_the_address()
    ensures fill { IsFillIn (m.Call (0x41 ∷ [])) 4 0xff }
    ensures address { IsFillIn (m.Call (0x41 ∷ [])) 5 0xff → ⊥ }
{}

// SYN does not count as another octet in a text, since it is dropped there as fill.
fn syn_is_no_other_octet()
    ensures { (old : ℕ) → IsOtherOctet old 0x16 → ⊥ }
{}

// The contracts are proved when this test is checked; there is nothing to run.
#[test]
fn damage_is_what_the_definitions_say() {
    a_turned_bit_becomes_the_other();
    both_ends_of_one_octet_are_turned();
    pad_stands_only_in_calls();
    pad_is_fill_only_before_the_address();
    syn_is_no_other_octet();
}
