//! What holds of the code. These functions do nothing: their contracts are the laws.
ghost use Rattle.std.specs.Prelude.{◌≡◌, ℕ, List, Some, None};
ghost use Rattle.std.specs.List.{AllByRecursion};
ghost use Rattle.h3_huffman.specs.Huffman.{huffman};
ghost use Rattle.h3_huffman.specs.Payload.{IsByte, IsNoPayload};
ghost use Rattle.h3_huffman.specs.Unhuffman.{unhuffman};

/// No two strings have one Huffman encoding.
#[tactic(auto, using(crate::specs::UnhuffmanLaws::huffman_one))]
pub fn one_string()
    ensures { (s t : List ℕ) → AllByRecursion IsByte s → AllByRecursion IsByte t → huffman s ≡ huffman t → s ≡ t }
{}

/// What a Huffman encoding is decoded to is a value: the string that has this encoding, or none.
pub fn encodings_are_their_value()
    ensures some { (plain : List ℕ) → AllByRecursion IsByte plain → unhuffman (huffman plain) ≡ Some plain }
    ensures only { (payload plain : List ℕ) → unhuffman payload ≡ Some plain → AllByRecursion IsByte plain × (payload ≡ huffman plain) }
    ensures none { (payload : List ℕ) → IsNoPayload payload → unhuffman payload ≡ None }
    ensures refused { (payload : List ℕ) → unhuffman payload ≡ None → IsNoPayload payload }
{}
