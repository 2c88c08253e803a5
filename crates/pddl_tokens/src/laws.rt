//! What the definition of the tokens means, stated without a walk over the bytes.
//!
//! Each function does nothing: its contract is the law.

ghost use Rattle.std.specs.Prelude.{◌≡◌, List};
ghost use Rattle.pddl_tokens.specs.Tokens.{Piece, pieces};
ghost use Rattle.pddl_tokens.specs.Cut.{IsCutInto};

/// A text is cut into gaps and tokens. Before the first token, between two tokens and after the last there are only blanks and comments. A
/// token's text is the slice of the source at its span; spans are in order and do not overlap; a word is a longest run of bytes of words; and
/// neither a token nor the first bad byte is in a comment.
#[tactic(auto, using(crate::proofs::CutLaws::cut_into_pieces))]
pub fn text_is_cut(text: &[u8])
    ensures { IsCutInto text.now 0 (pieces text.now) }
{}

/// There is only one way to cut a text as `text_is_cut` says: any such gaps and tokens are those of the text.
#[tactic(auto, using(crate::proofs::OnlyCut::only_pieces))]
pub fn text_is_cut_in_one_way(text: &[u8])
    ensures { (cut : List Piece) → IsCutInto text.now 0 cut → cut ≡ pieces text.now }
{}
