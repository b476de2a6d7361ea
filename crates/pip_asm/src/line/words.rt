//! The words of a line, parted by single spaces.
ghost use Rattle.std.specs.Prelude.{◌≡◌, ◌≢◌, ◌∷◌, [], length, MatchOption};
ghost use Rattle.pip_model.specs.Grammar.{words_of};
ghost use Rattle.pip_asm.specs.Words.{words_left};

/// The first word of a line, and what follows its space, if it has one.
pub fn cut_word(line: &[u8]) -> (&[u8], Option<&[u8]>)
    ensures { words_of line.now ≡ result.0.now ∷ words_left result.1 }
{
    for i in 0..line.len() {
        if line[i] == b' ' {
            return (&line[..i], Some(&line[i + 1..]));
        }
    }
    (line, None)
}

/// The word after a name, where there is one and no other.
#[tactic(auto, using(crate::proofs::Cutting::has_word))]
pub fn one_word(after: Option<&[u8]>) -> Option<&[u8]>
    ensures { MatchOption result (length (words_left after.entry) ≢ 1)
        (λ a. words_left after.entry ≡ a.now ∷ []) }
{
    let (a, rest) = cut_word(after?);
    match rest {
        None => Some(a),
        Some(_) => None,
    }
}

/// The words after a name, where there are two.
pub fn two_words(after: Option<&[u8]>) -> Option<(&[u8], &[u8])>
    ensures { MatchOption result (length (words_left after.entry) ≢ 2)
        (λ p. words_left after.entry ≡ p.0.now ∷ p.1.now ∷ []) }
{
    let (a, rest) = cut_word(after?);
    let b = one_word(rest)?;
    Some((a, b))
}

/// The words after a name, where there are three.
pub fn three_words(after: Option<&[u8]>) -> Option<(&[u8], &[u8], &[u8])>
    ensures { MatchOption result (length (words_left after.entry) ≢ 3)
        (λ p. words_left after.entry ≡ p.0.now ∷ p.1.now ∷ p.2.now ∷ []) }
{
    let (a, rest) = cut_word(after?);
    let (b, c) = two_words(rest)?;
    Some((a, b, c))
}
