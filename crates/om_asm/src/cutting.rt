// Pieces of a text.
ghost use Rattle.std.specs.Prelude.{◌≡◌, ◌==◌, position, Some, None, MatchOption};
ghost use Rattle.om_asm.specs.Reading.{cut_at, behind as behind_by};

// The place of the first such byte.
fn place(text: &[u8], c: u8) -> Option<usize>
    ensures { result ≡ position (λ x. x == c) text.now }
{
    text.iter().position(|x| *x == c)
}

/// The bytes before the first such byte, and those behind it.
#[tactic(auto, unfolding(crate::specs::Reading::cut_at))]
pub(crate) fn cut(text: &[u8], c: u8) -> Option<(&[u8], &[u8])>
    ensures { MatchOption result (cut_at c text.now ≡ None) (λ p. cut_at c text.now ≡ Some (p.0.now, p.1.now)) }
{
    let at = place(text, c)?;
    Some((&text[..at], &text[at + 1..]))
}

/// What stands behind such a byte that a text begins with.
pub(crate) fn behind(text: &[u8], c: u8) -> Option<&[u8]>
    ensures { MatchOption result (behind_by c text.now ≡ None) (λ rest. behind_by c text.now ≡ Some rest.now) }
{
    let (first, rest) = text.split_first()?;
    if *first == c { Some(rest) } else { None }
}
