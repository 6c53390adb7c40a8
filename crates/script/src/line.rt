// Lines of an input.
ghost use Rattle.std.specs.Prelude.{◌≡◌, ◌<◌, ◌==◌, [], ◌∷◌, length, option_map, position, MatchOption, IfSome};
ghost use Rattle.script.specs.Lines.{first_line, lines};
ghost use Rattle.script.specs.Laws.{LineLaws};

// Where the first line of an input ends, if a byte 10 ends it.
fn line_end(text: &[u8]) -> Option<usize>
    ensures { result ≡ position (λ b. b == 10) text.now }
{
    text.iter().position(|byte| *byte == b'\n')
}

/// The first line of an input, without the byte 10 that ends it, and what comes after it; none where the input is empty.
#[tactic(auto, using(crate::proofs::Lawful::line_laws))]
pub fn first_line(text: &[u8]) -> Option<(&[u8], &[u8])>
    ensures cut { option_map (λ r. (r.0.now, r.1.now)) result ≡ first_line text.now }
    ensures lines { MatchOption result (lines text.now ≡ []) (λ r. lines text.now ≡ r.0.now ∷ lines r.1.now) }
    ensures laws { LineLaws }
    ensures shorter { IfSome result (λ r. length r.1.now < length text.now) }
{
    if text.is_empty() {
        return None;
    }
    match line_end(text) {
        Some(at) => Some((&text[..at], &text[at + 1..])),
        None => Some((text, &[])),
    }
}
