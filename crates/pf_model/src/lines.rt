//! The lines of a text.

ghost use Rattle.std.specs.Prelude.{◌≡◌, ◌<◌, ◌∷◌, [], length, IfSome, MatchOption, nat_eq, position};
ghost use Rattle.pf_model.specs.Exposition.{file_lines};
ghost use Rattle.pf_model.specs.LineEnds.{without_return};

fn first_line_feed(bytes: &[u8]) -> Option<usize>
    ensures place { result ≡ position (λ b. nat_eq b 10) bytes.now }
    ensures within { IfSome result (λ n. n < length bytes.now) }
{
    bytes.iter().position(|byte| *byte == b'\n')
}

/// The line without one carriage return at its end.
#[tactic(auto, using(crate::proofs::FirstLines::return_rules))]
fn without_return(line: &[u8]) -> &[u8]
    ensures { result.now ≡ without_return line.now }
{
    let Some((last, front)) = line.split_last() else {
        return line
    };
    if *last == b'\r' { front } else { line }
}

/// The first line of a text without its end, and what follows it. None for a text without a line. A line ends at a line
/// feed, and one carriage return before it is no part of the line; a last line without a line feed is taken whole.
#[tactic(auto, using(crate::proofs::FirstLines::last_line))]
pub fn next_line(bytes: &[u8]) -> Option<(&[u8], &[u8])>
    ensures lines { MatchOption result (file_lines bytes.now ≡ []) (λ c. file_lines bytes.now ≡ c.0.now ∷ file_lines c.1.now) }
    ensures shorter { IfSome result (λ c. length c.1.now < length bytes.now) }
{
    if bytes.is_empty() {
        return None;
    }
    let Some(end) = first_line_feed(bytes) else {
        return Some((bytes, &[]))
    };
    Some((without_return(&bytes[..end]), &bytes[end + 1..]))
}
