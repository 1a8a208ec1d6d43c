//! Tokens of a line.

ghost use Rattle.std.specs.Prelude.{◌≡◌, ◌++◌, ◌∷◌, ◌≤◌, ℕ, List, length, MatchOption};
ghost use Rattle.std.specs.List.{position};
ghost use Rattle.iot_bytes.specs.Tokens.{IsToken, NoSpace, is_space, token_at};

const SPACE: u8 = b' ';

/// The bounds of the token that begins at `at`: where it begins, and where it has ended.
///
/// It ends before the next space or at the line's end, and is empty where a space stands at `at`.
/// None exactly at the line's end. It takes no memory.
pub fn next_token(line: &[u8], at: usize) -> Option<(usize, usize)>
    requires { at ≤ length line.now }
    ensures { MatchOption result (at ≡ length line.now)
        (λ bounds. IsToken line.now at bounds.0 bounds.1) }
{
    let rest = &line[at..];
    if rest.is_empty() {
        return None;
    }
    let len = first_space(rest).unwrap_or(rest.len());
    Some((at, at + len))
}

fn first_space(rest: &[u8]) -> Option<usize>
    ensures { result ≡ position is_space rest.now }
{
    rest.iter().position(|octet| *octet == SPACE)
}

/// The law that a token stands where it was put: between what is before it and a space, or the
/// line's end.
pub fn token_stands()
    ensures { (front token rest : List ℕ) → NoSpace token
        → (token_at (front ++ (token ++ 32 ∷ rest)) (length front) ≡ token)
        × (token_at (front ++ token) (length front) ≡ token) }
{}
