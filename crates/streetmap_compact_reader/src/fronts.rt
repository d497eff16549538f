//! What a text begins with.
ghost use Rattle.std.specs.Prelude.{◌≡◌, ◌++◌, ◌∷◌, ◌<◌, IfSome};

/// What follows a literal.
#[inline]
pub(crate) fn after<'a>(rest: &'a str, literal: &str) -> Option<&'a str>
    ensures { IfSome result (λ r. rest.now ≡ literal.now ++ r.now) }
{
    rest.strip_prefix(literal)
}

/// The first byte, if it is ASCII, and what follows it.
#[inline]
pub(crate) fn first_byte(rest: &str) -> Option<(u8, &str)>
    ensures text { IfSome result (λ r. rest.now ≡ r.0 ∷ r.1.now) }
    ensures ascii { IfSome result (λ r. r.0 < 128) }
{
    let bytes = rest.as_bytes();
    if bytes.is_empty() || bytes[0] >= 128 {
        return None;
    }
    Some((bytes[0], &rest[1..]))
}

/// What follows an ASCII byte.
#[inline]
pub(crate) fn after_byte(rest: &str, byte: u8) -> Option<&str>
    ensures { IfSome result (λ r. rest.now ≡ byte ∷ r.now) }
{
    let (first, rest) = first_byte(rest)?;
    if first == byte { Some(rest) } else { None }
}
