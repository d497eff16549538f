//! Numbers, read at the front of the rest of a text.
ghost use Rattle.std.specs.Prelude.{◌≡◌, ◌<◌, ◌≤◌, ◌≤ℤ◌, pos, IfSome, option_copied};
ghost use Rattle.streetmap_grid.specs.Range.{IsBound};
ghost use Rattle.streetmap_query.specs.Number.{read_view, digit_at, whole_at, zeros_from};
ghost use Rattle.streetmap_query.specs.Number.{fraction_at, unsigned_at, bound_at, comma_at, reach};

// A digit.
#[tactic(auto, unfolding(crate::specs::Number::digit_at))]
fn digit(text: &[u8]) -> Option<(u64, &[u8])>
    ensures value { read_view result ≡ digit_at text.now }
    ensures bound { IfSome result (λ x. x.0 < 10) }
{
    let (&first, rest) = text.split_first()?;
    if first.is_ascii_digit() {
        Some(((first - b'0') as u64, rest))
    } else {
        None
    }
}

// The longest run of digits, one to nineteen of them.
#[tactic(auto, unfolding(crate::specs::Number::whole_at))]
fn whole(text: &[u8]) -> Option<(u64, &[u8])>
    ensures { read_view result ≡ whole_at text.now }
{
    let (mut number, mut rest) = digit(text)?;
    let mut places = 1u32;
    while let Some((next, following)) = digit(rest) {
        if places == 19 {
            return None;
        }
        number = 10 * number + next;
        places += 1;
        rest = following;
    }
    Some((number, rest))
}

// What follows the zeros.
#[tactic(auto, unfolding(crate::specs::Number::zeros_from))]
fn after_zeros(text: &[u8]) -> &[u8]
    ensures { result.now ≡ zeros_from text.now }
{
    let mut rest = text;
    while let Some((&first, following)) = rest.split_first() {
        if first != b'0' {
            return rest;
        }
        rest = following;
    }
    rest
}

// What follows a point and one or more zeros, or the whole text if no point comes first.
#[tactic(auto, unfolding(crate::specs::Number::fraction_at))]
fn fraction(text: &[u8]) -> Option<&[u8]>
    ensures { option_copied result ≡ fraction_at text.now }
{
    match text.split_first() {
        Some((&b'.', rest)) => match rest.split_first() {
            Some((&b'0', rest)) => Some(after_zeros(rest)),
            _ => None,
        },
        _ => Some(text),
    }
}

// A number without a sign, up to the farthest bound of a box.
#[tactic(auto, unfolding(crate::specs::Number::unsigned_at))]
fn unsigned(text: &[u8]) -> Option<(i64, &[u8])>
    ensures value { read_view result ≡ unsigned_at text.now }
    ensures from { IfSome result (λ x. pos 0 ≤ℤ x.0) }
    ensures to { IfSome result (λ x. x.0 ≤ℤ pos reach) }
{
    let (number, rest) = whole(text)?;
    let rest = fraction(rest)?;
    if number <= 2_000_000_000 {
        Some((number as i64, rest))
    } else {
        None
    }
}

/// The bound of a box at the front of the text, in millimetres, and what follows it.
#[tactic(auto, unfolding(crate::specs::Number::bound_at))]
pub(crate) fn bound(text: &[u8]) -> Option<(i64, &[u8])>
    ensures value { read_view result ≡ bound_at text.now }
    ensures within { IfSome result (λ x. IsBound x.0) }
{
    let (&first, following) = text.split_first()?;
    if first == b'-' {
        let (number, rest) = unsigned(following)?;
        Some((-number, rest))
    } else {
        unsigned(text)
    }
}

/// What follows a comma.
#[tactic(auto, unfolding(crate::specs::Number::comma_at))]
pub(crate) fn after_comma(text: &[u8]) -> Option<&[u8]>
    ensures { option_copied result ≡ comma_at text.now }
{
    match text.split_first() {
        Some((&b',', rest)) => Some(rest),
        _ => None,
    }
}
