//! Stretches of places in one direction: divided, cut into strips, and as a band has them (T.800 B.5 to B.7).
ghost use Rattle.std.specs.Prelude.{◌≡◌, ◌≤◌, ◌<◌, ◌+◌, ◌-◌, ◌*◌, ◌/◌, ◌^◌};
ghost use Rattle.codestream_model.specs.Areas as areas;
ghost use Rattle.codestream_model.specs.Precincts as precincts;
ghost use Rattle.precinct_geometry.specs.Spans.{span_of};

/// Places from one up to another, which isn't one of them.
#[derive(Clone, Copy, Debug, Default, PartialEq, Eq)]
pub struct Span {
    pub from: u64,
    pub to: u64,
}

/// A power of two.
pub fn power(e: u8) -> u64
    requires { e ≤ 16 }
    ensures value { result ≡ 2 ^ e }
    ensures some { 1 ≤ result }
    ensures most { result ≤ 2 ^ 16 }
{
    1 << e
}

/// A quotient, rounded up.
pub fn ceil_div(a: u64, b: u64) -> u64
    requires some { 1 ≤ b }
    requires a { a < 2 ^ 62 }
    requires b { b < 2 ^ 62 }
    ensures value { result ≡ areas.ceil_div a b }
    ensures less { result ≤ a }
{
    a.div_ceil(b)
}

/// A number divided by 2^e.
pub fn over_power(a: u64, e: u8) -> u64
    requires { e ≤ 16 }
    ensures value { result ≡ a / 2 ^ e }
    ensures less { result ≤ a }
{
    a >> e
}

/// A number divided by 2^e, rounded up.
pub fn ceil_over_power(a: u64, e: u8) -> u64
    requires e { e ≤ 16 }
    requires a { a < 2 ^ 62 }
    ensures value { result ≡ areas.ceil_div a (2 ^ e) }
    ensures less { result ≤ a }
{
    (a + (power(e) - 1)) >> e
}

/// A stretch after keeping every 2^e-th place.
pub fn divided_by_power(e: u8, s: Span) -> Span
    requires e { e ≤ 16 }
    requires from { s.from < 2 ^ 62 }
    requires to { s.to < 2 ^ 62 }
    ensures span { span_of result ≡ areas.divided (2 ^ e) (span_of s) }
    ensures from_less { result.from ≤ s.from }
    ensures to_less { result.to ≤ s.to }
{
    Span {
        from: ceil_over_power(s.from, e),
        to: ceil_over_power(s.to, e),
    }
}

/// A stretch after keeping every `by`-th place.
pub fn divided(by: u64, s: Span) -> Span
    requires some { 1 ≤ by }
    requires by { by < 2 ^ 62 }
    requires from { s.from < 2 ^ 62 }
    requires to { s.to < 2 ^ 62 }
    ensures span { span_of result ≡ areas.divided by (span_of s) }
    ensures from_less { result.from ≤ s.from }
    ensures to_less { result.to ≤ s.to }
{
    Span {
        from: ceil_div(s.from, by),
        to: ceil_div(s.to, by),
    }
}

/// A stretch in a band of a decomposition level, of the odd places where `odd` is 1.
pub fn band_span(level: u8, odd: u8, s: Span) -> Span
    requires level { level ≤ 16 }
    requires odd { odd ≤ 1 }
    requires from { s.from < 2 ^ 62 }
    requires to { s.to < 2 ^ 62 }
    ensures span { span_of result ≡ areas.band_span level odd (span_of s) }
    ensures from_less { result.from ≤ s.from }
    ensures to_less { result.to ≤ s.to }
{
    let half = power(level.saturating_sub(1)) * u64::from(odd);
    Span {
        from: ceil_over_power(s.from.saturating_sub(half), level),
        to: ceil_over_power(s.to.saturating_sub(half), level),
    }
}

/// How many strips of 2^e places a stretch has places in.
pub fn strips(e: u8, s: Span) -> u64
    requires e { e ≤ 15 }
    requires to { s.to < 2 ^ 62 }
    ensures value { result ≡ precincts.strips e (span_of s) }
    ensures less { result ≤ s.to }
{
    if s.to == s.from {
        return 0;
    }
    ceil_over_power(s.to, e).saturating_sub(over_power(s.from, e))
}

/// The part of a stretch that lies in a strip of 2^e places.
pub fn part(strip: u64, e: u8, s: Span) -> Span
    requires strip { strip < 2 ^ 40 }
    requires e { e ≤ 15 }
    ensures span { span_of result ≡ precincts.part strip e (span_of s) }
    ensures to_less { result.to ≤ s.to }
{
    let width = power(e);
    Span {
        from: s.from.max(strip * width),
        to: s.to.min((strip + 1) * width),
    }
}

/// Where a strip of 2^e places of a resolution begins on the reference grid: a place of it is so many steps, for each
/// of the decomposition levels below it twice as many.
pub fn corner(strip: u64, e: u8, step: u8, deeper: u8) -> u64
    requires place { strip * 2 ^ e < 2 ^ 31 }
    requires e { e ≤ 15 }
    requires deeper { deeper ≤ 15 }
    requires strip { strip < 2 ^ 40 }
    ensures value { result ≡ strip * (step * 2 ^ (e + deeper)) }
    ensures few { result < 2 ^ 56 }
{
    let place = strip * power(e);
    let width = u64::from(step) * power(deeper);
    place * width
}
