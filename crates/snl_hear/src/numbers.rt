//! Numbers of JSON, by their text.
//! In: the text of a number. Out: its value, where it is an integer of 64 bits, and whether it is in
//! range. Knows nothing of what a number is for.

ghost use Rattle.std.specs.Prelude.{◌≡◌, ◌==◌, IfSome, is_some, option_and_then, slice_index};
ghost use Rattle.serde_json.specs.Data.{negative};
ghost use Rattle.serde_json.specs.Find.{as_u64};
ghost use Rattle.serde_json.specs.Read.{number_from, number_of};
ghost use Rattle.snl_hear.specs.Sound.{IsSoundNumber};
ghost use Rattle.snl_hear.specs.Values.{as_negative};

use fast_float::Numeral;

fn has_minus(bytes: &[u8]) -> bool
    ensures { result ≡ (slice_index bytes.now 0 == 45) }
{
    !bytes.is_empty() && bytes[0] == b'-'
}

/// Whether a number has a minus, and what is written after it.
fn parts_of(text: &str) -> (bool, Numeral<'_>)
    ensures { number_of text.now ≡ number_from result.0 result.1 }
{
    let bytes = text.as_bytes();
    if has_minus(bytes) {
        (true, Numeral::scan(&bytes[1..]))
    } else {
        (false, Numeral::scan(bytes))
    }
}

/// An integer from 0 on.
pub fn unsigned_in(text: &str) -> Option<u64>
    ensures { result ≡ option_and_then as_u64 (number_of text.now) }
{
    let (has_minus, numeral) = parts_of(text);
    if has_minus { None } else { numeral.to_u64() }
}

/// An integer below 0.
pub fn negative_in(text: &str) -> Option<i64>
    ensures value { result ≡ option_and_then as_negative (number_of text.now) }
    ensures sound { IfSome result (λ n. IsSoundNumber (negative n)) }
{
    let (has_minus, numeral) = parts_of(text);
    if !has_minus {
        return None;
    }
    let number = numeral.to_i64(true)?;
    if number < 0 { Some(number) } else { None }
}

/// Whether it is an integer of 64 bits, or a float that is finite.
pub fn is_in_range(text: &str) -> bool
    ensures { result ≡ is_some (number_of text.now) }
{
    if unsigned_in(text).is_some() || negative_in(text).is_some() {
        return true;
    }
    let (has_minus, numeral) = parts_of(text);
    numeral.to_float::<f64>(has_minus).is_finite()
}
