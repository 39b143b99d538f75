ghost use Rattle.std.specs.Prelude.{◌≡◌, ◌+◌, ◌^◌, ◌<◌, ◌++◌, ◌∷◌, [], OnOk, OnErr, IfOk, string_bytes};
ghost use Rattle.line_text.specs.Printing.{value_text, decimal_digits, decimals_of};
ghost use Rattle.line_text.specs.Spelling.{point_text};

use fixed_num::Memory;
use std::alloc::{AllocError, Global};

/// Units in one.
const ONE: u128 = 1_000_000;

/// Appends the text of so many units: `-0.5` of -500000, `1.75` of 1750000.
///
/// After [`Memory`], `to` is as before.
pub fn print_value(alloc: Global, units: i128, to: &mut Vec<u8>) -> Result<(), Memory>
    ensures ok { OnOk result (to.new.items ≡ to.old.items ++ value_text units) }
    ensures err { OnErr result (to.new.items ≡ to.old.items) }
{
    let text = text_of_value(alloc, units)?;
    to.extend_from_slice(text.as_bytes())?;
    Ok(())
}

fn text_of_value(alloc: Global, units: i128) -> Result<String, AllocError>
    ensures { IfOk result (λ text. string_bytes text ≡ value_text units) }
{
    let magnitude = units.unsigned_abs();
    let sign = if units < 0 { "-" } else { "" };
    let mut text = format!(in alloc; "{sign}{}", magnitude / ONE)?;
    push_rest(&mut text, (magnitude % ONE) as u32)?;
    Ok(text)
}

/// Appends the point and the decimals of so many millionths, or nothing for none.
fn push_rest(text: &mut String, parts: u32) -> Result<(), AllocError>
    requires { parts < 10 ^ 6 }
    ensures { OnOk result (string_bytes text.new ≡ string_bytes text.old ++ point_text (decimals_of parts)) }
{
    if parts == 0 {
        return Ok(());
    }
    text.push('.')?;
    push_decimals(text, parts)
}

/// Appends the digits of so many millionths, until nothing is left of them.
fn push_decimals(text: &mut String, parts: u32) -> Result<(), AllocError>
    requires { parts < 10 ^ 6 }
    ensures { OnOk result (string_bytes text.new ≡ string_bytes text.old ++ decimal_digits 6 parts) }
{
    let mut left = parts;
    let mut places = 6;
    while left != 0 {
        places -= 1;
        let weight = 10u32.pow(places);
        push_digit(text, (left / weight) as u8)?;
        left %= weight;
    }
    Ok(())
}

fn push_digit(text: &mut String, digit: u8) -> Result<(), AllocError>
    requires { digit < 10 }
    ensures { OnOk result (string_bytes text.new ≡ string_bytes text.old ++ ((48 + digit) ∷ [])) }
{
    text.push(char::from(b'0' + digit))
}

#[cfg(test)]
mod tests {
    use super::*;
    use std::test::Fail;

    const CASES: [(i128, &str); 12] = [
        (0, "0"),
        (-500_000, "-0.5"),
        (1_750_000, "1.75"),
        (10_000_000_000_000, "10000000"),
        (-10_000_000_000_000, "-10000000"),
        (1, "0.000001"),
        (-10, "-0.00001"),
        (1_000_000, "1"),
        (1_000_001, "1.000001"),
        (120_304_050, "120.30405"),
        (i128::MAX, "170141183460469231731687303715884.105727"),
        (i128::MIN, "-170141183460469231731687303715884.105728"),
    ];

    #[test]
    fn prints_each_case(rt: HostRuntime) -> Result<(), Fail> {
        for (units, text) in CASES {
            let mut to = Vec::new(rt.alloc());
            print_value(rt.alloc(), units, &mut to)?;
            assert_eq!(rt; to.as_slice(), text.as_bytes());
        }
        Ok(())
    }

    #[test]
    fn appends(rt: HostRuntime) -> Result<(), Fail> {
        let mut to = Vec::new(rt.alloc());
        print_value(rt.alloc(), 1_500_000, &mut to)?;
        print_value(rt.alloc(), -2, &mut to)?;
        assert_eq!(rt; to.as_slice(), "1.5-0.000002".as_bytes());
        Ok(())
    }
}
