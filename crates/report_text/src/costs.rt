//! The text of costs.
//!
//! A cost is a number of billionths, and is printed as a decimal: `12`, `0.5`, `3.25`.
ghost use Rattle.std.specs.Prelude.{◌≡◌, ◌++◌, ◌^◌, ◌<◌, OnOk};
ghost use Rattle.report_text.specs.CostText.{last_digits, without_end_zeros, billionths_text, cost_text};

use crate::text::Text;
use plan_cost::Cost;
use std::alloc::AllocError;

/// How many billionths are one.
const ONE: u128 = 1_000_000_000;

/// Adds a cost, with a word in front; one that is not counted adds nothing.
pub fn push_cost(text: &mut Text, cost: Cost) -> Result<(), AllocError>
    ensures { OnOk result (text.new ≡ text.old ++ cost_text cost) }
{
    match cost {
        Cost::NotCounted => Ok(()),
        Cost::Undefined => text.push(b" cost -"),
        Cost::Billionths(billionths) => {
            text.push(b" cost ")?;
            push_billionths(text, billionths)
        }
    }
}

/// Adds a number of billionths as a decimal.
pub(crate) fn push_billionths(text: &mut Text, billionths: u128) -> Result<(), AllocError>
    ensures { OnOk result (text.new ≡ text.old ++ billionths_text billionths) }
{
    text.push_wide_number(billionths / ONE)?;
    let fraction = (billionths % ONE) as u32;
    if fraction == 0 {
        return Ok(());
    }
    text.push(b".")?;
    push_digits(text, fraction)
}

/// Adds the last nine digits of a number without the zeros at their end.
fn push_digits(text: &mut Text, number: u32) -> Result<(), AllocError>
    requires { number < 10 ^ 9 }
    ensures { OnOk result (text.new ≡ text.old ++ without_end_zeros (last_digits 9 number)) }
{
    let mut left = number;
    let mut indexes = 9;
    while left > 0 {
        indexes -= 1;
        let unit = 10u32.pow(indexes);
        text.push(&[b'0' + (left / unit) as u8])?;
        left %= unit;
    }
    Ok(())
}
