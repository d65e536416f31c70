// Numbers under a scale.
ghost use Rattle.std.specs.Prelude.{◌≡◌, ◌≤◌, ◌^◌, ◌*ℤ◌, unsigned_abs, Some, None, if◌then◌else◌};
ghost use Rattle.cite_schema.specs.Values.{is_number};
ghost use Rattle.migration.specs.Rows.{image};

// The product of two numbers, which has at most 126 bits.
fn product(by: i64, number: i64) -> i128
    ensures value { result ≡ by *ℤ number }
    ensures small { unsigned_abs result ≤ 2 ^ 126 }
{
    by as i128 * number as i128
}

/// The number times `by`, plus `plus`. It fits the wider type, whatever the numbers.
pub fn image(by: i64, plus: i64, number: i64) -> i128
    ensures { result ≡ image by plus number }
{
    product(by, number) + plus as i128
}

/// The image as a number, where it is in the range from −2^63 to 2^63 − 1.
pub fn scaled(by: i64, plus: i64, number: i64) -> Option<i64>
    ensures { result ≡ (if is_number (image by plus number) then Some (image by plus number) else None) }
{
    let image = image(by, plus, number);
    if image < i64::MIN as i128 || image > i64::MAX as i128 {
        return None;
    }
    Some(image as i64)
}
