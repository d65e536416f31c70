// Stamps as texts.
ghost use Rattle.std.specs.Prelude.{◌≡◌, ◌/◌, ◌%◌, pos, string_bytes, IfOk};
ghost use Rattle.jiff.specs.Words.{date_text, iso_datetime_text, epoch_day, IsHms};
ghost use Rattle.datacite_meta.specs.Stamps.{IsStamp, stamp_text, year_of};

use cite_schema::{ByteText, NoMemory};
use jiff::civil::{Date, DateTime, Time};
use jiff_core::civil;
use std::alloc::{AllocError, Global};

// The civil date on which a stamp falls.
fn date_of(stamp: u64) -> Date
    requires { IsStamp stamp }
    ensures { epoch_day result ≡ pos (stamp / 86400) }
{
    let day = (stamp / 86_400) as i64;
    let Ok(plain) = civil::Date::from_unix_epoch_day(day) else {
        unreachable!()
    };
    Date::from_plain(plain)
}

// The time of day of a stamp.
fn time_of(stamp: u64) -> Time
    ensures { IsHms (pos (stamp % 86400 / 3600)) (pos (stamp % 3600 / 60)) (pos (stamp % 60)) (pos 0) result }
{
    let hour = (stamp % 86_400 / 3_600) as i8;
    let minute = (stamp % 3_600 / 60) as i8;
    let second = (stamp % 60) as i8;
    let Ok(time) = Time::new(hour, minute, second, 0) else {
        unreachable!()
    };
    time
}

fn moment_text(alloc: Global, moment: DateTime) -> Result<String, AllocError>
    ensures { IfOk result (λ text. string_bytes text ≡ iso_datetime_text moment) }
{
    moment.to_string(alloc)
}

/// The text of a stamp in UTC, as `2024-01-01T00:00:00Z` (RFC 3339), always of 20 bytes.
pub fn stamp_text(alloc: Global, stamp: u64) -> Result<ByteText, NoMemory>
    requires { IsStamp stamp }
    ensures { IfOk result (λ text. text ≡ stamp_text stamp) }
{
    let text = stamp_string(alloc, stamp)?;
    Ok(ByteText::from_vec(text.into_bytes()))
}

/// The text of a stamp as a string.
pub(crate) fn stamp_string(alloc: Global, stamp: u64) -> Result<String, AllocError>
    requires { IsStamp stamp }
    ensures { IfOk result (λ text. string_bytes text ≡ stamp_text stamp) }
{
    let mut text = moment_text(alloc, DateTime::from_parts(date_of(stamp), time_of(stamp)))?;
    text.push_str("Z")?;
    Ok(text)
}

/// The year of a stamp in UTC, from 1970 to 9999. It takes no memory.
pub fn year_of(stamp: u64) -> u16
    requires { IsStamp stamp }
    ensures { result ≡ year_of stamp }
{
    let year = date_of(stamp).year();
    year as u16
}
