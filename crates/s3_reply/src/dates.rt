//! The texts of moments.

ghost use Rattle.std.specs.Prelude.{◌≡◌, true};
ghost use Rattle.std.specs.List.{list_all};
ghost use Rattle.s3_reply.specs.Dates.{date_at, http_date, timestamp};
ghost use Rattle.s3_reply.specs.Escaping.{is_plain};
ghost use Rattle.s3_reply.specs.Months.{month_digits};

use httpdate::HttpDate;

/// The last second of the year 9999.
const LAST_SECOND: u64 = 253_402_300_799;

/// The text of a moment in a header (RFC 9110, section 5.6.7). A later one than the last second of 9999 is told as that.
pub(crate) fn http_date(second: u64) -> [u8; 29]
    ensures { result ≡ http_date second }
{
    date_of(second).to_bytes()
}

/// The date of a moment.
fn date_of(second: u64) -> HttpDate
    ensures { result.parts ≡ date_at second }
{
    HttpDate::from_unix_secs(second.min(LAST_SECOND)).unwrap()
}

/// The text of a moment in a document (RFC 3339), in the same way.
pub(crate) fn timestamp(second: u64) -> [u8; 24]
    ensures text { result ≡ timestamp second }
    ensures plain { list_all is_plain result ≡ true }
{
    let [
        _,
        _,
        _,
        _,
        _,
        d0,
        d1,
        _,
        _,
        m1,
        m2,
        _,
        y0,
        y1,
        y2,
        y3,
        _,
        h0,
        h1,
        _,
        n0,
        n1,
        _,
        s0,
        s1,
        ..
    ] = date_of(second).to_bytes();
    let [n2, n3] = month_digits(m1, m2);
    [
        y0, y1, y2, y3, b'-', n2, n3, b'-', d0, d1, b'T', h0, h1, b':', n0, n1, b':', s0, s1, b'.',
        b'0', b'0', b'0', b'Z',
    ]
}

/// The two digits of the month whose name in three letters has these second and third ones.
fn month_digits(second: u8, third: u8) -> [u8; 2]
    ensures { result ≡ month_digits second third }
{
    match third {
        b'n' => { if second == b'a' { *b"01" } else { *b"06" } }
        b'b' => *b"02",
        b'r' => { if second == b'a' { *b"03" } else { *b"04" } }
        b'y' => *b"05",
        b'l' => *b"07",
        b'g' => *b"08",
        b'p' => *b"09",
        b't' => *b"10",
        b'v' => *b"11",
        _ => *b"12",
    }
}
