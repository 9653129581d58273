// The digits of a number, six at a time from the last to the first: how many there are costs no branch.
ghost use Rattle.std.specs.Prelude.{◌≡◌, ◌+◌, ◌<◌, ◌≤◌, ◌++◌, length, drop};
ghost use Rattle.std.specs.Fmt.{decimal};
ghost use Rattle.sms_text.specs.SixDigits.{two_digits, six_digits};

static PAIRS: [u8; 200] =
    *b"00010203040506070809101112131415161718192021222324252627282930313233343536373839404142434445464748495051525354555657585960616263646566676869707172737475767778798081828384858687888990919293949596979899";

#[inline(always)]
fn put_two(n: u32, bytes: &mut [u8], at: usize)
    requires { (n < 100) × (at + 2 ≤ length bytes.old) }
    ensures { drop at bytes.new ≡ two_digits n ++ drop (at + 2) bytes.old }
{
    let from = n as usize * 2;
    let (tens, ones) = (PAIRS[from], PAIRS[from + 1]);
    bytes[at] = tens;
    bytes[at + 1] = ones;
}

// With zeros in front.
#[inline(always)]
fn put_six(n: u32, bytes: &mut [u8], at: usize)
    requires { (n < 1000000) × (at + 6 ≤ length bytes.old) }
    ensures { drop at bytes.new ≡ six_digits n ++ drop (at + 6) bytes.old }
{
    let last = n % 10_000;
    put_two(last % 100, bytes, at + 4);
    put_two(last / 100, bytes, at + 2);
    put_two(n / 10_000, bytes, at);
}

// How many digits a number below a million has.
#[inline(always)]
fn digit_count(n: u32) -> usize
    requires { n < 1000000 }
    ensures { result ≡ length (decimal n) }
{
    1 + (n >= 10) as usize
        + (n >= 100) as usize
        + (n >= 1000) as usize
        + (n >= 10_000) as usize
        + (n >= 100_000) as usize
}

// Puts the number so that it ends at `end`, and tells where it begins. Bytes before it may change, too.
#[inline(always)]
pub(crate) fn put_number(n: u64, bytes: &mut [u8], end: usize) -> usize
    requires { (25 ≤ end) × (end ≤ length bytes.old) }
    ensures start { result + length (decimal n) ≡ end }
    ensures written { drop result bytes.new ≡ decimal n ++ drop end bytes.old }
{
    let mut left = n;
    let mut at = end;
    while left >= 1_000_000 {
        at -= 6;
        put_six((left % 1_000_000) as u32, bytes, at);
        left /= 1_000_000;
    }
    put_six(left as u32, bytes, at - 6);
    at - digit_count(left as u32)
}
