// Bytes and numbers as lower-case hexadecimal digits: two digits a byte, big-endian.
ghost use Rattle.std.specs.Prelude.{◌≡◌, true, ◌+◌, ◌*◌, ◌^◌, ◌≤◌, ◌<◌, length, get_or, unwrap_or, IfSome};
ghost use Rattle.model.specs.Frame.{digit, bytes};
ghost use Rattle.model.specs.ReadFrame.{value_of, is_digit, field};
ghost use Rattle.frame_text.specs.Digits.{spelled, is_hex, pairs};

// Writes the last `w` bytes of a number, as the bytes from `a` on.
pub fn put_number(line: &mut [u8], a: usize, value: u64, w: usize)
    requires { 2 * (a + w) ≤ length line.old }
    ensures { line.new ≡ spelled line.old a w (bytes w value) }
{
    let mut rest = value;
    for k in (0..w).rev() {
        let b = rest % 256;
        line[2 * (a + k) + 1] = digit_of(b % 16);
        line[2 * (a + k)] = digit_of(b / 16);
        rest /= 256;
    }
}

fn digit_of(d: u64) -> u8
    requires { d < 16 }
    ensures { result ≡ digit d }
{
    if d < 10 {
        return (48 + d) as u8;
    }
    (87 + d) as u8
}

// Whether the line has two digits a byte, and no other byte.
pub fn is_hex(line: &[u8]) -> bool
    ensures { result ≡ is_hex line.now }
{
    let mut rest = line;
    while let [high, low, behind @ ..] = rest {
        if !is_digit(*high) || !is_digit(*low) {
            return false;
        }
        rest = behind;
    }
    rest.is_empty()
}

fn is_digit(b: u8) -> bool
    ensures { result ≡ is_digit b }
{
    value_of(b).is_some()
}

// The number that `w` bytes from `a` on spell.
pub fn number(line: &[u8], a: usize, w: usize) -> u64
    requires digits { is_hex line.now ≡ true }
    requires within { 2 * (a + w) ≤ length line.now }
    requires narrow { w ≤ 8 }
    ensures { (result ≡ field a w (pairs line.now)) × (result < 256 ^ w) }
{
    let mut n = 0;
    for k in 0..w {
        let p = 2 * (a + k);
        n = n * 256 + (digit_at(line, p) * 16 + digit_at(line, p + 1));
    }
    n
}

// The value of digit `p` of a line of digits.
fn digit_at(line: &[u8], p: usize) -> u64
    requires digits { is_hex line.now ≡ true }
    requires within { p < length line.now }
    ensures { result ≡ value_of (get_or line.now p 0) }
{
    value_of(line[p]).unwrap()
}

// The value of a digit, and none of any other byte.
pub fn value_of(b: u8) -> Option<u64>
    ensures value { unwrap_or result 16 ≡ value_of b }
    ensures below { IfSome result (λ d. d < 16) }
{
    match b {
        b'0'..=b'9' => Some((b - b'0') as u64),
        b'a'..=b'f' => Some((b - b'a') as u64 + 10),
        _ => None,
    }
}
