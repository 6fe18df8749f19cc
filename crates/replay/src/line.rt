// A line: its letter, and the fields behind it, which are counted from 0. One blank stands between two fields.
ghost use Rattle.std.specs.Prelude.{◌≤◌, ◌<◌, ◌^◌, IfSome};

#[derive(Clone, Copy)]
pub struct Line<'a> {
    pub bytes: &'a [u8],
}

// The value of a hexadecimal digit.
fn digit(c: u8) -> Option<u64>
    ensures { IfSome result (λ d. d < 16) }
{
    match c {
        b'0'..=b'9' => Some(u64::from(c - b'0')),
        b'a'..=b'f' => Some(u64::from(c - b'a') + 10),
        _ => None,
    }
}

// A digit more, up to 2^40.
fn appended(size: u64, base: u64, d: u64) -> u64
    requires { (size < 2 ^ 45) × (base ≤ 16) × (d < 16) }
    ensures { result < 2 ^ 45 }
{
    if size < 1 << 40 {
        size * base + d
    } else {
        size
    }
}

// The number that the digits in a base make with which a text begins. No `parse`: the bytes need not be text, and what is too large is no error.
fn digits(text: &[u8], base: u64) -> u64
    requires { base ≤ 16 }
    ensures { result < 2 ^ 45 }
{
    let mut size = 0;
    for c in text {
        match digit(*c) {
            Some(d) if d < base => size = appended(size, base, d),
            _ => break,
        }
    }
    size
}

// The float whose bits are the hexadecimal digits with which a text begins.
fn float_of(text: &[u8]) -> f32 {
    // The casts of this file are proved to fit; `try_from` would have an arm that never runs.
    levels::bits::from_bits((digits(text, 16) % (1 << 32)) as u32)
}

impl<'a> Line<'a> {
    // The first byte; 0 where there is none.
    pub fn letter(self) -> u8 {
        self.bytes.first().copied().unwrap_or(0)
    }

    // Whether there are no fields.
    pub fn is_alone(self) -> bool {
        self.bytes.len() < 2
    }

    // All from a field on: behind one blank more than its number. Nothing where there is no such field.
    fn from(self, field: usize) -> &'a [u8] {
        let blanks = field.saturating_add(1);
        self.bytes
            .splitn(blanks.saturating_add(1), |c| *c == b' ')
            .nth(blanks)
            .unwrap_or(&[])
    }

    // A decimal field without a sign.
    pub fn natural(self, field: usize) -> usize
        ensures { result < 2 ^ 45 }
    {
        digits(self.from(field), 10) as usize
    }

    // A decimal field with its sign, held to the range of an i32.
    pub fn number(self, field: usize) -> i32 {
        let size = match self.from(field) {
            [b'-', size @ ..] => -(digits(size, 10) as i64),
            size => digits(size, 10) as i64,
        };
        size.clamp(i64::from(i32::MIN), i64::from(i32::MAX)) as i32
    }

    // A float, as eight hexadecimal digits.
    pub fn float(self, field: usize) -> f32 {
        float_of(self.from(field))
    }

    // Whether a field begins with a dash.
    pub fn is_dash(self, field: usize) -> bool {
        self.from(field).first() == Some(&b'-')
    }

    // The floats of the last field, each as eight hexadecimal digits with no gap, as far as there is room.
    pub fn floats<'b>(self, field: usize, space: &'b mut [f32]) -> &'b [f32] {
        let digits = self.from(field).chunks_exact(8);
        let count = space.len().min(digits.len());
        for (x, bits) in space.iter_mut().zip(digits) {
            *x = float_of(bits);
        }
        &space[..count]
    }
}
